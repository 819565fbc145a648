use super::*;

#[test]
fn tells_utilities(rt: HostRuntime) -> Result<(), Fail> {
    let alloc = rt.alloc();
    let cases = [
        (NOBODY, "price,4\n", "end\n"),
        (ONE_BIDDER, "price,4\n", "utility,P,1\nend\n"),
        (BIDDERS, "price,0\n", "{1..256|utility,B#,#\n}end\n"),
        (CAPS, "price,0\n", "{1..256|utility,B#,#\n}end\n"),
        // At 398 the bids of 399 and of 400 leave 1 and 2.
        (BIDS, "price,398\n", "utility,P,3\nend\n"),
        (
            GOODS,
            "price,4,4,4,4,4,4,4,3\n",
            "{1..224|utility,B#,1\n}{225..256|utility,B#,2\n}end\n",
        ),
        (
            REFUSED,
            "price,3\n",
            "{1..199|utility,B#,2\n}utility,B200,-2\n{201..256|utility,B#,2\n}end\n",
        ),
    ];
    for (auction, price, output) in cases {
        assert!(rt;
            gives_by(alloc, "utility", auction, price, 0, output)?,
            "{auction}"
        );
    }
    Ok(())
}
