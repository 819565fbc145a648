use super::*;

#[test]
fn validates(rt: HostRuntime) -> Result<(), Fail> {
    let alloc = rt.alloc();
    let cases = [
        (NOBODY, 0, "end\n"),
        (ONE_BIDDER, 0, "valid,P,1\nend\n"),
        (BIDDERS, 0, "{1..256|valid,B#,1\n}end\n"),
        (CAPS, 0, "{1..256|valid,B#,1\n}end\n"),
        (BIDS, 0, "valid,P,400\nend\n"),
        (GOODS, 0, "{1..256|valid,B#,1\n}end\n"),
        (REFUSED, 1, REFUSAL),
    ];
    for (auction, status, output) in cases {
        assert!(rt;
            gives_by(alloc, "validate", auction, "", status, output)?,
            "{auction}"
        );
    }
    Ok(())
}
