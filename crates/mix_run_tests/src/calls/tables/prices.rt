use super::*;

#[test]
fn finds_prices(rt: HostRuntime) -> Result<(), Fail> {
    let alloc = rt.alloc();
    let cases = [
        (NOBODY, 0, "price,3\nend\n"),
        (ONE_BIDDER, 0, "price,0\nend\n"),
        (BIDDERS, 0, "price,56\nend\n"),
        (CAPS, 0, "price,56\nend\n"),
        (BIDS, 0, "price,399\nend\n"),
        (GOODS, 0, "price,0,0,0,0,0,0,0,0\nend\n"),
        (REFUSED, 1, REFUSAL),
    ];
    for (auction, status, output) in cases {
        assert!(rt;
            gives_by(alloc, "prices", auction, "", status, output)?,
            "{auction}"
        );
    }
    Ok(())
}
