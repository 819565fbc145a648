use super::*;

#[test]
fn solves(rt: HostRuntime) -> Result<(), Fail> {
    let alloc = rt.alloc();
    let cases = [
        (NOBODY, 0, "outcome,1\ncleared\nprice,3\nreturn,2\nend\n"),
        (
            ONE_BIDDER,
            0,
            "outcome,1\ncleared\nprice,0\nshare,P,1,0\nreturn,1\ntight,P,A,2,0\nend\n",
        ),
        (BIDDERS, 0, OF_BIDDERS),
        (CAPS, 0, OF_BIDDERS),
        (BIDS, 0, OF_BIDS),
        (GOODS, 0, OF_GOODS),
        (REFUSED, 1, REFUSAL),
    ];
    for (auction, status, output) in cases {
        assert!(rt;
            gives_by(alloc, "solve", auction, "", status, output)?,
            "{auction}"
        );
    }
    Ok(())
}
