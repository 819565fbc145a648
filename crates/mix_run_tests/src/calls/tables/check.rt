use super::*;

#[test]
fn checks(rt: HostRuntime) -> Result<(), Fail> {
    let alloc = rt.alloc();
    let cases = [
        (
            NOBODY,
            "outcome,1\ncleared\nprice,3\nreturn,2\nend\n",
            0,
            "yes\n",
        ),
        (BIDDERS, OF_BIDDERS, 0, "yes\n"),
        (CAPS, OF_BIDDERS, 0, "yes\n"),
        (BIDS, OF_BIDS, 0, "yes\n"),
        (GOODS, OF_GOODS, 0, "yes\n"),
        (REFUSED, REFUSAL, 0, "yes\n"),
        // The last bidder pays too much; the 200th is refused, and the 199th is convex; and where one is refused, nothing clears.
        (
            BIDDERS,
            "outcome,2\norder{1..256|,B#}\ncleared\nprice,56\n{1..56|share,B#,0,0\n}{57..255|share,B#,1,56\n}share,B256,1,57\nreturn,0\n{1..256|tight,B#,A,2,0\n}end\n",
            1,
            "no,pay,B256,56\n",
        ),
        (
            REFUSED,
            "outcome,2\norder{1..256|,B#}\nrefused,B199,-,A,5,-1\nend\n",
            1,
            "no,facet,1\n",
        ),
        (
            REFUSED,
            "outcome,2\norder{1..256|,B#}\ncleared\nprice,5\n{1..256|share,B#,0,0\n}return,1\n{1..256|tight,B#,A,2,0\n}end\n",
            1,
            "no,invalid,B200\n",
        ),
    ];
    for (auction, outcome, status, output) in cases {
        assert!(rt;
            gives_by(alloc, "check", auction, outcome, status, output)?,
            "{auction}"
        );
    }
    Ok(())
}
