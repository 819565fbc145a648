use super::*;

// No bid stands yet.
const EMPTY: &str = "mix,2\ngoods,A\nsupply,200\nreserve,0\nend\n";

// One unit for sale, and one bidder for it at up to 100.
const ONE_UNIT: &str = "mix,1\ngoods,A\nsupply,1\nreserve,0\nbid,P,1,100\nend\n";

// Another comes and leaves, each time at a greater bid: the price is its bid.
const TURNS: &str = "{1..64|add,R,1,#\nclear\ndrop,R\n}close\n";

const OF_TURNS: &str =
    "{1..64|outcome,1\ncleared\nprice,#\nshare,P,1,#\nshare,R,0,0\nreturn,0\ntight,P,A,2,0\ntight,R,A,3,1\nend\n}";

// The bidders who are left where 200 are.
const OF_THE_LAST: &str =
    "outcome,2\norder{57..256|,B#}\ncleared\nprice,0\n{57..256|share,B#,1,0\n}return,0\n{57..256|tight,B#,A,2,0\n}end\n";

#[test]
fn great_sessions_print_their_outcomes(rt: HostRuntime) -> Result<(), Fail> {
    let alloc = rt.alloc();
    let joined = format!(in alloc; "{OF_BIDDERS}{OF_THE_LAST}")?;
    let cases = [
        (
            NOBODY,
            "clear\nclose\n",
            "outcome,1\ncleared\nprice,3\nreturn,2\nend\n",
        ),
        (
            ONE_BIDDER,
            "clear\nclose\n",
            "outcome,1\ncleared\nprice,0\nshare,P,1,0\nreturn,1\ntight,P,A,2,0\nend\n",
        ),
        (ONE_UNIT, TURNS, OF_TURNS),
        (
            EMPTY,
            "{1..256|add,B#,1,#\n}clear\n{1..56|drop,B#\n}clear\nclose\n",
            joined.as_str(),
        ),
        (CAPS, "clear\nclose\n", OF_BIDDERS),
        (BIDS, "clear\nclose\n", OF_BIDS),
        (GOODS, "clear\nclose\n", OF_GOODS),
        (REFUSED, "clear\nclose\n", REFUSAL),
    ];
    for (auction, rows, output) in cases {
        assert!(rt;
            gives_by(alloc, "session", auction, rows, 0, output)?,
            "{auction}"
        );
    }
    Ok(())
}
