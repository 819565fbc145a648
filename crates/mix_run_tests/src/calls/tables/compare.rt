use super::*;

const ALIKE: &str = "mix,2\ngoods,A\nsupply,1\nreserve,0\n{1..255|bid,B#,1,5\n}bid,B256,1,4\nend\n";

// Each of two bidders bids each number from 1 to 400.
const TURNED: &str =
    "mix,2\ngoods,A\nsupply,1\nreserve,0\n{1..400|bid,P,1,#\n}{1..400|bid,Q,1,@\n}end\n";

// The second bids 2 and 399 twice, and neither 1 nor 400: it gains as much at -2, at -1, and at 1, but one less at 2.
const NEARLY: &str =
    "mix,2\ngoods,A\nsupply,1\nreserve,0\n{1..400|bid,P,1,#\n}bid,Q,1,2\nbid,Q,1,399\n{2..399|bid,Q,1,@\n}end\n";

// The same numbers for the last of eight goods.
const LAST_OF_EIGHT: &str =
    "mix,2\ngoods,A,B,C,D,E,F,G,H\nsupply,1,1,1,1,1,1,1,1\nreserve,0,0,0,0,0,0,0,0\n{1..400|bid,P,1,-,-,-,-,-,-,-,#\n}{1..400|bid,Q,1,-,-,-,-,-,-,-,@\n}end\n";

#[test]
fn compares(rt: HostRuntime) -> Result<(), Fail> {
    let alloc = rt.alloc();
    let cases = [
        (NOBODY, "end\n"),
        (ONE_BIDDER, "end\n"),
        (ALIKE, "{2..255|same,B#\n}differ,B256,-1,6,5\nend\n"),
        (TURNED, "same,Q\nend\n"),
        (NEARLY, "differ,Q,2,79401,79400\nend\n"),
        (LAST_OF_EIGHT, "same,Q\nend\n"),
    ];
    for (auction, output) in cases {
        assert!(rt;
            gives_by(alloc, "compare", auction, "", 0, output)?,
            "{auction}"
        );
    }
    Ok(())
}
