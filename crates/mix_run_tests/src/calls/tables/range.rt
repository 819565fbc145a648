use super::*;

// Nothing is for sale, and each bids its number for one unit. The first half own one each and the others none, so the others buy:
// the price may be the greatest bid of an owner, or the least of the others.
const OWNERS: &str = "mix,2\ngoods,A\nsupply,0\nreserve,0\n{1..256|bid,B#,1,#\n}end\n";

const CAPPED_OWNERS: &str =
    "mix,3\ngoods,A\nsupply,0\nreserve,0\n{1..256|bid,B#,3,#\n}{1..256|cap,B#,1\n}end\n";

const OWNED: &str = "{1..128|own,B#,1\n}{129..256|own,B#,0\n}ceiling,300\nclose\n";

const SWAPPED: &str =
    "low,128\nhigh,129\n{1..128|trade,B#,-1,-128\n}{129..256|trade,B#,1,128\n}return,0\nend\n";

// A hundred units of one who bids each number from 1 to 400.
const OWN_BIDS: &str = "mix,2\ngoods,A\nsupply,0\nreserve,0\n{1..400|bid,P,1,#\n}end\n";

// One owns a unit of each of eight goods that another wants more.
const EIGHT_OWNED: &str =
    "mix,2\ngoods,A,B,C,D,E,F,G,H\nsupply,0,0,0,0,0,0,0,0\nreserve,0,0,0,0,0,0,0,0\n{1..2|bid,B#,1,#,-,-,-,-,-,-,-\nbid,B#,1,-,#,-,-,-,-,-,-\nbid,B#,1,-,-,#,-,-,-,-,-\nbid,B#,1,-,-,-,#,-,-,-,-\nbid,B#,1,-,-,-,-,#,-,-,-\nbid,B#,1,-,-,-,-,-,#,-,-\nbid,B#,1,-,-,-,-,-,-,#,-\nbid,B#,1,-,-,-,-,-,-,-,#\n}end\n";

#[test]
fn ranges(rt: HostRuntime) -> Result<(), Fail> {
    let alloc = rt.alloc();
    let cases = [
        (
            NOBODY,
            "ceiling,9\nclose\n",
            0,
            "low,3\nhigh,3\nreturn,2\nend\n",
        ),
        (
            ONE_BIDDER,
            "own,P,1\nceiling,9\nclose\n",
            0,
            "low,0\nhigh,0\ntrade,P,0,0\nreturn,2\nend\n",
        ),
        (OWNERS, OWNED, 0, SWAPPED),
        (CAPPED_OWNERS, OWNED, 0, SWAPPED),
        (
            OWN_BIDS,
            "own,P,100\nceiling,1000\nclose\n",
            0,
            "low,300\nhigh,301\ntrade,P,0,0\nreturn,0\nend\n",
        ),
        (
            EIGHT_OWNED,
            "own,B1,1,1,1,1,1,1,1,1\nceiling,9,9,9,9,9,9,9,9\nclose\n",
            0,
            "low,1,1,1,1,1,1,1,1\nhigh,2,2,2,2,2,2,2,2\ntrade,B1,-1,-1,-1,-1,-1,-1,-1,-1,-8\ntrade,B2,1,1,1,1,1,1,1,1,8\nreturn,0,0,0,0,0,0,0,0\nend\n",
        ),
        (REFUSED, "{1..256|own,B#,1\n}ceiling,9\nclose\n", 1, REFUSAL),
    ];
    for (auction, rows, status, output) in cases {
        assert!(rt;
            gives_by(alloc, "range", auction, rows, status, output)?,
            "{auction}"
        );
    }
    Ok(())
}
