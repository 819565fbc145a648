use super::*;

// Each of 64 bidders bids its number for one of 40 units, so the price is the 41st greatest bid, 24.
const BIDDERS_OF_ONE: &str = "goods,A\nsupply,40\nreserve,1\n{1..64|bid,B#,1,#\n}";

const OF_BIDDERS_OF_ONE: &str =
    "cleared\nprice,24\n{1..24|share,B#,0,0\n}{25..64|share,B#,1,24\n}return,0\n{1..23|tight,B#,A,2,0\n}tight,B24,A,3,1\n{25..64|tight,B#,A,2,0\n}end\n";

// The greatest number of goods, and of bids of one bidder, in format 1.
const BIDS_OF_ONE: &str =
    "goods,A,B,C,D,E\nsupply,0,0,0,0,0\nreserve,9,9,9,9,9\n{1..400|bid,P,1,-,-,-,-,5\n}";

const OF_BIDS_OF_ONE: &str =
    "cleared\nprice,9,9,9,9,9\nshare,P,0,0,0,0,0,0\nreturn,0,0,0,0,0\ntight,P,A,2,0\ntight,P,B,4,0\ntight,P,C,8,0\ntight,P,D,16,0\ntight,P,E,32,0\nend\n";

// The text of an auction and its outcome, of the format and the version that stand before each, where the rows `order` come
// last in the one and first in the other.
fn written(alloc: Global, parts: [&str; 6]) -> Result<String, Fail> {
    let [format, rows, order, version, names, outcome] = parts;
    Ok(format!(in alloc; "mix,{format}\n{rows}{order}end\noutcome,{version}\n{names}{outcome}")?)
}

#[test]
fn great_upgrades_are_written(rt: HostRuntime) -> Result<(), Fail> {
    let alloc = rt.alloc();
    let cases = [
        (
            "goods,A\nsupply,2\nreserve,3\n",
            "order\n",
            "cleared\nprice,3\nreturn,2\nend\n",
        ),
        (BIDDERS_OF_ONE, "order{1..64|,B#}\n", OF_BIDDERS_OF_ONE),
        (BIDS_OF_ONE, "order,P\n", OF_BIDS_OF_ONE),
    ];
    for (rows, order, outcome) in cases {
        let read = written(alloc, ["1", rows, "", "1", "", outcome])?;
        let upgraded = written(alloc, ["2", rows, order, "2", order, outcome])?;
        assert!(rt;
            gives_by(alloc, "upgrade", read.as_str(), "", 0, upgraded.as_str())?,
            "{rows}"
        );
    }
    Ok(())
}
