use super::*;

// Two bidders for one unit of each of eight goods, at 8 for the first and 1 for the last.
const FALLING: &str =
    "mix,2\ngoods,A,B,C,D,E,F,G,H\nsupply,1,1,1,1,1,1,1,1\nreserve,0,0,0,0,0,0,0,0\n{1..2|bid,B#,1,8,-,-,-,-,-,-,-\nbid,B#,1,-,7,-,-,-,-,-,-\nbid,B#,1,-,-,6,-,-,-,-,-\nbid,B#,1,-,-,-,5,-,-,-,-\nbid,B#,1,-,-,-,-,4,-,-,-\nbid,B#,1,-,-,-,-,-,3,-,-\nbid,B#,1,-,-,-,-,-,-,2,-\nbid,B#,1,-,-,-,-,-,-,-,1\n}end\n";

#[test]
fn climbs(rt: HostRuntime) -> Result<(), Fail> {
    let alloc = rt.alloc();
    let cases = [
        (NOBODY, 0, "price,3\nend\n"),
        (ONE_BIDDER, 0, "price,0\nend\n"),
        // At a price 256 less the price are above it.
        (BIDDERS, 0, "{1..56|step,2,1,-@\n}price,56\nend\n"),
        (CAPS, 0, "{1..56|step,2,1,-@\n}price,56\nend\n"),
        (BIDS, 0, "{1..399|step,2,1,-@\n}price,399\nend\n"),
        (GOODS, 0, "price,0,0,0,0,0,0,0,0\nend\n"),
        // All goods rise, until the last is worth no more to anyone, and so on.
        (
            FALLING,
            0,
            "step,510,1,-8\nstep,254,1,-7\nstep,126,1,-6\nstep,62,1,-5\nstep,30,1,-4\nstep,14,1,-3\nstep,6,1,-2\nstep,2,1,-1\nprice,8,7,6,5,4,3,2,1\nend\n",
        ),
        (REFUSED, 1, REFUSAL),
    ];
    for (auction, status, output) in cases {
        assert!(rt;
            gives_by(alloc, "trail", auction, "", status, output)?,
            "{auction}"
        );
    }
    Ok(())
}
