// Ranges on devices in memory, as worked out by hand.
use crate::calls::{gives, text_of};
use std::test::Fail;

// No unit for sale; one bidder for a unit at up to 3, and one at up to 8.
const TWO_BIDDERS: &[u8] = b"mix,1\ngoods,A\nsupply,0\nreserve,0\nbid,S,1,3\nbid,T,1,8\nend\n";

// No unit of two goods for sale; one bidder for one of the one good, and one for one of the other.
const TWO_GOODS: &[u8] =
    b"mix,1\ngoods,A,B\nsupply,0,0\nreserve,0,0\nbid,P,1,2,-\nbid,P,1,-,9\nbid,Q,1,7,-\nbid,Q,1,-,4\nend\n";

// What is printed for ranges.
#[test]
fn ranges(rt: HostRuntime) -> Result<(), Fail> {
    let alloc = rt.alloc();
    let cases: [(&[u8], &[u8], &[u8]); 7] = [
        // The owner sells at any price from 3 to 8.
        (
            TWO_BIDDERS,
            b"own,S,1\nceiling,10\nclose\n",
            b"low,3\nhigh,8\ntrade,S,-1,-3\ntrade,T,1,3\nreturn,0\nend\n",
        ),
        // Or up to the ceiling.
        (
            TWO_BIDDERS,
            b"own,S,1\nceiling,6\nclose\n",
            b"low,3\nhigh,6\ntrade,S,-1,-3\ntrade,T,1,3\nreturn,0\nend\n",
        ),
        // Nobody owns anything, and no price is too high.
        (
            b"mix,1\ngoods,A\nsupply,0\nreserve,0\nbid,P,1,5\nend\n",
            b"ceiling,20\nclose\n",
            b"low,5\nhigh,20\ntrade,P,0,0\nreturn,0\nend\n",
        ),
        // The least price is above the ceiling.
        (
            b"mix,1\ngoods,A\nsupply,1\nreserve,0\nbid,P,1,5\nbid,Q,1,5\nend\n",
            b"ceiling,4\nclose\n",
            b"low,5\nhigh,none\ntrade,P,1,5\ntrade,Q,0,0\nreturn,0\nend\n",
        ),
        // Each owns what the other wants.
        (
            TWO_GOODS,
            b"own,P,1,0\nown,Q,0,1\nceiling,20,20\nclose\n",
            b"low,2,4\nhigh,7,9\ntrade,P,-1,1,2\ntrade,Q,1,-1,-2\nreturn,0,0\nend\n",
        ),
        // What nobody wants is returned, from the supply or from an owner.
        (
            b"mix,1\ngoods,A\nsupply,2\nreserve,0\nbid,P,1,5\nend\n",
            b"own,P,3\nceiling,9\nclose\n",
            b"low,0\nhigh,0\ntrade,P,-2,0\nreturn,4\nend\n",
        ),
        // A bidder's cap counts.
        (
            b"mix,3\ngoods,A\nsupply,0\nreserve,0\nbid,P,2,6\nbid,Q,2,4\ncap,P,1\nend\n",
            b"own,Q,2\nceiling,9\nclose\n",
            b"low,4\nhigh,4\ntrade,P,1,4\ntrade,Q,-1,-4\nreturn,0\nend\n",
        ),
    ];
    for (auction, rows, output) in cases {
        let text = text_of(alloc, auction, rows, 1, b"")?;
        assert!(rt; gives(alloc, "range", text, 0, output)?);
    }
    Ok(())
}

// A bidder that isn't convex is refused, whatever is owned.
#[test]
fn refused_ranges(rt: HostRuntime) -> Result<(), Fail> {
    let alloc = rt.alloc();
    let text = text_of(
        alloc,
        b"mix,1\ngoods,A\nsupply,1\nreserve,0\nbid,X,-1,4\nend\n",
        b"own,X,1\nceiling,9\nclose\n",
        1,
        b"",
    )?;
    assert!(rt;
        gives(
            alloc,
            "range",
            text,
            1,
            b"outcome,1\nrefused,X,-,A,4,-1\nend\n"
        )?
    );
    Ok(())
}

// The first row that is wrong: of the auction, and then of those after it.
#[test]
fn faults_of_ranges(rt: HostRuntime) -> Result<(), Fail> {
    let alloc = rt.alloc();
    let cases: [(&[u8], &[u8], u8, &[u8]); 8] = [
        (b"mix,1\ngoods,A,A\n", b"x\n", 3, b"fault,2,repeated\n"),
        (
            b"mix,1\ngoods,A,B,C,D,E,F,G,H,I\n",
            b"x\n",
            4,
            b"limit,2,goods\n",
        ),
        (
            b"mix,1\ngoods,A\nsupply,2\nreserve,50\nbid,P,1,10\nend\n",
            b"own,P,1\n",
            3,
            b"fault,7,other\n",
        ),
        (TWO_BIDDERS, b"", 3, b"fault,8,end\n"),
        (TWO_BIDDERS, b"own,U,1\n", 3, b"fault,8,other\n"),
        (TWO_BIDDERS, b"own,S,1\nown,S,1\n", 3, b"fault,9,repeated\n"),
        (TWO_BIDDERS, b"ceiling,10\nown,S,1\n", 3, b"fault,9,place\n"),
        (
            TWO_BIDDERS,
            b"own,S,1\nceiling,10\nclose\nclose\n",
            3,
            b"fault,11,after\n",
        ),
    ];
    for (auction, rows, status, output) in cases {
        let text = text_of(alloc, auction, rows, 1, b"")?;
        assert!(rt; gives(alloc, "range", text, status, output)?);
    }
    Ok(())
}
