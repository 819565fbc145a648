// Whole calls of the command that compares bidders' lists with the first one.
use crate::calls::{AUCTION, ONE_GOOD, TWO_GOODS, gives, text_of};
use std::test::Fail;

// The bids of X, and some of those of Y: the same the other way round, and one more.
const TURNED: &[u8] =
    b"bid,X,1,4,-\nbid,X,1,-,4\nbid,X,1,6,6\nbid,X,-1,4,4\nbid,Y,-1,4,4\nbid,Y,1,6,6\nbid,Y,1,-,4\nbid,Y,1,4,-\nbid,Y,1,9,9\n";

const THREE: &[u8] = b"bid,X,1,5\nbid,X,1,5\nbid,Y,2,5\nbid,Z,1,7\nbid,Z,-1,7\nend\n";

#[test]
fn compared_with_the_first(rt: HostRuntime) -> Result<(), Fail> {
    let alloc = rt.alloc();
    let cases: [(&[u8], &[u8], &[u8], u8, &[u8]); 8] = [
        (ONE_GOOD, THREE, b"", 0, b"same,Y\ndiffer,Z,-1,12,0\nend\n"),
        (
            TWO_GOODS,
            TURNED,
            b"bid,Y,-1,9,9\nend\n",
            0,
            b"same,Y\nend\n",
        ),
        (
            TWO_GOODS,
            TURNED,
            b"bid,Y,-2,9,9\nend\n",
            0,
            b"differ,Y,-1,-1,12,2\nend\n",
        ),
        (AUCTION, b"", b"", 0, b"differ,Y,-1,-1,12,6\nend\n"),
        (ONE_GOOD, b"bid,X,-1,5\n", b"end\n", 0, b"end\n"),
        (ONE_GOOD, b"", b"end\n", 0, b"end\n"),
        (ONE_GOOD, THREE, b"price,5\n", 3, b"fault,11,after\n"),
        (ONE_GOOD, b"bid,X,0,5\n", b"end\n", 3, b"fault,5,weight\n"),
    ];
    for (front, bids, tail, status, output) in cases {
        let text = text_of(alloc, front, bids, 1, tail)?;
        assert!(rt; gives(alloc, "compare", text, status, output)?);
    }
    Ok(())
}

// What is printed of Z is what the other command finds at that price.
#[test]
fn utilities_where_lists_differ(rt: HostRuntime) -> Result<(), Fail> {
    let alloc = rt.alloc();
    let text = text_of(alloc, ONE_GOOD, THREE, 1, b"price,-1\n")?;
    let output = b"utility,X,12\nutility,Y,12\nutility,Z,0\nend\n";
    assert!(rt; gives(alloc, "utility", text, 0, output)?);
    Ok(())
}
