// What the rows after an auction tell, and the faults in them, where memory is ample.
use crate::{Owned, RangeError, read_range};
use mix_num::Prices;
use mix_text::{Code, Fault, read_auction};
use std::alloc::Global;
use std::test::Fail;

// One good without a supply: rows 1 to 7.
const ONE_GOOD: &[u8] = b"mix,1\ngoods,A\nsupply,0\nreserve,0\nbid,S,1,5\nbid,T,1,7\nend\n";

// One good with a reserve, and three bidders: rows 1 to 8.
const RESERVED: &[u8] =
    b"mix,1\ngoods,A\nsupply,3\nreserve,2\nbid,P,1,5\nbid,Q,1,5\nbid,S,1,5\nend\n";

// Two goods, the second with a reserve, and two bidders: rows 1 to 7.
const TWO_GOODS: &[u8] =
    b"mix,1\ngoods,A,B\nsupply,2,999998\nreserve,0,3\nbid,P,1,4,-\nbid,Q,1,-,4\nend\n";

// What an auction and the rows after it tell, or the first fault in these.
fn read(
    alloc: Global,
    auction: &[u8],
    rows: &[u8],
) -> Result<Result<(Owned, Prices), Fault>, Fail> {
    let mut text = auction.to_vec(alloc)?;
    text.extend_from_slice(rows)?;
    if text.len() > 16_777_216 {
        return Err("too long".into());
    }
    let (auction, rest) = read_auction(alloc, &text)?;
    match read_range(alloc, &auction, &rest) {
        Ok(range) => Ok(Ok(range)),
        Err(RangeError::Fault(fault)) => Ok(Err(fault)),
        Err(RangeError::Memory) => Err("memory".into()),
    }
}

#[test]
fn ranges(rt: HostRuntime) -> Result<(), Fail> {
    let alloc = rt.alloc();
    let cases: [(&[u8], &[u8], &[i64], &[i64], &[i64]); 6] = [
        (ONE_GOOD, b"own,S,1\nceiling,10\nclose\n", &[1], &[0], &[10]),
        (
            TWO_GOODS,
            b"ceiling,7,0\nclose\n",
            &[0, 0],
            &[0, 0],
            &[7, 0],
        ),
        (
            TWO_GOODS,
            b"own,Q,4,0\nown,P,1,0\nceiling,0,1000000\nclose\n",
            &[1, 0],
            &[4, 0],
            &[0, 1_000_000],
        ),
        (
            TWO_GOODS,
            b"own,P,999998,0\nown,Q,0,0\nceiling,5,6\nclose\n",
            &[999_998, 0],
            &[0, 0],
            &[5, 6],
        ),
        (
            TWO_GOODS,
            b"own,P,999997,0\nown,Q,1,0\nceiling,5,6\nclose\n",
            &[999_997, 0],
            &[1, 0],
            &[5, 6],
        ),
        (
            b"mix,1\ngoods,A\nsupply,1000000\nreserve,9\nbid,P,1,4\nbid,Q,1,4\nend\n",
            b"own,P,0\nceiling,9\nclose\n",
            &[0],
            &[0],
            &[9],
        ),
    ];
    for (auction, rows, first, second, wanted) in cases {
        let (owned, ceiling) = read(alloc, auction, rows)?.ok().ok_or("a fault")?;
        if owned.count() != 2 {
            return Err("two bidders".into());
        }
        assert_eq!(rt; owned.get(0).as_slice(), first);
        assert_eq!(rt; owned.get(1).as_slice(), second);
        assert_eq!(rt; ceiling.as_slice(), wanted);
    }
    Ok(())
}

#[test]
fn faults_of_ranges(rt: HostRuntime) -> Result<(), Fail> {
    let alloc = rt.alloc();
    let cases: [(&[u8], u64, Code); 31] = [
        (b"", 8, Code::End),
        (b"own,P,1,0\n", 9, Code::End),
        (b"ceiling,1,1\n", 9, Code::End),
        (b"close\n", 8, Code::Place),
        (b"owned,P,1,0\n", 8, Code::Place),
        (b"own,P,1,0\nclose\n", 9, Code::Place),
        (b"ceiling,1,1\nown,P,1,0\nclose\n", 9, Code::Place),
        (b"ceiling,1,1\nceiling,1,1\nclose\n", 9, Code::Place),
        (b"ceiling,1,1\nclose,1\n", 9, Code::Fields),
        (b"ceiling,1,1\nclose\nclose\n", 10, Code::After),
        (b"own,P,1\n", 8, Code::Fields),
        (b"own,7,1,0,0\n", 8, Code::Fields),
        (b"own,7,1,0\n", 8, Code::Name),
        (b"own,R,1,0\n", 8, Code::Other),
        (b"own,P,1,0\nown,Q,0,0\nown,R,0,0\n", 10, Code::Other),
        (b"own,P,1,0\nown,P,x,0\n", 9, Code::Repeated),
        (b"own,P,0,0\nown,P,1,0\n", 9, Code::Repeated),
        (b"own,P,x,0\n", 8, Code::Number),
        (b"own,P,01,0\n", 8, Code::Number),
        (b"own,P,-1,0\n", 8, Code::Range),
        (b"own,P,1000001,x\n", 8, Code::Range),
        (b"own,P,999999,x\n", 8, Code::Range),
        (b"own,P,999997,0\nown,Q,2,0\n", 9, Code::Range),
        (b"own,P,1,1\nceiling,1\n", 8, Code::Other),
        (b"own,P,1,3\n", 8, Code::Other),
        (b"own,P,1,1000001\n", 8, Code::Range),
        (b"ceiling,1\n", 8, Code::Fields),
        (b"ceiling,1,x\n", 8, Code::Number),
        (b"ceiling,1000001,0\n", 8, Code::Range),
        (b"ceiling,0,-1\n", 8, Code::Range),
        (b"ceiling,1,1\nend\n", 9, Code::Place),
    ];
    for (rows, at, code) in cases {
        assert_eq!(rt;
            read(alloc, TWO_GOODS, rows)?.err(),
            Some(Fault { at, code })
        );
    }
    let reserved = read(alloc, RESERVED, b"own,P,1\nceiling,1\nclose\n")?.err();
    let wanted = Fault {
        at: 9,
        code: Code::Other,
    };
    assert_eq!(rt; reserved, Some(wanted));
    Ok(())
}
