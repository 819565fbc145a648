// Stated tie orders, and auctions that are written in format 2, as worked out by hand.
use crate::calls::outcomes::{LATER_PAIRS, OUTCOME, UP_TO_PAIRS};
use crate::calls::{AUCTION, gives, text_of};
use std::test::Fail;

// The auction in format 2, up to the outcome's first pair.
const UPGRADED: &[u8] =
    b"mix,2\ngoods,A,B\nsupply,1,1\nreserve,0,0\nbid,X,1,4,-\nbid,X,1,-,4\nbid,X,1,6,6\nbid,X,-1,4,4\nbid,Y,1,5,-\norder,X,Y\nend\noutcome,2\norder,X,Y\ncleared\nprice,4,0\nshare,X,0,1,0\nshare,Y,1,0,4\nreturn,0,0\n";

// Who comes first in the order is served first; what is printed says so, and is checked.
#[test]
fn stated_orders(rt: HostRuntime) -> Result<(), Fail> {
    let alloc = rt.alloc();
    let cases: [(&[u8], &[u8]); 3] = [
        (
            b"mix,2\ngoods,A\nsupply,1\nreserve,0\nbid,P,1,5\nbid,Q,1,5\norder,Q,P\nend\n",
            b"outcome,2\norder,Q,P\ncleared\nprice,5\nshare,P,0,0\nshare,Q,1,5\nreturn,0\ntight,P,A,3,1\ntight,Q,A,2,0\nend\n",
        ),
        (
            b"mix,2\ngoods,A,B\nsupply,1,1\nreserve,0,0\nbid,P,1,5,5\nbid,Q,1,5,5\norder,Q,P\nend\n",
            b"outcome,2\norder,Q,P\ncleared\nprice,0,0\nshare,P,0,1,0\nshare,Q,1,0,0\nreturn,0,0\ntight,P,A,7,5\ntight,P,B,4,0\ntight,Q,A,2,0\ntight,Q,B,6,0\nend\n",
        ),
        (
            b"mix,2\ngoods,A\nsupply,1\nreserve,0\nbid,P,1,5\nbid,Q,1,5\nend\n",
            b"outcome,2\norder,P,Q\ncleared\nprice,5\nshare,P,1,5\nshare,Q,0,0\nreturn,0\ntight,P,A,2,0\ntight,Q,A,3,1\nend\n",
        ),
    ];
    for (auction, outcome) in cases {
        assert!(rt;
            gives(
                alloc,
                "solve",
                text_of(alloc, auction, b"", 0, b"")?,
                0,
                outcome
            )?
        );
        let both = text_of(alloc, auction, outcome, 1, b"")?;
        assert!(rt; gives(alloc, "check", both, 0, b"yes\n")?);
    }
    Ok(())
}

// What is written is checked as what was read.
#[test]
fn an_upgrade_is_checked_as_what_was_read(rt: HostRuntime) -> Result<(), Fail> {
    let alloc = rt.alloc();
    let cases: [(&[u8], u8, &[u8]); 2] = [
        (b"tight,X,A,3,1\n", 0, b"yes\n"),
        (b"tight,X,A,2,0\n", 1, b"no,tight,X,A,1\n"),
    ];
    for (pair, status, verdict) in cases {
        let pairs = text_of(alloc, b"", pair, 1, LATER_PAIRS)?;
        let outcome = text_of(alloc, UP_TO_PAIRS, &pairs, 1, b"")?;
        let read = text_of(alloc, AUCTION, &outcome, 1, b"")?;
        let written = text_of(alloc, UPGRADED, &pairs, 1, b"")?;
        let again = text_of(alloc, &read, b"", 0, b"")?;
        assert!(rt; gives(alloc, "upgrade", read, 0, &written)?);
        assert!(rt; gives(alloc, "check", again, status, verdict)?);
        assert!(rt; gives(alloc, "check", written, status, verdict)?);
    }
    Ok(())
}

// Only an auction of format 1 is written, whatever is wrong after its first row.
#[test]
fn refused_upgrades(rt: HostRuntime) -> Result<(), Fail> {
    let alloc = rt.alloc();
    let cases: [(&[u8], &[u8], &[u8]); 7] = [
        (UPGRADED, LATER_PAIRS, b"fault,1,header\n"),
        (b"mix,2\n", b"goods,A,A\n", b"fault,1,header\n"),
        (b"\nmix,3\n", b"x\n", b"fault,1,header\n"),
        (b"x\n", b"", b"fault,1,header\n"),
        (b"", b"", b"fault,1,end\n"),
        (AUCTION, b"", b"fault,11,end\n"),
        (AUCTION, b"outcome,2\n", b"fault,11,range\n"),
    ];
    for (front, tail, fault) in cases {
        let text = text_of(alloc, front, b"", 0, tail)?;
        assert!(rt; gives(alloc, "upgrade", text, 3, fault)?);
    }
    let unlike = text_of(alloc, AUCTION, OUTCOME, 1, b"x\n")?;
    assert!(rt; gives(alloc, "upgrade", unlike, 3, b"fault,22,after\n")?);
    Ok(())
}
