// Auctions with caps, as worked out by hand.
use crate::calls::{AUCTION, call, gives, text_of};
use std::test::Fail;

// Three units for sale, and one bidder for one each at 9, 7 and 5.
const THREE_UNITS: &[u8] =
    b"mix,3\ngoods,A\nsupply,3\nreserve,0\nbid,P,1,9\nbid,P,1,7\nbid,P,1,5\n";

// Two goods, of each one unit; one bidder for either, and one for one of them.
const TWO_GOODS: &[u8] =
    b"mix,3\ngoods,A,B\nsupply,1,1\nreserve,0,0\nbid,P,1,5,-\nbid,P,1,-,4\nbid,Q,1,3,3\n";

// What each command gives of three units, where the row before `end` is this one.
#[test]
fn one_bidder(rt: HostRuntime) -> Result<(), Fail> {
    let alloc = rt.alloc();
    let cases: [(&str, &[u8], &[u8], u8, &[u8]); 12] = [
        (
            "solve",
            b"cap,P,2\n",
            b"end\n",
            0,
            b"outcome,2\norder,P\ncleared\nprice,0\nshare,P,2,0\nreturn,1\ntight,P,A,2,0\nend\n",
        ),
        (
            "check",
            b"cap,P,2\n",
            b"end\noutcome,2\norder,P\ncleared\nprice,0\nshare,P,2,0\nreturn,1\ntight,P,A,2,0\nend\n",
            0,
            b"yes\n",
        ),
        // A facet of positive bids has no negative weight.
        (
            "check",
            b"cap,P,2\n",
            b"end\noutcome,2\norder,P\nrefused,P,-,A,7,-1\nend\n",
            1,
            b"no,facet,1\n",
        ),
        (
            "check",
            b"cap,P,2\n",
            b"end\noutcome,2\norder,P\ncleared\nprice,0\nshare,P,3,0\nreturn,0\ntight,P,A,2,0\nend\n",
            1,
            b"no,demand,P,2\n",
        ),
        (
            "utility",
            b"cap,P,2\n",
            b"end\nprice,4\n",
            0,
            b"utility,P,8\nend\n",
        ),
        (
            "utility",
            b"cap,P,0\n",
            b"end\nprice,4\n",
            0,
            b"utility,P,0\nend\n",
        ),
        ("utility", b"", b"end\nprice,4\n", 0, b"utility,P,9\nend\n"),
        ("validate", b"cap,P,2\n", b"end\n", 0, b"valid,P,2\nend\n"),
        ("validate", b"cap,P,4\n", b"end\n", 0, b"valid,P,3\nend\n"),
        ("prices", b"cap,P,2\n", b"end\n", 0, b"price,0\nend\n"),
        ("trail", b"cap,P,0\n", b"end\n", 0, b"price,0\nend\n"),
        ("upgrade", b"cap,P,2\n", b"end\n", 3, b"fault,1,header\n"),
    ];
    for (word, row, tail, status, output) in cases {
        let text = text_of(alloc, THREE_UNITS, row, 1, tail)?;
        assert!(rt; gives(alloc, word, text, status, output)?);
    }
    Ok(())
}

// With a cap of one unit the first bidder leaves the second good to the other; without it the first gets both.
#[test]
fn two_bidders(rt: HostRuntime) -> Result<(), Fail> {
    let alloc = rt.alloc();
    let cases: [(&[u8], &[u8]); 2] = [
        (
            b"cap,P,1\n",
            b"outcome,2\norder,P,Q\ncleared\nprice,0,0\nshare,P,1,0,0\nshare,Q,0,1,0\nreturn,0,0\ntight,",
        ),
        (
            b"",
            b"outcome,2\norder,P,Q\ncleared\nprice,3,3\nshare,P,1,1,6\nshare,Q,0,0,0\nreturn,0,0\ntight,",
        ),
    ];
    for (row, start) in cases {
        let auction = text_of(alloc, TWO_GOODS, row, 1, b"end\n")?;
        let (status, sink) = call(alloc, &["solve"], auction, Vec::new(alloc), 4096)?;
        assert_eq!(rt; status, 0);
        assert!(rt; sink.bytes().starts_with(start));
        let auction = text_of(alloc, TWO_GOODS, row, 1, b"end\n")?;
        let both = text_of(alloc, &auction, sink.bytes(), 1, b"")?;
        assert!(rt; gives(alloc, "check", both, 0, b"yes\n")?);
    }
    Ok(())
}

// Caps that may not be: of a bidder with a bid of negative weight, and in a text of another format.
#[test]
fn refused_caps(rt: HostRuntime) -> Result<(), Fail> {
    let alloc = rt.alloc();
    let rows = AUCTION.strip_prefix(b"mix,1\n").ok_or("a header")?;
    let bids = rows.strip_suffix(b"end\n").ok_or("an end")?;
    let cases: [(&[u8], &[u8], &[u8]); 4] = [
        (b"mix,3\n", b"cap,X,1\nend\n", b"fault,10,weight\n"),
        (
            b"mix,3\n",
            b"cap,Y,1\ncap,Y,1\nend\n",
            b"fault,11,repeated\n",
        ),
        (b"mix,2\n", b"cap,Y,1\nend\n", b"fault,10,place\n"),
        (b"mix,1\n", b"cap,Y,1\nend\n", b"fault,10,place\n"),
    ];
    for (header, tail, output) in cases {
        let text = text_of(alloc, header, bids, 1, tail)?;
        assert!(rt; gives(alloc, "solve", text, 3, output)?);
    }
    Ok(())
}
