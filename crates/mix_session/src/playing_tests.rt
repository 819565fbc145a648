// What the rows after an auction come to, where memory is ample.
use crate::play;
use mix_text::{Code, Fault, Limit, TextError, What, read_auction};
use std::alloc::Global;
use std::test::Fail;

// One unit, for which P bids 5 and Q 3: rows 1 to 7.
const ONE_UNIT: &[u8] = b"mix,1\ngoods,A\nsupply,1\nreserve,0\nbid,P,1,5\nbid,Q,1,3\nend\n";

// P gets it, at the 3 that Q would pay.
const P_FOR_3: &[u8] =
    b"outcome,1\ncleared\nprice,3\nshare,P,1,3\nshare,Q,0,0\nreturn,0\ntight,P,A,2,0\ntight,Q,A,3,1\nend\n";

// One unit that two bidders value alike, of whom P comes first and is capped to nothing: rows 1 to 9.
const CAPPED: &[u8] =
    b"mix,3\ngoods,A\nsupply,1\nreserve,0\nbid,P,1,5\nbid,Q,1,5\ncap,P,0\norder,P,Q\nend\n";

// Q takes at most one unit, and is served first.
const CAPPED_FIRST: &[u8] =
    b"mix,3\ngoods,A\nsupply,1\nreserve,0\nbid,P,1,5\nbid,Q,1,5\ncap,Q,1\norder,Q,P\nend\n";

// P takes back a bid that it never made: rows 1 to 6.
const TAKEN_BACK: &[u8] = b"mix,1\ngoods,A\nsupply,1\nreserve,0\nbid,P,-1,5\nend\n";

// The texts that the rows after an auction ask for, or what is wrong first.
fn played(alloc: Global, auction: &[u8], rows: &[u8]) -> Result<Result<Vec<u8>, TextError>, Fail> {
    let mut text = auction.to_vec(alloc)?;
    text.extend_from_slice(rows)?;
    if text.len() > 16_777_216 {
        return Err("too long".into());
    }
    let (auction, rest) = read_auction(alloc, &text)?;
    Ok(play(alloc, auction, &rest))
}

// A text so many times.
fn times(alloc: Global, text: &[u8], count: usize) -> Result<Vec<u8>, Fail> {
    let mut all = Vec::new(alloc);
    for _ in 0..count {
        all.extend_from_slice(text)?;
    }
    Ok(all)
}

#[test]
fn outcomes_come_one_after_the_other(rt: HostRuntime) -> Result<(), Fail> {
    let alloc = rt.alloc();
    let cases: [(&[u8], &[u8], &[u8]); 10] = [
        (ONE_UNIT, b"close\n", b""),
        (ONE_UNIT, b"add,P,1,4\ndrop,Q\nclose\n", b""),
        // Without P the price falls to 0; R bids more than Q, so it rises to the 3 that Q would pay.
        (
            ONE_UNIT,
            b"clear\ndrop,P\nclear\nadd,R,1,9\nclear\nclose\n",
            b"outcome,1\ncleared\nprice,3\nshare,P,1,3\nshare,Q,0,0\nreturn,0\ntight,P,A,2,0\ntight,Q,A,3,1\nend\noutcome,1\ncleared\nprice,0\nshare,Q,1,0\nreturn,0\ntight,Q,A,2,0\nend\noutcome,1\ncleared\nprice,3\nshare,Q,0,0\nshare,R,1,3\nreturn,0\ntight,Q,A,3,1\ntight,R,A,2,0\nend\n",
        ),
        // Nobody is left.
        (
            ONE_UNIT,
            b"clear\ndrop,P\ndrop,Q\nclear\nclose\n",
            b"outcome,1\ncleared\nprice,3\nshare,P,1,3\nshare,Q,0,0\nreturn,0\ntight,P,A,2,0\ntight,Q,A,3,1\nend\noutcome,1\ncleared\nprice,0\nreturn,1\nend\n",
        ),
        // With its second bid Q would pay 9.
        (
            ONE_UNIT,
            b"add,Q,1,9\nclear\nclose\n",
            b"outcome,1\ncleared\nprice,5\nshare,P,0,0\nshare,Q,1,5\nreturn,0\ntight,P,A,3,1\ntight,Q,A,2,0\nend\n",
        ),
        // P, who comes back, is served last, and has no cap.
        (
            CAPPED,
            b"clear\ndrop,P\nadd,P,1,5\nclear\nclose\n",
            b"outcome,2\norder,P,Q\ncleared\nprice,0\nshare,P,0,0\nshare,Q,1,0\nreturn,0\ntight,P,A,2,0\ntight,Q,A,2,0\nend\noutcome,2\norder,Q,P\ncleared\nprice,5\nshare,Q,1,5\nshare,P,0,0\nreturn,0\ntight,Q,A,2,0\ntight,P,A,3,1\nend\n",
        ),
        // Q leaves and comes again with a negative bid, which stands under no cap any more, and is served last.
        (
            CAPPED_FIRST,
            b"drop,Q\nadd,Q,-1,5\nadd,Q,2,5\nclear\nclose\n",
            b"outcome,2\norder,P,Q\ncleared\nprice,5\nshare,P,1,5\nshare,Q,0,0\nreturn,0\ntight,P,A,2,0\ntight,Q,A,3,1\nend\n",
        ),
        // A bidder is refused as long as it is there.
        (
            ONE_UNIT,
            b"add,X,-1,4\nclear\nclear\ndrop,X\nclear\nclose\n",
            b"outcome,1\nrefused,X,-,A,4,-1\nend\noutcome,1\nrefused,X,-,A,4,-1\nend\noutcome,1\ncleared\nprice,3\nshare,P,1,3\nshare,Q,0,0\nreturn,0\ntight,P,A,2,0\ntight,Q,A,3,1\nend\n",
        ),
        // What a refusal tells stays true, until the list changes or leaves.
        (
            TAKEN_BACK,
            b"clear\nclear\ndrop,P\nclear\nclose\n",
            b"outcome,1\nrefused,P,-,A,5,-1\nend\noutcome,1\nrefused,P,-,A,5,-1\nend\noutcome,1\ncleared\nprice,0\nreturn,1\nend\n",
        ),
        (
            TAKEN_BACK,
            b"clear\nadd,O,1,2\nadd,P,2,5\nclear\nclose\n",
            b"outcome,1\nrefused,P,-,A,5,-1\nend\noutcome,1\ncleared\nprice,2\nshare,P,1,2\nshare,O,0,0\nreturn,0\ntight,P,A,2,0\ntight,O,A,3,1\nend\n",
        ),
    ];
    for (auction, rows, wanted) in cases {
        let texts = played(alloc, auction, rows)??;
        assert_eq!(rt; texts.as_slice(), wanted);
    }
    Ok(())
}

#[test]
fn the_first_row_that_is_wrong_decides(rt: HostRuntime) -> Result<(), Fail> {
    let alloc = rt.alloc();
    let cases: [(&[u8], &[u8], u64, Code); 28] = [
        (ONE_UNIT, b"", 8, Code::End),
        (ONE_UNIT, b"clear\n", 9, Code::End),
        (ONE_UNIT, b"close\nclear\n", 9, Code::After),
        (ONE_UNIT, b"bid,R,1,9\nclose\n", 8, Code::Place),
        (ONE_UNIT, b"clear\nend\nclose\n", 9, Code::Place),
        (ONE_UNIT, b"clear,A\nclose\n", 8, Code::Fields),
        (ONE_UNIT, b"close,A\n", 8, Code::Fields),
        (ONE_UNIT, b"clear\nclose,P\n", 9, Code::Fields),
        (ONE_UNIT, b"add,P,0,5\n", 8, Code::Weight),
        (ONE_UNIT, b"drop\nclose\n", 8, Code::Fields),
        (ONE_UNIT, b"drop,P,Q\nclose\n", 8, Code::Fields),
        (ONE_UNIT, b"drop,9\nclose\n", 8, Code::Name),
        (ONE_UNIT, b"drop,p\nclose\n", 8, Code::Other),
        (ONE_UNIT, b"clear\ndrop,S\nclose\n", 9, Code::Other),
        (
            ONE_UNIT,
            b"clear\ndrop,P\ndrop,P\nclear,1\n",
            10,
            Code::Other,
        ),
        (ONE_UNIT, b"add,R,1\nclose\n", 8, Code::Fields),
        (ONE_UNIT, b"add,R,1,9,9\nclose\n", 8, Code::Fields),
        (ONE_UNIT, b"add,9,1,9\nclose\n", 8, Code::Name),
        (ONE_UNIT, b"add,R,one,9\nclose\n", 8, Code::Number),
        (ONE_UNIT, b"add,R,10001,9\nclose\n", 8, Code::Range),
        (ONE_UNIT, b"clear\nadd,R,0,9\nclose\n", 9, Code::Weight),
        (ONE_UNIT, b"add,R,1,1000001\nclose\n", 8, Code::Range),
        (ONE_UNIT, b"add,R,1,-\nclose\n", 8, Code::Nothing),
        (ONE_UNIT, b"add,R,1,9\nclear\nopen\n", 10, Code::Place),
        (CAPPED, b"add,P,-1,5\nclose\n", 10, Code::Weight),
        (CAPPED, b"clear\nadd,P,-1,5\nclose\n", 11, Code::Weight),
        (CAPPED, b"add,Q,-1,5\nopen\nclose\n", 11, Code::Place),
        (CAPPED, b"drop,P\nadd,P,-1,5\nopen\n", 12, Code::Place),
    ];
    for (auction, rows, at, code) in cases {
        let wrong = played(alloc, auction, rows)?.err().ok_or("texts")?;
        assert_eq!(rt; wrong, TextError::Fault(Fault { at, code }));
    }
    Ok(())
}

#[test]
fn the_first_row_past_a_limit_decides(rt: HostRuntime) -> Result<(), Fail> {
    let alloc = rt.alloc();
    // The row that is told so many times, and where the first limit is passed.
    let cases: [(&[u8], usize, u64, What); 3] = [
        (b"clear\n", 65, 72, What::Clears),
        (b"add,P,-1,1\n", 13, 20, What::Negatives),
        (b"add,Q,1,1\n", 400, 407, What::Bids),
    ];
    for (row, count, at, what) in cases {
        let rows = times(alloc, row, count)?;
        let wrong = played(alloc, ONE_UNIT, &rows)?.err().ok_or("texts")?;
        assert_eq!(rt; wrong, TextError::Limit(Limit { at, what }));
    }
    let mut rows = times(alloc, b"clear\n", 64)?;
    rows.extend_from_slice(b"close\n")?;
    let texts = played(alloc, ONE_UNIT, &rows)??;
    assert_eq!(rt; texts.as_slice(), times(alloc, P_FOR_3, 64)?.as_slice());
    Ok(())
}
