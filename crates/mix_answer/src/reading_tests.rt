// Outcomes read from the rows after an auction, and printed again, where memory is ample.
use crate::faults::OutcomeError;
use crate::printing::print_outcome;
use crate::reading::read_outcome;
use mix_text::{Code, Fault, read_auction};
use std::alloc::Global;
use std::test::Fail;

// Bids of one good at a reserve of 2: two of the three bidders get some of it.
const ONE_GOOD: &[u8] =
    b"mix,1\ngoods,A\nsupply,3\nreserve,2\nbid,P,2,10\nbid,Q,2,7\nbid,S,1,5\nend\n";

const ONE_GOOD_CLEARED: &[u8] =
    b"outcome,1\ncleared\nprice,7\nshare,P,2,14\nshare,Q,1,7\nshare,S,0,0\nreturn,0\ntight,P,A,2,0\ntight,Q,A,3,1\ntight,S,A,2,0\nend\n";

// A bid of negative weight; its bidder would like more than can be completed.
const TWO_GOODS: &[u8] =
    b"mix,1\ngoods,A,B\nsupply,1,1\nreserve,0,0\nbid,X,1,4,-\nbid,X,1,-,4\nbid,X,1,6,6\nbid,X,-1,4,4\nbid,Y,1,5,-\nend\n";

const TWO_GOODS_CLEARED: &[u8] =
    b"outcome,1\ncleared\nprice,4,0\nshare,X,0,1,0\nshare,Y,1,0,4\nreturn,0,0\ntight,X,A,3,1\ntight,X,B,4,0\ntight,Y,A,2,0\ntight,Y,B,4,0\nend\n";

// The rows of the second outcome, which are rows 11 to 21 of the text of both.
const LINES: [&[u8]; 11] = [
    b"outcome,1\n",
    b"cleared\n",
    b"price,4,0\n",
    b"share,X,0,1,0\n",
    b"share,Y,1,0,4\n",
    b"return,0,0\n",
    b"tight,X,A,3,1\n",
    b"tight,X,B,4,0\n",
    b"tight,Y,A,2,0\n",
    b"tight,Y,B,4,0\n",
    b"end\n",
];

// Two equal bids for one unit, the later bidder served first.
const STATED_ORDER: &[u8] =
    b"mix,2\ngoods,A\nsupply,1\nreserve,0\nbid,P,1,5\nbid,Q,1,5\norder,Q,P\nend\n";

const STATED_ORDER_CLEARED: &[u8] =
    b"outcome,2\norder,Q,P\ncleared\nprice,5\nshare,P,0,0\nshare,Q,1,5\nreturn,0\ntight,P,A,3,1\ntight,Q,A,2,0\nend\n";

// An auction and then an outcome.
fn both(alloc: Global, auction: &[u8], outcome: &[u8]) -> Result<Vec<u8>, Fail> {
    let mut text = auction.to_vec(alloc)?;
    text.extend_from_slice(outcome)?;
    Ok(text)
}

// The second auction and its outcome, whose row at a place is this line.
fn with_line(alloc: Global, place: usize, line: &[u8]) -> Result<Vec<u8>, Fail> {
    let mut text = TWO_GOODS.to_vec(alloc)?;
    for (k, own) in LINES.iter().enumerate() {
        text.extend_from_slice(if k == place { line } else { *own })?;
    }
    Ok(text)
}

// The outcome of a text as it is printed again, or the first fault.
fn read_and_print(alloc: Global, text: &[u8]) -> Result<Result<Vec<u8>, Fault>, Fail> {
    if text.len() > 16_777_216 {
        return Err("too long".into());
    }
    let (auction, rest) = read_auction(alloc, text)?;
    match read_outcome(alloc, &auction, &rest) {
        Ok(outcome) => {
            let printed = print_outcome(alloc, &auction, &outcome)
                .ok()
                .ok_or("memory")?;
            Ok(Ok(printed))
        }
        Err(OutcomeError::Fault(fault)) => Ok(Err(fault)),
        Err(OutcomeError::Memory) => Err("memory".into()),
    }
}

// The first fault of a text, if there is one.
fn fault_of(alloc: Global, text: &[u8]) -> Result<Option<Fault>, Fail> {
    Ok(read_and_print(alloc, text)?.err())
}

#[test]
fn outcomes_again(rt: HostRuntime) -> Result<(), Fail> {
    let alloc = rt.alloc();
    let cases: [(&[u8], &[u8]); 7] = [
        (ONE_GOOD, ONE_GOOD_CLEARED),
        (STATED_ORDER, STATED_ORDER_CLEARED),
        (
            STATED_ORDER,
            b"outcome,2\norder,Q,P\nrefused,P,-,A,4,-1\nend\n",
        ),
        (TWO_GOODS, TWO_GOODS_CLEARED),
        (TWO_GOODS, b"outcome,1\nrefused,X,A,B,5,5,-1\nend\n"),
        (
            TWO_GOODS,
            b"outcome,1\nrefused,Y,-,B,-2000000,0,-4000000\nend\n",
        ),
        (
            b"mix,1\ngoods,A\nsupply,4\nreserve,9\nend\n",
            b"outcome,1\ncleared\nprice,9\nreturn,4\nend\n",
        ),
    ];
    for (auction, outcome) in cases {
        let text = both(alloc, auction, outcome)?;
        let printed = read_and_print(alloc, &text)?.ok().ok_or("a fault")?;
        assert_eq!(rt; printed.as_slice(), outcome);
    }
    Ok(())
}

#[test]
fn faults_before_the_outcome(rt: HostRuntime) -> Result<(), Fail> {
    let alloc = rt.alloc();
    let cases: [(&[u8], u64, Code); 9] = [
        (b"outcome,1\norder,Q,P\ncleared\n", 9, Code::Range),
        (b"outcome,3\norder,Q,P\ncleared\n", 9, Code::Range),
        (b"outcome,two\norder,Q,P\ncleared\n", 9, Code::Number),
        (b"outcome,2\ncleared\n", 10, Code::Place),
        (b"outcome,2\norder,Q\ncleared\n", 10, Code::Fields),
        (b"outcome,2\norder,P,Q\ncleared\n", 10, Code::Other),
        (b"outcome,2\norder,Q,7\ncleared\n", 10, Code::Name),
        (b"outcome,2\norder,Q,P\norder,Q,P\n", 11, Code::Place),
        (b"outcome,2\n", 10, Code::End),
    ];
    for (outcome, at, code) in cases {
        let text = both(alloc, STATED_ORDER, outcome)?;
        assert_eq!(rt; fault_of(alloc, &text)?, Some(Fault { at, code }));
    }
    Ok(())
}

#[test]
fn faults_of_rows(rt: HostRuntime) -> Result<(), Fail> {
    let alloc = rt.alloc();
    let cases: [(usize, &[u8], u64, Code); 26] = [
        (0, b"mix,1\n", 11, Code::Place),
        (0, b"outcome\n", 11, Code::Fields),
        (0, b"outcome,one\n", 11, Code::Number),
        (0, b"outcome,2\n", 11, Code::Range),
        (1, b"paid\n", 12, Code::Place),
        (1, b"cleared,1\n", 12, Code::Fields),
        (2, b"price,4,1000001\n", 13, Code::Range),
        (3, b"share,Z,0,1,0\n", 14, Code::Other),
        (3, b"share,Y,0,1,0\n", 14, Code::Other),
        (3, b"share,7,0,1,0\n", 14, Code::Name),
        (3, b"share,X,0,1\n", 14, Code::Fields),
        (3, b"share,X,0,-1,0\n", 14, Code::Range),
        (3, b"share,X,0,1,05\n", 14, Code::Number),
        (4, b"share,Y,1,0,10000000000001\n", 15, Code::Range),
        (4, b"return,0,0\n", 15, Code::Place),
        (5, b"end\n", 16, Code::Place),
        (6, b"tight,Y,A,3,1\n", 17, Code::Other),
        (6, b"tight,X,B,3,1\n", 17, Code::Other),
        (7, b"tight,X,B,8,0\n", 18, Code::Range),
        (9, b"tight,Y,B,4\n", 20, Code::Fields),
        (10, b"", 21, Code::End),
        (10, b"ends\n", 21, Code::Place),
        (10, b"end,1\n", 21, Code::Fields),
        (10, b"end\nend\n", 22, Code::After),
        (1, b"refused,X,B,A,5,5,-1\n", 12, Code::Other),
        (1, b"refused,X,A,C,5,5,-1\n", 12, Code::Other),
    ];
    for (place, line, at, code) in cases {
        let text = with_line(alloc, place, line)?;
        assert_eq!(rt; fault_of(alloc, &text)?, Some(Fault { at, code }));
    }
    // The greatest payment, and a prefix of the rows.
    let most = with_line(alloc, 4, b"share,Y,1,0,10000000000000\n")?;
    assert_eq!(rt; fault_of(alloc, &most)?, None);
    let cut = both(
        alloc,
        TWO_GOODS,
        b"outcome,1\ncleared\nprice,4,0\nshare,X,0,1,0\n",
    )?;
    assert_eq!(rt;
        fault_of(alloc, &cut)?,
        Some(Fault {
            at: 15,
            code: Code::End
        })
    );
    Ok(())
}
