// Outcomes and trails on devices in memory, as worked out by hand, and outcomes handed to the checker.
use crate::calls::{AUCTION, MARK, MINGLED, ONE_GOOD, SPREAD, TWO_GOODS, call, gives, text_of};
use mix_trial::{make, print_auction};
use std::test::Fail;

// The outcome of the auction.
pub const OUTCOME: &[u8] =
    b"outcome,1\ncleared\nprice,4,0\nshare,X,0,1,0\nshare,Y,1,0,4\nreturn,0,0\ntight,X,A,3,1\ntight,X,B,4,0\ntight,Y,A,2,0\ntight,Y,B,4,0\nend\n";

// What it begins with, up to its first pair.
pub const UP_TO_PAIRS: &[u8] =
    b"outcome,1\ncleared\nprice,4,0\nshare,X,0,1,0\nshare,Y,1,0,4\nreturn,0,0\n";

// The same without its first two rows.
const SHARES: &[u8] = b"price,4,0\nshare,X,0,1,0\nshare,Y,1,0,4\nreturn,0,0\n";

// Its pairs after the first.
pub const LATER_PAIRS: &[u8] = b"tight,X,B,4,0\ntight,Y,A,2,0\ntight,Y,B,4,0\nend\n";

// Two grades of a good and three bidders, up to the last bid.
const GRADES: &[u8] =
    b"mix,1\ngoods,weak,strong\nsupply,30,20\nreserve,10,15\nbid,alpha,10,40,50\nbid,alpha,10,25,30\nbid,beta,15,35,-\nbid,gamma,8,-,60\nbid,gamma,12,20,45\n";

// Each outcome that is printed is handed to the checker, who says yes.
#[test]
fn outcomes_are_found_and_checked(rt: HostRuntime) -> Result<(), Fail> {
    let alloc = rt.alloc();
    let cases: [(&[u8], &[u8], &[u8], &[u8]); 12] = [
        (
            b"mix,1\ngoods,A\nsupply,3\nreserve,2\n",
            b"bid,P,2,10\nbid,Q,2,7\nbid,S,1,5\nend\n",
            b"",
            b"outcome,1\ncleared\nprice,7\nshare,P,2,14\nshare,Q,1,7\nshare,S,0,0\nreturn,0\ntight,P,A,2,0\ntight,Q,A,3,1\ntight,S,A,2,0\nend\n",
        ),
        (
            b"mix,1\ngoods,A\nsupply,4\nreserve,9\n",
            b"end\n",
            b"",
            b"outcome,1\ncleared\nprice,9\nreturn,4\nend\n",
        ),
        (
            b"mix,1\ngoods,A\nsupply,0\nreserve,0\n",
            b"bid,P,1,5\nend\n",
            b"",
            b"outcome,1\ncleared\nprice,5\nshare,P,0,0\nreturn,0\ntight,P,A,3,1\nend\n",
        ),
        (
            b"mix,1\ngoods,A\nsupply,2\nreserve,50\n",
            b"bid,P,1,10\nend\n",
            b"",
            b"outcome,1\ncleared\nprice,50\nshare,P,0,0\nreturn,2\ntight,P,A,2,0\nend\n",
        ),
        (
            TWO_GOODS,
            b"bid,P,1,5,-\nend\n",
            b"",
            b"outcome,1\ncleared\nprice,0,0\nshare,P,1,0,0\nreturn,0,1\ntight,P,A,2,0\ntight,P,B,4,0\nend\n",
        ),
        (
            ONE_GOOD,
            b"bid,P,1,5\nbid,Q,1,5\nend\n",
            b"",
            b"outcome,1\ncleared\nprice,5\nshare,P,1,5\nshare,Q,0,0\nreturn,0\ntight,P,A,2,0\ntight,Q,A,3,1\nend\n",
        ),
        (
            ONE_GOOD,
            b"bid,X,1,5\nbid,X,-1,5\nend\n",
            b"",
            b"outcome,1\ncleared\nprice,0\nshare,X,0,0\nreturn,1\ntight,X,A,2,0\nend\n",
        ),
        (
            TWO_GOODS,
            b"bid,P,1,5,5\nbid,Q,1,5,5\nend\n",
            b"",
            b"outcome,1\ncleared\nprice,0,0\nshare,P,1,0,0\nshare,Q,0,1,0\nreturn,0,0\ntight,P,A,2,0\ntight,P,B,6,0\ntight,Q,A,7,5\ntight,Q,B,4,0\nend\n",
        ),
        (AUCTION, b"", b"", OUTCOME),
        (MARK, SPREAD, b"end,,,,\r\n", OUTCOME),
        (TWO_GOODS, MINGLED, b"", OUTCOME),
        (
            GRADES,
            b"end\n",
            b"",
            b"outcome,1\ncleared\nprice,25,35\nshare,alpha,15,0,375\nshare,beta,15,0,375\nshare,gamma,0,20,700\nreturn,0,0\ntight,alpha,weak,3,1\ntight,alpha,strong,7,1\ntight,beta,weak,2,0\ntight,beta,strong,4,0\ntight,gamma,weak,2,0\ntight,gamma,strong,4,0\nend\n",
        ),
    ];
    for (front, middle, tail, output) in cases {
        let text = text_of(alloc, front, middle, 1, tail)?;
        let with_outcome = text_of(alloc, &text, output, 1, b"")?;
        assert!(rt; gives(alloc, "solve", text, 0, output)?);
        assert!(rt; gives(alloc, "check", with_outcome, 0, b"yes\n")?);
    }
    Ok(())
}

#[test]
fn the_steps_from_the_reserves_are_printed(rt: HostRuntime) -> Result<(), Fail> {
    let alloc = rt.alloc();
    let cases: [(&[u8], &[u8], &[u8]); 4] = [
        (
            b"mix,1\ngoods,A\nsupply,3\nreserve,2\n",
            b"bid,P,2,10\nbid,Q,2,7\nbid,S,1,5\nend\n",
            b"step,2,3,-2\nstep,2,2,-1\nprice,7\nend\n",
        ),
        (
            TWO_GOODS,
            b"bid,P,1,6,4\nbid,Q,1,6,4\nend\n",
            b"step,2,2,-1\nprice,2,0\nend\n",
        ),
        (
            ONE_GOOD,
            b"bid,P,1,1000000\nbid,Q,1,1000000\nend\n",
            b"step,2,1000000,-1\nprice,1000000\nend\n",
        ),
        (
            GRADES,
            b"end\n",
            b"step,4,5,-10\nstep,6,15,-5\nprice,25,35\nend\n",
        ),
    ];
    for (front, bids, output) in cases {
        let text = text_of(alloc, front, bids, 1, b"")?;
        assert!(rt; gives(alloc, "trail", text, 0, output)?);
    }
    Ok(())
}

// The outcome of the auction with some of its rows changed, and what the checker says of it.
#[test]
fn forged_outcomes(rt: HostRuntime) -> Result<(), Fail> {
    let alloc = rt.alloc();
    let head = b"outcome,1\ncleared\n";
    let cases: [(&[u8], &[u8], u8, &[u8]); 16] = [
        (SHARES, b"tight,X,A,3,1\n", 0, b"yes\n"),
        (
            b"price,5,0\nshare,X,0,1,0\nshare,Y,1,0,5\nreturn,0,0\n",
            b"tight,X,A,3,1\n",
            1,
            b"no,lower,2\n",
        ),
        (
            b"price,4,0\nshare,X,0,1,0\nshare,Y,1,0,5\nreturn,0,0\n",
            b"tight,X,A,3,1\n",
            1,
            b"no,pay,Y,4\n",
        ),
        (
            b"price,4,0\nshare,X,1,1,4\nshare,Y,1,0,4\nreturn,0,0\n",
            b"tight,X,A,3,1\n",
            1,
            b"no,sum,A,2\n",
        ),
        (SHARES, b"tight,X,A,2,0\n", 1, b"no,tight,X,A,1\n"),
        (
            b"price,4,1\nshare,X,0,1,0\nshare,Y,1,0,4\nreturn,0,0\n",
            b"tight,X,A,3,1\n",
            1,
            b"no,lower,4\n",
        ),
        (
            b"price,0,0\nshare,X,0,1,0\nshare,Y,1,0,4\nreturn,0,0\n",
            b"tight,X,A,3,1\n",
            1,
            b"no,demand,X,1\n",
        ),
        (
            b"price,4,0\nshare,X,0,1,0\nshare,Y,1,0,4\nreturn,0,1\n",
            b"tight,X,A,3,1\n",
            1,
            b"no,sum,B,2\n",
        ),
        (
            b"price,4,0\nshare,X,0,1,0\nshare,Y,0,0,0\nreturn,1,0\n",
            b"tight,X,A,3,1\n",
            1,
            b"no,return,A\n",
        ),
        (
            b"price,4,0\nshare,X,1,0,4\nshare,Y,0,1,0\nreturn,0,0\n",
            b"tight,X,A,3,1\n",
            1,
            b"no,demand,X,3\n",
        ),
        (SHARES, b"tight,X,A,3,0\n", 1, b"no,pair,X,A\n"),
        (
            b"price,4,0\nshare,Z,0,1,0\nshare,Y,1,0,4\nreturn,0,0\n",
            b"tight,X,A,3,1\n",
            3,
            b"fault,14,other\n",
        ),
        (
            b"price,4,0\nshare,X,0,1,0\nshare,Y,1,0,10000000000001\nreturn,0,0\n",
            b"tight,X,A,3,1\n",
            3,
            b"fault,15,range\n",
        ),
        (SHARES, b"tight,X,A,8,1\n", 3, b"fault,17,range\n"),
        (
            b"price,4,0\nshare,X,0,1,0\nshare,Y,1,0,10000000000000\nreturn,0,0\n",
            b"tight,X,A,3,1\n",
            1,
            b"no,pay,Y,4\n",
        ),
        (SHARES, b"tight,X,C,3,1\n", 3, b"fault,17,other\n"),
    ];
    for (shares, pair, status, output) in cases {
        let auction = text_of(alloc, AUCTION, head, 1, shares)?;
        let text = text_of(alloc, &auction, pair, 1, LATER_PAIRS)?;
        assert!(rt; gives(alloc, "check", text, status, output)?);
    }
    Ok(())
}

// Cut and doubled outcomes, those of another version or another auction, and refusals, true and not.
#[test]
fn outcomes_that_are_no_texts_and_refusals(rt: HostRuntime) -> Result<(), Fail> {
    let alloc = rt.alloc();
    let torn = b"bid,X,1,6,-\nbid,X,1,-,6\nbid,X,-1,6,6\n";
    let cases: [(&[u8], &[u8], &[u8], u8, &[u8]); 15] = [
        (
            AUCTION,
            b"outcome,2\ncleared\nprice,4,0\nshare,X,0,1,0\nshare,Y,1,0,4\nreturn,0,0\n",
            b"tight,X,A,3,1\ntight,X,B,4,0\ntight,Y,A,2,0\ntight,Y,B,4,0\nend\n",
            3,
            b"fault,11,range\n",
        ),
        (
            AUCTION,
            UP_TO_PAIRS,
            b"tight,X,A,3,1\ntight,X,B,4,0\ntight,Y,A,2,0\ntight,Y,B,4,0\n",
            3,
            b"fault,21,end\n",
        ),
        (AUCTION, b"outcome,1\ncleared\n", b"", 3, b"fault,13,end\n"),
        (AUCTION, OUTCOME, b"end\n", 3, b"fault,22,after\n"),
        (AUCTION, OUTCOME, OUTCOME, 3, b"fault,22,after\n"),
        (
            AUCTION,
            b"outcome,1\ncleared\nprice,7\nshare,P,2,14\nshare,Q,1,7\nshare,S,0,0\nreturn,0\n",
            b"tight,P,A,2,0\ntight,Q,A,3,1\ntight,S,A,2,0\nend\n",
            3,
            b"fault,13,fields\n",
        ),
        (
            AUCTION,
            b"outcome,1\ncleared\nprice,1000001,0\n",
            b"end\n",
            3,
            b"fault,13,range\n",
        ),
        (
            AUCTION,
            b"outcome,1\ncleared\nprice,4,0\nshare,Y,1,0,4\nshare,X,0,1,0\n",
            b"return,0,0\nend\n",
            3,
            b"fault,14,other\n",
        ),
        (
            AUCTION,
            b"outcome,1\nrefused,Z,A,B,5,5,-1\n",
            b"end\n",
            3,
            b"fault,12,other\n",
        ),
        (
            AUCTION,
            b"outcome,1\nrefused,X,A,B,5,5,-1\n",
            b"end\n",
            1,
            b"no,facet,1\n",
        ),
        (
            TWO_GOODS,
            torn,
            b"end\noutcome,1\nrefused,X,A,B,5,5,-1\nend\n",
            0,
            b"yes\n",
        ),
        (
            TWO_GOODS,
            torn,
            b"end\noutcome,1\nrefused,X,A,B,6,6,-1\nend\n",
            1,
            b"no,facet,0\n",
        ),
        (
            TWO_GOODS,
            torn,
            b"end\noutcome,1\nrefused,X,B,A,5,5,-1\nend\n",
            3,
            b"fault,10,other\n",
        ),
        (
            TWO_GOODS,
            torn,
            b"end\noutcome,1\ncleared\nprice,0,0\nshare,X,0,0,0\nreturn,1,1\ntight,X,A,2,0\ntight,X,B,4,0\nend\n",
            1,
            b"no,invalid,X\n",
        ),
        (
            TWO_GOODS,
            torn,
            b"bid,Z,1,6,-\nbid,Z,1,-,6\nbid,Z,-1,6,6\nend\noutcome,1\nrefused,Z,A,B,5,5,-1\nend\n",
            1,
            b"no,earlier,X\n",
        ),
    ];
    for (front, middle, tail, status, output) in cases {
        let text = text_of(alloc, front, middle, 1, tail)?;
        assert!(rt; gives(alloc, "check", text, status, output)?);
    }
    Ok(())
}

// What a refused auction prints, the checker takes.
#[test]
fn a_printed_refusal_is_true(rt: HostRuntime) -> Result<(), Fail> {
    let alloc = rt.alloc();
    let bids = b"bid,X,1,6,-\nbid,X,1,-,6\nbid,X,-1,6,6\nend\n";
    let text = text_of(alloc, TWO_GOODS, bids, 1, b"")?;
    let auction = text_of(alloc, &text, b"", 0, b"")?;
    let (status, sink) = call(alloc, &["solve"], text, Vec::new(alloc), 64)?;
    assert_eq!(rt; status, 1);
    let whole = text_of(alloc, &auction, sink.bytes(), 1, b"")?;
    assert!(rt; gives(alloc, "check", whole, 0, b"yes\n")?);
    Ok(())
}

// The trial auction of 1 by itself, and as a text that is handed to `prices`, which looks near a guess, and to `trail`, which climbs
// from the reserves: the prices are the same.
#[test]
fn a_trial_auction_is_priced(rt: HostRuntime) -> Result<(), Fail> {
    let alloc = rt.alloc();
    let auction = make(alloc, 1)?;
    let text = print_auction(alloc, &auction)?;
    let (status, priced) = call(alloc, &["prices"], text, Vec::new(alloc), 4096)?;
    assert_eq!(rt; status, 0);
    let text = print_auction(alloc, &auction)?;
    let (status, walked) = call(alloc, &["trail"], text, Vec::new(alloc), 65_536)?;
    assert_eq!(rt; status, 0);
    assert!(rt; walked.bytes().ends_with(priced.bytes()));
    let head = b"trial,1\nbidders,40\nbids,1280\nnegatives,160\n";
    let start = text_of(alloc, head, priced.bytes(), 1, b"")?;
    let length = start.len().saturating_sub(b"end\n".len());
    let (status, told) = call(
        alloc,
        &["trial", "1"],
        Vec::new(alloc),
        Vec::new(alloc),
        4096,
    )?;
    assert_eq!(rt; status, 0);
    assert!(rt; told.bytes().starts_with(&start[..length]));
    for number in ["0", "4294967295"] {
        let (status, _) = call(
            alloc,
            &["trial", number],
            Vec::new(alloc),
            Vec::new(alloc),
            4096,
        )?;
        assert_eq!(rt; status, 0);
    }
    Ok(())
}
