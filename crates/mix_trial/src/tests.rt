// What is made and printed where memory is ample.
use crate::printing::print_auction;
use crate::trial::make;
use mix_num::Memory;
use mix_text::{no_rest, read_auction};
use std::alloc::Global;
use std::test::Fail;

// X bids for either good and for both, and takes back a lower bid for both; Y bids for one good.
const AUCTION: &[u8] =
    b"mix,1\ngoods,A,B\nsupply,1,1\nreserve,0,0\nbid,X,1,4,-\nbid,X,1,-,4\nbid,X,1,6,6\nbid,X,-1,4,4\nbid,Y,1,5,-\nend\n";

// The same, the bid of Y in between, with marks, quotes and blank lines.
const UNTIDY: &[u8] =
    b"\xEF\xBB\xBFmix,1\r\n\r\ngoods,A,B,,\nsupply,\"1\",1\nreserve,0,0\nbid,X,1,4,-\nbid,Y,1,5,-\nbid,X,1,-,4\nbid,X,1,6,6\n\nbid,X,-1,4,4\nend";

#[test]
fn texts(rt: HostRuntime) -> Result<(), Fail> {
    let alloc = rt.alloc();
    for given in [AUCTION, UNTIDY] {
        let (auction, rest) = read_auction(alloc, given)?;
        no_rest(&rest)?;
        let text = print_auction(alloc, &auction).ok().ok_or("a text")?;
        assert_eq!(rt; text.as_slice(), AUCTION);
    }
    Ok(())
}

// From format 2 on the tie order is stated, also where the text that was read leaves it out; in format 3 the caps stand before it, in
// the order of the bidders.
#[test]
fn orders_and_caps(rt: HostRuntime) -> Result<(), Fail> {
    let alloc = rt.alloc();
    let cases: [(&[u8], &[u8]); 4] = [
        (
            b"mix,2\ngoods,A\nsupply,1\nreserve,0\nbid,P,1,5\nbid,Q,1,5\norder,Q,P\nend\n",
            b"mix,2\ngoods,A\nsupply,1\nreserve,0\nbid,P,1,5\nbid,Q,1,5\norder,Q,P\nend\n",
        ),
        (
            b"mix,2\ngoods,A\nsupply,1\nreserve,0\nbid,P,1,5\nbid,Q,1,5\nend\n",
            b"mix,2\ngoods,A\nsupply,1\nreserve,0\nbid,P,1,5\nbid,Q,1,5\norder,P,Q\nend\n",
        ),
        (
            b"mix,3\ngoods,A\nsupply,4\nreserve,0\nbid,P,1,5\nbid,Q,2,5\nbid,R,3,4\ncap,P,1000000\ncap,R,0\norder,R,P,Q\nend\n",
            b"mix,3\ngoods,A\nsupply,4\nreserve,0\nbid,P,1,5\nbid,Q,2,5\nbid,R,3,4\ncap,P,1000000\ncap,R,0\norder,R,P,Q\nend\n",
        ),
        (
            b"mix,3\ngoods,A\nsupply,4\nreserve,0\nbid,P,1,5\nbid,Q,2,5\nbid,R,3,4\ncap,R,0\ncap,Q,1\nend\n",
            b"mix,3\ngoods,A\nsupply,4\nreserve,0\nbid,P,1,5\nbid,Q,2,5\nbid,R,3,4\ncap,Q,1\ncap,R,0\norder,P,Q,R\nend\n",
        ),
    ];
    for (given, wanted) in cases {
        if given.len() > 1000 {
            return Err("a short text".into());
        }
        let (auction, rest) = read_auction(alloc, given)?;
        no_rest(&rest)?;
        let text = print_auction(alloc, &auction).ok().ok_or("a text")?;
        assert_eq!(rt; text.as_slice(), wanted);
    }
    Ok(())
}

// The text of the trial auction of a number.
fn trial_text(alloc: Global, seed: u64) -> Result<Vec<u8>, Memory> {
    let auction = make(alloc, seed)?;
    print_auction(alloc, &auction)
}

// A trial auction: its number, how long its text is, and how that begins and ends.
#[derive(Drop)]
struct Trial {
    seed: u64,
    length: usize,
    first: &'static [u8],
    last: &'static [u8],
}

// The numbers were drawn apart from this program, by the generator's definition and the order of the draws.
#[test]
fn trials(rt: HostRuntime) -> Result<(), Fail> {
    let alloc = rt.alloc();
    let cases = [
        Trial {
            seed: 1,
            length: 31673,
            first: b"mix,1\ngoods,A,B,C,D,E\nsupply,174,114,117,184,135\nreserve,80,84,12,36,36\nbid,B01,2,-,-,450,-,-\nbid,B01,2,-,-,-,117,-\nbid,B01,2,-,-,558,225,-\nbid,B01,-2,-,-,450,117,-\n",
            last: b"\nbid,B40,9,-,-,949,-,842\nbid,B40,5,863,235,-,-,-\nend\n",
        },
        Trial {
            seed: 0,
            length: 31669,
            first: b"mix,1\ngoods,A,B,C,D,E\nsupply,107,127,175,154,175\nreserve,69,10,66,52,38\nbid,B01,3,-,-,398,-,-\nbid,B01,3,-,-,-,590,-\nbid,B01,3,-,-,463,655,-\nbid,B01,-3,-,-,398,590,-\n",
            last: b"\nbid,B40,4,907,252,-,-,-\nbid,B40,7,208,165,-,-,268\nend\n",
        },
        Trial {
            seed: 4294967295,
            length: 31648,
            first: b"mix,1\ngoods,A,B,C,D,E\nsupply,140,146,174,188,134\nreserve,89,55,97,62,59\nbid,B01,6,-,-,-,-,318\nbid,B01,6,-,-,782,-,-\nbid,B01,6,-,-,854,-,390\nbid,B01,-6,-,-,782,-,318\n",
            last: b"\nbid,B40,3,28,-,-,772,-\nbid,B40,6,-,-,268,947,16\nend\n",
        },
    ];
    for case in &cases {
        let text = trial_text(alloc, case.seed).ok().ok_or("a text")?;
        assert_eq!(rt; text.len(), case.length);
        assert!(rt; text.starts_with(case.first));
        assert!(rt; text.ends_with(case.last));
    }
    Ok(())
}
