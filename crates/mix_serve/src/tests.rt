// Auctions whose bidders are taken in or refused, where memory is ample.
use crate::{Admitted, admit};
use mix_text::read_auction;
use std::test::Fail;

// X bids for the goods as substitutes, Y for the first alone.
const VALID: &[u8] =
    b"mix,1\ngoods,A,B\nsupply,1,1\nreserve,0,0\nbid,X,1,4,-\nbid,X,1,-,4\nbid,X,1,6,6\nbid,X,-1,4,4\nbid,Y,1,5,-\nend\n";

// P takes back two bids that it never made, and Q one, after the one bid of O.
const INVALID: &[u8] =
    b"mix,1\ngoods,A\nsupply,1\nreserve,0\nbid,O,1,3\nbid,P,-1,5\nbid,P,-1,5\nbid,Q,-1,5\nend\n";

#[test]
fn takes_in_all_bidders(rt: HostRuntime) -> Result<(), Fail> {
    let alloc = rt.alloc();
    let (auction, _) = read_auction(alloc, VALID)?;
    let Admitted::Market(market) = admit(alloc, &auction).ok().ok_or("memory")? else {
        return Err("a market".into());
    };
    assert_eq!(rt; market.members().len(), 2);
    assert_eq!(rt; market.total(), 3);
    assert_eq!(rt; market.seller().supply().as_slice(), [1, 1].as_slice());
    Ok(())
}

#[test]
fn refuses_the_first(rt: HostRuntime) -> Result<(), Fail> {
    let alloc = rt.alloc();
    let (auction, _) = read_auction(alloc, INVALID)?;
    let Admitted::Refused(refusal) = admit(alloc, &auction).ok().ok_or("memory")? else {
        return Err("a refusal".into());
    };
    assert_eq!(rt; (refusal.bidder, refusal.first, refusal.second), (1, 0, 1));
    assert_eq!(rt; refusal.prices.as_slice(), [5].as_slice());
    assert_eq!(rt; refusal.weight, -2);
    Ok(())
}
