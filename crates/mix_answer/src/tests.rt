// Which text is printed for a refusal where memory is ample.
ghost use Rattle.std.specs.Prelude.{◌≡◌};
ghost use Rattle.mix_num.specs.Ranges.{AreWithin};

use crate::outcome::Outcome;
use crate::printing::print_outcome;
use crate::refusal::Refusal;
use mix_num::Prices;
use mix_text::{Auction, no_rest, read_auction};
use std::alloc::Global;
use std::test::Fail;

// X bids for either good alone, and takes back a bid for both.
const AUCTION: &[u8] =
    b"mix,1\ngoods,A,B\nsupply,1,1\nreserve,0,0\nbid,X,1,6,-\nbid,X,1,-,6\nbid,X,-1,6,6\nend\n";

// A price of 5 for each of two goods.
fn fives() -> Prices
    ensures { AreWithin 2000000 2 result.items }
{
    let mut prices = Prices::new();
    prices.push(5);
    prices.push(5);
    prices
}

// What is printed where the first bidder is refused for these choices of two goods, with weight -1 at a price of 5 each.
fn refusal_text(alloc: Global, auction: &Auction, first: usize, second: usize) -> Option<Vec<u8>> {
    if auction.count() == 0 || auction.goods.len() != 2 || first >= second || second > 2 {
        return None;
    }
    let refusal = Refusal {
        bidder: 0,
        first,
        second,
        prices: fives(),
        weight: -1,
    };
    print_outcome(alloc, auction, &Outcome::Refused(refusal)).ok()
}

#[test]
fn refusals(rt: HostRuntime) -> Result<(), Fail> {
    let alloc = rt.alloc();
    let (auction, rest) = read_auction(alloc, AUCTION)?;
    no_rest(&rest)?;
    let cases: [(usize, usize, &[u8]); 2] = [
        (1, 2, b"outcome,1\nrefused,X,A,B,5,5,-1\nend\n"),
        (0, 2, b"outcome,1\nrefused,X,-,B,5,5,-1\nend\n"),
    ];
    for (first, second, text) in cases {
        let printed = refusal_text(alloc, &auction, first, second).ok_or("a text")?;
        assert_eq!(rt; printed.as_slice(), text);
    }
    Ok(())
}
