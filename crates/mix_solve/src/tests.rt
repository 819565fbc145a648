// Auctions that are solved, where memory is ample. The answers were worked out by hand.
ghost use Rattle.std.specs.Prelude.{◌≡◌, ◌≤◌, length};
ghost use Rattle.mix_num.specs.Ranges.{AreWithin};
ghost use Rattle.mix_num.specs.Sellers.{AreAmounts, IsAmount};
ghost use Rattle.mix_market.specs.Markets.{goods_of};

use crate::{least_prices, solve};
use mix_answer::{Outcome, print_outcome};
use mix_cap::Member;
use mix_descent::{descend, descend_near};
use mix_market::Market;
use mix_num::Prices;
use mix_serve::{Admitted, admit};
use mix_step::Steps;
use mix_text::read_auction;
use std::alloc::Global;
use std::marker::Brand;
use std::sync::ledger::{Blank, Ledger};
use std::test::Fail;

// X bids for the goods as substitutes, Y for the first alone.
const VALID: &[u8] =
    b"mix,1\ngoods,A,B\nsupply,1,1\nreserve,0,0\nbid,X,1,4,-\nbid,X,1,-,4\nbid,X,1,6,6\nbid,X,-1,4,4\nbid,Y,1,5,-\nend\n";

// Two bidders who each want one good, whichever it is.
const TIED: &[u8] = b"mix,1\ngoods,A,B\nsupply,1,1\nreserve,0,0\nbid,P,1,5,5\nbid,Q,1,5,5\nend\n";

// Three bidders for one unit, which goes to the one who is served first.
const THREE: &[u8] =
    b"mix,2\ngoods,A\nsupply,1\nreserve,0\nbid,P,1,5\nbid,Q,1,5\nbid,R,1,5\norder,R,P,Q\nend\n";

const THREE_SOLVED: &[u8] =
    b"outcome,2\norder,R,P,Q\ncleared\nprice,5\nshare,P,0,0\nshare,Q,0,0\nshare,R,1,5\nreturn,0\ntight,P,A,3,1\ntight,Q,A,3,1\ntight,R,A,2,0\nend\n";

// X gets the lesser of what the two goods leave it: that is not convex where A and B cost the same, 5 at most.
const COMPLEMENTS: &[u8] =
    b"mix,1\ngoods,A,B\nsupply,1,1\nreserve,0,0\nbid,X,1,6,-\nbid,X,1,-,6\nbid,X,-1,6,6\nend\n";

// Of A there are two units for three bids: the least of them, 750,001, is the price. Of B there is one for two, and Z, who is left out,
// would pay 900,000.
const WIDE: &[u8] =
    b"mix,1\ngoods,A,B\nsupply,2,1\nreserve,1000,0\nbid,X,1,1000000,-\nbid,X,1,-,999999\nbid,Y,2,750001,250000\nbid,Z,1,500003,900000\nend\n";

// P bids for three units and takes at most two of them, so that one is left.
const CAPPED: &[u8] =
    b"mix,3\ngoods,A\nsupply,3\nreserve,0\nbid,P,1,9\nbid,P,1,7\nbid,P,1,5\ncap,P,2\nend\n";

// P takes one of the two goods, rather A, and leaves B to Q.
const ONE_OF_TWO: &[u8] =
    b"mix,3\ngoods,A,B\nsupply,1,1\nreserve,0,0\nbid,P,1,5,-\nbid,P,1,-,4\nbid,Q,1,3,3\ncap,P,1\nend\n";

// The same bids without a cap: P takes both goods, at prices at which Q would as soon have none.
const BOTH: &[u8] =
    b"mix,3\ngoods,A,B\nsupply,1,1\nreserve,0,0\nbid,P,1,5,-\nbid,P,1,-,4\nbid,Q,1,3,3\nend\n";

// The cap is that of Q, who takes no more than one unit anyway.
const OTHER_CAPPED: &[u8] =
    b"mix,3\ngoods,A,B\nsupply,1,1\nreserve,0,0\nbid,P,1,5,-\nbid,P,1,-,4\nbid,Q,1,3,3\ncap,Q,1\nend\n";

// Q, who is capped to nothing, would pay the more.
const NOTHING: &[u8] = b"mix,3\ngoods,A\nsupply,1\nreserve,0\nbid,P,1,3\nbid,Q,1,5\ncap,Q,0\nend\n";

// All of P's units gain the same, and it takes one of them; Q bids for both goods at 3.
const ONE_OF_MANY: &[u8] =
    b"mix,3\ngoods,A,B\nsupply,1,1\nreserve,0,0\nbid,P,100,9,9\nbid,Q,2,3,3\ncap,P,1\nend\n";

/// The market of an auction of two goods that is taken in.
fn market_of(alloc: Global, text: &[u8]) -> Result<Market<Member>, Fail>
    requires { length text.now ≤ 4194304 }
{
    let (auction, _) = read_auction(alloc, text)?;
    let Admitted::Market(market) = admit(alloc, &auction).ok().ok_or("memory")? else {
        return Err("a market".into());
    };
    Ok(market)
}

/// A price for each of two goods.
fn pair(first: i64, second: i64) -> Prices
    requires first { IsAmount first }
    requires second { IsAmount second }
    ensures { AreWithin 1000000 2 result.items }
{
    let mut both = Prices::new();
    both.push(first);
    both.push(second);
    both
}

/// The end of the climb from the start, on a ledger of its own.
fn climbed<L: Ledger>(market: &Market<Member>, start: &Prices, blank: Blank) -> Prices
    requires start { AreWithin 1000000 (goods_of market.now) start.now.items }
    requires name { blank.name ≡ L.name }
    requires parts { blank.parts ≡ L.parts }
    requires some { blank.parts ≡ 1 }
{
    let mut steps = Steps::<L>::new(blank);
    descend(market, start, &mut steps)
}

/// The least prices, looked for near a guess, on a ledger of its own.
fn found_near<L: Ledger>(market: &Market<Member>, guess: &Prices, blank: Blank) -> Prices
    requires guess { AreWithin 1000000 (goods_of market.now) guess.now.items }
    requires name { blank.name ≡ L.name }
    requires parts { blank.parts ≡ L.parts }
    requires some { blank.parts ≡ 1 }
{
    let mut steps = Steps::<L>::new(blank);
    descend_near(market, guess, &mut steps)
}

#[test]
fn finds_the_same_least_prices_however_it_looks(rt: HostRuntime) -> Result<(), Fail> {
    let rows = [
        (VALID, 0, 0, 4, 0),
        (TIED, 0, 0, 0, 0),
        (WIDE, 1_000, 0, 750_001, 900_000),
    ];
    // The reserves, the greatest prices, and one good wrong by much or by little.
    let guesses = [
        (1_000, 0),
        (1_000_000, 1_000_000),
        (4, 1_000_000),
        (750_001, 0),
        (750_002, 900_000),
        (750_001, 899_999),
    ];
    for (text, first_reserve, second_reserve, first, second) in rows {
        let market = market_of(rt.alloc(), text)?;
        if market.seller().supply().len() != 2 {
            return Err("two goods".into());
        }
        assert_eq!(rt;
            least_prices(&market).as_slice(),
            [first, second].as_slice()
        );
        let reserves = pair(first_reserve, second_reserve);
        let end = climbed::<Brand>(&market, &reserves, Blank::new(1));
        assert_eq!(rt; end.as_slice(), [first, second].as_slice());
        for (first_guess, second_guess) in guesses {
            let guess = pair(first_guess, second_guess);
            let found = found_near::<Brand>(&market, &guess, Blank::new(1));
            assert_eq!(rt; found.as_slice(), [first, second].as_slice());
        }
    }
    Ok(())
}

#[test]
fn the_first_who_is_served_gets_the_unit(rt: HostRuntime) -> Result<(), Fail> {
    let alloc = rt.alloc();
    let (auction, _) = read_auction(alloc, THREE)?;
    let outcome = solve(alloc, &auction).ok().ok_or("memory")?;
    let printed = print_outcome(alloc, &auction, &outcome)
        .ok()
        .ok_or("memory")?;
    assert_eq!(rt; printed.as_slice(), THREE_SOLVED);
    Ok(())
}

#[test]
fn serves_no_more_than_the_caps(rt: HostRuntime) -> Result<(), Fail> {
    let alloc = rt.alloc();
    // A text, the prices, what the first bidder and what the last one gets, and what is left.
    for (text, prices, first, last, returns) in [
        (CAPPED, &[0][..], &[2][..], &[2][..], &[1][..]),
        (ONE_OF_TWO, &[0, 0], &[1, 0], &[0, 1], &[0, 0]),
        (BOTH, &[3, 3], &[1, 1], &[0, 0], &[0, 0]),
        (OTHER_CAPPED, &[3, 3], &[1, 1], &[0, 0], &[0, 0]),
        (NOTHING, &[0], &[1], &[0], &[0]),
        (ONE_OF_MANY, &[3, 3], &[1, 0], &[0, 1], &[0, 0]),
    ] {
        let (auction, _) = read_auction(alloc, text)?;
        let Outcome::Cleared(answer) = solve(alloc, &auction).ok().ok_or("memory")? else {
            return Err("an answer".into());
        };
        if answer.shares.len() == 0 {
            return Err("a bidder".into());
        }
        let others = answer.shares.len() - 1;
        assert_eq!(rt; answer.prices.as_slice(), prices);
        assert_eq!(rt; answer.shares.get(0).bundle.as_slice(), first);
        assert_eq!(rt; answer.shares.get(others).bundle.as_slice(), last);
        assert_eq!(rt; answer.returns.as_slice(), returns);
    }
    Ok(())
}

#[test]
fn refuses_complements(rt: HostRuntime) -> Result<(), Fail> {
    let alloc = rt.alloc();
    let (auction, _) = read_auction(alloc, COMPLEMENTS)?;
    let Outcome::Refused(refusal) = solve(alloc, &auction).ok().ok_or("memory")? else {
        return Err("a refusal".into());
    };
    assert_eq!(rt; (refusal.bidder, refusal.first, refusal.second), (0, 1, 2));
    assert_eq!(rt; refusal.weight, -1);
    Ok(())
}
