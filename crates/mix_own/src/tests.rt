// Trades and a gross supply worked out by hand, where memory is ample.
ghost use Rattle.std.specs.Prelude.{◌≡◌, ◌≤ℤ◌, ◌∷◌, [], length, pos, All, IfSome};
ghost use Rattle.mix_num.specs.Sellers.{AreAmounts, IsAmount};

use crate::{Owned, TradeList, gross, trades};
use mix_answer::{Answer, Share, Shares, Tights};
use mix_num::Bundle;
use mix_text::{Auction, no_rest, read_auction};
use std::alloc::Global;
use std::test::Fail;

// Two bidders, and two goods whose reserve is 0.
const AUCTION: &[u8] =
    b"mix,1\ngoods,A,B\nsupply,2,1\nreserve,0,0\nbid,P,1,4,-\nbid,Q,1,-,4\nend\n";

// An amount of each of two goods.
fn pair(first: i64, second: i64) -> Bundle
    requires first { IsAmount first }
    requires second { IsAmount second }
    ensures value { result.items ≡ first ∷ second ∷ [] }
    ensures range { AreAmounts 2 result.items }
{
    let mut both = Bundle::new();
    both.push(first);
    both.push(second);
    both
}

// The first of two bidders owns a unit of the first of two goods, and the second bidder one of the second good.
fn one_each(alloc: Global) -> Option<Owned>
    ensures { IfSome result (λ owned. owned ≡ (pos 1 ∷ pos 0 ∷ []) ∷ (pos 0 ∷ pos 1 ∷ []) ∷ []) }
{
    let Ok(mut owned) = Owned::nothing(alloc, 2, 2) else {
        return None;
    };
    owned.set(0, pair(1, 0));
    owned.set(1, pair(0, 1));
    Some(owned)
}

// The shares of two bidders: the first gets a unit of the second good, and the second a unit of the first.
fn swapped(alloc: Global) -> Option<Shares>
    ensures count { IfSome result (λ shares. length shares ≡ 2) }
    ensures bundles { IfSome result (λ shares. All (λ share. AreAmounts 2 share.bundle.items) shares) }
{
    let mut shares = Shares::new(alloc);
    let first = Share {
        bundle: pair(0, 1),
        payment: 5,
    };
    let Ok(()) = shares.push(first) else {
        return None;
    };
    let second = Share {
        bundle: pair(1, 0),
        payment: 3,
    };
    let Ok(()) = shares.push(second) else {
        return None;
    };
    Some(shares)
}

// The trades of these bidders where the goods cost 3 and 5.
fn swaps(alloc: Global) -> Option<TradeList> {
    let owned = one_each(alloc)?;
    let shares = swapped(alloc)?;
    let answer = Answer {
        prices: pair(3, 5),
        shares,
        returns: pair(0, 0),
        tights: Tights::new(alloc),
    };
    trades(alloc, &owned, &answer).ok()
}

// The gross supply where these bidders own, if the auction is of two bidders and of two goods whose reserve is 0.
fn gross_supply(alloc: Global, auction: &Auction) -> Option<Bundle> {
    if auction.count() != 2 || auction.goods.len() != 2 {
        return None;
    }
    if auction.reserve[0] != 0 || auction.reserve[1] != 0 {
        return None;
    }
    if auction.supply[0] == 1_000_000 || auction.supply[1] == 1_000_000 {
        return None;
    }
    let owned = one_each(alloc)?;
    match gross(alloc, auction, &owned) {
        Ok(gross) => Some(gross.supply),
        Err(_) => None,
    }
}

#[test]
fn trades_of_a_swap(rt: HostRuntime) -> Result<(), Fail> {
    let list = swaps(rt.alloc()).ok_or("trades")?;
    assert_eq!(rt; list.len(), 2);
    assert_eq!(rt; list.is_empty(), false);
    let cases: [(usize, &[i64], i64); 2] = [(0, &[-1, 1], 2), (1, &[1, -1], -2)];
    for (k, net, payment) in cases {
        if k < list.len() {
            assert_eq!(rt; list.get(k).net.as_slice(), net);
            assert_eq!(rt; list.get(k).payment, payment);
        }
    }
    Ok(())
}

#[test]
fn supply_and_what_is_owned(rt: HostRuntime) -> Result<(), Fail> {
    let alloc = rt.alloc();
    let (auction, rest) = read_auction(alloc, AUCTION)?;
    no_rest(&rest)?;
    let supply = gross_supply(alloc, &auction).ok_or("a supply")?;
    assert_eq!(rt; supply.as_slice(), [3, 2].as_slice());
    Ok(())
}

#[test]
fn bidders_that_own(rt: HostRuntime) -> Result<(), Fail> {
    let owned = one_each(rt.alloc()).ok_or("owned")?;
    assert_eq!(rt; owned.count(), 2);
    let cases: [(usize, &[i64]); 2] = [(0, &[1, 0]), (1, &[0, 1])];
    for (k, bundle) in cases {
        if k < owned.count() {
            assert_eq!(rt; owned.get(k).as_slice(), bundle);
        }
    }
    Ok(())
}
