// Guesses in markets of two bidders for two goods. The least prices were worked out by hand.
ghost use Rattle.std.specs.Prelude.{◌≡◌, ◌<◌, ◌≤ℤ◌, pos, suc, length, IfOk, OnOk};
ghost use Rattle.mix_num.specs.Sellers.{AreAmounts, IsAmount};
ghost use Rattle.mix_bids.specs.Bids.{IsBid};
ghost use Rattle.mix_bids.specs.Caps.{ArePositive};
ghost use Rattle.mix_cap.specs.Cappeds.{book_of as capped_book_of};
ghost use Rattle.mix_validity.specs.ValidLists.{book_of};

use crate::guess_prices;
use mix_bids::{Bid, BidList, Values};
use mix_cap::{Capped, Member};
use mix_market::{Market, Seller};
use mix_num::{Bundle, Memory};
use mix_validity::{ValidList, validate};
use std::alloc::Global;
use std::test::Fail;

/// A number for each of two goods.
fn pair(first: i64, second: i64) -> Bundle
    requires first { IsAmount first }
    requires second { IsAmount second }
    ensures { AreAmounts 2 result.items }
{
    let mut both = Bundle::new();
    both.push(first);
    both.push(second);
    both
}

/// A bid for so many units of one of two goods, whichever leaves more. Each number is brought into its range.
fn bid(units: i64, first: i64, second: i64) -> Bid
    ensures bid { IsBid 2 result }
    ensures weight { pos 1 ≤ℤ result.weight }
{
    bid_within(
        units.clamp(1, 10_000),
        first.clamp(0, 1_000_000),
        second.clamp(0, 1_000_000),
    )
}

/// The bid of these numbers.
fn bid_within(weight: i64, first: i64, second: i64) -> Bid
    requires weight { (pos 1 ≤ℤ weight) × (weight ≤ℤ pos 10000) }
    requires first { IsAmount first }
    requires second { IsAmount second }
    ensures bid { IsBid 2 result }
    ensures weight { result.weight ≡ weight }
{
    let mut values = Values::new();
    values.push(Some(first));
    values.push(Some(second));
    Bid { weight, values }
}

/// A bidder with one bid.
fn bidder(alloc: Global, bid: Bid) -> Result<ValidList, Fail>
    requires bid { IsBid 2 bid }
    ensures { IfOk result (λ bidder. (book_of bidder).goods ≡ 2) }
{
    let mut list = BidList::new(alloc, 2);
    list.push(bid).ok().ok_or("memory")?;
    Ok(validate(alloc, list).ok().ok_or("not convex")?)
}

/// Adds a bid of positive weight.
fn add(list: &mut BidList, bid: Bid) -> Result<(), Memory>
    requires bid { IsBid list.old.goods bid }
    requires weight { pos 1 ≤ℤ bid.weight }
    requires room { length list.old.bids < 400 }
    requires positive { ArePositive list.old.bids }
    ensures goods { OnOk result (list.new.goods ≡ list.old.goods) }
    ensures size { OnOk result (length list.new.bids ≡ suc (length list.old.bids)) }
    ensures positive { OnOk result (ArePositive list.new.bids) }
{
    list.push(bid)
}

/// A bidder with two bids and a cap, which is brought into its range.
fn capped(alloc: Global, cap: i64, one: Bid, two: Bid) -> Result<Capped, Memory>
    requires one { IsBid 2 one × (pos 1 ≤ℤ one.weight) }
    requires two { IsBid 2 two × (pos 1 ≤ℤ two.weight) }
    ensures { IfOk result (λ bidder. (capped_book_of bidder).goods ≡ 2) }
{
    let mut list = BidList::new(alloc, 2);
    add(&mut list, one)?;
    add(&mut list, two)?;
    Ok(Capped::new(list, cap.clamp(0, 1_000_000)))
}

#[test]
fn guesses_well(rt: HostRuntime) -> Result<(), Fail> {
    // The reserves, what each bidder offers for two units of one of the two goods, and the least prices. There is one unit of each.
    let rows = [
        ((0, 0), (10, 0), (0, 4), (10, 4)),
        ((800, 100), (10, 0), (0, 4), (800, 100)),
        ((0, 0), (9, 0), (0, 0), (9, 0)),
        ((0, 0), (5, 5), (0, 0), (0, 0)),
        ((0, 0), (10, 8), (10, 8), (10, 8)),
        ((0, 3), (900_000, 300_000), (0, 400_000), (900_000, 400_000)),
        (
            (0, 0),
            (1_000_000, 1),
            (1_000_000, 999_999),
            (1_000_000, 999_999),
        ),
    ];
    for (reserve, one, two, prices) in rows {
        let seller = Seller::new(&pair(1, 1), &pair(reserve.0, reserve.1));
        let mut members = Vec::new(rt.alloc());
        members.push(Member::List(bidder(rt.alloc(), bid(2, one.0, one.1))?))?;
        members.push(Member::List(bidder(rt.alloc(), bid(2, two.0, two.1))?))?;
        let guess = guess_prices(&Market::new(members, seller));
        assert_eq!(rt; guess.as_slice(), [prices.0, prices.1].as_slice());
    }
    Ok(())
}

#[test]
fn guesses_well_under_caps(rt: HostRuntime) -> Result<(), Fail> {
    // The supply, a cap and two bids, the one bid of another bidder, and the least prices.
    let rows = [
        // One unit of good 1 is all that the first takes, so that good 2 is left to the other.
        ((1, 1), 1, (1, 5, 0), (1, 0, 4), (1, 3, 3), (0, 0)),
        ((1, 1), 2, (1, 5, 0), (1, 0, 4), (1, 3, 3), (3, 3)),
        // Of three units two are let through, and there are two.
        ((2, 1), 2, (1, 9, 0), (2, 7, 0), (1, 0, 0), (0, 0)),
        ((2, 1), 3, (1, 9, 0), (2, 7, 0), (1, 0, 0), (7, 0)),
        // A hundred units gain the same, and only one of them is let through.
        ((1, 1), 1, (100, 9, 9), (1, 9, 9), (2, 3, 3), (3, 3)),
        ((1, 1), 101, (100, 9, 9), (1, 9, 9), (2, 3, 3), (9, 9)),
        ((1, 1), 0, (100, 9, 9), (1, 9, 9), (2, 3, 3), (0, 0)),
        (
            (2, 3),
            2,
            (500, 900_000, 0),
            (500, 0, 800_000),
            (4, 300_000, 200_000),
            (300_000, 200_000),
        ),
    ];
    for (supply, cap, one, two, other, prices) in rows {
        let seller = Seller::new(&pair(supply.0, supply.1), &pair(0, 0));
        let mut members = Vec::new(rt.alloc());
        let capped = capped(
            rt.alloc(),
            cap,
            bid(one.0, one.1, one.2),
            bid(two.0, two.1, two.2),
        );
        members.push(Member::Capped(capped.ok().ok_or("memory")?))?;
        let list = bidder(rt.alloc(), bid(other.0, other.1, other.2))?;
        members.push(Member::List(list))?;
        let guess = guess_prices(&Market::new(members, seller));
        assert_eq!(rt; guess.as_slice(), [prices.0, prices.1].as_slice());
    }
    Ok(())
}
