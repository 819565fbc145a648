// Capped bidders, worked out by hand.
ghost use Rattle.std.specs.Prelude.{◌≡◌, ◌≤◌, ◌<◌, ◌≤ℤ◌, pos, suc, length, IfOk, OnOk};
ghost use Rattle.mix_bids.specs.Bids.{IsBid};
ghost use Rattle.mix_bids.specs.Caps.{ArePositive};
ghost use Rattle.mix_num.specs.Ranges.{HaveRoom, Lies};

use crate::Capped;
use mix_bids::{Bid, BidList, Values};
use mix_law::Convex;
use mix_num::{Memory, Prices, Set};
use std::alloc::Global;
use std::test::Fail;

/// A bid of what is offered for each good.
fn bid(weight: i64, offers: &[Option<i64>]) -> Bid
    requires { length offers.now ≤ 8 }
    ensures { result ≡ record { weight = weight; values = record { items = offers.now } } }
{
    let mut values = Values::new();
    for offer in offers {
        values.push(*offer);
    }
    Bid { weight, values }
}

/// Adds a bid of positive weight.
fn add(list: &mut BidList, bid: Bid) -> Result<(), Memory>
    requires bid { IsBid list.old.goods bid }
    requires weight { pos 1 ≤ℤ bid.weight }
    requires room { length list.old.bids < 400 }
    requires positive { ArePositive list.old.bids }
    ensures goods { OnOk result (list.new.goods ≡ list.old.goods) }
    ensures size { OnOk result (length list.new.bids ≡ suc (length list.old.bids)) }
    ensures positive { OnOk result (ArePositive list.new.bids) }
{
    list.push(bid)
}

/// One unit each at 9, 7 and 5.
fn three(alloc: Global) -> Result<BidList, Memory>
    ensures goods { IfOk result (λ list. list.goods ≡ 1) }
    ensures positive { IfOk result (λ list. ArePositive list.bids) }
{
    let mut list = BidList::new(alloc, 1);
    add(&mut list, bid(1, &[Some(9)]))?;
    add(&mut list, bid(1, &[Some(7)]))?;
    add(&mut list, bid(1, &[Some(5)]))?;
    Ok(list)
}

/// Three units at 8 and two at 6.
fn five(alloc: Global) -> Result<BidList, Memory>
    ensures goods { IfOk result (λ list. list.goods ≡ 1) }
    ensures positive { IfOk result (λ list. ArePositive list.bids) }
{
    let mut list = BidList::new(alloc, 1);
    add(&mut list, bid(3, &[Some(8)]))?;
    add(&mut list, bid(2, &[Some(6)]))?;
    Ok(list)
}

/// One unit of the first good at 5, and one of the second at 4.
fn either(alloc: Global) -> Result<BidList, Memory>
    ensures goods { IfOk result (λ list. list.goods ≡ 2) }
    ensures positive { IfOk result (λ list. ArePositive list.bids) }
{
    let mut list = BidList::new(alloc, 2);
    add(&mut list, bid(1, &[Some(5), None]))?;
    add(&mut list, bid(1, &[None, Some(4)]))?;
    Ok(list)
}

/// A price for one good.
fn one(price: i64) -> Prices
    requires { Lies 3999999 price }
    ensures { HaveRoom 1 result.items }
{
    let mut prices = Prices::new();
    prices.push(price);
    prices
}

/// A price for each of two goods.
fn two(first: i64, second: i64) -> Prices
    requires first { Lies 3999999 first }
    requires second { Lies 3999999 second }
    ensures { HaveRoom 2 result.items }
{
    let mut prices = Prices::new();
    prices.push(first);
    prices.push(second);
    prices
}

#[test]
fn serves_the_greatest_gains(rt: HostRuntime) -> Result<(), Fail> {
    let capped = Capped::new(three(rt.alloc())?, 2);
    // A price, a set, and there the value, the fall and the gain.
    let rows = [
        (0, 2, 16, 2, 2),
        (6, 2, 4, 2, 2),
        (7, 2, 2, 1, 2),
        (8, 2, 1, 1, 1),
        (8, 1, 1, 1, 1),
    ];
    for (price, bits, value, fall, gain) in rows {
        let prices = one(price);
        let set = Set::from_bits(bits);
        assert_eq!(rt; capped.value(&prices), value);
        assert_eq!(rt; capped.fall(&prices, set), fall);
        assert_eq!(rt; capped.gain_down(&prices, set), gain);
    }
    Ok(())
}

#[test]
fn serves_part_of_a_bid(rt: HostRuntime) -> Result<(), Fail> {
    let capped = Capped::new(five(rt.alloc())?, 4);
    let rows = [(0, 30, 4, 4), (5, 10, 4, 4), (6, 6, 3, 4), (7, 3, 3, 3)];
    for (price, value, fall, gain) in rows {
        let prices = one(price);
        let good = Set::from_bits(2);
        assert_eq!(rt; capped.value(&prices), value);
        assert_eq!(rt; capped.fall(&prices, good), fall);
        assert_eq!(rt; capped.gain_down(&prices, good), gain);
    }
    Ok(())
}

#[test]
fn caps_of_nothing_and_of_more_than_all(rt: HostRuntime) -> Result<(), Fail> {
    let some = Capped::new(three(rt.alloc())?, 2);
    assert_eq!(rt; (some.goods(), some.total(), some.top(1)), (1, 2, 9));
    let all = Capped::new(three(rt.alloc())?, 7);
    assert_eq!(rt;
        (all.total(), all.value(&one(0)), all.value(&one(6))),
        (3, 21, 4)
    );
    let none = Capped::new(three(rt.alloc())?, 0);
    assert_eq!(rt;
        (
            none.total(),
            none.value(&one(0)),
            none.fall(&one(0), Set::from_bits(2))
        ),
        (0, 0, 0)
    );
    Ok(())
}

#[test]
fn one_unit_of_either_good(rt: HostRuntime) -> Result<(), Fail> {
    let capped = Capped::new(either(rt.alloc())?, 1);
    let rows = [
        (0, 0, 2, 5, 1, 1),
        (0, 0, 4, 5, 0, 0),
        (1, 0, 2, 4, 0, 1),
        (1, 0, 4, 4, 0, 1),
        (1, 0, 6, 4, 1, 1),
    ];
    for (first, second, bits, value, fall, gain) in rows {
        let prices = two(first, second);
        let set = Set::from_bits(bits);
        assert_eq!(rt; capped.value(&prices), value);
        assert_eq!(rt; capped.fall(&prices, set), fall);
        assert_eq!(rt; capped.gain_down(&prices, set), gain);
    }
    Ok(())
}
