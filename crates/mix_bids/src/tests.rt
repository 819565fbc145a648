// Bids and a list with a negative bid, worked out by hand.
ghost use Rattle.std.specs.Prelude.{◌≡◌, ◌<◌, ◌∷◌, [], suc, pos, neg_ℤ, length, Some, IfOk, OnOk};
ghost use Rattle.mix_num.specs.Ranges.{ArePrices, Lies};
ghost use Rattle.mix_bids.specs.Bids.{IsBid};

use crate::{Bid, BidList, Values, best_set};
use mix_num::{Memory, Prices, Set, SetTable};
use std::alloc::Global;
use std::test::Fail;

/// Prices of two goods.
fn prices(first: i64, second: i64) -> Prices
    requires first { Lies 4000000 first }
    requires second { Lies 4000000 second }
    ensures { ArePrices 2 result.items }
{
    let mut prices = Prices::new();
    prices.push(first);
    prices.push(second);
    prices
}

/// A bid over two goods.
fn bid(weight: i64, first: Option<i64>, second: Option<i64>) -> Bid
    ensures { result ≡ record { weight = weight; values = record { items = first ∷ second ∷ [] } } }
{
    let mut values = Values::new();
    values.push(first);
    values.push(second);
    Bid { weight, values }
}

/// A bid over three goods.
fn bid_of_three(weight: i64, first: i64, second: i64, third: i64) -> Bid
    ensures { result ≡ record { weight = weight; values = record { items = Some first ∷ Some second ∷ Some third ∷ [] } } }
{
    let mut values = Values::new();
    values.push(Some(first));
    values.push(Some(second));
    values.push(Some(third));
    Bid { weight, values }
}

/// A bid of weight -1 over eight goods: `first` for the first and `other` for each other one.
fn bid_of_eight(first: i64, other: i64) -> Bid
    ensures { result ≡ record { weight = neg_ℤ (pos 1); values = record { items = Some first ∷ Some other ∷ Some other ∷ Some other ∷ Some other ∷ Some other ∷ Some other ∷ Some other ∷ [] } } }
{
    let mut values = Values::new();
    values.push(Some(first));
    values.push(Some(other));
    values.push(Some(other));
    values.push(Some(other));
    values.push(Some(other));
    values.push(Some(other));
    values.push(Some(other));
    values.push(Some(other));
    Bid { weight: -1, values }
}

/// Adds a bid, and tells the number of cells then.
fn cells_with(list: &mut BidList, bid: Bid) -> Result<u64, Memory>
    requires bid { IsBid list.old.goods bid }
    requires room { length list.old.bids < 400 }
    ensures goods { OnOk result (list.new.goods ≡ list.old.goods) }
    ensures size { OnOk result (length list.new.bids ≡ suc (length list.old.bids)) }
{
    list.push(bid)?;
    Ok(list.cells())
}

/// Adds a bid to a list over two goods.
fn add(list: &mut BidList, bid: Bid) -> Result<(), Memory>
    requires goods { list.old.goods ≡ 2 }
    requires bid { IsBid 2 bid }
    requires room { length list.old.bids < 400 }
    ensures goods { OnOk result (list.new.goods ≡ 2) }
    ensures size { OnOk result (length list.new.bids ≡ suc (length list.old.bids)) }
{
    list.push(bid)
}

/// The bids (4, -; 1), (-, 4; 1), (6, 6; 1) and (4, 4; -1).
fn four(alloc: Global) -> Result<BidList, Memory>
    ensures { IfOk result (λ list. list.goods ≡ 2) }
{
    let mut list = BidList::new(alloc, 2);
    add(&mut list, bid(1, Some(4), None))?;
    add(&mut list, bid(1, None, Some(4)))?;
    add(&mut list, bid(1, Some(6), Some(6)))?;
    add(&mut list, bid(-1, Some(4), Some(4)))?;
    Ok(list)
}

#[test]
fn best_sets(rt: HostRuntime) {
    let first = bid(1, Some(4), None);
    assert_eq!(rt; best_set(&first, &prices(3, 0)).bits(), 0b010);
    assert_eq!(rt; best_set(&first, &prices(4, 0)).bits(), 0b011);
    assert_eq!(rt; best_set(&first, &prices(5, 0)).bits(), 0b001);
}

#[test]
fn sums(rt: HostRuntime) -> Result<(), Fail> {
    let list = four(rt.alloc())?.copy(rt.alloc())?;
    assert_eq!(rt; list.total(), 2);
    assert_eq!(rt; list.top(2), 6);

    let tie = prices(4, 4);
    assert_eq!(rt; list.utility(&tie), 2);
    assert_eq!(rt; list.facet_weight(0, 1, &tie), 1);
    assert_eq!(rt; list.facet_weight(1, 2, &tie), 1);

    let low = prices(3, 3);
    assert_eq!(rt; list.utility(&low), 4);
    assert_eq!(rt; list.facet_weight(1, 2, &low), 0);

    let sold = prices(4, 0);
    assert_eq!(rt; list.utility(&sold), 6);
    assert_eq!(rt; list.facet_weight(0, 1, &sold), 1);
    assert_eq!(rt; list.facet_weight(0, 2, &sold), 0);
    assert_eq!(rt; list.fall(&sold, Set::from_bits(0b100)), 1);
    assert_eq!(rt; list.gain_down(&sold, Set::from_bits(0b010)), 1);
    Ok(())
}

#[test]
fn reaches(rt: HostRuntime) -> Result<(), Fail> {
    let list = four(rt.alloc())?;
    let sold = prices(4, 0);
    assert_eq!(rt; list.reach(&sold, Set::from_bits(0b110)), 4);
    assert_eq!(rt; list.reach(&sold, Set::from_bits(0b100)), 4);
    assert_eq!(rt; list.reach(&sold, Set::from_bits(0b010)), 8_000_000);
    assert_eq!(rt; list.reach(&prices(3, 0), Set::from_bits(0b010)), 1);
    Ok(())
}

#[test]
fn best_weights(rt: HostRuntime) -> Result<(), Fail> {
    let list = four(rt.alloc())?;
    let mut weights = SetTable::new();
    list.best_weights(&prices(4, 4), &mut weights);
    assert_eq!(rt; weights.at(Set::from_bits(0b110)), 1);
    list.best_weights(&prices(4, 0), &mut weights);
    for bits in 0..512 {
        let expected = if bits == 0b011 || bits == 0b100 { 1 } else { 0 };
        assert_eq!(rt; weights.at(Set::from_bits(bits)), expected);
    }
    Ok(())
}

#[test]
fn cells_of_two_goods(rt: HostRuntime) -> Result<(), Fail> {
    let mut list = BidList::new(rt.alloc(), 2);
    assert_eq!(rt; list.cells(), 0);
    // Of nothing and either good one lead of the other and one more, and of the two goods one lead of nothing.
    assert_eq!(rt;
        cells_with(&mut list, bid(-1, Some(4), Some(4)))?,
        2 + 2 + 1
    );
    // A bid of positive weight counts in none.
    assert_eq!(rt; cells_with(&mut list, bid(1, Some(6), Some(6)))?, 5);
    // One level of nothing and the first good, two of either other pair.
    assert_eq!(rt;
        cells_with(&mut list, bid(-1, Some(4), Some(7)))?,
        3 + (2 + 2) + (1 + 1)
    );
    // The same leads again.
    assert_eq!(rt; cells_with(&mut list, bid(-2, Some(4), Some(7)))?, 9);
    // What isn't offered has no lead: in a level that is there, and in a new one.
    assert_eq!(rt; cells_with(&mut list, bid(-1, Some(4), None))?, 9);
    assert_eq!(rt; cells_with(&mut list, bid(-1, Some(5), None))?, 10);
    assert_eq!(rt; list.copy(rt.alloc())?.cells(), 10);
    Ok(())
}

#[test]
fn cells_of_three_goods(rt: HostRuntime) -> Result<(), Fail> {
    let mut list = BidList::new(rt.alloc(), 3);
    assert_eq!(rt;
        cells_with(&mut list, bid_of_three(-1, 3, 5, 9))?,
        3 * (2 * 2) + 3 * (1 * 2)
    );
    // They share the levels of nothing and the third good, and of the first two.
    assert_eq!(rt;
        cells_with(&mut list, bid_of_three(-1, 4, 6, 9))?,
        8 + 8 + 3 * 3 + 2 * 3 + 4 + 4
    );
    // With the first bid the third one shares the levels of nothing and the first good and of the first and third good, with both
    // that of nothing and the third good.
    assert_eq!(rt;
        cells_with(&mut list, bid_of_three(-1, 3, 8, 9))?,
        (6 + 4) + 12 + 3 * 4 + (6 + 2) + (3 + 2) + 6
    );
    Ok(())
}

#[test]
fn cells_of_eight_goods(rt: HostRuntime) -> Result<(), Fail> {
    let mut list = BidList::new(rt.alloc(), 8);
    cells_with(&mut list, bid_of_eight(5, 1))?;
    cells_with(&mut list, bid_of_eight(5, 2))?;
    cells_with(&mut list, bid_of_eight(5, 3))?;
    cells_with(&mut list, bid_of_eight(5, 4))?;
    cells_with(&mut list, bid_of_eight(5, 5))?;
    cells_with(&mut list, bid_of_eight(5, 6))?;
    // 8^7 of nothing and the first good, 7 * 7 * 2^7 of nothing and another, 7 * 7 * 2^6 of the first and another, 21 * 7 * 8 * 2^5 of two others.
    assert_eq!(rt; cells_with(&mut list, bid_of_eight(5, 7))?, 2_144_192);
    // 9^7 of nothing and the first good alone pass the limit.
    assert_eq!(rt; cells_with(&mut list, bid_of_eight(5, 8))?, 4_194_305);
    assert_eq!(rt; cells_with(&mut list, bid_of_eight(6, 8))?, 4_194_305);
    Ok(())
}
