// Prices that settle in markets of two goods, whose members are sellers taken as members.
ghost use Rattle.std.specs.Prelude.{◌≡◌, ◌≤ℤ◌, pos, [], ◌∷◌, IfOk};
ghost use Rattle.mix_num.specs.Ranges.{AreWithin};
ghost use Rattle.mix_num.specs.Sellers.{AreAmounts, IsAmount};
ghost use Rattle.mix_market.specs.Markets.{goods_of};

use crate::{largest_fall, settle};
use mix_market::{Market, Seller};
use mix_num::{Bundle, Prices};
use mix_step::{Step, Steps};
use std::alloc::{AllocError, Global};
use std::marker::Brand;
use std::sync::ledger::{Blank, Ledger};
use std::test::Fail;

/// A number for each of two goods.
fn pair(first: i64, second: i64) -> Bundle
    requires first { IsAmount first }
    requires second { IsAmount second }
    ensures amounts { AreAmounts 2 result.items }
    ensures prices { AreWithin 1000000 2 result.items }
    ensures values { result.items ≡ first ∷ (second ∷ []) }
{
    let mut both = Bundle::new();
    both.push(first);
    both.push(second);
    both
}

/// Three units of the first good and one of the second for sale, and three members: two units of the first at up to 10 and
/// one of the second at up to 4, two of the first at up to 7 and one of the second at up to 4, one of the first at up to 5;
/// each price so many times as great.
fn market(alloc: Global, times: i64) -> Result<Market<Seller>, AllocError>
    requires times { (pos 0 ≤ℤ times) × (times ≤ℤ pos 100000) }
    ensures { IfOk result (λ market. goods_of market ≡ 2) }
{
    let mut members = Vec::new(alloc);
    members.push(Seller::new(&pair(2, 1), &pair(10 * times, 4 * times)))?;
    members.push(Seller::new(&pair(2, 1), &pair(7 * times, 4 * times)))?;
    members.push(Seller::new(&pair(1, 0), &pair(5 * times, 0)))?;
    Ok(Market::new(members, Seller::new(&pair(3, 1), &pair(2 * times, 0))))
}

/// Where prices settle from the start above a floor of 0, on a ledger of its own.
fn end_of<L: Ledger>(market: &Market<Seller>, first: i64, second: i64, blank: Blank) -> Prices
    requires goods { goods_of market.now ≡ 2 }
    requires first { IsAmount first }
    requires second { IsAmount second }
    requires name { blank.name ≡ L.name }
    requires parts { blank.parts ≡ L.parts }
    requires some { blank.parts ≡ 1 }
{
    let mut steps = Steps::<L>::new(blank);
    settle(market, &pair(0, 0), &pair(first, second), &mut steps)
}

/// The largest fall at prices above a floor, on a ledger of its own.
fn fall_at<L: Ledger>(
    market: &Market<Seller>,
    floor: &Prices,
    prices: &Prices,
    blank: Blank,
) -> Step
    requires floor { AreWithin 1000000 (goods_of market.now) floor.now.items }
    requires prices { AreWithin 1000000 (goods_of market.now) prices.now.items }
    requires name { blank.name ≡ L.name }
    requires parts { blank.parts ≡ L.parts }
    requires some { blank.parts ≡ 1 }
{
    let mut steps = Steps::<L>::new(blank);
    largest_fall(market, floor, prices, &mut steps)
}

#[test]
fn falls_along_the_largest_set_above_the_floor(rt: HostRuntime) -> Result<(), Fail> {
    let market = market(rt.alloc(), 1)?;
    // At 8 the first good is wanted by one of three, and at 7 by two; at 5 nobody wants the second.
    let rows = [
        ((8, 5), (0, 0), 6, -2),
        ((7, 5), (0, 0), 4, -1),
        ((7, 4), (0, 0), 0, 0),
        ((8, 5), (8, 0), 4, -1),
        ((8, 5), (8, 5), 0, 0),
    ];
    for (prices, floor, bits, slope) in rows {
        let fall = fall_at::<Brand>(
            &market,
            &pair(floor.0, floor.1),
            &pair(prices.0, prices.1),
            Blank::new(1),
        );
        assert_eq!(rt; (fall.set.bits(), fall.slope), (bits, slope));
    }
    Ok(())
}

/// All that is for sale is wanted by one member at up to 10 for a unit of the first good, and at up to 4 for one of the second;
/// each price so many times as great.
fn level_market(alloc: Global, times: i64) -> Result<Market<Seller>, AllocError>
    requires times { (pos 0 ≤ℤ times) × (times ≤ℤ pos 100000) }
    ensures { IfOk result (λ market. goods_of market ≡ 2) }
{
    let mut members = Vec::new(alloc);
    members.push(Seller::new(&pair(3, 1), &pair(10 * times, 4 * times)))?;
    Ok(Market::new(members, Seller::new(&pair(3, 1), &pair(0, 0))))
}

#[test]
fn falls_where_the_function_stays(rt: HostRuntime) -> Result<(), Fail> {
    let market = level_market(rt.alloc(), 1)?;
    let fall = fall_at::<Brand>(&market, &pair(0, 0), &pair(6, 3), Blank::new(1));
    assert_eq!(rt; (fall.set.bits(), fall.slope), (6, 0));
    let end = end_of::<Brand>(&market, 6, 3, Blank::new(1));
    assert_eq!(rt; end.as_slice(), [0, 0].as_slice());
    Ok(())
}

#[test]
fn settles_from_below_and_from_above(rt: HostRuntime) -> Result<(), Fail> {
    let market = market(rt.alloc(), 1)?;
    for (first, second) in [(2, 0), (0, 3), (7, 4), (8, 1), (12, 9)] {
        let end = end_of::<Brand>(&market, first, second, Blank::new(1));
        assert_eq!(rt; end.as_slice(), [7, 4].as_slice());
    }
    Ok(())
}

#[test]
fn settles_from_far_away(rt: HostRuntime) -> Result<(), Fail> {
    let market = market(rt.alloc(), 100_000)?;
    let rows = [
        (200_000, 0),
        (0, 300_000),
        (700_000, 400_000),
        (800_000, 100_000),
        (1_000_000, 900_000),
        (999_999, 1),
    ];
    for (first, second) in rows {
        let end = end_of::<Brand>(&market, first, second, Blank::new(1));
        assert_eq!(rt; end.as_slice(), [700_000, 400_000].as_slice());
    }
    Ok(())
}

#[test]
fn falls_far_where_the_function_stays(rt: HostRuntime) -> Result<(), Fail> {
    let market = level_market(rt.alloc(), 100_000)?;
    for (first, second) in [(1_000_000, 400_000), (600_001, 7), (3, 399_999)] {
        let end = end_of::<Brand>(&market, first, second, Blank::new(1));
        assert_eq!(rt; end.as_slice(), [0, 0].as_slice());
    }
    Ok(())
}
