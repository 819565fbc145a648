// The way to the least point: up by least steps, then down by largest falls.
ghost use Rattle.std.specs.Prelude.{◌≡◌, ◌<◌, ℕ, pos, ◌+ℤ◌, ◌≤ℤ◌, length, IsTrue};
ghost use Rattle.mix_num.specs.Vectors.{Vector, members, with_null};
ghost use Rattle.mix_num.specs.Ranges.{AreWithin};
ghost use Rattle.mix_num.specs.Moves.{IsSetOfGoods};
ghost use Rattle.mix_market.specs.Gaps.{greatest_gap};
ghost use Rattle.mix_market.specs.Lyapunov.{IsBelow, IsLeastPoint};
ghost use Rattle.mix_market.specs.Markets.{goods_of, lyapunov_of};
ghost use Rattle.mix_market.specs.LargestFalls.{IsLeastAbove, MayFall};
ghost use Rattle.mix_fall.specs.LongFalls.{IsLongFall};

use crate::largest::largest_fall;
use mix_law::Convex;
use mix_market::{Market, are_above};
use mix_num::{MOST_VALUE, Prices, Set, copy, lower, raise};
use mix_step::{Steps, least_step};
use std::sync::ledger::Ledger;

/// The least point of the market's Lyapunov function among the prices at or above the floor, from a start at or above it.
///
/// From the start prices rise to the least point at or above it, by at most one search for each unit of the greatest rise and
/// one that finds nothing; from there they fall, by at most one search for each unit of the greatest fall and one that finds
/// nothing. Each search moves prices on while the slope along its set stays the same. So where few bids came or went, prices are
/// found from the last ones in few steps. Floor and start have prices from -1,000,000 to 1,000,000, and so has the answer.
pub fn settle<D: Convex, L: Ledger>(
    market: &Market<D>,
    floor: &Prices,
    start: &Prices,
    steps: &mut Steps<L>,
) -> Prices
    requires floor { AreWithin MOST_VALUE (goods_of market.now) floor.now.items }
    requires start { AreWithin MOST_VALUE (goods_of market.now) start.now.items }
    requires above { IsBelow (goods_of market.now) (with_null floor.now.items) (with_null start.now.items) }
    ensures least { IsLeastPoint (goods_of market.now) (lyapunov_of market.now) (with_null floor.now.items) (with_null result.items) }
    ensures range { AreWithin MOST_VALUE (goods_of market.now) result.items }
    ensures cost { (u : Vector) → u 0 ≡ pos 0 → IsLeastPoint (goods_of market.now) (lyapunov_of market.now) (with_null start.now.items) u
        → pos steps.new ≤ℤ (((pos steps.old +ℤ greatest_gap (goods_of market.now) u (with_null start.now.items)) +ℤ greatest_gap (goods_of market.now) u (with_null result.items)) +ℤ pos 2) }
{
    let high = rise(market, start, steps);
    fall(market, floor, high, steps)
}

/// The least point at or above the start, by least steps that go on while their slope is the same.
fn rise<D: Convex, L: Ledger>(market: &Market<D>, start: &Prices, steps: &mut Steps<L>) -> Prices
    requires start { AreWithin MOST_VALUE (goods_of market.now) start.now.items }
    ensures least { IsLeastPoint (goods_of market.now) (lyapunov_of market.now) (with_null start.now.items) (with_null result.items) }
    ensures range { AreWithin MOST_VALUE (goods_of market.now) result.items }
    ensures cost { pos steps.new ≤ℤ ((pos steps.old +ℤ greatest_gap (goods_of market.now) (with_null result.items) (with_null start.now.items)) +ℤ pos 1) }
{
    let mut prices = copy(start);
    loop {
        let step = least_step(market, &prices, steps);
        if step.set.bits() == 0 {
            return prices;
        }
        // While its slope stays the same, the set is still the least step.
        let reach = market.reach(&prices, step.set);
        prices = raise(&prices, step.set, reach);
    }
}

/// The least point at or above the floor, by largest falls from a point that is least among all at or above it.
fn fall<D: Convex, L: Ledger>(
    market: &Market<D>,
    floor: &Prices,
    high: Prices,
    steps: &mut Steps<L>,
) -> Prices
    requires floor { AreWithin MOST_VALUE (goods_of market.now) floor.now.items }
    requires high { AreWithin MOST_VALUE (goods_of market.now) high.items }
    requires above { IsBelow (goods_of market.now) (with_null floor.now.items) (with_null high.items) }
    requires least { IsLeastAbove (goods_of market.now) (lyapunov_of market.now) (with_null high.items) }
    ensures least { IsLeastPoint (goods_of market.now) (lyapunov_of market.now) (with_null floor.now.items) (with_null result.items) }
    ensures range { AreWithin MOST_VALUE (goods_of market.now) result.items }
    ensures cost { pos steps.new ≤ℤ ((pos steps.old +ℤ greatest_gap (goods_of market.now) (with_null high.items) (with_null result.items)) +ℤ pos 1) }
{
    let mut prices = high;
    loop {
        let step = largest_fall(market, floor, &prices, steps);
        if step.set.bits() == 0 {
            return prices;
        }
        let length = fall_length(market, floor, &prices, step.set);
        prices = lower(&prices, step.set, length);
    }
}

/// By how much the prices of a set that may fall do so at once, at most 2,000,000: 1, 2, 4 and so on, for as long as the slope
/// stays the same and the prices above the floor's.
fn fall_length<D: Convex>(market: &Market<D>, floor: &Prices, prices: &Prices, set: Set) -> i64
    requires floor { length floor.now.items ≡ goods_of market.now }
    requires prices { AreWithin MOST_VALUE (goods_of market.now) prices.now.items }
    requires above { IsBelow (goods_of market.now) (with_null floor.now.items) (with_null prices.now.items) }
    requires goods { IsSetOfGoods (goods_of market.now) set }
    requires some { 0 < set }
    requires may { MayFall (goods_of market.now) (with_null floor.now.items) (with_null prices.now.items) (members set) }
    ensures long { IsLongFall (goods_of market.now) (lyapunov_of market.now) (with_null floor.now.items) (with_null prices.now.items) (members set) result }
    ensures most { result ≤ℤ pos 2000000 }
{
    let mut length = 1;
    // No two prices are more than 2,000,000 apart.
    while length <= 1_000_000 && falls_evenly(market, floor, prices, set, 2 * length) {
        length *= 2;
    }
    length
}

/// Whether so many steps down along the set end above the floor, and the reach from there leads back up: then the function changes
/// by the same at each of them.
fn falls_evenly<D: Convex>(
    market: &Market<D>,
    floor: &Prices,
    prices: &Prices,
    set: Set,
    steps: i64,
) -> bool
    requires floor { length floor.now.items ≡ goods_of market.now }
    requires prices { AreWithin MOST_VALUE (goods_of market.now) prices.now.items }
    requires above { IsBelow (goods_of market.now) (with_null floor.now.items) (with_null prices.now.items) }
    requires goods { IsSetOfGoods (goods_of market.now) set }
    requires some { 0 < set }
    requires steps { (pos 1 ≤ℤ steps) × (steps ≤ℤ pos 2000000) }
    ensures { IsTrue result → IsLongFall (goods_of market.now) (lyapunov_of market.now) (with_null floor.now.items) (with_null prices.now.items) (members set) steps }
{
    let fallen = lower(prices, set, steps);
    are_above(floor, &fallen, set) && market.reach(&fallen, set) >= steps
}
