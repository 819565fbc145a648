// The greatest of the points that are as low as the least point.
ghost use Rattle.std.specs.Prelude.{◌≡◌, ◌↔◌, ℕ, ◌<◌, suc, pos, true, ◌+ℤ◌, ◌≤ℤ◌, ◌<ℤ◌, length, IsTrue, IsNone, IfSome};
ghost use Rattle.mix_num.specs.Vectors.{members, with_null};
ghost use Rattle.mix_num.specs.Ranges.{AreWithin, Lies};
ghost use Rattle.mix_seller.specs.Sellers.{reserve_of};
ghost use Rattle.mix_market.specs.Gaps.{greatest_gap, IsAboveSomewhere};
ghost use Rattle.mix_market.specs.Lyapunov.{IsBelow, IsLeastPoint};
ghost use Rattle.mix_market.specs.Markets.{goods_of, lyapunov_of, seller_of};
ghost use Rattle.mix_range.specs.HighPoints.{IsGreatestAsLow};

use crate::largest::largest_rise;
use mix_law::Convex;
use mix_market::Market;
use mix_num::{MOST_VALUE, Prices, Set, copy, raise};
use mix_step::Steps;
use std::sync::ledger::Ledger;

/// The greatest of the prices at or above the reserves and at or below the ceiling at which the market's Lyapunov function is
/// as small as at its least point, `low`; None where a price of `low` is above the ceiling's.
///
/// Prices rise by long steps, as far as nothing changes on the way: at most one search for each unit of the greatest rise, and
/// one that finds nothing.
pub fn greatest<D: Convex, L: Ledger>(
    market: &Market<D>,
    low: &Prices,
    ceiling: &Prices,
    steps: &mut Steps<L>,
) -> Option<Prices>
    requires low { length low.now.items ≡ goods_of market.now }
    requires least { IsLeastPoint (goods_of market.now) (lyapunov_of market.now) (with_null (reserve_of (seller_of market.now))) (with_null low.now.items) }
    requires ceiling { AreWithin MOST_VALUE (goods_of market.now) ceiling.now.items }
    ensures none { IsNone result ↔ IsAboveSomewhere (goods_of market.now) (with_null low.now.items) (with_null ceiling.now.items) }
    ensures unspent { IsNone result → steps.new ≡ steps.old }
    ensures greatest { IfSome result (λ high. IsGreatestAsLow (goods_of market.now) (lyapunov_of market.now) (with_null (reserve_of (seller_of market.now))) (with_null ceiling.now.items) (with_null low.now.items) (with_null high.items)) }
    ensures range { IfSome result (λ high. AreWithin MOST_VALUE (goods_of market.now) high.items) }
    ensures cost { IfSome result (λ high. pos steps.new ≤ℤ ((pos steps.old +ℤ greatest_gap (goods_of market.now) (with_null high.items) (with_null low.now.items)) +ℤ pos 1)) }
{
    if is_below(low, ceiling) {
        Some(rise(market, low, ceiling, steps))
    } else {
        None
    }
}

/// The greatest of them, where `low` is at or below the ceiling.
fn rise<D: Convex, L: Ledger>(
    market: &Market<D>,
    low: &Prices,
    ceiling: &Prices,
    steps: &mut Steps<L>,
) -> Prices
    requires low { length low.now.items ≡ goods_of market.now }
    requires least { IsLeastPoint (goods_of market.now) (lyapunov_of market.now) (with_null (reserve_of (seller_of market.now))) (with_null low.now.items) }
    requires ceiling { AreWithin MOST_VALUE (goods_of market.now) ceiling.now.items }
    requires below { IsBelow (goods_of market.now) (with_null low.now.items) (with_null ceiling.now.items) }
    ensures greatest { IsGreatestAsLow (goods_of market.now) (lyapunov_of market.now) (with_null (reserve_of (seller_of market.now))) (with_null ceiling.now.items) (with_null low.now.items) (with_null result.items) }
    ensures range { AreWithin MOST_VALUE (goods_of market.now) result.items }
    ensures cost { pos steps.new ≤ℤ ((pos steps.old +ℤ greatest_gap (goods_of market.now) (with_null result.items) (with_null low.now.items)) +ℤ pos 1) }
{
    let mut prices = copy(low);
    loop {
        let step = largest_rise(market, ceiling, &prices, steps);
        if step.set.bits() == 0 {
            return prices;
        }
        // Nothing changes along the set, so prices stay as low for as long as its slope does.
        let reach = market.reach(&prices, step.set);
        let length = steps_below(ceiling, &prices, step.set, reach);
        prices = raise(&prices, step.set, length);
    }
}

/// As many of these steps up as no price of the set passes the ceiling's in.
fn steps_below(ceiling: &Prices, prices: &Prices, set: Set, steps: i64) -> i64
    requires ceiling { AreWithin MOST_VALUE (length prices.now.items) ceiling.now.items }
    requires prices { AreWithin MOST_VALUE (length prices.now.items) prices.now.items }
    requires some { pos 1 ≤ℤ steps }
    requires may { (k : ℕ) → k < length prices.now.items → members set (suc k) ≡ true → with_null prices.now.items (suc k) <ℤ with_null ceiling.now.items (suc k) }
    ensures some { (pos 1 ≤ℤ result) × (result ≤ℤ steps) }
    ensures below { (k : ℕ) → k < length prices.now.items → members set (suc k) ≡ true → (with_null prices.now.items (suc k) +ℤ result) ≤ℤ with_null ceiling.now.items (suc k) }
{
    let mut most = steps;
    for (place, price) in prices.iter().enumerate() {
        most = fewer(most, set.has(place + 1), *price, ceiling[place]);
    }
    most
}

/// As many of these steps up as a price of the set doesn't pass its top in.
fn fewer(steps: i64, within: bool, price: i64, top: i64) -> i64
    requires price { Lies MOST_VALUE price }
    requires top { Lies MOST_VALUE top }
    requires some { (pos 1 ≤ℤ steps) × (within ≡ true → price <ℤ top) }
    ensures some { (pos 1 ≤ℤ result) × (result ≤ℤ steps) }
    ensures below { within ≡ true → (price +ℤ result) ≤ℤ top }
{
    if within {
        steps.min(top - price)
    } else {
        steps
    }
}

/// Whether no price is above the ceiling's.
fn is_below(prices: &Prices, ceiling: &Prices) -> bool
    requires { length prices.now.items ≡ length ceiling.now.items }
    ensures { IsTrue result ↔ ((k : ℕ) → k < length prices.now.items → with_null prices.now.items (suc k) ≤ℤ with_null ceiling.now.items (suc k)) }
{
    for (place, price) in prices.iter().enumerate() {
        if *price > ceiling[place] {
            return false;
        }
    }
    true
}
