// The search for the least point from below a guess.
ghost use Rattle.std.specs.Prelude.{◌≡◌, ◌<◌, ◌≤◌, ◌+◌, ◌≤ℤ◌, ◌<ℤ◌, ◌-ℤ◌, ◌*ℤ◌, ℕ, List, pos, length, get_or, sum_by};
ghost use Rattle.std.specs.Int.{int_max};
ghost use Rattle.mix_num.specs.Vectors.{with_null};
ghost use Rattle.mix_num.specs.Ranges.{AreWithin};
ghost use Rattle.mix_market.specs.Lyapunov.{IsLeastPoint};
ghost use Rattle.mix_market.specs.Markets.{goods_of, lyapunov_of, reserves_of};
ghost use Rattle.mix_descent.specs.NearGuesses.{AreClimbs};
ghost use Rattle.mix_descent.specs.declared.long_step.LongStep.{LongStep as Long};

use crate::descent::descend;
use crate::falls::rises_where_fallen;
use mix_law::Convex;
use mix_market::Market;
use mix_num::{MOST_VALUE, Prices};
use mix_step::Steps;
use std::sync::ledger::Ledger;

/// The least point of the market's Lyapunov function among the prices at or above the seller's reserves, from 0 to 1,000,000,
/// whatever the guess.
///
/// The guess, prices from -1,000,000 to 1,000,000, says where to look. It climbs from the guess, and where prices can fall from
/// the end, again from 1, 8, 64 and so on below the guess, at last from the reserves; from no start below these. At most nine
/// climbs are made, and each counts at most one least step more than its trail has long steps.
pub fn descend_near<D: Convex, L: Ledger>(
    market: &Market<D>,
    guess: &Prices,
    steps: &mut Steps<L>,
) -> Prices
    requires { AreWithin MOST_VALUE (goods_of market.now) guess.now.items }
    ensures least { IsLeastPoint (goods_of market.now) (lyapunov_of market.now) (with_null (reserves_of market.now)) (with_null result.items) }
    ensures range { AreWithin MOST_VALUE (goods_of market.now) result.items }
    ensures cost { (trails : List (List Long)) × AreClimbs (goods_of market.now) (lyapunov_of market.now) guess.now.items (reserves_of market.now) trails
        × (steps.new ≤ steps.old + (sum_by (λ trail. length trail) trails + length trails)) }
{
    let mut margin = 0;
    loop {
        let start = start_below(market, guess, margin);
        let prices = descend(market, &start, steps);
        if rises_where_fallen(market, &prices) {
            return prices;
        }
        margin = wider(margin);
    }
}

/// The next margin: 1, 8, 64 and so on.
fn wider(margin: i64) -> i64
    requires { (pos 0 ≤ℤ margin) × (margin ≤ℤ pos 2000000) }
    ensures value { result ≡ int_max (pos 8 *ℤ margin) (pos 1) }
    ensures range { (margin <ℤ result) × (result ≤ℤ pos 16000000) }
{
    (8 * margin).max(1)
}

/// Where the climb begins: below the guess by the margin, and never below the reserves.
fn start_below<D: Convex>(market: &Market<D>, guess: &Prices, margin: i64) -> Prices
    requires guess { AreWithin MOST_VALUE (goods_of market.now) guess.now.items }
    requires margin { (pos 0 ≤ℤ margin) × (margin ≤ℤ pos 16000000) }
    ensures size { length result.items ≡ length guess.now.items }
    ensures value { (k : ℕ) → k < length guess.now.items → get_or result.items k (pos 0) ≡ int_max (get_or guess.now.items k (pos 0) -ℤ margin) (get_or (reserves_of market.now) k (pos 0)) }
{
    below(guess, margin, market.seller().reserve())
}

/// For each good the guess less the margin, or the reserve where that is greater.
fn below(guess: &Prices, margin: i64, reserve: &Prices) -> Prices
    requires guess { AreWithin MOST_VALUE (length guess.now.items) guess.now.items }
    requires margin { (pos 0 ≤ℤ margin) × (margin ≤ℤ pos 16000000) }
    requires reserve { AreWithin MOST_VALUE (length guess.now.items) reserve.now.items }
    ensures size { length result.items ≡ length guess.now.items }
    ensures value { (k : ℕ) → k < length guess.now.items → get_or result.items k (pos 0) ≡ int_max (get_or guess.now.items k (pos 0) -ℤ margin) (get_or reserve.now.items k (pos 0)) }
{
    let mut start = Prices::new();
    for (place, price) in guess.iter().enumerate() {
        start.push((*price - margin).max(reserve[place]));
    }
    start
}
