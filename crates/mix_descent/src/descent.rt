// The climb from any start.
ghost use Rattle.std.specs.Prelude.{◌≡◌, ◌≤◌, ◌+◌, ◌≤ℤ◌, ℕ, List, length};
ghost use Rattle.std.specs.Int.{int_max};
ghost use Rattle.mix_num.specs.Vectors.{with_null};
ghost use Rattle.mix_num.specs.Ranges.{AreWithin};
ghost use Rattle.mix_market.specs.Extremes.{greatest_of};
ghost use Rattle.mix_market.specs.Lyapunov.{IsLeastPoint};
ghost use Rattle.mix_market.specs.Markets.{goods_of, lyapunov_of, members_of};
ghost use Rattle.mix_descent.specs.Trails.{IsTrail};
ghost use Rattle.mix_descent.specs.declared.long_step.LongStep.{LongStep as Long};

use crate::long_step::long_step;
use mix_law::Convex;
use mix_market::Market;
use mix_num::{MOST_VALUE, Prices, SetTable, copy};
use mix_step::{Steps, least_among};
use std::sync::ledger::Ledger;

/// The least point of the market's Lyapunov function among the prices at or above the start: the function is least there,
/// and no price is greater than at any other point where it is as low.
///
/// The start has prices from -1,000,000 to 1,000,000, and so has the answer: no good rises past its members' tops. At most one
/// least step more is counted than the trail from the start has long steps.
pub fn descend<D: Convex, L: Ledger>(
    market: &Market<D>,
    start: &Prices,
    steps: &mut Steps<L>,
) -> Prices
    requires { AreWithin MOST_VALUE (goods_of market.now) start.now.items }
    ensures least { IsLeastPoint (goods_of market.now) (lyapunov_of market.now) (with_null start.now.items) (with_null result.items) }
    ensures range { AreWithin MOST_VALUE (goods_of market.now) result.items }
    ensures tops { (good : ℕ) → 1 ≤ good → good ≤ goods_of market.now → with_null result.items good ≤ℤ int_max (with_null start.now.items good) (greatest_of (λ member. D.top member good) (members_of market.now)) }
    ensures cost { (trail : List Long) × IsTrail (goods_of market.now) (lyapunov_of market.now) (with_null start.now.items) trail (with_null result.items) × (steps.new ≤ steps.old + length trail + 1) }
{
    let mut prices = copy(start);
    let mut slopes = SetTable::new();
    market.slopes(&prices, &mut slopes);
    loop {
        let step = least_among(prices.len(), &slopes, steps);
        if step.set.bits() == 0 {
            return prices;
        }
        long_step(market, &mut prices, &mut slopes, step);
    }
}
