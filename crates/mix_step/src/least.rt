// The search for the least step.
ghost use Rattle.std.specs.Prelude.{◌≡◌, ℕ, ◌≤◌, ◌+◌, ◌^◌, pos, cond, int_lt};
ghost use Rattle.mix_num.specs.Vectors.{members, with_null};
ghost use Rattle.mix_num.specs.Ranges.{HaveRoom};
ghost use Rattle.mix_num.specs.Moves.{IsSetOfGoods};
ghost use Rattle.mix_market.specs.Markets.{goods_of, lyapunov_of};
ghost use Rattle.mix_market.specs.Steepest.{IsMinimalSteepest, slope_of};
ghost use Rattle.mix_num.specs.Tables.{number_of};
ghost use Rattle.mix_step.specs.First.{IsFirst};

use crate::{Step, Steps};
use mix_law::Convex;
use mix_market::Market;
use mix_num::{Prices, Set, SetTable};
use std::sync::ledger::Ledger;

/// The least step at the prices: of all sets of goods, the empty one among them, the one with the least slope that lies
/// within each other with that slope. It counts as one step.
pub fn least_step<D: Convex, L: Ledger>(
    market: &Market<D>,
    prices: &Prices,
    steps: &mut Steps<L>,
) -> Step
    requires { HaveRoom (goods_of market.now) prices.now.items }
    ensures minimal { IsMinimalSteepest (goods_of market.now) (lyapunov_of market.now) (with_null prices.now.items) (members result.set) }
    ensures only { (other : ℕ) → IsSetOfGoods (goods_of market.now) other → IsMinimalSteepest (goods_of market.now) (lyapunov_of market.now) (with_null prices.now.items) (members other) → other ≡ result.set }
    ensures goods { IsSetOfGoods (goods_of market.now) result.set }
    ensures slope { result.slope ≡ slope_of (lyapunov_of market.now) (with_null prices.now.items) (members result.set) }
    ensures cost { steps.new ≡ steps.old + 1 }
{
    let mut slopes = SetTable::new();
    market.slopes(prices, &mut slopes);
    least_among(prices.len(), &slopes, steps)
}

/// The least step of a table that has the slope of each set of 1 to 8 goods: the first of the sets with the least slope. It counts
/// as one step.
pub fn least_among<L: Ledger>(goods: usize, slopes: &SetTable, steps: &mut Steps<L>) -> Step
    requires goods { goods ≤ 8 }
    requires none { number_of slopes.now 0 ≡ pos 0 }
    ensures first { IsFirst goods (number_of slopes.now) (2 ^ goods) result.set result.slope }
    ensures cost { steps.new ≡ steps.old + 1 }
{
    steps.tick();
    let mut best = Step {
        set: Set::from_bits(0),
        slope: 0,
    };
    // The sets of goods are the even numbers. A set comes after those within it, so the first of the steepest sets lies within
    // the others.
    for half in 1..Set::goods(goods).bits() / 2 + 1 {
        let set = Set::from_bits(2 * half);
        let slope = slopes.at(set);
        best = steeper(best, Step { set, slope });
    }
    best
}

/// The second step where it is strictly steeper, else the first.
fn steeper(best: Step, next: Step) -> Step
    ensures { result ≡ cond (int_lt next.slope best.slope) next best }
{
    if next.slope < best.slope { next } else { best }
}
