// The search for the largest rise.
ghost use Rattle.std.specs.Prelude.{◌≡◌, ℕ, ◌+◌, length};
ghost use Rattle.mix_num.specs.Vectors.{members, with_null};
ghost use Rattle.mix_num.specs.Ranges.{HaveRoom};
ghost use Rattle.mix_num.specs.Moves.{IsSetOfGoods};
ghost use Rattle.mix_market.specs.LargestFalls.{Tries};
ghost use Rattle.mix_market.specs.Markets.{goods_of, lyapunov_of};
ghost use Rattle.mix_market.specs.Steepest.{slope_of};
ghost use Rattle.mix_range.specs.HighPoints.{IsLargestRise, MayRise};

use mix_law::Convex;
use mix_market::{Market, are_above};
use mix_num::{Prices, Set, SetTable};
use mix_step::{Step, Steps};
use std::sync::ledger::Ledger;

/// The largest rise at the prices: of all sets of goods whose prices are below the ceiling's, the empty one among them, the
/// one along which the Lyapunov function falls most, or rises least, where their prices rise by one, and which holds each other set
/// with that slope. It counts as one step.
///
/// The ceiling has a price for each good, in any range.
pub fn largest_rise<D: Convex, L: Ledger>(
    market: &Market<D>,
    ceiling: &Prices,
    prices: &Prices,
    steps: &mut Steps<L>,
) -> Step
    requires ceiling { length ceiling.now.items ≡ goods_of market.now }
    requires prices { HaveRoom (goods_of market.now) prices.now.items }
    ensures largest { IsLargestRise (goods_of market.now) (lyapunov_of market.now) (with_null ceiling.now.items) (with_null prices.now.items) (members result.set) }
    ensures only { (other : ℕ) → IsSetOfGoods (goods_of market.now) other → IsLargestRise (goods_of market.now) (lyapunov_of market.now) (with_null ceiling.now.items) (with_null prices.now.items) (members other) → other ≡ result.set }
    ensures goods { IsSetOfGoods (goods_of market.now) result.set }
    ensures slope { result.slope ≡ slope_of (lyapunov_of market.now) (with_null prices.now.items) (members result.set) }
    ensures cost { steps.new ≡ steps.old + 1 }
{
    let mut slopes = SetTable::new();
    market.slopes(prices, &mut slopes);
    steps.tick();
    let mut best = Step {
        set: Set::from_bits(0),
        slope: 0,
    };
    // The sets of goods are the even numbers. A set comes after those within it, so the last of the steepest sets holds the others.
    for half in 1..Set::goods(prices.len()).bits() / 2 + 1 {
        let set = Set::from_bits(2 * half);
        let slope = slopes.at(set);
        best = tried(ceiling, prices, best, Step { set, slope });
    }
    best
}

/// The next set, where it may rise and is at least as steep as the best so far; else the best so far.
fn tried(ceiling: &Prices, prices: &Prices, best: Step, next: Step) -> Step
    requires ceiling { length ceiling.now.items ≡ length prices.now.items }
    requires goods { IsSetOfGoods (length prices.now.items) next.set }
    ensures { Tries (MayRise (length prices.now.items) (with_null ceiling.now.items) (with_null prices.now.items) (members next.set)) next.set next.slope best.set best.slope result.set result.slope }
{
    if next.slope <= best.slope && are_above(prices, ceiling, next.set) {
        next
    } else {
        best
    }
}
