// A long step: a set of goods rises for as long as its slope stays the same.
ghost use Rattle.std.specs.Prelude.{◌≡◌, ◌≢◌, ◌↔◌, IsTrue};
ghost use Rattle.mix_num.specs.Vectors.{Agree, members, with_null};
ghost use Rattle.mix_num.specs.Ranges.{AreWithin};
ghost use Rattle.mix_num.specs.Moves.{IsSetOfGoods};
ghost use Rattle.mix_num.specs.Tables.{number_of};
ghost use Rattle.mix_market.specs.Markets.{goods_of, lyapunov_of};
ghost use Rattle.mix_market.specs.Steepest.{AreSlopes, IsMinimalSteepest, slope_of};
ghost use Rattle.mix_descent.specs.Trails.{IsLongStep, after};

use mix_law::Convex;
use mix_market::Market;
use mix_num::{MOST_VALUE, Prices, Set, SetTable, raise};
use mix_step::Step;

/// A set of goods, by how much their prices rise together, and the slope of the Lyapunov function on the way.
#[derive(Clone, Copy, Debug, PartialEq, Eq)]
pub struct LongStep {
    /// The goods that rise.
    pub set: Set,
    /// By how much each of them rises, from 1 to 2,000,000.
    pub length: i64,
    /// By how much the Lyapunov function rises at each step; negative.
    pub slope: i64,
}

/// Raises the prices by the long step whose least step, which isn't empty, was found there.
///
/// It searches for no set: while the slope of the set stays the same, the set is still the least step. In place of the slopes it was
/// handed it leaves those at the new prices.
pub(crate) fn long_step<D: Convex>(
    market: &Market<D>,
    prices: &mut Prices,
    slopes: &mut SetTable,
    step: Step,
) -> LongStep
    requires range { AreWithin MOST_VALUE (goods_of market.now) prices.old.items }
    requires goods { IsSetOfGoods (goods_of market.now) step.set }
    requires some { step.set ≢ 0 }
    requires minimal { IsMinimalSteepest (goods_of market.now) (lyapunov_of market.now) (with_null prices.old.items) (members step.set) }
    requires slope { step.slope ≡ slope_of (lyapunov_of market.now) (with_null prices.old.items) (members step.set) }
    ensures long { IsLongStep (goods_of market.now) (lyapunov_of market.now) (with_null prices.old.items) result }
    ensures prices { Agree (goods_of market.now) (with_null prices.new.items) (after (with_null prices.old.items) result) }
    ensures range { AreWithin MOST_VALUE (goods_of market.now) prices.new.items }
    ensures slopes { AreSlopes (goods_of market.now) (lyapunov_of market.now) (with_null prices.new.items) slopes.new }
{
    let mut length = 0;
    loop {
        let reach = market.reach(prices, step.set);
        *prices = raise(prices, step.set, reach);
        length += reach;
        market.slopes(prices, slopes);
        if !has_slope(slopes, step.set, step.slope) {
            return LongStep {
                set: step.set,
                length,
                slope: step.slope,
            };
        }
    }
}

/// Whether the set has this slope.
fn has_slope(slopes: &SetTable, set: Set, slope: i64) -> bool
    ensures { IsTrue result ↔ (number_of slopes.now set ≡ slope) }
{
    slopes.at(set) == slope
}
