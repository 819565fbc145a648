// The trail from the reserves.
ghost use Rattle.std.specs.Prelude.{◌≡◌, ◌<◌, IfOk};
ghost use Rattle.mix_num.specs.Vectors.{with_null};
ghost use Rattle.mix_num.specs.Ranges.{AreWithin};
ghost use Rattle.mix_market.specs.Lyapunov.{IsLeastPoint};
ghost use Rattle.mix_market.specs.Markets.{goods_of, lyapunov_of, reserves_of};
ghost use Rattle.mix_descent.specs.Trails.{IsTrail};

use crate::long_step::long_step;
use crate::long_steps::LongSteps;
use mix_law::Convex;
use mix_market::Market;
use mix_num::{MOST_VALUE, Memory, Prices, SetTable, copy};
use mix_step::{Steps, least_among};
use std::alloc::Global;
use std::marker::Brand;
use std::sync::ledger::{Blank, Ledger};

/// A climb: its long steps, and the prices at its end.
#[derive(Drop)]
pub struct Climb {
    pub steps: LongSteps,
    pub prices: Prices,
}

/// The trail from the reserves, and the prices at its end: the least point of the market's Lyapunov function at or above the
/// reserves, from 0 to 1,000,000.
pub fn trail<D: Convex>(alloc: Global, market: &Market<D>) -> Result<Climb, Memory>
    ensures trail { IfOk result (λ climb. IsTrail (goods_of market.now) (lyapunov_of market.now) (with_null (reserves_of market.now)) climb.steps (with_null climb.prices.items)) }
    ensures least { IfOk result (λ climb. IsLeastPoint (goods_of market.now) (lyapunov_of market.now) (with_null (reserves_of market.now)) (with_null climb.prices.items)) }
    ensures range { IfOk result (λ climb. AreWithin MOST_VALUE (goods_of market.now) climb.prices.items) }
{
    from_reserves::<D, Brand>(alloc, market, Blank::new(1))
}

/// The same, with a counter of least steps that nobody reads.
fn from_reserves<D: Convex, L: Ledger>(
    alloc: Global,
    market: &Market<D>,
    blank: Blank,
) -> Result<Climb, Memory>
    requires name { blank.name ≡ L.name }
    requires parts { blank.parts ≡ L.parts }
    requires some { 0 < blank.parts }
    ensures trail { IfOk result (λ climb. IsTrail (goods_of market.now) (lyapunov_of market.now) (with_null (reserves_of market.now)) climb.steps (with_null climb.prices.items)) }
    ensures least { IfOk result (λ climb. IsLeastPoint (goods_of market.now) (lyapunov_of market.now) (with_null (reserves_of market.now)) (with_null climb.prices.items)) }
    ensures range { IfOk result (λ climb. AreWithin MOST_VALUE (goods_of market.now) climb.prices.items) }
{
    let mut counter = Steps::<L>::new(blank);
    let mut steps = LongSteps::new(alloc);
    let mut prices = copy(market.seller().reserve());
    let mut slopes = SetTable::new();
    market.slopes(&prices, &mut slopes);
    loop {
        let step = least_among(prices.len(), &slopes, &mut counter);
        if step.set.bits() == 0 {
            return Ok(Climb { steps, prices });
        }
        let long = long_step(market, &mut prices, &mut slopes, step);
        steps.push(long)?;
    }
}
