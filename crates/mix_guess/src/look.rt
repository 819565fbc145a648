// What a look at all bids of a market counts.
ghost use Rattle.std.specs.Prelude.{◌≤◌};

use crate::likings::{Liking, likings_at, threshold_of, units_from};
use crate::set_sums::SetSums;
use mix_cap::{Capped, Member};
use mix_market::Market;

/// For each set of choices the weights of the bids that like best some of the set, as far as caps let them through.
#[derive(Drop)]
pub struct Look {
    weights: SetSums,
    passing: SetSums,
}

impl Look {
    /// Nothing is counted.
    pub fn new() -> Look {
        Look {
            weights: SetSums::new(),
            passing: SetSums::new(),
        }
    }

    /// What was counted last, summed over subsets.
    pub fn weights(&self) -> &SetSums {
        &self.weights
    }

    /// Counts the bids at the prices, where gains are counted in whole lengths of `2^halvings`.
    pub fn count(&mut self, market: &Market<Member>, prices: &[i64; 8], halvings: u32)
        requires { halvings ≤ 19 }
    {
        let n = market.seller().supply().len();
        self.weights.clear(n);
        self.passing.clear(n);
        for member in market.members() {
            match member {
                Member::List(list) => self.weights.add_bids(list.list(), prices, halvings),
                Member::Capped(capped) => self.add_capped(capped, prices, halvings, n),
            }
        }
        self.weights.sum_over_subsets(n);
        self.weights.add_passing(&self.passing, 0, n);
    }

    /// Counts the bids of a bidder with a cap.
    ///
    /// Of those at the threshold some units are spare. Where as many others rise or fall as there are of these, they are served in
    /// the others' place, and the bidder wants no less or no more.
    fn add_capped(&mut self, capped: &Capped, prices: &[i64; 8], halvings: u32, n: usize)
        requires halvings { halvings ≤ 19 }
        requires few { n ≤ 8 }
    {
        let likings = likings_at(capped.list(), prices, halvings);
        let threshold = threshold_of(likings.as_slice(), capped.cap(), halvings);
        let spare = units_from(likings.as_slice(), threshold).wrapping_sub(capped.cap());
        let mut level = SetSums::new();
        add_by_gain(likings.as_slice(), threshold, &mut self.weights, &mut level);
        if spare > 0 {
            level.sum_over_subsets(n);
            self.passing.add_passing(&level, spare, n);
        } else {
            self.weights.add_passing(&level, 0, n);
        }
    }
}

/// Adds the units of what gains more than the threshold to the first sums, and of what gains just that to the second.
fn add_by_gain(likings: &[Liking], threshold: i64, above: &mut SetSums, level: &mut SetSums) {
    for liking in likings {
        if liking.gain > threshold {
            above.add(liking.choices, liking.units);
        } else if liking.gain == threshold {
            level.add(liking.choices, liking.units);
        }
    }
}
