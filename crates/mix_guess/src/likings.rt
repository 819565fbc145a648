// What the bids of a bidder with a cap like best, and which of them the cap lets through.
ghost use Rattle.std.specs.Prelude.{◌≤◌};

use crate::best::best_choices;
use arrayvec::ArrayVec;
use mix_bids::BidList;

/// What a bid likes best: how much each of its units gains by it, the bits of the choices, and how many units they are.
#[derive(Clone, Copy, Default, Drop)]
pub struct Liking {
    pub gain: i64,
    pub choices: usize,
    pub units: i64,
}

/// What the bids like best, in their order.
pub type Likings = ArrayVec<Liking, 400>;

/// What the bids of the list like best at the prices, where gains are counted in whole lengths of `2^halvings`.
pub fn likings_at(list: &BidList, prices: &[i64; 8], halvings: u32) -> Likings
    requires { halvings ≤ 19 }
{
    let mut likings = Likings::new();
    for bid in list.bids() {
        let best = best_choices(bid, prices, halvings);
        likings.push(Liking {
            gain: best.gain,
            choices: best.choices,
            units: bid.weight,
        });
    }
    likings
}

/// The least gain, in whole lengths of `2^halvings`, such that at most `cap` units gain more: those the cap lets through, of those
/// that gain just as much as many as it still can, and none that gain less.
///
/// Its bits are found from the highest down. No value is above 1,000,000, which is less than 2^20.
pub fn threshold_of(likings: &[Liking], cap: i64, halvings: u32) -> i64
    requires { halvings ≤ 19 }
{
    let mut threshold = 0;
    for past in halvings..20 {
        let higher = threshold | 1 << (19 - past);
        if units_from(likings, higher) > cap {
            threshold = higher;
        }
    }
    threshold
}

/// How many units gain so much or more.
pub fn units_from(likings: &[Liking], least: i64) -> i64 {
    let mut units: i64 = 0;
    for liking in likings {
        if liking.gain >= least {
            units = units.wrapping_add(liking.units);
        }
    }
    units
}
