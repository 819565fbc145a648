// Over how many steps along a set of goods the utility of a list falls equally.
ghost use Rattle.std.specs.Prelude.{◌≡◌, ◌≤◌, ℕ, suc, Option, None, true, false, not, cond, length, pos, neg_ℤ, ◌-ℤ◌, ◌*ℤ◌, ◌≤ℤ◌};
ghost use Rattle.mix_num.specs.Vectors.{members, plus, ray, with_null};
ghost use Rattle.mix_num.specs.Ranges.{ArePrices, Lies};
ghost use Rattle.mix_bids.specs.Offers.{best, better as better_of, within, AreOffers, IsOffer};
ghost use Rattle.mix_bids.specs.Bids.{utility, IsBid};
ghost use Rattle.mix_bids.specs.Reaches.{gap as gap_of, reach_of};

use crate::bid::{Bid, Values};
use crate::gain::better;
use crate::list::BidList;
use mix_num::{PRICE_BOUND, Prices, Set};

impl BidList {
    /// How far the prices of a set of goods may rise together until a bid whose best set lies in the set finds a choice outside it
    /// as good: over that many steps the utility falls equally at each. It is 8,000,000 where no bid's best set lies in the set,
    /// and takes no memory.
    ///
    /// Of each bid whose best set lies in the set it looks at the difference between its greatest gain in the set and its greatest
    /// gain outside it; the answer is the least of these.
    pub fn reach(&self, prices: &Prices, set: Set) -> i64
        requires prices { ArePrices self.now.goods prices.now.items }
        requires goods { members set 0 ≡ false }
        ensures value { result ≡ reach_of self.now.goods (members set) self.now.bids (with_null prices.now.items) }
        ensures range { (pos 1 ≤ℤ result) × (result ≤ℤ pos 8000000) }
        ensures linear { (m : ℕ) → pos m ≤ℤ result → let x = with_null prices.now.items in
            utility self.now.bids (ray x m (members set)) ≡ utility self.now.bids x -ℤ (pos m *ℤ (utility self.now.bids x -ℤ utility self.now.bids (plus x (members set)))) }
    {
        let mut least: i64 = 8_000_000;
        for bid in self.bids() {
            least = least.min(steps(bid, prices, set));
        }
        least
    }
}

/// The gap of a bid whose best set lies in the set, or 8,000,000.
fn steps(bid: &Bid, prices: &Prices, set: Set) -> i64
    requires bid { IsBid (length prices.now.items) bid.now }
    requires prices { ArePrices (length prices.now.items) prices.now.items }
    requires goods { members set 0 ≡ false }
    ensures value { result ≡ cond (within (suc (length prices.now.items)) (best bid.now.values.items (with_null prices.now.items)) (members set)) (gap_of (members set) bid.now.values.items (with_null prices.now.items)) (pos 8000000) }
    ensures range { (pos 1 ≤ℤ result) × (result ≤ℤ pos 8000000) }
{
    // The null choice, which always gains 0, is outside the set: only where the best set lies in it, the gap is above 0.
    let gap = gap(&bid.values, prices, set);
    if gap > 0 { gap } else { 8_000_000 }
}

/// The difference between the greatest gain in the set and the greatest gain outside it, the null choice counted in both.
fn gap(values: &Values, prices: &Prices, set: Set) -> i64
    requires offers { AreOffers (length prices.now.items) values.now.items }
    requires prices { ArePrices (length prices.now.items) prices.now.items }
    ensures value { result ≡ gap_of (members set) values.now.items (with_null prices.now.items) }
    ensures range { Lies 5000000 result }
{
    let offers = values.as_slice();
    let prices = prices.as_slice();
    let mut gains = Gains {
        inside: 0,
        outside: 0,
    };
    // The compiler knows how many turns these are, and writes them out one by one.
    for i in 0..8 {
        if i < offers.len() {
            gains = gains.with(set.has(i + 1), offers[i], prices[i]);
        }
    }
    gains.inside - gains.outside
}

/// Of the choices looked at so far, the greatest gain in a set and the greatest gain outside it.
#[derive(Clone, Copy, Drop)]
struct Gains {
    inside: i64,
    outside: i64,
}

impl Gains {
    /// With one more good looked at, which is in the set or outside it.
    fn with(self, inside: bool, offer: Option<i64>, price: i64) -> Gains
        requires offer { IsOffer offer }
        requires price { Lies PRICE_BOUND price }
        requires inside { (pos 0 ≤ℤ self.inside) × (self.inside ≤ℤ pos 5000000) }
        requires outside { (pos 0 ≤ℤ self.outside) × (self.outside ≤ℤ pos 5000000) }
        ensures inside { result.inside ≡ better_of (cond inside offer None) price self.inside }
        ensures inside_range { (pos 0 ≤ℤ result.inside) × (result.inside ≤ℤ pos 5000000) }
        ensures outside { result.outside ≡ better_of (cond (not inside) offer None) price self.outside }
        ensures outside_range { (pos 0 ≤ℤ result.outside) × (result.outside ≤ℤ pos 5000000) }
    {
        if inside {
            Gains {
                inside: better(offer, price, self.inside),
                outside: self.outside,
            }
        } else {
            Gains {
                inside: self.inside,
                outside: better(offer, price, self.outside),
            }
        }
    }
}
