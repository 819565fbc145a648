// The best set of a bid.
ghost use Rattle.std.specs.Prelude.{◌≡◌, ℕ, ◌+◌, ◌^◌, ◌<◌, ◌≤◌, true, false, cond, eqb, pos, ◌≤ℤ◌, length};
ghost use Rattle.std.specs.Int.{int_max};
ghost use Rattle.std.specs.Ordering.{int_eq};
ghost use Rattle.mix_num.specs.Vectors.{members, with_null};
ghost use Rattle.mix_num.specs.Ranges.{ArePrices, Lies};
ghost use Rattle.mix_bids.specs.Offers.{best as best_of, better as better_of, gain as gain_of, leaves as leaves_of, IsOffer};
ghost use Rattle.mix_bids.specs.Bids.{IsBid};

use crate::bid::Bid;
use crate::choices::{set_where, with_choice};
use mix_num::{PRICE_BOUND, Prices, Set};

/// Of the choices of a bid looked at so far, the null choice among them, the greatest value less price, and those that have it.
#[derive(Clone, Copy, Drop)]
pub struct Best {
    /// What the bid gains, from 0 to 5,000,000.
    pub gain: i64,
    /// The choices at which it gains this.
    pub set: Set,
}

impl Best {
    /// The null choice alone, which leaves 0.
    fn null() -> Best
        ensures gain { result.gain ≡ pos 0 }
        ensures set { result.set ≡ 1 }
    {
        Best {
            gain: 0,
            set: Set::from_bits(1),
        }
    }

    /// With one more choice looked at.
    fn with(self, choice: usize, offer: Option<i64>, price: i64) -> Best
        requires choice { choice ≤ 8 }
        requires offer { IsOffer offer }
        requires price { Lies PRICE_BOUND price }
        requires gain { (pos 0 ≤ℤ self.gain) × (self.gain ≤ℤ pos 5000000) }
        ensures gain { result.gain ≡ better_of offer price self.gain }
        ensures range { (pos 0 ≤ℤ result.gain) × (result.gain ≤ℤ pos 5000000) }
        ensures set { (k : ℕ) → members result.set k ≡ cond (cond (eqb k choice) (leaves_of offer price result.gain) false) true (cond (int_eq result.gain self.gain) (members self.set k) false) }
        ensures size { (m : ℕ) → self.set < 2 ^ m → choice < m → result.set < 2 ^ m }
    {
        match offer {
            Some(value) => self.with_gain(choice, value - price),
            None => self,
        }
    }

    /// With one more choice looked at, which leaves this gain.
    fn with_gain(self, choice: usize, gain: i64) -> Best
        requires choice { choice ≤ 8 }
        requires new { Lies 5000000 gain }
        requires gain { (pos 0 ≤ℤ self.gain) × (self.gain ≤ℤ pos 5000000) }
        ensures gain { result.gain ≡ int_max self.gain gain }
        ensures range { (pos 0 ≤ℤ result.gain) × (result.gain ≤ℤ pos 5000000) }
        ensures set { (k : ℕ) → members result.set k ≡ cond (cond (eqb k choice) (int_eq gain result.gain) false) true (cond (int_eq result.gain self.gain) (members self.set k) false) }
        ensures size { (m : ℕ) → self.set < 2 ^ m → choice < m → result.set < 2 ^ m }
    {
        if gain < self.gain {
            return self;
        }
        let before = set_where(gain == self.gain, self.set);
        Best {
            gain,
            set: with_choice(before, choice),
        }
    }
}

/// What the bid gains at the prices, and the choices at which it gains this: those with the greatest value less price, the null choice
/// among them. It takes no memory.
pub fn best_choices(bid: &Bid, prices: &Prices) -> Best
    requires bid { IsBid (length prices.now.items) bid.now }
    requires prices { ArePrices (length prices.now.items) prices.now.items }
    ensures gain { result.gain ≡ gain_of bid.now.values.items (with_null prices.now.items) }
    ensures range { (pos 0 ≤ℤ result.gain) × (result.gain ≤ℤ pos 5000000) }
    ensures best { (k : ℕ) → members result.set k ≡ best_of bid.now.values.items (with_null prices.now.items) k }
    ensures within { result.set < 2 ^ (length prices.now.items + 1) }
{
    let offers = bid.values.as_slice();
    let prices = prices.as_slice();
    let mut best = Best::null();
    // The compiler knows how many turns these are, and writes them out one by one.
    for i in 0..8 {
        if i < offers.len() {
            best = best.with(i + 1, offers[i], prices[i]);
        }
    }
    best
}

/// The best set of the bid: the choices with the greatest value less price, the null choice among them. It takes no memory.
pub fn best_set(bid: &Bid, prices: &Prices) -> Set
    requires bid { IsBid (length prices.now.items) bid.now }
    requires prices { ArePrices (length prices.now.items) prices.now.items }
    ensures best { (k : ℕ) → members result k ≡ best_of bid.now.values.items (with_null prices.now.items) k }
    ensures within { result < 2 ^ (length prices.now.items + 1) }
{
    best_choices(bid, prices).set
}
