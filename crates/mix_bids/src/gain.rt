// What a bid gains at prices.
ghost use Rattle.std.specs.Prelude.{◌≡◌, length, pos, ◌≤ℤ◌};
ghost use Rattle.mix_num.specs.Vectors.{with_null};
ghost use Rattle.mix_num.specs.Ranges.{ArePrices, Lies};
ghost use Rattle.mix_bids.specs.Offers.{better as better_of, gain as gain_of, AreOffers, IsOffer};

use crate::bid::Values;
use mix_num::{PRICE_BOUND, Prices};

/// The greater of a gain so far and what the offer leaves at the price.
pub fn better(offer: Option<i64>, price: i64, gain: i64) -> i64
    requires offer { IsOffer offer }
    requires price { Lies PRICE_BOUND price }
    requires gain { (pos 0 ≤ℤ gain) × (gain ≤ℤ pos 5000000) }
    ensures value { result ≡ better_of offer price gain }
    ensures range { (pos 0 ≤ℤ result) × (result ≤ℤ pos 5000000) }
{
    match offer {
        Some(value) => gain.max(value - price),
        None => gain,
    }
}

/// The greatest of 0 and what the offers leave at the prices.
pub fn gain(values: &Values, prices: &Prices) -> i64
    requires offers { AreOffers (length prices.now.items) values.now.items }
    requires prices { ArePrices (length prices.now.items) prices.now.items }
    ensures value { result ≡ gain_of values.now.items (with_null prices.now.items) }
    ensures range { (pos 0 ≤ℤ result) × (result ≤ℤ pos 5000000) }
{
    let offers = values.as_slice();
    let prices = prices.as_slice();
    let mut greatest = 0;
    for i in 0..offers.len() {
        greatest = better(offers[i], prices[i], greatest);
    }
    greatest
}
