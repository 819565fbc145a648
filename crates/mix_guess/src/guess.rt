// The guess, by ever shorter lengths.
ghost use Rattle.std.specs.Prelude.{◌≡◌, ◌<◌, ◌≤◌, ◌≤ℤ◌, ℕ, pos, length, get_or};
ghost use Rattle.mix_num.specs.Ranges.{AreWithin};
ghost use Rattle.mix_market.specs.Markets.{goods_of, reserves_of};

use crate::directions::{steepest_fall, steepest_rise};
use crate::look::Look;
use crate::set_sums::SetSums;
use mix_cap::Member;
use mix_market::Market;
use mix_num::{MOST_VALUE, Prices, Set};

/// A guess of the least point of the market's Lyapunov function at or above the reserves: prices from the reserves to 1,000,000.
/// It takes no memory.
///
/// How near it comes no contract says. It steps up and down along the steepest sets of goods, by lengths that are halved
/// wherever no step leads on. At each length it takes the bids for bids in whole lengths, so that one look at all bids tells
/// where the function falls over that length, not only at its start; at the last length that is exact. Of the bids of a bidder
/// with a cap it counts as many units as the cap lets through.
pub fn guess_prices(market: &Market<Member>) -> Prices
    ensures range { AreWithin MOST_VALUE (goods_of market.now) result.items }
    ensures floor { (k : ℕ) → k < goods_of market.now → get_or (reserves_of market.now) k (pos 0) ≤ℤ get_or result.items k (pos 0) }
{
    let reserve = market.seller().reserve();
    let floor = numbers(reserve);
    let supply = SetSums::of_goods(market.seller().supply());
    let top = highest_top(market);
    let mut look = Look::new();
    let mut prices = floor;
    // No value is above 1,000,000, which is less than 2^20.
    for past in 0..20 {
        let halvings = 19 - past;
        if 1 << halvings <= top {
            settle(market, &supply, &floor, halvings, &mut look, &mut prices);
        }
    }
    bounded(&prices, reserve)
}

/// The greatest of the members' tops of all goods.
fn highest_top(market: &Market<Member>) -> i64 {
    let mut highest = 0;
    for place in 0..market.seller().supply().len() {
        highest = market.top(place + 1).max(highest);
    }
    highest
}

/// Steps of a length of `2^halvings` from the prices for as long as they lead on, and at most some few.
fn settle(
    market: &Market<Member>,
    supply: &SetSums,
    floor: &[i64; 8],
    halvings: u32,
    look: &mut Look,
    prices: &mut [i64; 8],
)
    requires { halvings ≤ 19 }
{
    let n = market.seller().supply().len();
    let length = 1 << halvings;
    for _ in 0..4 * n + 8 {
        look.count(market, prices, halvings);
        let rise = steepest_rise(look.weights(), supply, n);
        let fall = steepest_fall(look.weights(), supply, free(prices, floor, length), n);
        if rise.slope < fall.slope {
            shift(prices, rise.set, length);
        } else if fall.set.bits() != 0 {
            shift(prices, fall.set, -length);
        } else {
            return;
        }
    }
}

/// The goods that can fall by the length and stay at or above the floor.
fn free(prices: &[i64; 8], floor: &[i64; 8], length: i64) -> Set {
    let mut bits = 0;
    for place in 0..8 {
        if prices[place].wrapping_sub(length) >= floor[place] {
            bits |= 2 << place;
        }
    }
    Set::from_bits(bits & 511)
}

/// Adds to the price of each good of the set.
fn shift(prices: &mut [i64; 8], set: Set, by: i64) {
    for place in 0..8 {
        if set.has(place + 1) {
            prices[place] = prices[place].wrapping_add(by);
        }
    }
}

/// The numbers of a list, and 0 for the places that it hasn't.
fn numbers(list: &Prices) -> [i64; 8] {
    let mut numbers = [0; 8];
    for place in 0..8 {
        if place < list.len() {
            numbers[place] = list[place];
        }
    }
    numbers
}

/// A price for each good: the number at its place, from the reserve to 1,000,000.
fn bounded(numbers: &[i64; 8], reserve: &Prices) -> Prices
    requires few { length reserve.now.items ≤ 8 }
    requires reserve { AreWithin MOST_VALUE (length reserve.now.items) reserve.now.items }
    ensures range { AreWithin MOST_VALUE (length reserve.now.items) result.items }
    ensures floor { (k : ℕ) → k < length reserve.now.items → get_or reserve.now.items k (pos 0) ≤ℤ get_or result.items k (pos 0) }
{
    let mut prices = Prices::new();
    for (place, floor) in reserve.iter().enumerate() {
        prices.push(numbers[place].min(1_000_000).max(*floor));
    }
    prices
}
