// What a unit of a good leaves the seller, and where that changes.
ghost use Rattle.std.specs.Prelude.{◌≡◌, pos, ◌-ℤ◌, ◌+ℤ◌, ◌*ℤ◌, ◌≤ℤ◌};
ghost use Rattle.std.specs.Int.{int_max};
ghost use Rattle.mix_num.specs.Ranges.{Lies};
ghost use Rattle.mix_num.specs.Sellers.{IsAmount};
ghost use Rattle.mix_num.specs.Vectors.{bit};
ghost use Rattle.mix_seller.specs.Reaches.{good_reach};

use mix_num::MOST_UNITS;
use std::cmp::Ordering;

/// What a unit of a good leaves: the reserve less the price, or nothing where that is more.
pub fn left(reserve: i64, price: i64) -> i64
    requires reserve { IsAmount reserve }
    requires price { Lies 3999999 price }
    ensures value { result ≡ int_max (pos 0) (reserve -ℤ price) }
    ensures range { (pos 0 ≤ℤ result) × (result ≤ℤ pos 5000000) }
{
    (reserve - price).max(0)
}

/// What the supply leaves, where a unit leaves this.
pub fn weigh(supply: i64, unit: i64) -> i64
    requires supply { IsAmount supply }
    requires unit { (pos 0 ≤ℤ unit) × (unit ≤ℤ pos 5000000) }
    ensures value { result ≡ supply *ℤ unit }
    ensures range { (pos 0 ≤ℤ result) × (result ≤ℤ pos 5000000000000) }
{
    supply * unit
}

/// The supply where the test holds, or 0.
pub fn supply_where(test: bool, supply: i64) -> i64
    requires { IsAmount supply }
    ensures value { result ≡ supply *ℤ bit test }
    ensures range { (pos 0 ≤ℤ result) × (result ≤ℤ pos MOST_UNITS) }
{
    if test { supply } else { 0 }
}

/// Whether a unit leaves less where the null choice's price, the good's, or both rise by one: all that leaves the most then rises.
pub fn loses(reserve: i64, price: i64, null: bool, good: bool) -> bool
    requires reserve { IsAmount reserve }
    requires price { Lies 3999999 price }
    ensures { bit result ≡ int_max (pos 0) (reserve -ℤ price) -ℤ int_max (pos 0 -ℤ bit null) (reserve -ℤ (price +ℤ bit good)) }
{
    match price.cmp(&reserve) {
        Ordering::Greater => null,
        Ordering::Equal => null && good,
        Ordering::Less => good,
    }
}

/// Whether a unit leaves more where the null choice's price, the good's, or both fall by one: some of what leaves the most then falls.
pub fn gains(reserve: i64, price: i64, null: bool, good: bool) -> bool
    requires reserve { IsAmount reserve }
    requires price { Lies 3999999 price }
    ensures { bit result ≡ int_max (bit null) (reserve -ℤ (price -ℤ bit good)) -ℤ int_max (pos 0) (reserve -ℤ price) }
{
    match price.cmp(&reserve) {
        Ordering::Greater => null,
        Ordering::Equal => null || good,
        Ordering::Less => good,
    }
}

/// How far the reserve is above the price, where the good is in the set, is for sale and has a reserve above its price; else 8,000,000.
pub fn span(within: bool, supply: i64, reserve: i64, price: i64) -> i64
    requires reserve { IsAmount reserve }
    requires price { Lies 3999999 price }
    ensures value { result ≡ good_reach within supply reserve price }
    ensures range { (pos 1 ≤ℤ result) × (result ≤ℤ pos 8000000) }
{
    if within && supply > 0 && reserve > price {
        reserve - price
    } else {
        8_000_000
    }
}
