// What the supply is worth at prices, and how much of it is of the goods of a set.
ghost use Rattle.std.specs.Prelude.{◌≡◌, ◌≤◌, ◌<◌, ℕ, ℤ, suc, pos, neg_ℤ, ◌+ℤ◌, ◌*ℤ◌, ◌≤ℤ◌, length, cond};
ghost use Rattle.mix_num.specs.Vectors.{bit, dot_to, members, with_null};
ghost use Rattle.mix_num.specs.Ranges.{HaveRoom, Lies};
ghost use Rattle.mix_num.specs.Sellers.{AreAmounts, IsAmount};

use mix_num::Set;

/// The sum over the goods of supply times price.
pub fn cost(supply: &[i64], prices: &[i64]) -> i64
    requires few { length supply.now ≤ 8 }
    requires supply { AreAmounts (length prices.now) supply.now }
    requires prices { HaveRoom (length prices.now) prices.now }
    ensures value { result ≡ dot_to (suc (length supply.now)) (with_null supply.now) (with_null prices.now) }
    ensures range { Lies 32000000000000 result }
{
    let mut sum = 0;
    for (place, amount) in supply.iter().enumerate() {
        sum += worth_of(*amount, prices[place]);
    }
    sum
}

/// The price of an amount.
fn worth_of(amount: i64, price: i64) -> i64
    requires amount { IsAmount amount }
    requires price { Lies 3999999 price }
    ensures value { result ≡ amount *ℤ price }
    ensures range { Lies 4000000000000 result }
{
    amount * price
}

/// The supply of the goods of the set together.
pub fn supplied(supply: &[i64], set: Set) -> i64
    requires few { length supply.now ≤ 8 }
    requires supply { AreAmounts (length supply.now) supply.now }
    ensures value { result ≡ dot_to (suc (length supply.now)) (with_null supply.now) (λ good. bit (members set good)) }
    ensures range { (pos 0 ≤ℤ result) × (result ≤ℤ pos 8000000) }
{
    let mut sum = 0;
    for (place, amount) in supply.iter().enumerate() {
        sum += amount_where(set.has(place + 1), *amount);
    }
    sum
}

/// The amount where its good is in the set, or nothing.
fn amount_where(within: bool, amount: i64) -> i64
    requires { IsAmount amount }
    ensures value { result ≡ amount *ℤ bit within }
    ensures range { IsAmount result }
{
    if within { amount } else { 0 }
}
