// Prices moved along a set of goods.
ghost use Rattle.std.specs.Prelude.{◌≡◌, ◌≤◌, ◌<◌, ℕ, ℤ, pos, neg_ℤ, ◌+ℤ◌, ◌≤ℤ◌, suc, length, cond};
ghost use Rattle.mix_num.specs.Vectors.{Agree, members, with_null};
ghost use Rattle.mix_num.specs.Ranges.{ArePrices, Lies};
ghost use Rattle.mix_num.specs.Moves.{AreEntries, IsSetOfGoods, lowered, raised};

use crate::{PRICE_BOUND, Prices, Set};
use arrayvec::ArrayVec;

/// The prices with `by` added to the price of each good of the set.
///
/// The set is one of the goods 1 to n, `by` lies from 0 to 8,000,000, and no price, old or new, lies further than
/// 4,000,000 from 0.
pub fn raise(prices: &Prices, set: Set, by: i64) -> Prices
    requires goods { IsSetOfGoods (length prices.now.items) set }
    requires amount { (pos 0 ≤ℤ by) × (by ≤ℤ pos 8000000) }
    requires before { ArePrices (length prices.now.items) prices.now.items }
    requires after { AreEntries (length prices.now.items) (raised (with_null prices.now.items) (members set) by) }
    ensures goods { length result.items ≡ length prices.now.items }
    ensures prices { Agree (length prices.now.items) (with_null result.items) (raised (with_null prices.now.items) (members set) by) }
{
    moved(prices, set, by)
}

/// The prices with `by` taken from the price of each good of the set, under the conditions of [`raise`].
pub fn lower(prices: &Prices, set: Set, by: i64) -> Prices
    requires goods { IsSetOfGoods (length prices.now.items) set }
    requires amount { (pos 0 ≤ℤ by) × (by ≤ℤ pos 8000000) }
    requires before { ArePrices (length prices.now.items) prices.now.items }
    requires after { AreEntries (length prices.now.items) (lowered (with_null prices.now.items) (members set) by) }
    ensures goods { length result.items ≡ length prices.now.items }
    ensures prices { Agree (length prices.now.items) (with_null result.items) (lowered (with_null prices.now.items) (members set) by) }
{
    moved(prices, set, -by)
}

/// The prices with `by`, which may be negative, added to the price of each good of the set.
fn moved(prices: &Prices, set: Set, by: i64) -> Prices
    requires amount { Lies 8000000 by }
    requires before { ArePrices (length prices.now.items) prices.now.items }
    ensures goods { length result.items ≡ length prices.now.items }
    ensures prices { (k : ℕ) → k < length prices.now.items → with_null result.items (suc k) ≡ with_null prices.now.items (suc k) +ℤ cond (members set (suc k)) by (pos 0) }
{
    let mut moved = ArrayVec::new();
    for (place, price) in prices.iter().enumerate() {
        moved.push(step(*price, set.has(place + 1), by));
    }
    moved
}

/// The price, moved where its good is in the set.
fn step(price: i64, within: bool, by: i64) -> i64
    requires price { Lies PRICE_BOUND price }
    requires amount { Lies 8000000 by }
    ensures { result ≡ price +ℤ cond within by (pos 0) }
{
    if within { price + by } else { price }
}

#[cfg(test)]
mod tests {
    use super::*;
    use std::test::Fail;

    #[test]
    fn moves_the_goods_of_the_set(rt: HostRuntime) -> Result<(), Fail> {
        let prices = Prices::try_from([5, -3, 20].as_slice())?;
        let ends = Set::from_bits(0b1010);
        assert_eq!(rt; raise(&prices, ends, 4).as_slice(), [9, -3, 24].as_slice());
        assert_eq!(rt; lower(&prices, ends, 4).as_slice(), [1, -3, 16].as_slice());
        assert_eq!(rt; raise(&prices, ends, 0).as_slice(), [5, -3, 20].as_slice());
        Ok(())
    }
}
