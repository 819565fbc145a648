// Sums over the goods of a bundle, and over the choices of a set.
ghost use Rattle.std.specs.Prelude.{◌≡◌, ℕ, ◌+◌, ◌∷◌, ◌*ℤ◌, All, length, cond, pos};
ghost use Rattle.mix_num.specs.Ranges.{Lies};
ghost use Rattle.mix_num.specs.Sums.{sum_in, dot_of};

use crate::{Bundle, PRICE_BOUND, Prices, Set};

/// The sum of the entries of the goods in the set, and of `null` where the null choice is in it.
///
/// Entries lie within plus and minus 8,000,000, and `null` within plus and minus 5,000,000,000.
pub fn sum_over(bundle: &Bundle, null: i64, set: Set) -> i64
    requires entries { All (Lies 8000000) bundle.now.items }
    requires null { Lies 5000000000 null }
    ensures value { result ≡ sum_in (null ∷ bundle.now.items) set }
    ensures range { Lies 5064000000 result }
    ensures near { (m : ℕ) → Lies m null → Lies (m + 64000000) result }
{
    let mut sum = counted(set.has(0), null);
    for (k, amount) in bundle.iter().enumerate() {
        sum += counted(set.has(k + 1), *amount);
    }
    sum
}

/// Price times quantity, summed over the goods.
///
/// Both have the same length. Prices lie within plus and minus 4,000,000, entries of the bundle within plus and minus
/// 8,000,000.
pub fn dot(prices: &Prices, bundle: &Bundle) -> i64
    requires size { length prices.now.items ≡ length bundle.now.items }
    requires prices { All (Lies PRICE_BOUND) prices.now.items }
    requires bundle { All (Lies 8000000) bundle.now.items }
    ensures value { result ≡ dot_of prices.now.items bundle.now.items }
    ensures range { Lies 256000000000000 result }
{
    let mut sum = 0;
    for (k, price) in prices.iter().enumerate() {
        sum += cost(*price, bundle[k]);
    }
    sum
}

/// The amount where it counts, and else 0.
pub fn counted(counts: bool, amount: i64) -> i64
    ensures { result ≡ cond counts amount (pos 0) }
{
    if counts { amount } else { 0 }
}

/// The price of an amount.
fn cost(price: i64, amount: i64) -> i64
    requires price { Lies PRICE_BOUND price }
    requires amount { Lies 8000000 amount }
    ensures value { result ≡ price *ℤ amount }
    ensures range { Lies 32000000000000 result }
{
    price * amount
}

#[cfg(test)]
mod tests {
    use super::*;
    use crate::lex_cmp;
    use std::cmp::Ordering;
    use std::test::Fail;

    #[test]
    fn sums(rt: HostRuntime) -> Result<(), Fail> {
        let mut bundle = Bundle::new();
        bundle.push(3);
        bundle.push(-2);
        for (bits, sum) in [(0, 0), (1, 10), (2, 3), (5, 8), (7, 11)] {
            assert_eq!(rt; sum_over(&bundle, 10, Set::from_bits(bits)), sum);
        }
        Ok(())
    }

    #[test]
    fn costs_and_order(rt: HostRuntime) -> Result<(), Fail> {
        let mut prices = Prices::new();
        prices.push(4);
        prices.push(7);
        let mut bundle = Bundle::new();
        bundle.push(3);
        bundle.push(-2);
        assert_eq!(rt; dot(&prices, &bundle), -2);
        assert_eq!(rt; lex_cmp(&bundle, &prices), Ordering::Less);
        assert_eq!(rt; lex_cmp(&prices, &prices), Ordering::Equal);
        Ok(())
    }
}
