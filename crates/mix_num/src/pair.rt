// Pairs of sets of choices, and their numbers.
ghost use Rattle.std.specs.Prelude.{◌≡◌, ◌↔◌, ◌-ℤ◌, ◌+ℤ◌, ℕ, suc, ◌^◌, ◌≤◌, ◌<◌, IsTrue, All, length};
ghost use Rattle.mix_num.specs.Ranges.{Lies};
ghost use Rattle.mix_num.specs.Vectors.{members};
ghost use Rattle.mix_num.specs.Pairs.{IsPair, sum_before};

use crate::sums::counted;
use crate::{Bundle, Set};

/// A pair of sets of choices whose number is what a bidder has of a good: it shows that the bidder can't get more.
#[derive(Clone, Copy, Debug, PartialEq, Eq, Drop)]
pub struct Tight {
    /// The set with the good.
    pub upper: Set,
    /// The set without it.
    pub lower: Set,
}

impl Tight {
    /// Whether the two sets are a pair for a good, counted from 0, of so many goods, at most 8: the upper set has it, the
    /// lower one doesn't, and they agree in the null choice and in the goods after it.
    pub fn is_pair(&self, good: usize, goods: usize) -> bool
        requires goods { goods ≤ 8 }
        requires good { good < goods }
        requires upper { self.now.upper < 2 ^ suc goods }
        requires lower { self.now.lower < 2 ^ suc goods }
        ensures { IsTrue result ↔ IsPair goods good self.now.upper self.now.lower }
    {
        self.upper.has(good + 1)
            && !self.lower.has(good + 1)
            && self.upper.has(0) == self.lower.has(0)
            && agree_after(self.upper, self.lower, good + 1, goods)
    }
}

/// The number of a pair for a good, counted from 0: from a member's number of the upper set, what must be given to the
/// member at the lower set, and the member's bundle, of which the goods before the good count.
///
/// The two numbers lie within plus and minus 4,000,000,000,000, entries of the bundle within plus and minus 8,000,000.
pub fn pair_number(number: i64, floor: i64, bundle: &Bundle, good: usize, pair: Tight) -> i64
    requires good { good ≤ length bundle.now.items }
    requires few { good ≤ 8 }
    requires number { Lies 4000000000000 number }
    requires floor { Lies 4000000000000 floor }
    requires entries { All (Lies 8000000) bundle.now.items }
    ensures value { result ≡ ((number -ℤ sum_before good bundle.now.items pair.upper) -ℤ floor) +ℤ sum_before good bundle.now.items pair.lower }
    ensures range { Lies 9000000000000 result }
{
    let upper = amount_before(bundle, good, pair.upper);
    let lower = amount_before(bundle, good, pair.lower);
    number - upper - floor + lower
}

/// Whether two sets agree in the goods after a choice.
fn agree_after(upper: Set, lower: Set, choice: usize, goods: usize) -> bool
    requires goods { goods ≤ 8 }
    requires choice { choice ≤ goods }
    ensures { IsTrue result ↔ ((i : ℕ) → choice < i → i ≤ goods → members upper i ≡ members lower i) }
{
    for later in choice + 1..goods + 1 {
        if upper.has(later) != lower.has(later) {
            return false;
        }
    }
    true
}

/// What the bundle has of those goods before a good that are in the set.
fn amount_before(bundle: &Bundle, good: usize, set: Set) -> i64
    requires good { good ≤ length bundle.now.items }
    requires few { good ≤ 8 }
    requires entries { All (Lies 8000000) bundle.now.items }
    ensures value { result ≡ sum_before good bundle.now.items set }
    ensures range { Lies 64000000 result }
{
    let mut sum = 0;
    for place in 0..good {
        sum += counted(set.has(place + 1), bundle[place]);
    }
    sum
}

#[cfg(test)]
mod tests {
    use super::*;
    use std::test::Fail;

    #[test]
    fn pairs_and_their_numbers(rt: HostRuntime) -> Result<(), Fail> {
        let mut bundle = Bundle::new();
        bundle.push(3);
        bundle.push(2);
        let rows = [
            (2, 0, 0, true, 5),
            (3, 0, 0, false, 5),
            (7, 1, 1, true, 2),
            (4, 2, 1, true, 8),
        ];
        for (upper, lower, good, is_pair, number) in rows {
            let pair = Tight {
                upper: Set::from_bits(upper),
                lower: Set::from_bits(lower),
            };
            assert_eq!(rt; pair.is_pair(good, 2), is_pair);
            assert_eq!(rt; pair_number(6, 1, &bundle, good, pair), number);
        }
        Ok(())
    }
}
