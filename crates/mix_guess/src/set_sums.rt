// A number for each set of choices.
ghost use Rattle.std.specs.Prelude.{◌≤◌};

use crate::best::best_choices;
use mix_bids::BidList;
use mix_num::Set;

/// A number for each set of the choices 0 to 8.
///
/// Sums wrap, so that no bound has to be known; those of an auction are far from it.
#[derive(Drop)]
pub struct SetSums {
    numbers: [i64; 512],
}

impl SetSums {
    /// All numbers are 0.
    pub fn new() -> SetSums {
        SetSums { numbers: [0; 512] }
    }

    /// For each set of goods how much of them there is, where there is so much of each.
    pub fn of_goods(amounts: &[i64]) -> SetSums {
        let mut sums = SetSums::new();
        for place in 0..8 {
            if place < amounts.len() {
                sums.add(2 << place, amounts[place]);
            }
        }
        sums.sum_over_subsets(8);
        sums
    }

    /// The number of a set.
    pub fn at(&self, set: Set) -> i64 {
        self.numbers[set.bits() as usize]
    }

    /// Puts 0 in place of the number of each set of the choices 0 to n.
    pub fn clear(&mut self, n: usize)
        requires { n ≤ 8 }
    {
        for bits in 0..sets_of(n) {
            self.numbers[bits] = 0;
        }
    }

    /// Adds the weight of each bid to the number of the set that it likes best at the prices, where gains are counted in whole
    /// lengths of `2^halvings`.
    pub fn add_bids(&mut self, list: &BidList, prices: &[i64; 8], halvings: u32)
        requires { halvings ≤ 19 }
    {
        for bid in list.bids() {
            self.add(best_choices(bid, prices, halvings).choices, bid.weight);
        }
    }

    /// Adds to the number of each set of the choices 0 to n by how much its number in the other passes the spare.
    pub fn add_passing(&mut self, other: &SetSums, spare: i64, n: usize)
        requires { n ≤ 8 }
    {
        for bits in 0..sets_of(n) {
            let passing = other.numbers[bits].wrapping_sub(spare).max(0);
            self.numbers[bits] = self.numbers[bits].wrapping_add(passing);
        }
    }

    /// Adds to the number of the set with these bits, of which those of the choices 0 to 8 count.
    pub fn add(&mut self, bits: usize, by: i64) {
        let bits = bits & 511;
        self.numbers[bits] = self.numbers[bits].wrapping_add(by);
    }

    /// Puts in place of the number of each set of the choices 0 to n the sum of the numbers of its subsets.
    pub fn sum_over_subsets(&mut self, n: usize)
        requires { n ≤ 8 }
    {
        for choice in 0..n + 1 {
            self.add_without(choice, n);
        }
    }

    /// Adds to the number of each set with the choice, of the sets of the choices 0 to n, the number of the set without it.
    fn add_without(&mut self, choice: usize, n: usize)
        requires choice { choice ≤ n }
        requires few { n ≤ 8 }
    {
        for bits in 0..sets_of(n) {
            if bits >> choice & 1 == 1 {
                let without = self.numbers[bits & !(1 << choice)];
                self.numbers[bits] = self.numbers[bits].wrapping_add(without);
            }
        }
    }
}

/// How many sets the choices 0 to n have.
fn sets_of(n: usize) -> usize
    requires { n ≤ 8 }
    ensures { result ≤ 512 }
{
    2 << n
}
