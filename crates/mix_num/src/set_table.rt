// A number for each set of choices.
ghost use Rattle.std.specs.Prelude.{◌≡◌, ◌≢◌, ◌^◌, ◌<◌, ◌≤◌, ℕ, suc, ℤ, pos, true, cond, ◌+ℤ◌, ◌≤ℤ◌, All, length, replicate};
ghost use Rattle.mix_num.specs.Vectors.{members};
ghost use Rattle.mix_num.specs.Ranges.{Lies};
ghost use Rattle.mix_num.specs.Tables.{number_of};
ghost use Rattle.mix_num.specs.Subsets.{IsWithout, sizes, subset_sum};

use crate::set::Set;
use std::marker::Model;

/// A number, from -4,000,000,000 to 4,000,000,000, for each set of the choices 0 to 8.
#[derive(Drop)]
pub struct SetTable {
    numbers: [i64; 512],
}

impl Model for SetTable {
    ghost use Rattle.std.specs.Prelude.{ℤ, List, All};
    ghost use Rattle.mix_num.specs.Ranges.{Lies};

    ghost Value = { List ℤ };

    ghost view = { λ table. table.numbers };

    ghost invariant = { λ table. All (Lies 4000000000) table.numbers };
}

impl SetTable {
    /// All numbers are 0.
    pub fn new() -> SetTable
        ensures { result ≡ replicate 512 (pos 0) }
    {
        SetTable { numbers: [0; 512] }
    }

    /// The number of a set.
    pub fn at(&self, set: Set) -> i64
        ensures value { result ≡ number_of self.now set }
        ensures range { Lies 4000000000 result }
    {
        self.numbers[set.bits() as usize]
    }

    /// Adds to the number of a set. The sum lies from -4,000,000,000 to 4,000,000,000.
    pub fn add(&mut self, set: Set, by: i64)
        requires { Lies 4000000000 (number_of self.old set +ℤ by) }
        ensures sum { number_of self.new set ≡ number_of self.old set +ℤ by }
        ensures others { (other : ℕ) → other ≢ set → number_of self.new other ≡ number_of self.old other }
    {
        self.numbers[set.bits() as usize] += by;
    }

    /// Puts in place of the number of each set of the choices 0 to n the sum of the numbers of its subsets; other numbers stay.
    ///
    /// The sizes of all numbers add up to at most 4,000,000,000.
    pub fn subset_sums(&mut self, n: usize)
        requires choices { n ≤ 8 }
        requires small { sizes self.old ≤ℤ pos 4000000000 }
        ensures sums { (set : ℕ) → set < 2 ^ suc n → number_of self.new set ≡ subset_sum self.old set }
        ensures others { (set : ℕ) → 2 ^ suc n ≤ set → number_of self.new set ≡ number_of self.old set }
    {
        for choice in 0..n + 1 {
            add_without(&mut self.numbers, n, choice);
        }
    }
}

/// Adds to the number of each set with the choice, of the sets of the choices 0 to n, the number of the set without it.
fn add_without(numbers: &mut [i64], n: usize, choice: usize)
    requires choices { (choice ≤ n) × (n ≤ 8) }
    requires size { length numbers.old ≡ 512 }
    requires numbers { (set : ℕ) → set < 2 ^ suc n → Lies 4000000000 (number_of numbers.old set) }
    requires range { (set rest : ℕ) → set < 2 ^ suc n → IsWithout choice set rest → Lies 4000000000 (number_of numbers.old set +ℤ cond (members set choice) (number_of numbers.old rest) (pos 0)) }
    ensures sums { (set rest : ℕ) → set < 2 ^ suc n → IsWithout choice set rest → number_of numbers.new set ≡ number_of numbers.old set +ℤ cond (members set choice) (number_of numbers.old rest) (pos 0) }
    ensures others { (set : ℕ) → 2 ^ suc n ≤ set → number_of numbers.new set ≡ number_of numbers.old set }
{
    for bits in 0..sets_of(n) {
        numbers[bits as usize] = with_rest(numbers, Set::from_bits(bits), choice);
    }
}

/// The number of the set, and that of the set without the choice where the choice is in it.
fn with_rest(numbers: &[i64], set: Set, choice: usize) -> i64
    requires choice { choice ≤ 8 }
    requires size { length numbers.now ≡ 512 }
    requires number { Lies 4000000000 (number_of numbers.now set) }
    requires range { (rest : ℕ) → IsWithout choice set rest → Lies 4000000000 (number_of numbers.now set +ℤ cond (members set choice) (number_of numbers.now rest) (pos 0)) }
    ensures { (rest : ℕ) → IsWithout choice set rest → result ≡ number_of numbers.now set +ℤ cond (members set choice) (number_of numbers.now rest) (pos 0) }
{
    let number = numbers[set.bits() as usize];
    if set.has(choice) {
        number + numbers[without(set, choice).bits() as usize]
    } else {
        number
    }
}

/// The set without the choice, which is in it.
fn without(set: Set, choice: usize) -> Set
    requires choice { choice ≤ 8 }
    requires inside { members set choice ≡ true }
    ensures rest { IsWithout choice set result }
    ensures below { result < set }
{
    Set::from_bits(set.bits() & !(1 << choice))
}

/// How many sets the choices 0 to n have.
fn sets_of(n: usize) -> u16
    requires { n ≤ 8 }
    ensures value { result ≡ 2 ^ suc n }
    ensures range { result ≤ 512 }
{
    2 << n
}
