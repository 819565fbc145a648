// Small sets of choices, put together choice by choice and compared.
ghost use Rattle.std.specs.Prelude.{◌≡◌, ℕ, ◌+◌, ◌^◌, ◌<◌, ◌≤◌, true, false, cond, eqb, not};
ghost use Rattle.mix_num.specs.Vectors.{members};
ghost use Rattle.mix_bids.specs.Offers.{meets as meets_of, pair, within};

use mix_num::Set;

/// The set with one more choice.
pub fn with_choice(set: Set, choice: usize) -> Set
    requires { choice ≤ 8 }
    ensures members { (k : ℕ) → members result k ≡ cond (eqb k choice) true (members set k) }
    ensures size { (m : ℕ) → set < 2 ^ m → choice < m → result < 2 ^ m }
{
    Set::from_bits(set.bits() | 1 << choice)
}

/// The set, with one more choice where the test holds.
pub fn with_where(test: bool, set: Set, choice: usize) -> Set
    requires { choice ≤ 8 }
    ensures { (k : ℕ) → members result k ≡ cond (eqb k choice) (cond test true (members set k)) (members set k) }
{
    if test { with_choice(set, choice) } else { set }
}

/// The set where the test holds, or no choice.
pub fn set_where(test: bool, set: Set) -> Set
    ensures members { (k : ℕ) → members result k ≡ cond test (members set k) false }
    ensures size { (m : ℕ) → set < 2 ^ m → result < 2 ^ m }
{
    if test { set } else { Set::from_bits(0) }
}

/// The choices in either set.
pub fn either(first: Set, second: Set) -> Set
    ensures { (k : ℕ) → members result k ≡ cond (members first k) true (members second k) }
{
    Set::from_bits(first.bits() | second.bits())
}

/// The choices of the first set that aren't in the second.
pub fn beyond(first: Set, second: Set) -> Set
    ensures { (k : ℕ) → members result k ≡ cond (members first k) (not (members second k)) false }
{
    Set::from_bits(first.bits() & !second.bits())
}

/// The set of two choices.
pub fn pair_of(first: usize, second: usize) -> Set
    requires { (first ≤ 8) × (second ≤ 8) }
    ensures { (k : ℕ) → members result k ≡ pair first second k }
{
    with_choice(with_choice(Set::from_bits(0), first), second)
}

/// Whether the first set lies in the second.
pub fn lies_in(inner: Set, outer: Set) -> bool
    ensures { (m : ℕ) → inner < 2 ^ m → result ≡ within m (members inner) (members outer) }
{
    inner.bits() & !outer.bits() == 0
}

/// Whether the two sets share a choice.
pub fn meets(first: Set, second: Set) -> bool
    ensures { (m : ℕ) → first < 2 ^ m → result ≡ meets_of m (members first) (members second) }
{
    first.bits() & second.bits() != 0
}
