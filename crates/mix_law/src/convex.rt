// What every member of the market can be asked, and the laws that its answers keep.
ghost use Rattle.std.specs.Prelude.{◌≡◌, ◌≤◌, ◌<◌, ◌^◌, ℕ, ℤ, suc, pos, false, ◌+ℤ◌, ◌-ℤ◌, ◌*ℤ◌, ◌≤ℤ◌, IsTrue, IsFalse};
ghost use Rattle.mix_num.specs.Vectors.{Choices, Vector, members, ray, with_null};
ghost use Rattle.mix_num.specs.Ranges.{HaveRoom, Lies};
ghost use Rattle.mix_num.specs.Subsets.{sizes, subset_sum};
ghost use Rattle.mix_num.specs.Tables.{number_of};
ghost use Rattle.mix_law.specs.Members.{IsLNatural, fall_of, rho};

use mix_num::{MOST_VALUE, Prices, Set, SetTable};

/// A member of the market: a convex function of the prices of all choices, the null choice's among them.
///
/// Prices have one entry for each good, from -3,999,999 to 3,999,999; the null choice's price is 0.
pub trait Convex {
    /// How many goods the member knows.
    ghost goods: { Self → ℕ };

    /// By how much the function falls when all prices rise by one.
    ghost total: { Self → ℤ };

    /// For each good a price from which on the member wants none.
    ghost top: { Self → ℕ → ℤ };

    /// The function, over a price for each choice.
    ghost function: { Self → Vector → ℤ };

    /// The number of steps that [`Convex::reach`] tells, at a price for each choice, of a set of goods.
    ghost reach: { Self → Vector → Choices → ℤ };

    ghost l_natural: { (member : Self) → IsLNatural (goods member) (function member) (total member) (top member) };

    /// The number of goods, from 1 to 8.
    fn goods(&self) -> usize
        ensures value { result ≡ goods self.now }
        ensures range { (1 ≤ result) × (result ≤ 8) };

    /// The total, from 0 to 8,000,000.
    fn total(&self) -> i64
        ensures value { result ≡ total self.now }
        ensures range { (pos 0 ≤ℤ result) × (result ≤ℤ pos 8000000) };

    /// The price of a good from which on the member wants none, from -1,000,000 to 1,000,000.
    fn top(&self, good: usize) -> i64
        requires { (1 ≤ good) × (good ≤ goods self.now) }
        ensures value { result ≡ top self.now good }
        ensures range { Lies MOST_VALUE result };

    /// The function at the prices.
    fn value(&self, prices: &Prices) -> i64
        requires { HaveRoom (goods self.now) prices.now.items }
        ensures value { result ≡ function self.now (with_null prices.now.items) }
        ensures range { (pos 0 ≤ℤ result) × (result ≤ℤ (total self.now *ℤ pos 5000000)) };

    /// By how much the function falls when each choice of the set rises by one.
    fn fall(&self, prices: &Prices, set: Set) -> i64
        requires { HaveRoom (goods self.now) prices.now.items }
        ensures value { result ≡ fall_of (function self.now) (with_null prices.now.items) (members set) }
        ensures range { (pos 0 ≤ℤ result) × (result ≤ℤ total self.now) };

    /// By how much the function rises when each choice of the set falls by one.
    fn gain_down(&self, prices: &Prices, set: Set) -> i64
        requires { HaveRoom (goods self.now) prices.now.items }
        ensures value { result ≡ rho (function self.now) (with_null prices.now.items) (members set) }
        ensures range { (pos 0 ≤ℤ result) × (result ≤ℤ total self.now) };

    /// A number of steps, from 1 to 8,000,000, over which a set of goods makes the function fall equally at each.
    fn reach(&self, prices: &Prices, set: Set) -> i64
        requires prices { HaveRoom (goods self.now) prices.now.items }
        requires goods { members set 0 ≡ false }
        ensures value { result ≡ reach self.now (with_null prices.now.items) (members set) }
        ensures range { (pos 1 ≤ℤ result) × (result ≤ℤ pos 8000000) }
        ensures linear { (m : ℕ) → pos m ≤ℤ result →
            function self.now (ray (with_null prices.now.items) m (members set))
            ≡ function self.now (with_null prices.now.items) -ℤ (pos m *ℤ fall_of (function self.now) (with_null prices.now.items) (members set)) };

    /// Adds to the number of each set of the choices 0 to n what [`Convex::fall`] gives of the set; other numbers stay.
    ///
    /// Each sum lies from -4,000,000,000 to 4,000,000,000.
    fn falls(&self, prices: &Prices, out: &mut SetTable)
        requires prices { HaveRoom (goods self.now) prices.now.items }
        requires range { (set : ℕ) → set < 2 ^ suc (goods self.now) →
            Lies 4000000000 (number_of out.old set +ℤ fall_of (function self.now) (with_null prices.now.items) (members set)) }
        ensures sums { (set : ℕ) → set < 2 ^ suc (goods self.now) →
            number_of out.new set ≡ number_of out.old set +ℤ fall_of (function self.now) (with_null prices.now.items) (members set) }
        ensures others { (set : ℕ) → 2 ^ suc (goods self.now) ≤ set → number_of out.new set ≡ number_of out.old set }
    {
        for bits in 0..Set::whole(self.goods()).bits() + 1 {
            let set = Set::from_bits(bits);
            out.add(set, self.fall(prices, set));
        }
    }

    /// Whether the member has told its falls by parts: it has added to some numbers, so that the sum over the subsets of each set of
    /// the choices 0 to n has grown by what [`Convex::fall`] gives of the set. Else the table is as it was, and [`Convex::falls`] tells them.
    ///
    /// So the parts of many members are summed over subsets once. The sizes of all numbers add up to at most 3,996,000,000 before, and to
    /// at most 4,000,000 more then.
    fn falls_by_parts(&self, prices: &Prices, parts: &mut SetTable) -> bool
        requires prices { HaveRoom (goods self.now) prices.now.items }
        requires small { sizes parts.old ≤ℤ pos 3996000000 }
        ensures told { IsTrue result → (set : ℕ) → set < 2 ^ suc (goods self.now) →
            subset_sum parts.new set ≡ subset_sum parts.old set +ℤ fall_of (function self.now) (with_null prices.now.items) (members set) }
        ensures small { sizes parts.new ≤ℤ (sizes parts.old +ℤ pos 4000000) }
        ensures untold { IsFalse result → parts.new ≡ parts.old }
    {
        false
    }

    /// Adds to the number of each set of the choices 0 to n what [`Convex::gain_down`] gives of the set; other numbers stay.
    ///
    /// Each sum lies from -4,000,000,000 to 4,000,000,000.
    fn gains(&self, prices: &Prices, out: &mut SetTable)
        requires prices { HaveRoom (goods self.now) prices.now.items }
        requires range { (set : ℕ) → set < 2 ^ suc (goods self.now) →
            Lies 4000000000 (number_of out.old set +ℤ rho (function self.now) (with_null prices.now.items) (members set)) }
        ensures sums { (set : ℕ) → set < 2 ^ suc (goods self.now) →
            number_of out.new set ≡ number_of out.old set +ℤ rho (function self.now) (with_null prices.now.items) (members set) }
        ensures others { (set : ℕ) → 2 ^ suc (goods self.now) ≤ set → number_of out.new set ≡ number_of out.old set }
    {
        for bits in 0..Set::whole(self.goods()).bits() + 1 {
            let set = Set::from_bits(bits);
            out.add(set, self.gain_down(prices, set));
        }
    }
}
