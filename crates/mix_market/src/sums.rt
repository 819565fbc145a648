// Sums and bounds over the members of a market.
ghost use Rattle.std.specs.Prelude.{◌≡◌, ◌≤◌, ◌<◌, ◌^◌, ℕ, ℤ, suc, false, pos, ◌+ℤ◌, ◌-ℤ◌, ◌*ℤ◌, ◌≤ℤ◌, length, map, All};
ghost use Rattle.mix_num.specs.Vectors.{members, ray, with_null};
ghost use Rattle.mix_num.specs.Ranges.{HaveRoom, Lies};
ghost use Rattle.mix_num.specs.Subsets.{sizes, subset_sum};
ghost use Rattle.mix_num.specs.Tables.{number_of};
ghost use Rattle.mix_law.specs.Members.{fall_of};
ghost use Rattle.mix_market.specs.Extremes.{greatest_of, least_of};
ghost use Rattle.mix_market.specs.Lyapunov.{sum_of};
ghost use Rattle.mix_market.specs.Memberships.{AreMembers, sum_of_totals};

use mix_law::Convex;
use mix_num::{MOST_VALUE, Prices, Set, SetTable};

/// The sum of the members' values at the prices.
pub fn value<D: Convex>(buyers: &[D], prices: &Prices) -> i64
    requires buyers { AreMembers D.goods D.total (length prices.now.items) buyers.now }
    requires prices { HaveRoom (length prices.now.items) prices.now.items }
    ensures value { result ≡ sum_of (map D.function buyers.now) (with_null prices.now.items) }
    ensures range { (pos 0 ≤ℤ result) × (result ≤ℤ pos 10240000000000000) }
{
    let mut sum = 0;
    for buyer in buyers {
        sum += buyer.value(prices);
    }
    sum
}

/// By how much the members' values fall together when each choice of the set rises by one.
pub fn fall<D: Convex>(buyers: &[D], prices: &Prices, set: Set) -> i64
    requires buyers { AreMembers D.goods D.total (length prices.now.items) buyers.now }
    requires prices { HaveRoom (length prices.now.items) prices.now.items }
    ensures value { result ≡ fall_of (sum_of (map D.function buyers.now)) (with_null prices.now.items) (members set) }
    ensures range { (pos 0 ≤ℤ result) × (result ≤ℤ pos 2048000000) }
{
    let mut sum = 0;
    for buyer in buyers {
        sum += buyer.fall(prices, set);
    }
    sum
}

/// The table of what [`fall`] tells of each set of the choices 0 to n; other sets have 0.
pub fn falls<D: Convex>(buyers: &[D], prices: &Prices) -> SetTable
    requires some { 1 ≤ length prices.now.items }
    requires buyers { AreMembers D.goods D.total (length prices.now.items) buyers.now }
    requires prices { HaveRoom (length prices.now.items) prices.now.items }
    ensures value { (set : ℕ) → set < 2 ^ suc (length prices.now.items) → number_of result set ≡ fall_of (sum_of (map D.function buyers.now)) (with_null prices.now.items) (members set) }
    ensures others { (set : ℕ) → 2 ^ suc (length prices.now.items) ≤ set → number_of result set ≡ pos 0 }
    ensures range { (set : ℕ) → (pos 0 ≤ℤ number_of result set) × (number_of result set ≤ℤ pos 2048000000) }
{
    let mut falls = SetTable::new();
    let mut parts = SetTable::new();
    for buyer in buyers {
        add_falls(buyer, prices, &mut falls, &mut parts);
    }
    add_parts(&mut falls, parts, prices.len());
    falls
}

/// Adds what a member's function falls by: to the first table, or in parts, to be summed over subsets, to the second.
fn add_falls<D: Convex>(buyer: &D, prices: &Prices, falls: &mut SetTable, parts: &mut SetTable)
    requires some { 1 ≤ D.goods buyer.now }
    requires prices { HaveRoom (D.goods buyer.now) prices.now.items }
    requires range { (set : ℕ) → set < 2 ^ suc (D.goods buyer.now) → Lies 4000000000 (number_of falls.old set +ℤ fall_of (D.function buyer.now) (with_null prices.now.items) (members set)) }
    requires small { sizes parts.old ≤ℤ pos 3996000000 }
    ensures sums { (set : ℕ) → set < 2 ^ suc (D.goods buyer.now) → number_of falls.new set +ℤ subset_sum parts.new set ≡ (number_of falls.old set +ℤ subset_sum parts.old set) +ℤ fall_of (D.function buyer.now) (with_null prices.now.items) (members set) }
    ensures low { (set : ℕ) → number_of falls.old set ≤ℤ number_of falls.new set }
    ensures high { (set : ℕ) → number_of falls.new set ≤ℤ (number_of falls.old set +ℤ D.total buyer.now) }
    ensures others { (set : ℕ) → 2 ^ suc (D.goods buyer.now) ≤ set → number_of falls.new set ≡ number_of falls.old set }
    ensures small { sizes parts.new ≤ℤ (sizes parts.old +ℤ pos 4000000) }
{
    if !buyer.falls_by_parts(prices, parts) {
        buyer.falls(prices, falls);
    }
}

/// Adds to the number of each set of the choices 0 to n the sum of the parts over its subsets; other numbers stay.
fn add_parts(falls: &mut SetTable, mut parts: SetTable, n: usize)
    requires choices { n ≤ 8 }
    requires small { sizes parts ≤ℤ pos 4000000000 }
    requires range { (set : ℕ) → set < 2 ^ suc n → Lies 4000000000 (number_of falls.old set +ℤ subset_sum parts set) }
    ensures sums { (set : ℕ) → set < 2 ^ suc n → number_of falls.new set ≡ number_of falls.old set +ℤ subset_sum parts set }
    ensures others { (set : ℕ) → 2 ^ suc n ≤ set → number_of falls.new set ≡ number_of falls.old set }
{
    parts.subset_sums(n);
    for bits in 0..Set::whole(n).bits() + 1 {
        let set = Set::from_bits(bits);
        falls.add(set, parts.at(set));
    }
}

/// The sum of the members' totals.
pub fn total<D: Convex>(buyers: &[D]) -> i64
    requires { length buyers.now ≤ 256 }
    ensures value { result ≡ sum_of_totals D.total buyers.now }
    ensures range { (pos 0 ≤ℤ result) × (result ≤ℤ pos 2048000000) }
    ensures totals { All (λ buyer. (pos 0 ≤ℤ D.total buyer) × (D.total buyer ≤ℤ pos 8000000)) buyers.now }
{
    let mut sum = 0;
    for buyer in buyers {
        sum += buyer.total();
    }
    sum
}

/// The greatest of the members' tops of a good, or -1,000,000 where there is no member.
pub fn highest_top<D: Convex>(buyers: &[D], good: usize) -> i64
    requires { All (λ buyer. (1 ≤ good) × (good ≤ D.goods buyer)) buyers.now }
    ensures value { result ≡ greatest_of (λ buyer. D.top buyer good) buyers.now }
    ensures range { Lies MOST_VALUE result }
{
    let mut highest: i64 = -1_000_000;
    for buyer in buyers {
        highest = highest.max(buyer.top(good));
    }
    highest
}

/// The least of the members' reaches along the set, or 8,000,000 where there is no member.
pub fn reach<D: Convex>(buyers: &[D], prices: &Prices, set: Set) -> i64
    requires buyers { AreMembers D.goods D.total (length prices.now.items) buyers.now }
    requires prices { HaveRoom (length prices.now.items) prices.now.items }
    requires goods { members set 0 ≡ false }
    ensures value { result ≡ least_of (λ buyer. D.reach buyer (with_null prices.now.items) (members set)) buyers.now }
    ensures range { (pos 1 ≤ℤ result) × (result ≤ℤ pos 8000000) }
    ensures linear { (m : ℕ) → pos m ≤ℤ result → sum_of (map D.function buyers.now) (ray (with_null prices.now.items) m (members set)) ≡ sum_of (map D.function buyers.now) (with_null prices.now.items) -ℤ (pos m *ℤ fall_of (sum_of (map D.function buyers.now)) (with_null prices.now.items) (members set)) }
{
    let mut least: i64 = 8_000_000;
    for buyer in buyers {
        least = least.min(buyer.reach(prices, set));
    }
    least
}
