// The first tight pairs of one row.
ghost use Rattle.std.specs.Prelude.{◌≡◌, ◌≢◌, ◌-ℤ◌, ◌+◌, ◌*◌, ◌%◌, ℕ, suc, ◌^◌, ◌≤◌, ◌<◌, [], ◌∷◌, All, length, cond, pos, IfSome, IsNone, slice_index_or};
ghost use Rattle.mix_num.specs.Ranges.{Lies};
ghost use Rattle.mix_num.specs.Vectors.{members};
ghost use Rattle.mix_num.specs.Tables.{number_of};
ghost use Rattle.mix_num.specs.Pairs.{IsFirstTight};
ghost use Rattle.mix_num.specs.declared.pair.Tight.{Tight as TightPair};
ghost use Rattle.mix_ties.specs.Peeled.{greedy};
ghost use Rattle.mix_ties.specs.Numbered.{table_over, LieWithin, goods_part};
ghost use Rattle.mix_ties.specs.Levels.{IsFirstLevel, IsLevel};

use crate::contraction::sets_of;
use crate::rows::copy_row;
use mix_num::{Bundle, Set, Tight};

/// Writes the first tight pair of each of a row's goods, from the first on, into its place.
///
/// `floor` has what must be given to the row at each set, and the bundle is the greatest between floor and row. Like
/// `upper` it is room to work in: before each good, what the bundle has of the goods before it is taken from both.
pub fn find_tights(
    row: &[i64],
    floor: &mut [i64],
    bundle: &Bundle,
    upper: &mut [i64],
    tights: &mut [Tight],
)
    requires row_size { 2 ^ suc (length bundle.now.items) ≤ length row.now }
    requires floor_size { 2 ^ suc (length bundle.now.items) ≤ length floor.old }
    requires upper_size { 2 ^ suc (length bundle.now.items) ≤ length upper.old }
    requires row_range { LieWithin (2 ^ suc (length bundle.now.items)) (2 ^ 30) row.now }
    requires floor_range { LieWithin (2 ^ suc (length bundle.now.items)) (2 ^ 41) floor.old }
    requires bundle { All (Lies 8000000) bundle.now.items }
    requires places { length tights.old ≤ length bundle.now.items }
    requires greatest { bundle.now.items ≡ goods_part (length bundle.now.items)
        (greedy (suc (length bundle.now.items)) (table_over (length bundle.now.items) row.now) (table_over (length bundle.now.items) floor.old)) }
    ensures tights { (j : ℕ) (d : TightPair) → j < length tights.old → IsFirstTight (length bundle.now.items) j row.now (number_of floor.old)
        bundle.now.items (slice_index_or tights.new j d).upper (slice_index_or tights.new j d).lower }
{
    let goods = bundle.len();
    let size = sets_of(goods);
    copy_row(upper, row, size);
    for good in 0..tights.len() {
        let amount = bundle[good];
        tights[good] = first_tight(upper, floor, goods, good, amount);
        take_good(upper, floor, size, good, amount);
    }
}

/// The first pair for a good, counted from 0, of which the upper set's number is above the lower set's by the amount. There
/// is such a pair.
///
/// The sets of all choices but the good are taken in turn: the good with such a set is an upper set, and the lower sets go
/// with it that have the same goods after the good, and the same of the null choice.
fn first_tight(upper: &[i64], lower: &[i64], goods: usize, good: usize, amount: i64) -> Tight
    requires goods { goods ≤ 8 }
    requires good { good < goods }
    requires upper_size { 2 ^ suc goods ≤ length upper.now }
    requires lower_size { 2 ^ suc goods ≤ length lower.now }
    requires upper_range { LieWithin (2 ^ suc goods) (2 ^ 60) upper.now }
    requires amount { Lies 8000000 amount }
    requires some { (a : ℕ) × (b : ℕ) × IsLevel goods good upper.now lower.now amount a b }
    ensures { IsFirstLevel goods good upper.now lower.now amount result.upper result.lower }
{
    // The number of the good alone, which is how many sets there are of the choices before it.
    let own = sets_of(good);
    for others in 0..sets_of(goods) / 2 {
        let before = others % own;
        let after = 2 * (others - before);
        let set = after + own + before;
        if let Some(rest) = first_at(lower, after + before % 2, own / 2, upper[set] - amount) {
            return Tight {
                upper: Set::from_bits(set as u16),
                lower: Set::from_bits(rest as u16),
            };
        }
    }
    unreachable!()
}

/// The first place with the number, of so many places: each second one from the given one on.
fn first_at(numbers: &[i64], from: usize, count: usize, number: i64) -> Option<usize>
    requires { (m : ℕ) → m < count → from + 2 * m < length numbers.now }
    ensures found { IfSome result (λ place. (m : ℕ) × (m < count) × (place ≡ from + 2 * m) × (number_of numbers.now place ≡ number)
        × ((k : ℕ) → k < m → number_of numbers.now (from + 2 * k) ≢ number)) }
    ensures none { IsNone result → (k : ℕ) → k < count → number_of numbers.now (from + 2 * k) ≢ number }
{
    for m in 0..count {
        let place = from + 2 * m;
        if numbers[place] == number {
            return Some(place);
        }
    }
    None
}

/// Takes an amount of a good, counted from 0, from both tables: from each set that has the good.
fn take_good(upper: &mut [i64], lower: &mut [i64], size: usize, good: usize, amount: i64)
    requires small { size ≤ 512 }
    requires good { good < 8 }
    requires upper_size { size ≤ length upper.old }
    requires lower_size { size ≤ length lower.old }
    requires upper_range { LieWithin size (2 ^ 60) upper.old }
    requires lower_range { LieWithin size (2 ^ 60) lower.old }
    requires amount { Lies 8000000 amount }
    ensures upper { (set : ℕ) → set < size → number_of upper.new set ≡ number_of upper.old set -ℤ cond (members set (suc good)) amount (pos 0) }
    ensures lower { (set : ℕ) → set < size → number_of lower.new set ≡ number_of lower.old set -ℤ cond (members set (suc good)) amount (pos 0) }
{
    for set in 0..size {
        if Set::from_bits(set as u16).has(good + 1) {
            upper[set] -= amount;
            lower[set] -= amount;
        }
    }
}

#[cfg(test)]
mod tests {
    use super::*;
    use crate::tests::table;
    use std::test::Fail;

    /// The first tight pairs of two goods, as numbers of sets, where the bundle is the greatest between a row and its floor.
    fn pairs_of(row: [i8; 8], floor: [i8; 8], first: i8, second: i8) -> [(u16, u16); 2]
        requires { first ∷ second ∷ [] ≡ goods_part 2 (greedy 3 (table_over 2 row) (table_over 2 floor)) }
    {
        let mut bundle = Bundle::new();
        bundle.push(i64::from(first));
        bundle.push(i64::from(second));
        let mut tights = [Tight {
            upper: Set::from_bits(0),
            lower: Set::from_bits(0),
        }; 2];
        find_tights(
            &table(row),
            &mut table(floor),
            &bundle,
            &mut [0; 8],
            &mut tights,
        );
        tights.map(|tight| (tight.upper.bits(), tight.lower.bits()))
    }

    // One unit of each of two goods, two bidders and the seller. The first bidder is content with a unit of each; but the
    // second wants a unit of the first good, and nothing else.
    #[test]
    fn finds_the_pairs_of_two_bidders(rt: HostRuntime) -> Result<(), Fail> {
        let pairs = pairs_of([0, 1, 1, 1, 1, 2, 2, 2], [0, 1, 0, 1, 0, 2, 0, 2], 0, 1);
        assert_eq!(rt; pairs, [(3, 1), (4, 0)]);
        let pairs = pairs_of([0, 0, 1, 1, 0, 0, 1, 1], [0, 0, 1, 1, -1, 0, 0, 1], 1, 0);
        assert_eq!(rt; pairs, [(2, 0), (4, 0)]);
        Ok(())
    }
}
