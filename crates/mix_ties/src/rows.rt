// Loops over the numbers of rows and over the entries of bundles.
ghost use Rattle.std.specs.Prelude.{◌≡◌, suc, ◌^◌, ◌<◌, ◌≤◌, ℕ, length, All, map};
ghost use Rattle.mix_num.specs.Ranges.{Lies};
ghost use Rattle.mix_num.specs.Tables.{number_of};
ghost use Rattle.mix_ties.specs.Numbered.{LieWithin, IsDifference, IsCopy, IsFloor};
ghost use Rattle.mix_num.specs.Shares.{sum_at};
ghost use Rattle.mix_ties.specs.Turns.{subtracted};

use arrayvec::ArrayVec;
use mix_demand::Rho;
use mix_num::{Bundle, Set, sum_over};

/// Writes the sum of the rows, set by set.
pub fn sum_rows(rows: &[Rho], sum: &mut [i64])
    requires few { length rows.now ≤ 257 }
    requires sizes { All (λ row. length row ≡ length sum.old) rows.now }
    requires range { All (λ row. LieWithin (length sum.old) 8000000 row) rows.now }
    ensures { (set : ℕ) → set < length sum.old → number_of sum.new set ≡ sum_at rows.now set }
{
    sum.fill(0);
    for row in rows {
        row.add_to(sum);
    }
}

/// Takes a row from a sum of rows.
pub fn subtract_row(sum: &mut [i64], row: &[i64], size: usize)
    requires sum_size { size ≤ length sum.old }
    requires row_size { size ≤ length row.now }
    requires sum_range { LieWithin size (2 ^ 40) sum.old }
    requires row_range { LieWithin size (2 ^ 40) row.now }
    ensures value { IsDifference size sum.old row.now sum.new }
    ensures size { length sum.new ≡ length sum.old }
{
    for set in 0..size {
        sum[set] -= row[set];
    }
}

/// Copies a row.
pub fn copy_row(copy: &mut [i64], row: &[i64], size: usize)
    requires copy_size { size ≤ length copy.old }
    requires row_size { size ≤ length row.now }
    ensures value { IsCopy size row.now copy.new }
    ensures size { length copy.new ≡ length copy.old }
{
    for set in 0..size {
        copy[set] = row[set];
    }
}

/// Writes, for each set, what is left of a supply there, less what the later rows take.
pub fn fill_floor(floor: &mut [i64], left: &Bundle, null: i64, later: &[i64], size: usize)
    requires small { size ≤ 512 }
    requires floor_size { size ≤ length floor.old }
    requires later_size { size ≤ length later.now }
    requires later_range { LieWithin size (2 ^ 40) later.now }
    requires left { All (Lies 8000000) left.now.items }
    requires null { Lies 4000000000 null }
    ensures value { IsFloor size null left.now.items later.now floor.new }
    ensures size { length floor.new ≡ length floor.old }
    ensures range { LieWithin size (2 ^ 41) floor.new }
{
    for set in 0..size {
        floor[set] = sum_over(left, null, Set::from_bits(set as u16)) - later[set];
    }
}

/// What is left once a bundle is taken.
pub fn take_from(left: &Bundle, bundle: &Bundle) -> Bundle
    requires size { length left.now.items ≡ length bundle.now.items }
    requires left { All (Lies 8000000) left.now.items }
    requires bundle { All (Lies 8000000) bundle.now.items }
    ensures { result.items ≡ subtracted left.now.items bundle.now.items }
{
    let mut rest = ArrayVec::new();
    for k in 0..left.len() {
        rest.push(left[k] - bundle[k]);
    }
    rest
}

/// A copy of a bundle.
pub fn copy_of(bundle: &Bundle) -> Bundle
    ensures { result.items ≡ bundle.now.items }
{
    let mut copy = ArrayVec::new();
    for amount in bundle.iter() {
        copy.push(*amount);
    }
    copy
}

#[cfg(test)]
mod tests {
    use super::*;
    use crate::tests::table;
    use std::test::Fail;

    /// What a unit of each of two goods, with the null share 3, leaves once the later rows took what they can.
    fn floor_of(later: [i8; 8]) -> [i64; 8] {
        let mut left = Bundle::new();
        left.push(1);
        left.push(1);
        let mut floor = [0; 8];
        fill_floor(&mut floor, &left, 3, &table(later), 8);
        floor
    }

    // The totals are 2, 1 and 2: those of the first bidder, the second, and the seller.
    #[test]
    fn floors(rt: HostRuntime) -> Result<(), Fail> {
        assert_eq!(rt; floor_of([0; 8]), [0, 3, 1, 4, 1, 4, 2, 5]);
        assert_eq!(rt;
            floor_of([0, 2, 1, 3, 1, 2, 2, 3]),
            [0, 1, 0, 1, 0, 2, 0, 2]
        );
        Ok(())
    }
}
