// Rows that get their bundles in turn.
ghost use Rattle.std.specs.Prelude.{◌≡◌, ℕ, suc, ◌-◌, ◌*◌, ◌^◌, ◌≤◌, min, length, All, map};
ghost use Rattle.mix_num.specs.Ranges.{Lies};
ghost use Rattle.mix_ties.specs.Peeled.{greedy};
ghost use Rattle.mix_ties.specs.Numbered.{table_over, LieWithin, IsDifference, IsFloor, goods_part, floor_over, null_left};
ghost use Rattle.mix_num.specs.Shares.{AreShares};
ghost use Rattle.mix_ties.specs.Shares.{KeepTieRule};
ghost use Rattle.mix_ties.specs.Turns.{IsTurn};
ghost use Rattle.mix_ties.specs.Tights.{AreFirstTights};

use crate::contraction::{greatest, sets_of};
use crate::pairs::find_tights;
use crate::rows::{copy_of, copy_row, fill_floor, subtract_row, take_from};
use mix_demand::Rho;
use mix_num::{Bundle, Set, Tight, sum_over};

/// Shares the supply among the rows by the tie rule, and finds the first tight pairs of all rows but the last. `later` is
/// the sum of the rows at first; like `floor`, `upper` and `lower` it is room to work in.
pub fn share_in_turn(
    rows: &[Rho],
    supply: &Bundle,
    bundles: &mut [Bundle],
    tights: &mut [Tight],
    later: &mut [i64],
    floor: &mut [i64],
    upper: &mut [i64],
    lower: &mut [i64],
)
    requires turn { IsTurn (length supply.now.items) rows.now later.old supply.now.items }
    requires places { length bundles.old ≡ length rows.now }
    requires tight_places { length tights.old ≡ (length rows.now - 1) * length supply.now.items }
    requires later_size { 2 ^ suc (length supply.now.items) ≤ length later.old }
    requires floor_size { 2 ^ suc (length supply.now.items) ≤ length floor.old }
    requires upper_size { 2 ^ suc (length supply.now.items) ≤ length upper.old }
    requires lower_size { 2 ^ suc (length supply.now.items) ≤ length lower.old }
    ensures shares { AreShares (length supply.now.items) rows.now (map (λ b. b.items) bundles.new) supply.now.items }
    ensures tie_rule { KeepTieRule (length supply.now.items) rows.now (map (λ b. b.items) bundles.new) supply.now.items }
    ensures tights { AreFirstTights (length supply.now.items) rows.now supply.now.items (map (λ b. b.items) bundles.new) tights.new }
{
    let mut left = copy_of(supply);
    for k in 0..rows.len() {
        let row = rows[k].numbers();
        let bundle = give_row(row, &left, later, floor, upper, lower);
        let first = first_place(k, supply.len(), tights.len());
        let end = first_place(k + 1, supply.len(), tights.len());
        find_tights(row, floor, &bundle, upper, &mut tights[first..end]);
        left = take_from(&left, &bundle);
        bundles[k] = bundle;
    }
}

/// Gives one row its bundle. `later` is the sum of this row and those after it, and becomes the sum of those after it;
/// `floor` becomes what must be given to the row at each set.
fn give_row(
    row: &[i64],
    left: &Bundle,
    later: &mut [i64],
    floor: &mut [i64],
    upper: &mut [i64],
    lower: &mut [i64],
) -> Bundle
    requires row_size { 2 ^ suc (length left.now.items) ≤ length row.now }
    requires later_size { 2 ^ suc (length left.now.items) ≤ length later.old }
    requires floor_size { 2 ^ suc (length left.now.items) ≤ length floor.old }
    requires upper_size { 2 ^ suc (length left.now.items) ≤ length upper.old }
    requires lower_size { 2 ^ suc (length left.now.items) ≤ length lower.old }
    requires row_range { LieWithin (2 ^ suc (length left.now.items)) (2 ^ 30) row.now }
    requires later_range { LieWithin (2 ^ suc (length left.now.items)) (2 ^ 31) later.old }
    requires left { All (Lies 8000000) left.now.items }
    ensures bundle { result.items ≡ goods_part (length left.now.items)
        (greedy (suc (length left.now.items)) (table_over (length left.now.items) row.now)
        (floor_over (length left.now.items) (null_left (length left.now.items) later.old left.now.items) left.now.items later.new)) }
    ensures later { IsDifference (2 ^ suc (length left.now.items)) later.old row.now later.new }
    ensures floor { IsFloor (2 ^ suc (length left.now.items)) (null_left (length left.now.items) later.old left.now.items) left.now.items later.new floor.new }
    ensures floor_range { LieWithin (2 ^ suc (length left.now.items)) (2 ^ 41) floor.new }
    ensures later_size { length later.new ≡ length later.old }
    ensures floor_size { length floor.new ≡ length floor.old }
    ensures upper_size { length upper.new ≡ length upper.old }
    ensures lower_size { length lower.new ≡ length lower.old }
{
    let goods = left.len();
    let size = sets_of(goods);
    let null = null_of(left, later);
    subtract_row(later, row, size);
    fill_floor(floor, left, null, later, size);
    copy_row(upper, row, size);
    copy_row(lower, floor, size);
    greatest(upper, lower, goods)
}

/// The null share of what is left, where `later` is the sum of the rows that share it.
fn null_of(left: &Bundle, later: &[i64]) -> i64
    requires later_size { 2 ^ suc (length left.now.items) ≤ length later.now }
    requires later_range { LieWithin (2 ^ suc (length left.now.items)) (2 ^ 31) later.now }
    requires left { All (Lies 8000000) left.now.items }
    ensures value { result ≡ null_left (length left.now.items) later.now left.now.items }
    ensures range { Lies 4000000000 result }
{
    let goods = left.len();
    later[sets_of(goods) - 1] - sum_over(left, 0, Set::goods(goods))
}

/// Where the pairs of a row begin: each row before it has one for each good, as far as there are places.
fn first_place(row: usize, goods: usize, places: usize) -> usize
    requires row { row ≤ 257 }
    requires goods { goods ≤ 8 }
    ensures { result ≡ min places (row * goods) }
{
    places.min(row * goods)
}
