// By how much the gains of the units that are served fall together, for all sets at once.
ghost use Rattle.std.specs.Prelude.{◌≡◌, ◌<◌, ◌≤◌, ◌^◌, ◌&&◌, ℕ, suc, pos, ◌+ℤ◌, ◌-ℤ◌, ◌≤ℤ◌, int_lt, replicate};
ghost use Rattle.std.specs.Int.{int_max};
ghost use Rattle.std.specs.Ordering.{int_eq};
ghost use Rattle.mix_num.specs.Vectors.{members, with_null};
ghost use Rattle.mix_num.specs.Ranges.{ArePrices, Lies};
ghost use Rattle.mix_num.specs.Subsets.{sizes, subset_sum};
ghost use Rattle.mix_num.specs.Tables.{number_of};
ghost use Rattle.mix_bids.specs.Bids.{weight_where as weight_of_bids};
ghost use Rattle.mix_bids.specs.Caps.{ArePositive};
ghost use Rattle.mix_bids.specs.Offers.{best, gain, within};

use mix_bids::{BidList, best_choices, weight_where};
use mix_num::{MOST_UNITS, Prices, Set, SetTable};

/// For each set of the choices 0 to n by how much the gains fall where the prices of the set rise by one: for each unit that gains more
/// than the threshold and whose best set lies in the set by one; and of the units that gain just the threshold, by one for each that falls
/// and for which no other one is left to be served in its place.
pub fn fallen(list: &BidList, prices: &Prices, threshold: u32, served: i64) -> SetTable
    requires prices { ArePrices list.now.goods prices.now.items }
    requires positive { ArePositive list.now.bids }
    requires served { (pos 0 ≤ℤ served) × (served ≤ℤ pos MOST_UNITS) }
    ensures falls { (set : ℕ) → set < 2 ^ suc list.now.goods → let x = with_null prices.now.items in let bs = list.now.bids in
        number_of result set ≡ weight_of_bids (λ b. int_lt (pos threshold) (gain b.values.items x) && within (suc list.now.goods) (best b.values.items x) (members set)) bs
        +ℤ int_max (pos 0) (weight_of_bids (λ b. int_eq (gain b.values.items x) (pos threshold) && within (suc list.now.goods) (best b.values.items x) (members set)) bs
        -ℤ ((weight_of_bids (λ b. int_lt (pos threshold) (gain b.values.items x)) bs +ℤ weight_of_bids (λ b. int_eq (gain b.values.items x) (pos threshold)) bs) -ℤ served)) }
{
    // Whoever asks the list for its bids knows that each is a bid over its goods.
    let _bids = list.bids();
    let goods = list.goods();
    let mut above = SetTable::new();
    let mut level = SetTable::new();
    add_by_gain(list, prices, threshold, &mut above, &mut level);
    above.subset_sums(goods);
    level.subset_sums(goods);
    let whole = Set::whole(goods);
    // So many units that gain just the threshold aren't served.
    let spare = above.at(whole) + level.at(whole) - served;
    add_passing(&mut above, &level, spare, goods);
    above
}

/// Adds to the number of each set of the choices 0 to n by how much its number in the other table passes the spare.
fn add_passing(out: &mut SetTable, level: &SetTable, spare: i64, n: usize)
    requires choices { n ≤ 8 }
    requires spare { Lies 9000000000 spare }
    requires range { (set : ℕ) → set < 2 ^ suc n → Lies 4000000000 (number_of out.old set +ℤ int_max (pos 0) (number_of level.now set -ℤ spare)) }
    ensures { (set : ℕ) → set < 2 ^ suc n → number_of out.new set ≡ number_of out.old set +ℤ int_max (pos 0) (number_of level.now set -ℤ spare) }
{
    for bits in 0..Set::whole(n).bits() + 1 {
        let set = Set::from_bits(bits);
        out.add(set, (level.at(set) - spare).max(0));
    }
}

/// Adds the weight of each bid that gains more than the threshold to the number of its best set in the first table, and of each that gains
/// just the threshold in the second.
fn add_by_gain(
    list: &BidList,
    prices: &Prices,
    threshold: u32,
    above: &mut SetTable,
    level: &mut SetTable,
)
    requires prices { ArePrices list.now.goods prices.now.items }
    requires none { (above.old ≡ replicate 512 (pos 0)) × (level.old ≡ replicate 512 (pos 0)) }
    ensures above { (set : ℕ) → set < 2 ^ suc list.now.goods → let x = with_null prices.now.items in
        subset_sum above.new set ≡ weight_of_bids (λ b. int_lt (pos threshold) (gain b.values.items x) && within (suc list.now.goods) (best b.values.items x) (members set)) list.now.bids }
    ensures level { (set : ℕ) → set < 2 ^ suc list.now.goods → let x = with_null prices.now.items in
        subset_sum level.new set ≡ weight_of_bids (λ b. int_eq (gain b.values.items x) (pos threshold) && within (suc list.now.goods) (best b.values.items x) (members set)) list.now.bids }
    ensures small { (sizes above.new ≤ℤ pos 4000000) × (sizes level.new ≤ℤ pos 4000000) }
{
    for bid in list.bids() {
        let best = best_choices(bid, prices);
        above.add(
            best.set,
            weight_where(best.gain > i64::from(threshold), bid.weight),
        );
        level.add(
            best.set,
            weight_where(best.gain == i64::from(threshold), bid.weight),
        );
    }
}
