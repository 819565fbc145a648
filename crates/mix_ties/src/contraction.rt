// Two tables with a vector between them, and one good taken out of both at a time.
ghost use Rattle.std.specs.Prelude.{◌≡◌, ℕ, suc, ◌*◌, ◌%◌, ◌<◌, ◌≤◌, ◌^◌, length, ◌≤ℤ◌};
ghost use Rattle.mix_num.specs.Ranges.{Lies};
ghost use Rattle.mix_ties.specs.Peeled.{greedy};
ghost use Rattle.mix_ties.specs.Numbered.{table_over, LieWithin, IsCut, IsLift, first_gap, room, IsGiven, goods_part};

use arrayvec::ArrayVec;
use mix_num::Bundle;

/// The lexicographically greatest bundle between the tables, good by good; the null choice takes the rest.
///
/// The tables are over `goods` goods. What they hold afterwards is of no use.
pub fn greatest(upper: &mut [i64], lower: &mut [i64], goods: usize) -> Bundle
    requires goods { goods ≤ 8 }
    requires upper_size { 2 ^ suc goods ≤ length upper.old }
    requires lower_size { 2 ^ suc goods ≤ length lower.old }
    requires upper_range { LieWithin (2 ^ suc goods) (room goods) upper.old }
    requires lower_range { LieWithin (2 ^ suc goods) (room goods) lower.old }
    ensures { result.items ≡ goods_part goods (greedy (suc goods) (table_over goods upper.old) (table_over goods lower.old)) }
{
    let mut amounts = ArrayVec::new();
    let mut left = goods;
    while left > 0 {
        left -= 1;
        let most = give_first(upper, lower, left);
        amounts.push(most);
    }
    amounts
}

/// How many sets there are of so many goods and the null choice.
pub fn sets_of(goods: usize) -> usize
    requires { goods ≤ 8 }
    ensures value { result ≡ 2 ^ suc goods }
    ensures twice { 2 * result ≡ 2 ^ suc (suc goods) }
    ensures even { result % 2 ≡ 0 }
    ensures some { 0 < result }
{
    2 << goods
}

/// Gives the first good its greatest amount, and leaves the tables over the `rest` goods after it.
fn give_first(upper: &mut [i64], lower: &mut [i64], rest: usize) -> i64
    requires rest { rest < 8 }
    requires upper_size { 2 ^ suc (suc rest) ≤ length upper.old }
    requires lower_size { 2 ^ suc (suc rest) ≤ length lower.old }
    requires upper_range { LieWithin (2 ^ suc (suc rest)) (room (suc rest)) upper.old }
    requires lower_range { LieWithin (2 ^ suc (suc rest)) (room (suc rest)) lower.old }
    ensures upper_size { length upper.new ≡ length upper.old }
    ensures lower_size { length lower.new ≡ length lower.old }
    ensures upper_range { LieWithin (2 ^ suc rest) (room rest) upper.new }
    ensures lower_range { LieWithin (2 ^ suc rest) (room rest) lower.new }
    ensures given { IsGiven rest upper.old lower.old result upper.new lower.new }
{
    let half = sets_of(rest);
    let most = first_most(upper, lower, half);
    cut_first(upper, half, most);
    lift_first(lower, half, most);
    most
}

/// The greatest amount of the first good.
fn first_most(upper: &[i64], lower: &[i64], half: usize) -> i64
    requires upper_size { 2 * half ≤ length upper.now }
    requires lower_size { 2 * half ≤ length lower.now }
    requires even { half % 2 ≡ 0 }
    requires some { 0 < half }
    requires upper_range { LieWithin (2 * half) (2 ^ 60) upper.now }
    requires lower_range { LieWithin (2 * half) (2 ^ 60) lower.now }
    ensures below { (set : ℕ) → set < half → result ≤ℤ first_gap upper.now lower.now set }
    ensures at { (set : ℕ) × (set < half) × (result ≡ first_gap upper.now lower.now set) }
{
    let mut most = upper[2] - lower[0];
    for set in 0..half {
        let without = set / 2 * 4 + set % 2;
        most = most.min(upper[without + 2] - lower[without]);
    }
    most
}

/// Takes the first good out of the upper table, once it has the amount. What stays stands in the first half.
fn cut_first(numbers: &mut [i64], half: usize, amount: i64)
    requires size { 2 * half ≤ length numbers.old }
    requires even { half % 2 ≡ 0 }
    requires range { LieWithin (2 * half) (2 ^ 60) numbers.old }
    requires amount { Lies (2 ^ 60) amount }
    ensures cut { IsCut half numbers.old numbers.new amount }
    ensures size { length numbers.new ≡ length numbers.old }
{
    for set in 0..half {
        let without = set / 2 * 4 + set % 2;
        numbers[set] = numbers[without].min(numbers[without + 2] - amount);
    }
}

/// Takes the first good out of the lower table, once it has the amount. What stays stands in the first half.
fn lift_first(numbers: &mut [i64], half: usize, amount: i64)
    requires size { 2 * half ≤ length numbers.old }
    requires even { half % 2 ≡ 0 }
    requires range { LieWithin (2 * half) (2 ^ 60) numbers.old }
    requires amount { Lies (2 ^ 60) amount }
    ensures lift { IsLift half numbers.old numbers.new amount }
    ensures size { length numbers.new ≡ length numbers.old }
{
    for set in 0..half {
        let without = set / 2 * 4 + set % 2;
        numbers[set] = numbers[without].max(numbers[without + 2] - amount);
    }
}

#[cfg(test)]
mod tests {
    use super::*;
    use std::test::Fail;

    // The first bidder is content with one unit or none; the supply is one unit. Where the second bidder wants it, the
    // first bidder's greatest bundle cannot be completed, and it gets none.
    #[test]
    fn leaves_what_the_next_needs(rt: HostRuntime) -> Result<(), Fail> {
        assert_eq!(rt;
            greatest(&mut [0, 1, 1, 1], &mut [0, 1, 0, 1], 1).as_slice(),
            [0].as_slice()
        );
        assert_eq!(rt;
            greatest(&mut [0, 1, 1, 1], &mut [0, 0, 0, 1], 1).as_slice(),
            [1].as_slice()
        );
        Ok(())
    }
}
