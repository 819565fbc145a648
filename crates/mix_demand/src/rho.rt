// Tables: a number for each set of choices.
ghost use Rattle.std.specs.Prelude.{◌≡◌, ◌+◌, ◌^◌, ◌<◌, ◌≤◌, ℕ, suc, ℤ, pos, ◌+ℤ◌, ◌≤ℤ◌, List, All, length, replicate, IfOk};
ghost use Rattle.mix_num.specs.Ranges.{HaveRoom, Lies};
ghost use Rattle.mix_num.specs.Tables.{IsProper, number_of};
ghost use Rattle.mix_law.specs.Demands.{IsTableOf};

use mix_law::Convex;
use mix_num::{Memory, Prices, Set, SetTable};
use std::alloc::Global;
use std::marker::Model;

/// A table: a number for each set of the choices 0 to `n`, in the order of the sets' numbers.
///
/// Contracts see the list of these numbers, at most 512, each within plus and minus 4,000,000,000.
#[derive(Drop)]
pub struct Rho {
    numbers: Vec<i64>,
}

impl Model for Rho {
    ghost use Rattle.std.specs.Prelude.{◌≤◌, ℤ, List, All, length};
    ghost use Rattle.mix_num.specs.Ranges.{Lies};

    ghost Value = { List ℤ };

    ghost view = { λ r. r.numbers.items };

    ghost invariant = { λ r. record { few : length r.numbers.items ≤ 512; range : All (Lies 4000000000) r.numbers.items } };
}

impl Rho {
    /// The table over so many goods, at most 8, whose numbers are all 0.
    pub fn zero(alloc: Global, goods: usize) -> Result<Rho, Memory>
        requires { goods ≤ 8 }
        ensures { IfOk result (λ table. table ≡ replicate (2 ^ suc goods) (pos 0)) }
    {
        let numbers = vec![in alloc; 0; 2 << goods]?;
        Ok(Rho { numbers })
    }

    /// The numbers, in the order of the sets' numbers.
    pub fn numbers(&self) -> &[i64]
        ensures value { result.now ≡ self.now }
        ensures few { length self.now ≤ 512 }
        ensures range { All (Lies 4000000000) self.now }
    {
        &self.numbers
    }

    /// The number of a set.
    pub fn at(&self, set: Set) -> i64
        requires { set < length self.now }
        ensures value { result ≡ number_of self.now set }
        ensures range { Lies 4000000000 result }
    {
        self.numbers[set.bits() as usize]
    }

    /// Replaces all numbers by those of the member at the prices: the table is proper, and bundles fit it that are demanded.
    pub fn fill<D: Convex>(&mut self, member: &D, prices: &Prices)
        requires goods { length self.old ≡ 2 ^ suc (D.goods member.now) }
        requires prices { HaveRoom (D.goods member.now) prices.now.items }
        ensures table { IsTableOf (D.goods member.now) (D.function member.now) prices.now.items self.new }
        ensures proper { IsProper (D.goods member.now) self.new }
    {
        write_numbers(&mut self.numbers, member, prices);
    }

    /// Adds the numbers to others, set by set. No sum passes 4,000,000,000, up or down.
    pub fn add_to(&self, sum: &mut [i64])
        requires size { length sum.old ≡ length self.now }
        requires range { (set : ℕ) → set < length sum.old → Lies 4000000000 (number_of sum.old set +ℤ number_of self.now set) }
        ensures sums { (set : ℕ) → set < length sum.old → number_of sum.new set ≡ number_of sum.old set +ℤ number_of self.now set }
    {
        add_numbers(sum, &self.numbers);
    }
}

/// The table of a member at prices; it is proper.
pub fn rho_of<D: Convex>(alloc: Global, member: &D, prices: &Prices) -> Result<Rho, Memory>
    requires { HaveRoom (D.goods member.now) prices.now.items }
    ensures table { IfOk result (IsTableOf (D.goods member.now) (D.function member.now) prices.now.items) }
    ensures proper { IfOk result (IsProper (D.goods member.now)) }
{
    let mut table = Rho::zero(alloc, member.goods())?;
    table.fill(member, prices);
    Ok(table)
}

/// Adds a table to another, number by number. Both are over the same goods.
pub fn sum_into(sum: &mut Rho, other: &Rho)
    requires goods { length sum.old ≡ length other.now }
    requires range { (set : ℕ) → set < length sum.old → Lies 4000000000 (number_of sum.old set +ℤ number_of other.now set) }
    ensures goods { length sum.new ≡ length sum.old }
    ensures sums { (set : ℕ) → set < length sum.old → number_of sum.new set ≡ number_of sum.old set +ℤ number_of other.now set }
{
    other.add_to(&mut sum.numbers);
}

/// Adds numbers to others, place by place.
fn add_numbers(sum: &mut [i64], other: &[i64])
    requires size { length sum.old ≡ length other.now }
    requires range { (set : ℕ) → set < length sum.old → Lies 4000000000 (number_of sum.old set +ℤ number_of other.now set) }
    ensures sums { (set : ℕ) → set < length sum.old → number_of sum.new set ≡ number_of sum.old set +ℤ number_of other.now set }
{
    for (k, number) in other.iter().enumerate() {
        sum[k] += *number;
    }
}

/// Writes the member's number of each set, told all at once. That of the whole set, the last, is the member's total, which
/// none passes.
fn write_numbers<D: Convex>(numbers: &mut [i64], member: &D, prices: &Prices)
    requires goods { length numbers.old ≡ 2 ^ suc (D.goods member.now) }
    requires prices { HaveRoom (D.goods member.now) prices.now.items }
    ensures table { IsTableOf (D.goods member.now) (D.function member.now) prices.now.items numbers.new }
    ensures proper { IsProper (D.goods member.now) numbers.new }
    ensures range { All (Lies 8000000) numbers.new }
{
    let whole = Set::whole(member.goods()).bits();
    let total = member.total();
    let mut gains = SetTable::new();
    member.gains(prices, &mut gains);
    for bits in 0..whole {
        numbers[bits as usize] = gains.at(Set::from_bits(bits));
    }
    numbers[whole as usize] = total;
}

#[cfg(test)]
mod tests {
    use super::*;
    use crate::is_demanded;
    use mix_num::Bundle;
    use std::test::Fail;

    #[test]
    fn two_units_are_too_many(rt: HostRuntime) -> Result<(), Fail> {
        // One unit of either of two goods, each for 5, at the prices 0 and 0.
        let numbers = vec![in rt.alloc(); 0, 0, 1, 1, 1, 1, 1, 1]?;
        let table = Rho { numbers };
        let mut bundle = Bundle::new();
        bundle.push(1);
        bundle.push(0);
        assert_eq!(rt; is_demanded(&table, &bundle), None);
        bundle.pop();
        bundle.push(1);
        assert_eq!(rt; is_demanded(&table, &bundle), Some(Set::from_bits(6)));
        assert_eq!(rt; table.at(Set::from_bits(6)), 1);
        Ok(())
    }

    #[test]
    fn tables_add_up(rt: HostRuntime) -> Result<(), Fail> {
        let mut sum = Rho {
            numbers: vec![in rt.alloc(); 0, 1, 2, 2]?,
        };
        sum_into(
            &mut sum,
            &Rho {
                numbers: vec![in rt.alloc(); 0, 0, 3, 3]?,
            },
        );
        assert_eq!(rt; sum.numbers(), [0, 1, 5, 5].as_slice());
        let zero = Rho::zero(rt.alloc(), 1).ok().ok_or("memory")?;
        assert_eq!(rt; zero.numbers(), [0, 0, 0, 0].as_slice());
        Ok(())
    }
}
