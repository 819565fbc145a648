// What a seller, and two as one, answer where they are asked as members.
ghost use Rattle.std.specs.Prelude.{◌≡◌, ◌≤◌, [], ◌∷◌, length, false};
ghost use Rattle.mix_num.specs.Ranges.{HaveRoom, Lies};
ghost use Rattle.mix_num.specs.Sellers.{IsAmount, AreAmounts};
ghost use Rattle.mix_num.specs.Vectors.{members};
ghost use Rattle.mix_seller.specs.Sellers.{supply_of};

use crate::seller::Seller;
use mix_law::{Convex, Pair, laws};
use mix_num::{Bundle, Prices, Set, SetTable};
use std::test::Fail;

/// Prices of weak and strong.
fn prices(weak: i64, strong: i64) -> Prices
    requires weak { Lies 3999999 weak }
    requires strong { Lies 3999999 strong }
    ensures { HaveRoom 2 result.items }
{
    let mut both = Prices::new();
    both.push(weak);
    both.push(strong);
    both
}

/// Amounts of weak and strong.
fn amounts(weak: i64, strong: i64) -> Bundle
    requires weak { IsAmount weak }
    requires strong { IsAmount strong }
    ensures { AreAmounts 2 result.items }
{
    let mut both = Bundle::new();
    both.push(weak);
    both.push(strong);
    both
}

/// The number of goods, the total and both tops.
fn size<D: Convex>(member: &D) -> (usize, i64, i64, i64)
    requires { D.goods member.now ≡ 2 }
{
    (member.goods(), member.total(), member.top(1), member.top(2))
}

/// The value, the fall and the gain at the prices and the set.
fn asked<D: Convex>(member: &D, weak: i64, strong: i64, set: Set) -> (i64, i64, i64)
    requires size { D.goods member.now ≡ 2 }
    requires weak { Lies 3999999 weak }
    requires strong { Lies 3999999 strong }
{
    let prices = prices(weak, strong);
    (
        member.value(&prices),
        member.fall(&prices, set),
        member.gain_down(&prices, set),
    )
}

/// How many steps a set of goods makes the function fall equally.
fn reach<D: Convex>(member: &D, weak: i64, strong: i64, set: Set) -> i64
    requires size { D.goods member.now ≡ 2 }
    requires goods { members set 0 ≡ false }
    requires weak { Lies 3999999 weak }
    requires strong { Lies 3999999 strong }
{
    member.reach(&prices(weak, strong), set)
}

/// The total, and the fall and the gain of a set, both read from the tables of all sets.
fn swept<D: Convex>(member: &D, weak: i64, strong: i64, set: Set) -> (i64, i64, i64)
    requires size { D.goods member.now ≡ 2 }
    requires weak { Lies 3999999 weak }
    requires strong { Lies 3999999 strong }
{
    let prices = prices(weak, strong);
    let total = member.total();
    let mut falls = SetTable::new();
    member.falls(&prices, &mut falls);
    let mut gains = SetTable::new();
    member.gains(&prices, &mut gains);
    (total, falls.at(set), gains.at(set))
}

#[test]
fn a_seller_is_asked(rt: HostRuntime) -> Result<(), Fail> {
    let seller = Seller::new(&amounts(30, 20), &amounts(10, 15));
    assert_eq!(rt; seller.supply().as_slice(), [30, 20].as_slice());
    assert_eq!(rt; seller.reserve().as_slice(), [10, 15].as_slice());
    assert_eq!(rt; size(&seller), (2, 50, 10, 15));
    assert_eq!(rt; asked(&seller, 7, 12, Set::from_bits(2)), (150, 30, 30));
    assert_eq!(rt; asked(&seller, 7, 15, Set::from_bits(5)), (90, 20, 20));
    assert_eq!(rt; asked(&seller, 7, 15, Set::from_bits(1)), (90, 0, 20));
    assert_eq!(rt; asked(&seller, 12, 20, Set::from_bits(6)), (0, 0, 0));
    assert_eq!(rt; asked(&seller, 12, 20, Set::from_bits(1)), (0, 50, 50));
    assert_eq!(rt; swept(&seller, 7, 15, Set::from_bits(5)), (50, 20, 20));
    assert_eq!(rt; swept(&seller, 7, 15, Set::from_bits(1)), (50, 0, 20));
    assert_eq!(rt; swept(&seller, 7, 15, Set::from_bits(8)), (50, 0, 0));
    let rows = [(2, 3), (4, 2), (6, 2), (0, 8_000_000)];
    for (bits, steps) in rows {
        assert_eq!(rt; reach(&seller, 7, 13, Set::from_bits(bits)), steps);
    }
    assert_eq!(rt; reach(&seller, 12, 13, Set::from_bits(2)), 8_000_000);
    Ok(())
}

#[test]
fn two_sellers_are_asked_as_one(rt: HostRuntime) -> Result<(), Fail> {
    let first = Seller::new(&amounts(30, 20), &amounts(10, 15));
    let second = Seller::new(&amounts(4, 1), &amounts(7, 20));
    let pair = Pair::new(first, second);
    laws::submodular(&pair);
    laws::exchange(&pair);
    laws::local_to_global(&pair);
    laws::slopes(&pair);
    assert_eq!(rt; size(&pair), (2, 55, 10, 20));
    assert_eq!(rt; asked(&pair, 7, 15, Set::from_bits(3)), (95, 34, 54));
    assert_eq!(rt; swept(&pair, 7, 15, Set::from_bits(3)), (55, 34, 54));
    assert_eq!(rt; reach(&pair, 3, 16, Set::from_bits(2)), 4);
    assert_eq!(rt; reach(&pair, 7, 16, Set::from_bits(2)), 3);
    Ok(())
}
