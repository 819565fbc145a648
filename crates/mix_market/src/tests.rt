// A market of two goods, whose one member is a seller taken as a member.
ghost use Rattle.std.specs.Prelude.{◌≡◌, IfOk, length};
ghost use Rattle.mix_num.specs.Ranges.{HaveRoom, Lies};
ghost use Rattle.mix_num.specs.Sellers.{AreAmounts, IsAmount};
ghost use Rattle.mix_market.specs.Markets.{goods_of};

use crate::Market;
use mix_num::{Bundle, Prices, Set, SetTable};
use mix_seller::Seller;
use std::alloc::{AllocError, Global};
use std::test::Fail;

/// A number for each of two goods.
fn pair(first: i64, second: i64) -> Bundle
    requires first { IsAmount first }
    requires second { IsAmount second }
    ensures amounts { AreAmounts 2 result.items }
    ensures prices { HaveRoom 2 result.items }
{
    let mut both = Bundle::new();
    both.push(first);
    both.push(second);
    both
}

/// One unit of each good for sale at no reserve, and a member that takes two of the first at up to 5 and two of the second
/// at up to 3.
fn market(alloc: Global) -> Result<Market<Seller>, AllocError>
    ensures { IfOk result (λ market. goods_of market ≡ 2) }
{
    let mut members = Vec::new(alloc);
    members.push(Seller::new(&pair(2, 2), &pair(5, 3)))?;
    Ok(Market::new(members, Seller::new(&pair(1, 1), &pair(0, 0))))
}

#[test]
fn sums_members_and_supply(rt: HostRuntime) -> Result<(), Fail> {
    let market = market(rt.alloc())?;
    assert_eq!(rt; market.members().len(), 1);
    assert_eq!(rt; market.total(), 4);
    assert_eq!(rt; (market.top(1), market.top(2)), (5, 3));
    assert_eq!(rt; market.lyapunov(&pair(0, 0)), 16);
    assert_eq!(rt; market.lyapunov(&pair(1, 1)), 14);
    assert_eq!(rt; market.lyapunov(&pair(5, 4)), 9);
    assert_eq!(rt; market.into_members().len(), 1);
    Ok(())
}

#[test]
fn slopes_are_supply_less_fall(rt: HostRuntime) -> Result<(), Fail> {
    let market = market(rt.alloc())?;
    let both = Set::from_bits(6);
    assert_eq!(rt; market.slope(&pair(0, 0), Set::from_bits(0)), 0);
    assert_eq!(rt; market.slope(&pair(0, 0), Set::from_bits(2)), -1);
    assert_eq!(rt; market.slope(&pair(0, 0), both), -2);
    assert_eq!(rt; market.slope(&pair(4, 3), both), 0);
    assert_eq!(rt; market.slope(&pair(5, 3), both), 2);
    let mut slopes = SetTable::new();
    market.slopes(&pair(0, 0), &mut slopes);
    let rows = [
        (0, 0),
        (1, 0),
        (2, -1),
        (3, 0),
        (4, -1),
        (6, -2),
        (7, 0),
        (8, 0),
    ];
    for (bits, slope) in rows {
        assert_eq!(rt; slopes.at(Set::from_bits(bits)), slope);
    }
    Ok(())
}

#[test]
fn slopes_down_are_gain_less_supply(rt: HostRuntime) -> Result<(), Fail> {
    let market = market(rt.alloc())?;
    let mut slopes = SetTable::new();
    let rows = [
        (0, 0, 2, 1),
        (5, 3, 2, 1),
        (5, 3, 4, 1),
        (5, 3, 6, 2),
        (6, 3, 2, -1),
        (6, 3, 6, 0),
        (6, 4, 6, -2),
        (6, 4, 0, 0),
        (6, 4, 7, 0),
    ];
    for (first, second, bits, slope) in rows {
        market.slopes_down(&pair(first, second), &mut slopes);
        assert_eq!(rt; slopes.at(Set::from_bits(bits)), slope);
    }
    Ok(())
}

#[test]
fn reaches_are_the_least_of_members(rt: HostRuntime) -> Result<(), Fail> {
    let market = market(rt.alloc())?;
    assert_eq!(rt; market.reach(&pair(0, 0), Set::from_bits(2)), 5);
    assert_eq!(rt; market.reach(&pair(0, 0), Set::from_bits(6)), 3);
    assert_eq!(rt; market.reach(&pair(5, 3), Set::from_bits(6)), 8_000_000);
    Ok(())
}
