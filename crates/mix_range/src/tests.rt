// The greatest prices in markets of one good, whose members are sellers taken as members.
ghost use Rattle.std.specs.Prelude.{◌≡◌, ◌≤ℤ◌, pos, IfOk};
ghost use Rattle.mix_num.specs.Ranges.{AreWithin, HaveRoom};
ghost use Rattle.mix_num.specs.Sellers.{AreAmounts, IsAmount};
ghost use Rattle.mix_market.specs.Markets.{goods_of};

use crate::{greatest, largest_rise};
use mix_market::{Market, Seller};
use mix_num::{Bundle, Prices};
use mix_step::{Step, Steps, least_step};
use std::alloc::{AllocError, Global};
use std::marker::Brand;
use std::sync::ledger::{Blank, Ledger};
use std::test::Fail;

/// A number for each of two goods.
fn pair(first: i64, second: i64) -> Bundle
    requires first { IsAmount first }
    requires second { IsAmount second }
    ensures amounts { AreAmounts 2 result.items }
    ensures prices { AreWithin 1000000 2 result.items }
{
    let mut both = Bundle::new();
    both.push(first);
    both.push(second);
    both
}

/// One unit of each good for sale at a reserve, and members that take one of each: at up to 3, and at up to 8; their prices so
/// many times as great.
fn market(alloc: Global, reserve: i64, times: i64) -> Result<Market<Seller>, AllocError>
    requires reserve { IsAmount reserve }
    requires times { (pos 0 ≤ℤ times) × (times ≤ℤ pos 100000) }
    ensures { IfOk result (λ market. goods_of market ≡ 2) }
{
    let mut members = Vec::new(alloc);
    members.push(Seller::new(&pair(1, 1), &pair(3 * times, 3 * times)))?;
    members.push(Seller::new(&pair(1, 1), &pair(8 * times, 8 * times)))?;
    Ok(Market::new(members, Seller::new(&pair(1, 1), &pair(reserve, reserve))))
}

/// The largest rise at the prices under a ceiling of 5 and 10, on a ledger of its own.
fn rise_at<L: Ledger>(market: &Market<Seller>, first: i64, second: i64, blank: Blank) -> Step
    requires goods { goods_of market.now ≡ 2 }
    requires first { IsAmount first }
    requires second { IsAmount second }
    requires name { blank.name ≡ L.name }
    requires parts { blank.parts ≡ L.parts }
    requires some { blank.parts ≡ 1 }
{
    let mut steps = Steps::<L>::new(blank);
    largest_rise(market, &pair(5, 10), &pair(first, second), &mut steps)
}

#[test]
fn finds_the_largest_set_that_may_rise(rt: HostRuntime) -> Result<(), Fail> {
    let market = market(rt.alloc(), 0, 1)?;
    let rows = [(2, 2, 6, -2), (3, 3, 6, 0), (5, 4, 4, 0), (5, 8, 0, 0)];
    for (first, second, bits, slope) in rows {
        let step = rise_at::<Brand>(&market, first, second, Blank::new(1));
        assert_eq!(rt; (step.set.bits(), step.slope), (bits, slope));
    }
    Ok(())
}

/// The greatest prices under the ceiling, where no set of goods betters the reserves; on a ledger of its own.
fn greatest_at<L: Ledger>(
    market: &Market<Seller>,
    first: i64,
    second: i64,
    blank: Blank,
) -> Option<Prices>
    requires goods { goods_of market.now ≡ 2 }
    requires first { IsAmount first }
    requires second { IsAmount second }
    requires name { blank.name ≡ L.name }
    requires parts { blank.parts ≡ L.parts }
    requires some { blank.parts ≡ 1 }
{
    let mut steps = Steps::<L>::new(blank);
    let low = market.seller().reserve();
    let step = least_step(market, low, &mut steps);
    if step.set.bits() == 0 {
        greatest(market, low, &pair(first, second), &mut steps)
    } else {
        None
    }
}

#[test]
fn rises_to_the_ceiling_while_nothing_changes(rt: HostRuntime) -> Result<(), Fail> {
    // From 3 to 8 one member of two takes what is for sale.
    let near = market(rt.alloc(), 3, 1)?;
    let far = market(rt.alloc(), 300_000, 100_000)?;
    let rows = [
        (5, 9, 5, 8),
        (3, 4, 3, 4),
        (3, 3, 3, 3),
        (8, 8, 8, 8),
        (10, 10, 8, 8),
    ];
    for (first, second, high, higher) in rows {
        let end = greatest_at::<Brand>(&near, first, second, Blank::new(1)).expect(
            &rt,
            "low prices are below the ceiling",
        );
        assert_eq!(rt; end.as_slice(), [high, higher].as_slice());
    }
    let rows = [
        (500_000, 900_000, 500_000, 800_000),
        (300_000, 300_001, 300_000, 300_001),
        (1_000_000, 1_000_000, 800_000, 800_000),
    ];
    for (first, second, high, higher) in rows {
        let end = greatest_at::<Brand>(&far, first, second, Blank::new(1)).expect(
            &rt,
            "low prices are below the ceiling",
        );
        assert_eq!(rt; end.as_slice(), [high, higher].as_slice());
    }
    assert!(rt; greatest_at::<Brand>(&far, 299_999, 900_000, Blank::new(1)).is_none());
    Ok(())
}
