// Least steps in a market of two goods, whose members are sellers taken as members.
ghost use Rattle.std.specs.Prelude.{◌≡◌, IfOk};
ghost use Rattle.mix_num.specs.Ranges.{HaveRoom};
ghost use Rattle.mix_num.specs.Sellers.{AreAmounts, IsAmount};
ghost use Rattle.mix_market.specs.Markets.{goods_of};

use crate::{Step, Steps, least_step};
use mix_market::{Market, Seller};
use mix_num::{Bundle, Set};
use std::alloc::{AllocError, Global};
use std::marker::Brand;
use std::sync::ledger::{Blank, Ledger};
use std::test::Fail;

/// A number for each of two goods.
fn pair(first: i64, second: i64) -> Bundle
    requires first { IsAmount first }
    requires second { IsAmount second }
    ensures amounts { AreAmounts 2 result.items }
    ensures prices { HaveRoom 2 result.items }
{
    let mut both = Bundle::new();
    both.push(first);
    both.push(second);
    both
}

/// Two units of the first good and one of the second for sale, and a member that takes three of the first at up to 5 and two
/// of the second at up to 3.
fn market(alloc: Global) -> Result<Market<Seller>, AllocError>
    ensures { IfOk result (λ market. goods_of market ≡ 2) }
{
    let mut members = Vec::new(alloc);
    members.push(Seller::new(&pair(3, 2), &pair(5, 3)))?;
    Ok(Market::new(members, Seller::new(&pair(2, 1), &pair(0, 0))))
}

/// The least step at the prices, on a ledger of its own.
fn step_at<L: Ledger>(market: &Market<Seller>, first: i64, second: i64, blank: Blank) -> Step
    requires goods { goods_of market.now ≡ 2 }
    requires first { IsAmount first }
    requires second { IsAmount second }
    requires name { blank.name ≡ L.name }
    requires parts { blank.parts ≡ L.parts }
    requires some { blank.parts ≡ 1 }
{
    let mut steps = Steps::<L>::new(blank);
    least_step(market, &pair(first, second), &mut steps)
}

#[test]
fn finds_the_smallest_steepest_set(rt: HostRuntime) -> Result<(), Fail> {
    let market = market(rt.alloc())?;
    let rows = [
        (0, 0, 6, -2),
        (4, 2, 6, -2),
        (4, 3, 2, -1),
        (5, 2, 4, -1),
        (5, 3, 0, 0),
    ];
    for (first, second, bits, slope) in rows {
        let step = step_at::<Brand>(&market, first, second, Blank::new(1));
        assert_eq!(rt; (step.set.bits(), step.slope), (bits, slope));
    }
    Ok(())
}
