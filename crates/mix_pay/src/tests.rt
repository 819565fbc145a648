// Payments worked out by hand.
ghost use Rattle.std.specs.Prelude.{◌≡◌};
ghost use Rattle.mix_num.specs.Ranges.{AreWithin, Lies};

use crate::{pay, receipts};
use mix_num::Bundle;
use std::test::Fail;

/// A number for each of two goods.
fn pair(first: i64, second: i64) -> Bundle
    requires first { Lies 4000000 first }
    requires second { Lies 4000000 second }
    ensures prices { AreWithin 4000000 2 result.items }
    ensures bundle { AreWithin 8000000 2 result.items }
{
    let mut both = Bundle::new();
    both.push(first);
    both.push(second);
    both
}

#[test]
fn price_times_quantity(rt: HostRuntime) -> Result<(), Fail> {
    let prices = pair(25, 35);
    assert_eq!(rt; pay(&prices, &pair(15, 0)), 375);
    assert_eq!(rt; pay(&prices, &pair(0, 20)), 700);
    assert_eq!(rt; pay(&pair(-3, 2), &pair(4, 5)), -2);
    assert_eq!(rt;
        receipts(&prices, &[pair(15, 0), pair(15, 0), pair(0, 20)]),
        1450
    );
    assert_eq!(rt; receipts(&prices, &[]), 0);
    Ok(())
}
