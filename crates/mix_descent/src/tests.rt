// Climbs in markets of members that are no lists of bids: each takes the supply of a seller at up to its reserves.
ghost use Rattle.std.specs.Prelude.{◌≡◌, ◌≤◌, [], ◌∷◌, length, pos, ◌≤ℤ◌, All, IfOk};
ghost use Rattle.mix_num.specs.Ranges.{AreWithin};
ghost use Rattle.mix_num.specs.Sellers.{AreAmounts, IsAmount};
ghost use Rattle.mix_market.specs.Markets.{goods_of};

use crate::{LongStep, descend, descend_near, trail};
use mix_law::Convex;
use mix_market::{Market, Seller};
use mix_num::{Bundle, Prices, Set};
use mix_step::Steps;
use std::alloc::{AllocError, Global};
use std::marker::Brand;
use std::sync::ledger::{Blank, Ledger};
use std::test::Fail;

/// A number for each of two goods.
fn pair(first: i64, second: i64) -> Bundle
    requires first { IsAmount first }
    requires second { IsAmount second }
    ensures amounts { AreAmounts 2 result.items }
    ensures prices { AreWithin 1000000 2 result.items }
{
    let mut both = Bundle::new();
    both.push(first);
    both.push(second);
    both
}

/// A member of a type of these tests alone, since whoever keeps the laws may climb. It tells at most two steps at a time.
#[derive(Drop)]
struct Taker<D: Convex> {
    taken: D,
}

impl<D: Convex> Convex for Taker<D> {
    ghost use Rattle.std.specs.Int.{int_min};
    ghost use Rattle.std.specs.Prelude.{pos};

    ghost goods = { λ taker. D.goods taker.taken };

    ghost total = { λ taker. D.total taker.taken };

    ghost top = { λ taker. D.top taker.taken };

    ghost function = { λ taker. D.function taker.taken };

    ghost reach = { λ taker x set. int_min (D.reach taker.taken x set) (pos 2) };

    ghost l_natural = { λ taker. D.l_natural taker.taken };

    fn goods(&self) -> usize {
        self.taken.goods()
    }

    fn total(&self) -> i64 {
        self.taken.total()
    }

    fn top(&self, good: usize) -> i64 {
        self.taken.top(good)
    }

    fn value(&self, prices: &Prices) -> i64 {
        self.taken.value(prices)
    }

    fn fall(&self, prices: &Prices, set: Set) -> i64 {
        self.taken.fall(prices, set)
    }

    fn gain_down(&self, prices: &Prices, set: Set) -> i64 {
        self.taken.gain_down(prices, set)
    }

    fn reach(&self, prices: &Prices, set: Set) -> i64 {
        self.taken.reach(prices, set).min(2)
    }
}

/// Three units of the first good and one of the second for sale, and three members: two units of the first at up to 10 and
/// one of the second at up to 4, two of the first at up to 7 and one of the second at up to 4, one of the first at up to 5.
fn market(alloc: Global) -> Result<Market<Taker<Seller>>, AllocError>
    ensures { IfOk result (λ market. goods_of market ≡ 2) }
{
    let mut members = Vec::new(alloc);
    members.push(Taker {
        taken: Seller::new(&pair(2, 1), &pair(10, 4)),
    })?;
    members.push(Taker {
        taken: Seller::new(&pair(2, 1), &pair(7, 4)),
    })?;
    members.push(Taker {
        taken: Seller::new(&pair(1, 0), &pair(5, 0)),
    })?;
    Ok(Market::new(members, Seller::new(&pair(3, 1), &pair(2, 0))))
}

/// The end of the climb from the start, on a ledger of its own.
fn end_of<L: Ledger>(market: &Market<Taker<Seller>>, start: &Prices, blank: Blank) -> Prices
    requires start { AreWithin 1000000 (goods_of market.now) start.now.items }
    requires name { blank.name ≡ L.name }
    requires parts { blank.parts ≡ L.parts }
    requires some { blank.parts ≡ 1 }
{
    let mut steps = Steps::<L>::new(blank);
    descend(market, start, &mut steps)
}

#[test]
fn climbs_to_the_least_point(rt: HostRuntime) -> Result<(), Fail> {
    let market = market(rt.alloc())?;
    let rows = [
        (2, 0, 7, 4),
        (0, 3, 7, 4),
        (7, 4, 7, 4),
        (8, 1, 8, 4),
        (12, 9, 12, 9),
    ];
    for (first, second, last_first, last_second) in rows {
        let end = end_of::<Brand>(&market, &pair(first, second), Blank::new(1));
        assert_eq!(rt; end.as_slice(), [last_first, last_second].as_slice());
    }
    Ok(())
}

/// The least point at or above the reserves, looked for near a guess, on a ledger of its own.
fn found_near<L: Ledger>(market: &Market<Taker<Seller>>, guess: &Prices, blank: Blank) -> Prices
    requires guess { AreWithin 1000000 (goods_of market.now) guess.now.items }
    requires name { blank.name ≡ L.name }
    requires parts { blank.parts ≡ L.parts }
    requires some { blank.parts ≡ 1 }
{
    let mut steps = Steps::<L>::new(blank);
    descend_near(market, guess, &mut steps)
}

#[test]
fn finds_the_least_point_whatever_the_guess(rt: HostRuntime) -> Result<(), Fail> {
    let market = market(rt.alloc())?;
    // The reserves, the least point, one good wrong by a little or by much, and both too high.
    let rows = [
        (2, 0),
        (7, 4),
        (7, 5),
        (6, 4),
        (0, 4),
        (1_000_000, 4),
        (16, 12),
        (1_000_000, 1_000_000),
    ];
    for (first, second) in rows {
        let found = found_near::<Brand>(&market, &pair(first, second), Blank::new(1));
        assert_eq!(rt; found.as_slice(), [7, 4].as_slice());
    }
    Ok(())
}

#[test]
fn makes_long_steps(rt: HostRuntime) -> Result<(), Fail> {
    let market = market(rt.alloc())?;
    let climb = trail(rt.alloc(), &market)?;
    assert_eq!(rt; climb.prices.as_slice(), [7, 4].as_slice());
    let rows = [(6, 3, -3), (6, 1, -2), (2, 1, -1)];
    assert_eq!(rt; climb.steps.len(), rows.len());
    for (place, (bits, length, slope)) in rows.iter().enumerate() {
        if place < climb.steps.len() {
            let step = LongStep {
                set: Set::from_bits(*bits),
                length: *length,
                slope: *slope,
            };
            assert_eq!(rt; *climb.steps.get(place), step);
        }
    }
    Ok(())
}

#[test]
fn makes_the_longest_step(rt: HostRuntime) -> Result<(), Fail> {
    let mut members = Vec::new(rt.alloc());
    members.push(Seller::new(&pair(1, 0), &pair(1_000_000, 0)))?;
    members.push(Seller::new(&pair(1, 0), &pair(1_000_000, 0)))?;
    let market = Market::new(members, Seller::new(&pair(1, 0), &pair(0, 0)));
    let climb = trail(rt.alloc(), &market)?;
    assert_eq!(rt; climb.prices.as_slice(), [1_000_000, 0].as_slice());
    assert_eq!(rt; climb.steps.len(), 1);
    if climb.steps.len() == 1 {
        let step = LongStep {
            set: Set::from_bits(2),
            length: 1_000_000,
            slope: -1,
        };
        assert_eq!(rt; *climb.steps.get(0), step);
    }
    Ok(())
}
