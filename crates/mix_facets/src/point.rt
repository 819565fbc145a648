// The points of a level: which coordinate stands for which choice, and the prices of a point.
ghost use Rattle.std.specs.Prelude.{◌≡◌, ◌+◌, ◌<◌, ◌≤◌, ◌≤ℤ◌, ℤ, pos, neg_ℤ};
ghost use Rattle.mix_num.specs.Vectors.{with_null, Agree};
ghost use Rattle.mix_num.specs.Ranges.{AreWithin, Lies};
ghost use Rattle.mix_facets.specs.Points.{first_price as first_price_of, place as place_of, prices_at, IsPoint};

use crate::level::Level;
use arrayvec::ArrayVec;
use mix_num::Prices;

/// A coordinate for each choice other than a level's two, in rising order of the choices: by how much the choice's
/// price lies above that of the level's first choice.
pub type Point = ArrayVec<i64, 8>;

/// The coordinate of a choice, where `first` and `second` are left out.
pub(crate) fn place(first: usize, second: usize, choice: usize) -> usize
    requires order { first < second }
    requires few { choice ≤ 8 }
    ensures value { result ≡ place_of first second choice }
{
    if choice <= first {
        choice
    } else if choice <= second {
        choice - 1
    } else {
        choice - 2
    }
}

/// The price of a level's first choice at a point.
fn first_price(level: &Level, point: &Point) -> i64
    requires { IsPoint level.now point.now.items }
    ensures value { result ≡ first_price_of level.now.first point.now.items }
    ensures range { (neg_ℤ (pos 1) ≤ℤ result) × (result ≤ℤ pos 999999) }
{
    if level.first == 0 { 0 } else { -point[0] }
}

/// The price of a good at a point, from -2,000,000 to 2,000,000.
fn price_at(level: &Level, point: &Point, good: usize) -> i64
    requires point { IsPoint level.now point.now.items }
    requires good { (1 ≤ good) × (good ≤ level.now.goods) }
    ensures value { result ≡ prices_at level.now point.now.items good }
    ensures range { Lies 2000000 result }
{
    let first = first_price(level, point);
    if good == level.first {
        return first;
    }
    if good == level.second {
        return first - level.difference;
    }
    first + point[place(level.first, level.second, good)]
}

/// The prices of a point, from -2,000,000 to 2,000,000.
pub fn price_of(level: &Level, point: &Point) -> Prices
    requires { IsPoint level.now point.now.items }
    ensures value { Agree level.now.goods (with_null result.items) (prices_at level.now point.now.items) }
    ensures range { AreWithin 2000000 level.now.goods result.items }
{
    let mut prices = Prices::new();
    for good in 1..level.goods + 1 {
        prices.push(price_at(level, point, good));
    }
    prices
}
