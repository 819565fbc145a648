// Facet weights at the points of a level.
ghost use Rattle.std.specs.Prelude.{◌≡◌, ◌≤◌, cond, pos};
ghost use Rattle.mix_num.specs.Vectors.{Vector, Agree};
ghost use Rattle.mix_num.specs.Ranges.{Lies};
ghost use Rattle.mix_bids.specs.Bids.{facet_weight, IsBid};
ghost use Rattle.mix_facets.specs.Levels.{IsLevelOf};
ghost use Rattle.mix_facets.specs.Points.{coordinate, prices_at, IsPoint};
ghost use Rattle.mix_facets.specs.Counted.{is_counted as is_counted_at, stays_below as stays_below_at};

use crate::level::Level;
use crate::point::{Point, place};
use mix_bids::{Bid, BidList, lead};

/// Whether a choice other than the level's two, if the bid offers it, leads the first one by less than its coordinate.
fn stays_below(bid: &Bid, level: &Level, point: &Point, choice: usize) -> bool
    requires bid { IsBid level.now.goods bid.now }
    requires point { IsPoint level.now point.now.items }
    requires choice { choice ≤ level.now.goods }
    ensures { result ≡ stays_below_at level.now.first level.now.second (coordinate level.now.first level.now.second point.now.items) bid.now choice }
{
    if choice == level.first || choice == level.second {
        return true;
    }
    match lead(bid, choice, level.first) {
        Some(lead) => lead < point[place(level.first, level.second, choice)],
        None => true,
    }
}

/// Whether every other choice that the bid offers stays below its coordinate.
fn is_counted(bid: &Bid, level: &Level, point: &Point) -> bool
    requires bid { IsBid level.now.goods bid.now }
    requires point { IsPoint level.now point.now.items }
    ensures { result ≡ is_counted_at level.now.goods level.now.first level.now.second (coordinate level.now.first level.now.second point.now.items) bid.now }
{
    for choice in 0..level.goods + 1 {
        if !stays_below(bid, level, point, choice) {
            return false;
        }
    }
    true
}

/// The bid's weight where it is counted, else 0.
fn weight_if_counted(bid: &Bid, level: &Level, point: &Point) -> i64
    requires bid { IsBid level.now.goods bid.now }
    requires point { IsPoint level.now point.now.items }
    ensures value { result ≡ cond (is_counted_at level.now.goods level.now.first level.now.second (coordinate level.now.first level.now.second point.now.items) bid.now) bid.now.weight (pos 0) }
    ensures range { Lies 10000 result }
{
    if is_counted(bid, level, point) {
        bid.weight
    } else {
        0
    }
}

/// The facet weight of a level's two choices at the prices of a point, from -4,000,000 to 4,000,000.
pub fn weight_at(list: &BidList, level: &Level, point: &Point) -> i64
    requires level { IsLevelOf list.now level.now }
    requires point { IsPoint level.now point.now.items }
    ensures value { (x : Vector) → Agree list.now.goods x (prices_at level.now point.now.items) → result ≡ facet_weight list.now.goods level.now.first level.now.second list.now.bids x }
    ensures range { Lies 4000000 result }
{
    let mut weight = 0;
    for number in 0..level.count(list) {
        weight += weight_if_counted(level.bid(list, number), level, point);
    }
    weight
}
