// The levels of a list for two choices.
ghost use Rattle.std.specs.Prelude.{◌≡◌, ◌↔◌, ℤ, pos, ◌<◌, ◌≤◌, ◌-ℤ◌, ◌<ℤ◌, length, slice_index_or, All, Any, Contains, IfOk};
ghost use Rattle.mix_num.specs.Vectors.{Vector};
ghost use Rattle.mix_num.specs.Ranges.{Lies};
ghost use Rattle.mix_bids.specs.Bids.{facet_weight, AreBids};
ghost use Rattle.mix_bids.specs.Levels.{differences};
ghost use Rattle.mix_facets.specs.Levels.{AreLevelsOf};

use crate::level::Level;
use crate::numbers::Numbers;
use mix_bids::{BidList, negative_lead};
use mix_num::{MOST_VALUE, Memory};
use std::alloc::Global;
use std::marker::Model;

/// Levels, by their differences in rising order.
#[derive(Drop)]
pub struct Levels {
    levels: Vec<Level>,
}

impl Model for Levels {
    ghost use Rattle.std.specs.Prelude.{List};
    ghost use Rattle.mix_facets.specs.Levels.{Level};

    ghost Value = { List Level };

    ghost view = { λ list. list.levels.items };
}

impl Levels {
    /// How many levels there are.
    pub fn len(&self) -> usize
        ensures { result ≡ length self.now }
    {
        self.levels.len()
    }

    /// The level at a place.
    pub fn level(&self, place: usize) -> &Level
        requires { place < length self.now }
        ensures { result.now ≡ slice_index_or self.now place result.now }
    {
        &self.levels[place]
    }
}

/// The levels of the list for two choices, one for each difference that a bid of negative weight has, or want of memory.
///
/// Wherever the facet weight of the two choices is negative, their prices differ by the difference of one of the levels.
pub fn levels_of(
    alloc: Global,
    list: &BidList,
    first: usize,
    second: usize,
) -> Result<Levels, Memory>
    requires order { first < second }
    requires within { second ≤ list.now.goods }
    ensures levels { IfOk result (λ levels. AreLevelsOf list.now first second levels) }
    ensures negative { IfOk result (λ levels. (x : Vector) → facet_weight list.now.goods first second list.now.bids x <ℤ pos 0 → Any (λ level. level.difference ≡ x first -ℤ x second) levels) }
{
    let differences = differences_of(alloc, list, first, second)?;
    let mut levels = Vec::new(alloc);
    for place in 0..differences.len() {
        let level = Level::of(alloc, list, first, second, differences.at(place))?;
        levels.push(level)?;
    }
    Ok(Levels { levels })
}

/// The differences of the two choices that bids of negative weight have, each once.
fn differences_of(
    alloc: Global,
    list: &BidList,
    first: usize,
    second: usize,
) -> Result<Numbers, Memory>
    requires first { first ≤ list.now.goods }
    requires second { second ≤ list.now.goods }
    ensures members { IfOk result (λ numbers. (d : ℤ) → Contains numbers d ↔ Contains (differences first second list.now.bids) d) }
    ensures range { IfOk result (All (Lies MOST_VALUE)) }
    ensures proper { AreBids list.now.goods list.now.bids }
{
    let mut numbers = Numbers::new(alloc);
    for bid in list.bids() {
        numbers.insert(negative_lead(bid, first, second))?;
    }
    Ok(numbers)
}
