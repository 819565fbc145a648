// The least facet weight on a level's grid.
ghost use Rattle.std.specs.Prelude.{◌≡◌, ℕ, ◌<◌, pos, ◌≤ℤ◌, ◌<ℤ◌, get_or, length, IfOk};
ghost use Rattle.mix_num.specs.Vectors.{Vector, Agree};
ghost use Rattle.mix_num.specs.Ranges.{Lies};
ghost use Rattle.mix_bids.specs.Bids.{facet_weight};
ghost use Rattle.mix_facets.specs.Levels.{IsLevelOf};
ghost use Rattle.mix_facets.specs.Points.{prices_at};
ghost use Rattle.mix_facets.specs.Grids.{point_at, size_of, IsGridOf};

use crate::cells::weights_of;
use crate::grid::Grid;
use crate::level::Level;
use mix_bids::BidList;
use mix_num::Memory;
use std::alloc::Global;

/// A point of a grid, by its number, and the facet weight of the level's two choices at its prices.
#[derive(Clone, Copy, Debug, PartialEq, Eq)]
pub struct LeastPoint {
    /// The number of the point, below the grid's size.
    pub index: u64,
    /// The facet weight, from -4,000,000 to 4,000,000.
    pub weight: i64,
}

/// The point of a level's grid with the least facet weight, the first of several by their numbers, or want of memory.
///
/// A grid of a level has a point: each good has its lowest candidate, and the null choice that of a bid of negative
/// weight of the level, since every bid offers it. The memory that is taken, 8 bytes for each point, is given back.
pub fn lowest(
    alloc: Global,
    list: &BidList,
    level: &Level,
    grid: &Grid,
) -> Result<LeastPoint, Memory>
    requires level { IsLevelOf list.now level.now }
    requires grid { IsGridOf list.now level.now grid.now }
    ensures index { IfOk result (λ least. least.index < size_of grid.now) }
    ensures weight { IfOk result (λ least. (x : Vector) → Agree list.now.goods x (prices_at level.now (point_at grid.now least.index)) → least.weight ≡ facet_weight list.now.goods level.now.first level.now.second list.now.bids x) }
    ensures range { IfOk result (λ least. Lies 4000000 least.weight) }
    ensures least { IfOk result (λ least. (k : ℕ) → k < size_of grid.now → least.weight ≤ℤ facet_weight list.now.goods level.now.first level.now.second list.now.bids (prices_at level.now (point_at grid.now k))) }
    ensures first { IfOk result (λ least. (k : ℕ) → k < least.index → least.weight <ℤ facet_weight list.now.goods level.now.first level.now.second list.now.bids (prices_at level.now (point_at grid.now k))) }
{
    let weights = weights_of(alloc, list, level, grid)?;
    Ok(first_least(&weights))
}

/// The place of the least number, the first of several, and the number.
fn first_least(numbers: &[i64]) -> LeastPoint
    requires { 0 < length numbers.now }
    ensures index { result.index < length numbers.now }
    ensures weight { result.weight ≡ get_or numbers.now result.index (pos 0) }
    ensures least { (k : ℕ) → k < length numbers.now → result.weight ≤ℤ get_or numbers.now k (pos 0) }
    ensures first { (k : ℕ) → k < result.index → result.weight <ℤ get_or numbers.now k (pos 0) }
{
    let mut index = 0;
    let mut weight = numbers[0];
    for (place, number) in numbers.iter().enumerate() {
        if *number < weight {
            index = place;
            weight = *number;
        }
    }
    LeastPoint {
        index: index as u64,
        weight,
    }
}
