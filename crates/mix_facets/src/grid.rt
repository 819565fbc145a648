// The grid of a level.
ghost use Rattle.std.specs.Prelude.{◌≡◌, ◌≤◌, ◌<◌, ◌^◌, ℕ, ℤ, List, pos, ◌-ℤ◌, ◌≤ℤ◌, ◌<ℤ◌, IfOk};
ghost use Rattle.mix_num.specs.Vectors.{Vector};
ghost use Rattle.mix_bids.specs.Bids.{facet_weight};
ghost use Rattle.mix_facets.specs.Levels.{IsLevelOf};
ghost use Rattle.mix_facets.specs.Points.{prices_at, IsPoint};
ghost use Rattle.mix_facets.specs.Grids.{point_at, size_of, IsGridOf, IsOn};

use crate::candidates::candidates_of;
use crate::level::Level;
use crate::numbers::Numbers;
use crate::point::Point;
use mix_bids::{BidList, other};
use mix_num::Memory;
use std::alloc::Global;
use std::marker::Model;

/// The points with one candidate for each coordinate. Only the candidates are stored.
#[derive(Drop)]
pub struct Grid {
    pub(crate) candidates: Vec<Numbers>,
}

impl Model for Grid {
    ghost use Rattle.std.specs.Prelude.{◌≤◌, ◌<◌, ℕ, ℤ, List, [], get_or, length};
    ghost use Rattle.mix_facets.specs.Grids.{IsRising};

    ghost Value = { List (List ℤ) };

    ghost view = { λ grid. grid.candidates.items };

    ghost invariant = { λ grid. (length grid.candidates.items ≤ 7) × ((k : ℕ) → k < length grid.candidates.items → (length (get_or grid.candidates.items k []) ≤ 401) × IsRising (get_or grid.candidates.items k [])) };
}

impl Grid {
    /// The number of points, at most 401 to the power of 7. Each point of the grid has one number below it.
    pub fn size(&self) -> u64
        ensures value { result ≡ size_of self.now }
        ensures range { result ≤ 401 ^ 7 }
        ensures all { (point : List ℤ) → IsOn self.now point → (k : ℕ) × (k < result) × (point_at self.now k ≡ point) }
        ensures once { (k l : ℕ) → k < result → l < result → point_at self.now k ≡ point_at self.now l → k ≡ l }
    {
        let mut size = 1;
        for numbers in &self.candidates {
            size *= numbers.len() as u64;
        }
        size
    }

    /// The point of a number.
    pub fn point(&self, number: u64) -> Point
        requires { number < size_of self.now }
        ensures value { result.items ≡ point_at self.now number }
        ensures on { IsOn self.now result.items }
    {
        let mut point = Point::new();
        let mut rest = number;
        for numbers in &self.candidates {
            let count = numbers.len() as u64;
            point.push(numbers.at((rest % count) as usize));
            rest /= count;
        }
        point
    }
}

/// The grid of a level of the list, or want of memory.
///
/// Wherever the prices of the level's two choices differ by its difference and their facet weight is negative, some
/// point of the grid has a facet weight that is at most it.
pub fn grid_of(alloc: Global, list: &BidList, level: &Level) -> Result<Grid, Memory>
    requires { IsLevelOf list.now level.now }
    ensures grid { IfOk result (IsGridOf list.now level.now) }
    ensures points { IfOk result (λ grid. (point : List ℤ) → IsOn grid point → IsPoint level.now point) }
    ensures least { IfOk result (λ grid. (x : Vector) → x level.now.first -ℤ x level.now.second ≡ level.now.difference →
        facet_weight list.now.goods level.now.first level.now.second list.now.bids x <ℤ pos 0 →
        (k : ℕ) × (k < size_of grid) × (facet_weight list.now.goods level.now.first level.now.second list.now.bids (prices_at level.now (point_at grid k)) ≤ℤ facet_weight list.now.goods level.now.first level.now.second list.now.bids x)) }
{
    // Whoever asks the list for its bids knows that each is a bid over its goods.
    let _bids = list.bids();
    let mut candidates = Vec::new(alloc);
    for coordinate in 0..level.goods - 1 {
        let choice = other(level.first, level.second, coordinate);
        candidates.push(candidates_of(alloc, list, level, choice)?)?;
    }
    Ok(Grid { candidates })
}
