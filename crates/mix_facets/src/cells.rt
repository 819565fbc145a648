// Cells: a number for each point of a grid, by the number of the point.
ghost use Rattle.std.specs.Prelude.{◌≡◌, ℕ, suc, ◌+◌, ◌*◌, ◌^◌, ◌<◌, ◌≤◌, false, cond, eqb, List, pos, ◌+ℤ◌, get_or, length, IfOk, MatchOption};
ghost use Rattle.mix_num.specs.Vectors.{Vector, Agree};
ghost use Rattle.mix_num.specs.Ranges.{Lies};
ghost use Rattle.mix_bids.specs.Bids.{facet_weight, IsBid};
ghost use Rattle.mix_bids.specs.Leads.{lead_of};
ghost use Rattle.mix_facets.specs.Levels.{bids_of, IsLevelOf};
ghost use Rattle.mix_bids.specs.Levels.{other as other_of};
ghost use Rattle.mix_facets.specs.Points.{prices_at};
ghost use Rattle.mix_facets.specs.Grids.{point_at, size_of, IsGridOf};
ghost use Rattle.mix_facets.specs.Cells.{first_place as first_place_of, holds, leads, weight_held, AreSums, AreBlockSums};

use crate::grid::Grid;
use crate::level::Level;
use crate::numbers::Numbers;
use mix_bids::{Bid, BidList, lead, other};
use mix_num::Memory;
use std::alloc::Global;

/// The facet weight at each point of the grid, from -4,000,000 to 4,000,000, or want of memory. There is a point.
///
/// Each bid's weight is put at the first point that counts it. Then the cells are added up along each coordinate in
/// turn, and so a cell holds the weights of all bids that are counted at its point.
pub(crate) fn weights_of(
    alloc: Global,
    list: &BidList,
    level: &Level,
    grid: &Grid,
) -> Result<Vec<i64>, Memory>
    requires level { IsLevelOf list.now level.now }
    requires grid { IsGridOf list.now level.now grid.now }
    ensures size { IfOk result (λ cells. length cells.items ≡ size_of grid.now) }
    ensures some { 0 < size_of grid.now }
    ensures weights { IfOk result (λ cells. (k : ℕ) (x : Vector) → k < size_of grid.now → Agree list.now.goods x (prices_at level.now (point_at grid.now k)) → get_or cells.items k (pos 0) ≡ facet_weight list.now.goods level.now.first level.now.second list.now.bids x) }
    ensures range { IfOk result (λ cells. (k : ℕ) → k < size_of grid.now → Lies 4000000 (get_or cells.items k (pos 0))) }
{
    // Whoever asks the list for its bids knows that there are at most 400, each over its goods.
    let _bids = list.bids();
    let mut cells = first_weights(alloc, list, level, grid)?;
    let mut stride = 1;
    for numbers in &grid.candidates {
        add_along(&mut cells, stride, numbers.len());
        stride *= numbers.len();
    }
    Ok(cells)
}

/// For each point the weight of the bids that are counted there first.
fn first_weights(
    alloc: Global,
    list: &BidList,
    level: &Level,
    grid: &Grid,
) -> Result<Vec<i64>, Memory>
    requires level { IsLevelOf list.now level.now }
    requires size { suc (length grid.now) ≡ level.now.goods }
    ensures size { IfOk result (λ cells. length cells.items ≡ size_of grid.now) }
    ensures weights { IfOk result (λ cells. (k : ℕ) → k < size_of grid.now → get_or cells.items k (pos 0) ≡ weight_held level.now.first level.now.second 0 grid.now (bids_of list.now level.now) k) }
{
    let mut cells = vec![in alloc; 0; grid.size() as usize]?;
    for number in 0..level.count(list) {
        put(&mut cells, level.bid(list, number), level, grid);
    }
    Ok(cells)
}

/// Adds the bid's weight to the first cell that counts it, if there is one.
fn put(cells: &mut [i64], bid: &Bid, level: &Level, grid: &Grid)
    requires bid { IsBid level.now.goods bid.now }
    requires size { suc (length grid.now) ≡ level.now.goods }
    requires cells { length cells.old ≡ size_of grid.now }
    requires range { (k : ℕ) → k < length cells.old → Lies 4000000 (get_or cells.old k (pos 0)) }
    ensures each { (k : ℕ) → k < size_of grid.now → get_or cells.new k (pos 0) ≡ get_or cells.old k (pos 0) +ℤ cond (holds 0 0 grid.now (leads level.now.first level.now.second bid.now) k) bid.now.weight (pos 0) }
    ensures size { length cells.new ≡ length cells.old }
{
    let Some(cell) = first_cell(bid, level, grid) else {
        return;
    };
    cells[cell] += bid.weight;
}

/// The number of the point with the first candidate in each coordinate at which the bid is counted, if each has one.
fn first_cell(bid: &Bid, level: &Level, grid: &Grid) -> Option<usize>
    requires bid { IsBid level.now.goods bid.now }
    requires size { suc (length grid.now) ≡ level.now.goods }
    ensures { MatchOption result ((k : ℕ) → k < size_of grid.now → holds 0 0 grid.now (leads level.now.first level.now.second bid.now) k ≡ false) (λ cell. (cell < size_of grid.now) × ((k : ℕ) → k < size_of grid.now → holds 0 0 grid.now (leads level.now.first level.now.second bid.now) k ≡ eqb cell k)) }
{
    let mut cell = 0;
    let mut coordinate = grid.candidates.len();
    while coordinate > 0 {
        coordinate -= 1;
        let numbers = &grid.candidates[coordinate];
        let place = first_place(bid, level, coordinate, numbers);
        if place == numbers.len() {
            return None;
        }
        cell = cell * numbers.len() + place;
    }
    Some(cell)
}

/// The place of the first candidate above the bid's lead, or 0 where the bid leaves the choice out.
fn first_place(bid: &Bid, level: &Level, coordinate: usize, numbers: &Numbers) -> usize
    requires bid { IsBid level.now.goods bid.now }
    requires coordinate { suc (suc coordinate) ≤ level.now.goods }
    ensures value { result ≡ first_place_of numbers.now (leads level.now.first level.now.second bid.now coordinate) }
    ensures within { result ≤ length numbers.now }
{
    let choice = other(level.first, level.second, coordinate);
    match lead(bid, choice, level.first) {
        Some(lead) => numbers.first_from(lead + 1),
        None => 0,
    }
}

/// Adds to each cell those that lie before it along a coordinate of `count` places, whose neighbours are `stride` apart.
fn add_along(cells: &mut [i64], stride: usize, count: usize)
    requires stride { 0 < stride }
    requires whole { (n : ℕ) × (length cells.old ≡ n * (stride * count)) }
    requires block { stride * count ≤ 401 ^ 7 }
    requires sums { (sums : Vector) × AreSums stride count cells.old sums × ((k : ℕ) → k < length cells.old → Lies 4000000 (sums k)) }
    ensures sums { (sums : Vector) → AreSums stride count cells.old sums → (k : ℕ) → k < length cells.old → get_or cells.new k (pos 0) ≡ sums k }
    ensures size { length cells.new ≡ length cells.old }
{
    let block = stride * count;
    let mut start = 0;
    while start < cells.len() {
        add_block(cells, start, start + block, stride);
        start += block;
    }
}

/// The same for one block of cells, in which each place has `stride` neighbouring cells.
fn add_block(cells: &mut [i64], start: usize, end: usize, stride: usize)
    requires stride { 0 < stride }
    requires start { start + stride ≤ end }
    requires end { end ≤ length cells.old }
    requires sums { (sums : Vector) × AreBlockSums stride start end cells.old sums × ((k : ℕ) → k < end → start ≤ k → Lies 4000000 (sums k)) }
    ensures sums { (sums : Vector) → AreBlockSums stride start end cells.old sums → (k : ℕ) → start ≤ k → k < end → get_or cells.new k (pos 0) ≡ sums k }
    ensures before { (k : ℕ) → k < start → get_or cells.new k (pos 0) ≡ get_or cells.old k (pos 0) }
    ensures after { (k : ℕ) → end ≤ k → get_or cells.new k (pos 0) ≡ get_or cells.old k (pos 0) }
    ensures size { length cells.new ≡ length cells.old }
{
    for place in start + stride..end {
        cells[place] += cells[place - stride];
    }
}
