// What follows of grids, each theorem the contract of a call that does nothing.
ghost use Rattle.std.specs.Prelude.{◌≡◌, ◌≤◌, ℕ, ℤ, List};
ghost use Rattle.mix_bids.specs.Cells.{cells};
ghost use Rattle.mix_facets.specs.Levels.{Level, IsLevelOf};
ghost use Rattle.mix_facets.specs.Grids.{size_of, IsGridOf};
ghost use Rattle.mix_facets.specs.Totals.{total_size, AreGridsOf};

use mix_bids::BidList;

/// The sizes of the grids of a list, over all levels of all pairs of choices, add up to its number of cells.
pub fn sizes_of_grids(list: &BidList)
    ensures sum { (levels : ℕ → ℕ → List Level) (grids : ℕ → ℕ → List (List (List ℤ))) → AreGridsOf list.now levels grids → total_size list.now.goods grids ≡ cells list.now }
    ensures each { (level : Level) (grid : List (List ℤ)) → IsLevelOf list.now level → IsGridOf list.now level grid → size_of grid ≤ cells list.now }
{}
