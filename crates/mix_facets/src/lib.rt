//! Levels and grids: the finitely many points at which the facet weights of a list decide whether any is negative.
#![tactic(auto)]

mod candidates;
mod cells;
mod grid;
mod least;
mod level;
mod levels;
mod numbers;
mod point;
#[cfg(test)]
mod tests;
pub mod theorems;
mod weight;

pub use grid::{Grid, grid_of};
pub use least::{LeastPoint, lowest};
pub use level::Level;
pub use levels::{Levels, levels_of};
pub use point::{Point, price_of};
pub use weight::weight_at;
