//! Canonical lists of bids, and whether two lists have the same indirect utility.
#![tactic(auto)]

mod canonical;
mod comparison;
mod likeness;
mod points;
mod term;
pub mod theorems;
mod weights;

pub use canonical::canon;
pub use comparison::same;
pub use likeness::Likeness;
pub use term::{Term, TermList};

#[cfg(test)]
mod tests;
