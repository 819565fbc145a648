//! Sharing a supply among the members by the tie rule: in order, each gets the lexicographically greatest bundle that it
//! demands and that leaves what the later ones together demand.
#![tactic(auto)]

mod contraction;
mod pairs;
mod rows;
mod tables;
#[cfg(test)]
mod tests;
mod turn;

pub use tables::{Tables, share};
