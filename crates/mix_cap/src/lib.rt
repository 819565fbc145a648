//! Bidders with a cap on their units in all goods together, as members of the market; and members of either kind.
#![tactic(auto)]

mod capped;
mod lots;
mod member;
mod tallies;
pub mod theorems;

pub use capped::Capped;
pub use member::Member;

#[cfg(test)]
mod tests;
