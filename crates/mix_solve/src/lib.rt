//! The outcome of an auction: the least prices of its market, and what each bidder gets and pays at them, or who is refused.
#![tactic(auto)]

mod least;
mod solution;
pub mod theorems;

pub use least::least_prices;
pub use solution::solve;

#[cfg(test)]
mod tests;
