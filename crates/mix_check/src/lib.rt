//! The checker: whether an outcome of an auction is true, and the first reason why it isn't. It knows neither the descent nor the sharing
//! by which outcomes are found.
#![tactic(auto)]

mod amounts;
mod bundles;
mod checking;
mod falls;
mod members;
mod pairs;
mod reason;
mod tables;

pub use checking::check;
pub use reason::{Reason, Verdict};

#[cfg(test)]
mod tests;
