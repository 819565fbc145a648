//! What bundles cost at prices: each bidder pays price times quantity.
#![tactic(auto)]

mod payment;

pub use payment::{pay, receipts};

#[cfg(test)]
mod tests;
