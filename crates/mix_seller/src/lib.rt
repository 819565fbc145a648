//! The seller, who counts as a member of the market: each unit is worth its reserve.
#![tactic(auto)]

mod seller;
pub mod theorems;
mod units;

pub use seller::Seller;

#[cfg(test)]
mod tests;
