//! The trial auction of a number, and the text of an auction.
#![tactic(auto)]

mod bidders;
mod bids;
mod draws;
mod naming;
mod printing;
mod rows;
mod trial;

pub use printing::print_auction;
pub use trial::make;

#[cfg(test)]
mod tests;
