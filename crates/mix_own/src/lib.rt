//! Bidders who own units: what they own is offered beside the supply, and each trades the difference between what it
//! gets and what it owns.
#![tactic(auto)]

mod offering;
mod own_reading;
mod owned;
mod reading;
pub mod theorems;
mod trade;
mod trading;

pub use offering::gross;
pub use owned::Owned;
pub use reading::{RangeError, read_range};
pub use trade::{Trade, TradeList};
pub use trading::trades;

#[cfg(test)]
mod reading_tests;
#[cfg(test)]
mod tests;
