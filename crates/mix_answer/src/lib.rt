//! The outcome of an auction, and its text.
#![tactic(auto)]

mod faults;
mod outcome;
mod printing;
mod reading;
mod refusal;
mod row_reading;
mod rows;
mod share;
pub mod theorems;
mod tights;

pub use faults::OutcomeError;
pub use outcome::{Answer, Outcome};
pub use printing::print_outcome;
pub use reading::read_outcome;
pub use refusal::Refusal;
pub use rows::{add_bidder, add_good};
pub use share::{Share, Shares};
pub use tights::Tights;

#[cfg(test)]
mod reading_tests;
#[cfg(test)]
mod tests;
