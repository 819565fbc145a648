//! An auction's bidders taken in as a market, or refused; and, once the least prices of the market are found, what each
//! bidder gets and pays at them. How they are found is no part of it.
#![tactic(auto)]

mod admission;
mod charging;
mod filling;
mod places;
mod serving;
mod sharing;

pub use admission::{Admitted, Stopped, admit, admit_bidder};
pub use serving::serve;

#[cfg(test)]
mod tests;
