//! Bids, lists of bids, and their indirect utility.
#![tactic(auto)]

mod agreements;
mod all_sets;
mod best;
mod bid;
mod choices;
mod counts;
mod gain;
mod leads;
mod list;
mod reach;
mod scales;
mod sums;
#[cfg(test)]
mod tests;

pub use best::{Best, best_choices, best_set};
pub use bid::{Bid, Values};
pub use leads::{has_difference, lead, negative_lead, other};
pub use list::BidList;
pub use scales::utility_at_scales;
pub use sums::{weigh, weight_where};
