//! Validity of lists of bids, which is convexity over all rational prices, decided exactly; and valid lists as members of the
//! market.
#![tactic(auto)]

mod convexity;
mod refused;
#[cfg(test)]
mod tests;
mod valid_list;
mod validation;

pub use convexity::convex_where_none_negative;
pub use refused::{NotValid, Refused};
pub use valid_list::ValidList;
pub use validation::validate;
