//! The greatest prices under a ceiling at which the Lyapunov function is as small as at its least point.
#![tactic(auto)]

mod largest;
mod range;

pub use largest::largest_rise;
pub use range::greatest;

#[cfg(test)]
mod tests;
