//! The least step: the smallest of the sets of goods along which the Lyapunov function falls most, and its slope there.
#![tactic(auto)]

mod least;
mod step;
mod steps;

pub use least::{least_among, least_step};
pub use step::Step;
pub use steps::Steps;

#[cfg(test)]
mod tests;
