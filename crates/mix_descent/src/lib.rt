//! The climb from a start to the least point of the Lyapunov function at or above it, by long steps; and the search for the least
//! point at or above the reserves from below a guess.
#![tactic(auto)]

mod descent;
mod falls;
mod long_step;
mod long_steps;
mod near;
mod trails;

pub use descent::descend;
pub use long_step::LongStep;
pub use long_steps::LongSteps;
pub use near::descend_near;
pub use trails::{Climb, trail};

#[cfg(test)]
mod tests;
