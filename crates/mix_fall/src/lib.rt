//! Prices that rise and then fall: from any start at or above a floor to the least point of the Lyapunov function above it.
#![tactic(auto)]

mod largest;
mod settling;

pub use largest::largest_fall;
pub use settling::settle;

#[cfg(test)]
mod tests;
