//! A guess of the least prices of an auction, from a few looks at all bids. How good it is, no contract says: who looks for the least
//! prices from a guess finds them whatever it is, but sooner from a good one.
#![tactic(auto)]

mod best;
mod directions;
mod guess;
mod likings;
mod look;
mod set_sums;

pub use guess::guess_prices;

#[cfg(test)]
mod tests;
