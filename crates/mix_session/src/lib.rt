//! An auction that is run again and again while bids come and go: it keeps what was found of its bidders, and the last prices, from
//! which the next ones are found.
#![tactic(auto)]

mod changes;
mod clearing;
mod faults;
mod members;
mod playing;
mod row_playing;
mod session;
mod standing;

pub use faults::{AddError, NoBidder};
pub use playing::play;
pub use session::Session;

#[cfg(test)]
mod playing_tests;
#[cfg(test)]
mod tests;
