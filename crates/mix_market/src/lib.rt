//! The market: members and a seller, and the function of the prices whose least point clears it.
#![tactic(auto)]

mod floor;
mod market;
mod sums;
mod supply;

pub use floor::are_above;
pub use market::Market;
pub use mix_seller::Seller;

#[cfg(test)]
mod tests;
