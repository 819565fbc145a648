// What an auction comes to.
use crate::refusal::Refusal;
use crate::share::Shares;
use crate::tights::Tights;
use mix_num::{Bundle, Prices};

/// Prices at which the market clears, and what each gets there.
#[derive(Drop)]
pub struct Answer {
    /// A price for each good, from 0 to 1,000,000.
    pub prices: Prices,
    /// The share of each bidder, in order of first appearance.
    pub shares: Shares,
    /// How much of each good stays with the seller, from 0 to 1,000,000.
    pub returns: Bundle,
    /// A pair of sets for each bidder and each good, bidder by bidder: it shows that the bidder can't get more of the good.
    pub tights: Tights,
}

/// The outcome of an auction.
#[derive(Drop)]
pub enum Outcome {
    /// A bidder's list isn't convex.
    Refused(Refusal),
    /// Each bidder's list is convex, and the market clears.
    Cleared(Answer),
}
