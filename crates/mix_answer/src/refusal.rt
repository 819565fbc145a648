// Why an auction is refused.
use mix_num::Prices;

/// A facet of negative weight in the list of a bidder, which so isn't convex and stands for no demand.
#[derive(Drop)]
pub struct Refusal {
    /// The place of the bidder, from 0.
    pub bidder: usize,
    /// The first of two choices: 0 for the null choice, else the number of a good, from 1.
    pub first: usize,
    /// The second choice, a good of a greater number.
    pub second: usize,
    /// A price for each good, from -2,000,000 to 2,000,000, at which the facet is met.
    pub prices: Prices,
    /// The facet weight of the two choices at these prices, from -4,000,000 to -1.
    pub weight: i64,
}
