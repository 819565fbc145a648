// Whether two lists have the same indirect utility.
use mix_num::Prices;

/// Two lists have the same indirect utility at all whole prices, or differ at these prices, where their utilities are the two numbers.
#[derive(Drop)]
pub enum Likeness {
    Equal,
    Differ {
        /// Prices from -2 to 1,000,001.
        prices: Prices,
        /// The first list's utility there; its size is at most 2 * 10^13.
        first: i64,
        /// The second list's utility there, another number.
        second: i64,
    },
}
