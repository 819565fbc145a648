// Why a list of bids is refused.
ghost use Rattle.std.specs.Prelude.{◌≡◌};
ghost use Rattle.mix_validity.specs.declared.refused.Refused.TheVariants.{Memory as wanting};

use mix_num::{Memory, Prices};

/// A facet of negative weight: at these prices the weights of the bids whose best set is exactly the two choices add up
/// to less than 0. The choices are numbered as the goods, with 0 for the null choice.
#[derive(Drop)]
pub struct NotValid {
    /// The lesser choice.
    pub first: usize,
    /// The greater choice.
    pub second: usize,
    /// A price for each good, from -2,000,000 to 2,000,000.
    pub prices: Prices,
    /// The facet weight, from -4,000,000 to -1.
    pub weight: i64,
}

/// Why a list isn't taken as a valid one: it isn't convex, as a facet of negative weight shows, or memory was wanted and not
/// there.
#[derive(Drop)]
pub enum Refused {
    NotValid(NotValid),
    Memory,
}

impl From<Memory> for Refused {
    ghost from_gives = { λ _ refused. refused ≡ wanting };

    fn from(_: Memory) -> Refused {
        Refused::Memory
    }
}
