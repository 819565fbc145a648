// Why a session doesn't change.
ghost use Rattle.std.specs.Prelude.{◌≡◌};
ghost use Rattle.mix_session.specs.declared.faults.AddError.TheVariants.{Memory as WantOfMemory};

use mix_num::Memory;
use mix_text::What;
use thiserror::Error;

/// Why a bid isn't added.
#[derive(Clone, Copy, PartialEq, Eq, Debug, Error)]
pub enum AddError {
    /// The weight is negative, and the bidder has a cap.
    #[error("a negative weight under a cap")]
    Weight,
    /// The bid passes a limit of the auction's format.
    #[error("too many {:?}", .0)]
    Limit(What),
    #[error("out of memory")]
    Memory,
}

impl From<Memory> for AddError {
    ghost from_gives = { λ _ e. e ≡ WantOfMemory };

    fn from(_: Memory) -> AddError {
        AddError::Memory
    }
}

/// No bidder has the name.
#[derive(Clone, Copy, PartialEq, Eq, Debug, Error)]
#[error("no such bidder")]
pub struct NoBidder;
