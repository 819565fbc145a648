// Why a text is refused: a row that is wrong, or one that passes a limit.
ghost use Rattle.std.specs.Prelude.{◌≡◌};
ghost use Rattle.mix_text.specs.declared.faults.TextError.TheVariants.{Memory as WantOfMemory};

use mix_num::Memory;
use thiserror::Error;

/// What is wrong with a row.
#[derive(Clone, Copy, PartialEq, Eq, Debug)]
pub enum Code {
    /// The first row names no format.
    Header,
    /// The first field isn't a word that may stand here.
    Place,
    /// The number of fields is wrong.
    Fields,
    /// A field isn't the spelling of a name.
    Name,
    /// A name comes a second time where it may come once.
    Repeated,
    /// A field isn't the spelling of a number.
    Number,
    /// A number is outside its range.
    Range,
    /// A weight is 0, or a bidder that is given a cap has a bid of negative weight.
    Weight,
    /// A bid offers no good.
    Nothing,
    /// The rows end too early.
    End,
    /// A row comes after the last wanted one.
    After,
    /// A field has the right form and isn't one that is wanted here.
    Other,
}

/// What there is too much of.
#[derive(Clone, Copy, PartialEq, Eq, Debug)]
pub enum What {
    /// The bytes of the text.
    Bytes,
    /// The goods of the auction.
    Goods,
    /// The bidders of the auction.
    Bidders,
    /// The bids of one bidder.
    Bids,
    /// The bids of negative weight of one bidder.
    Negatives,
    /// The cells of one bidder's list.
    Cells,
    /// The outcomes that one session asks for.
    Clears,
}

/// A row that is wrong.
#[derive(Clone, Copy, PartialEq, Eq, Debug)]
pub struct Fault {
    /// The number of the row, from 1.
    pub at: u64,
    /// What is wrong with it.
    pub code: Code,
}

/// A row that passes a limit.
#[derive(Clone, Copy, PartialEq, Eq, Debug)]
pub struct Limit {
    /// The number of the row, from 1, or 0 for the text as a whole.
    pub at: u64,
    /// What there is too much of.
    pub what: What,
}

/// Why a text gives no auction.
#[derive(Clone, Copy, PartialEq, Eq, Debug, Error)]
pub enum TextError {
    #[error("row {}: {:?}", .0.at, .0.code)]
    Fault(Fault),
    #[error("row {}: too many {:?}", .0.at, .0.what)]
    Limit(Limit),
    #[error("out of memory")]
    Memory,
}

impl From<Memory> for TextError {
    ghost from_gives = { λ _ e. e ≡ WantOfMemory };

    fn from(_: Memory) -> TextError {
        TextError::Memory
    }
}
