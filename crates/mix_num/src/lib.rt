//! What every crate of the product shares: prices, bundles and sets of choices.
#![tactic(auto)]

mod copies;
mod limits;
mod moves;
mod order;
mod pair;
mod set;
mod set_table;
mod sums;

use arrayvec::ArrayVec;
pub use copies::copy;
pub use limits::{MOST_BYTES, MOST_UNITS, MOST_VALUE, PRICE_BOUND};
pub use moves::{lower, raise};
pub use order::lex_cmp;
pub use pair::{Tight, pair_number};
pub use set::{Set, outside};
pub use set_table::SetTable;
use std::alloc::{AllocError, AllocFailed};
pub use sums::{dot, sum_over};

/// Memory was wanted and not there.
#[derive(Clone, Copy, Debug, PartialEq, Eq)]
pub struct Memory;

impl From<AllocError> for Memory {
    fn from(_: AllocError) -> Memory {
        Memory
    }
}

impl<T: Drop> From<AllocFailed<T>> for Memory {
    fn from(_: AllocFailed<T>) -> Memory {
        Memory
    }
}

/// A price for each good, in the order of the goods.
pub type Prices = ArrayVec<i64, 8>;

/// An amount of each good, in the order of the goods.
pub type Bundle = ArrayVec<i64, 8>;
