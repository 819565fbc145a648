// The rows after an auction.
ghost use Rattle.std.specs.Prelude.{◌≡◌, ◌≤◌, ◌+◌, drop, length};
ghost use Rattle.mix_text.specs.Reading.{nothing_after};
ghost use Rattle.mix_text.specs.Rows.{RestText};

use crate::faults::{Code, Fault};
use crate::row::Row;
use crate::row_list::RowList;
use std::marker::Model;

/// The rows after the end of an auction, and the number that the next row would have.
#[derive(Drop)]
pub struct Rest {
    list: RowList,
    start: usize,
}

impl Model for Rest {
    ghost use Rattle.std.specs.Prelude.{◌≤◌, ◌+◌, drop, length};
    ghost use Rattle.mix_text.specs.Rows.{RestText};

    ghost Value = { RestText };

    ghost view = { λ r. record { rows = drop r.start r.list; next = length r.list + 1 } };

    ghost invariant = { λ r. r.start ≤ length r.list };
}

impl Rest {
    // What is left of a list after its first `start` rows.
    pub(crate) fn after(list: RowList, start: usize) -> Rest
        requires { start ≤ length list }
        ensures { result ≡ record { rows = drop start list; next = length list + 1 } }
    {
        Rest { list, start }
    }

    /// The rows.
    pub fn rows(&self) -> &[Row]
        ensures { result.now ≡ self.now.rows }
    {
        &self.list.rows()[self.start..]
    }

    /// The number that the next row would have.
    pub fn next_number(&self) -> u64
        ensures { result ≡ self.now.next }
    {
        self.list.next_number()
    }
}

/// Refuses rows after an auction: the fault is `After` at the number of the first row that is left.
pub fn no_rest(rest: &Rest) -> Result<(), Fault>
    ensures { result ≡ nothing_after rest.now.rows }
{
    match rest.rows() {
        [] => Ok(()),
        [row, ..] => Err(Fault {
            at: row.number(),
            code: Code::After,
        }),
    }
}
