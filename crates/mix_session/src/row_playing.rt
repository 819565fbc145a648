// What one row of a session does to it, or what is wrong with it.
ghost use Rattle.std.specs.Prelude.{◌≡◌, ◌<◌, Ok, Err, codes, true, IfErr, OnOk};
ghost use Rattle.mix_text.specs.Reading.{IsFromText, begins};
ghost use Rattle.mix_session.specs.Readings.{added_in, clear_in, clear_of, close_in, close_of, drop_of, goes_on as goes_on_of, none_after};

use crate::faults::{AddError, NoBidder};
use crate::session::Session;
use mix_text::{Code, Fault, Limit, Row, TextError, What, read_bid, read_name, row_begins, unless};

/// How many outcomes one session may ask for.
const MOST_CLEARS: usize = 64;

/// The fault of the row with this number.
pub(crate) fn fault(number: u64, code: Code) -> TextError
    ensures { result ≡ TextError.Fault (record { at = number; code = code }) }
{
    TextError::Fault(Fault { at: number, code })
}

// The limit that the row with this number passes.
fn limit(number: u64, what: What) -> TextError
    ensures { result ≡ TextError.Limit (record { at = number; what = what }) }
{
    TextError::Limit(Limit { at: number, what })
}

/// Whether a row adds, drops or asks for an outcome, so that others may come after it.
pub(crate) fn goes_on(row: &Row) -> bool
    ensures { result ≡ goes_on_of row.now.fields }
{
    row_begins(row, b"add") || row_begins(row, b"drop") || row_begins(row, b"clear")
}

/// Adds the bid of a row whose word is known. Where the row is wrong, the session stays as it was.
pub(crate) fn add_row(session: &mut Session, row: &Row) -> Result<(), TextError>
    requires { begins row.now.fields (codes "add") ≡ true }
    ensures read { OnOk result (added_in session.old.auction row.now ≡ Ok session.new.auction) }
    ensures wrong { IfErr result (IsFromText (added_in session.old.auction row.now)) }
{
    let (name, bid) = match read_bid(row, session.auction().goods.len()) {
        Ok(named) => named,
        Err(code) => return Err(fault(row.number(), code)),
    };
    match session.add(&name, bid) {
        Ok(()) => Ok(()),
        Err(AddError::Weight) => Err(fault(row.number(), Code::Weight)),
        Err(AddError::Limit(what)) => Err(limit(row.number(), what)),
        Err(AddError::Memory) => Err(TextError::Memory),
    }
}

/// Drops the bidder of a row whose word is known. Where the row is wrong, the session stays as it was.
#[tactic(auto, unfolding(crate::specs::Readings::drop_of))]
pub(crate) fn drop_row(session: &mut Session, row: &Row) -> Result<(), Code>
    ensures read { OnOk result (drop_of session.old.auction row.now.fields ≡ Ok session.new.auction) }
    ensures wrong { IfErr result (λ code. drop_of session.old.auction row.now.fields ≡ Err code) }
{
    unless(row.len() == 2, Code::Fields)?;
    let name = read_name(row.field(1))?;
    match session.drop_bidder(&name) {
        Ok(()) => Ok(()),
        Err(NoBidder) => Err(Code::Other),
    }
}

/// Tests a row that asks for an outcome, whose word is known, after so many that did before.
#[tactic(auto, unfolding(crate::specs::Readings::clear_in))]
pub(crate) fn test_clear(row: &Row, before: usize) -> Result<(), TextError>
    ensures read { result ≡ clear_in before row.now }
    ensures few { OnOk result (before < 64) }
{
    if row.len() != 1 {
        return Err(fault(row.number(), Code::Fields));
    }
    if before >= MOST_CLEARS {
        return Err(limit(row.number(), What::Clears));
    }
    Ok(())
}

// Tests that a row is `close` alone.
#[tactic(auto, unfolding(crate::specs::Readings::close_of))]
fn close(row: &Row) -> Result<(), Code>
    ensures { result ≡ close_of row.now.fields }
{
    unless(row_begins(row, b"close"), Code::Place)?;
    unless(row.len() == 1, Code::Fields)
}

// Refuses rows where none is wanted.
fn no_rows(rows: &[Row]) -> Result<(), TextError>
    ensures { result ≡ none_after rows.now }
{
    match rows {
        [] => Ok(()),
        [row, ..] => Err(fault(row.number(), Code::After)),
    }
}

/// Tests the last row, after which none may come.
#[tactic(auto, unfolding(crate::specs::Readings::close_in))]
pub(crate) fn close_row(row: &Row, after: &[Row]) -> Result<(), TextError>
    ensures { result ≡ close_in row.now after.now }
{
    match close(row) {
        Ok(()) => no_rows(after),
        Err(code) => Err(fault(row.number(), code)),
    }
}
