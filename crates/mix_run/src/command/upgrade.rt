// The command `upgrade`: an auction of format 1 and its outcome, written in format 2.
ghost use Rattle.std.specs.Prelude.{◌≡◌, ◌≤◌, length, Ok, IfOk, IfErr, OnOk};
ghost use Rattle.mix_text.specs.AuctionTexts.{auction_text};
ghost use Rattle.mix_text.specs.Limits.{MeetsLimits};
ghost use Rattle.mix_text.specs.Reading.{IsFromText};
ghost use Rattle.mix_text.specs.Rows.{rows_of};
ghost use Rattle.mix_answer.specs.Shapes.{HasShape};
ghost use Rattle.mix_run.specs.Replies.{output_of};
ghost use Rattle.mix_run.specs.command.Upgrade.{IsUpgradingOf, first_head_in, first_head_of, upgradable, upgraded_text};

use crate::command::check::read_both;
use crate::reply::Reply;
use mix_answer::{Outcome, print_outcome};
use mix_num::Memory;
use mix_text::{Auction, Code, Fault, Row, TextError, row_begins, rows, upgrade};
use mix_trial::print_auction;
use std::alloc::Global;

const DONE: u8 = 0;

// Nothing where the row is the first of a text of format 1, else the fault that it has there.
fn read_first_head(row: &Row) -> Result<(), TextError>
    ensures { result ≡ first_head_of row.now }
{
    if row_begins(row, b"mix") && row.len() == 2 && row.field(1) == b"1".as_slice() {
        return Ok(());
    }
    Err(TextError::Fault(Fault {
        at: row.number(),
        code: Code::Header,
    }))
}

// The same of the first of the rows, if there is one.
fn read_first_row(rows: &[Row]) -> Result<(), TextError>
    ensures { result ≡ first_head_in rows.now }
{
    match rows {
        [first, ..] => read_first_head(first),
        [] => Ok(()),
    }
}

// Nothing where the first row of a text, if it has one, names format 1, else the fault that the row has there.
fn read_format(alloc: Global, text: &[u8]) -> Result<(), TextError>
    requires { length text.now ≤ 16777216 }
    ensures read { OnOk result (first_head_in (rows_of text.now) ≡ Ok tt) }
    ensures wrong { IfErr result (λ e. IsFromText (first_head_in (rows_of text.now)) e) }
{
    let list = rows(alloc, text)?;
    read_first_row(list.rows())
}

// Reads an auction of format 1 and the outcome after it.
#[tactic(auto, unfolding(crate::specs::command::Upgrade::upgradable))]
fn read_upgradable(alloc: Global, text: &[u8]) -> Result<(Auction, Outcome), TextError>
    requires { length text.now ≤ 16777216 }
    ensures read { IfOk result (λ both. upgradable text.now ≡ Ok (auction_text both.0, both.1)) }
    ensures format { IfOk result (λ both. both.0.format ≡ 1) }
    ensures limits { IfOk result (λ both. MeetsLimits (auction_text both.0)) }
    ensures shape { IfOk result (λ both. HasShape (auction_text both.0) both.1) }
    ensures wrong { IfErr result (λ e. IsFromText (upgradable text.now) e) }
{
    read_format(alloc, text)?;
    read_both(alloc, text)
}

// The text of the auction in format 2, and after it that of the outcome.
fn text_of(alloc: Global, auction: &Auction, outcome: &Outcome) -> Result<Vec<u8>, Memory>
    requires format { auction.now.format ≡ 1 }
    requires limits { MeetsLimits (auction_text auction.now) }
    requires shape { HasShape (auction_text auction.now) outcome.now }
    ensures { IfOk result (λ bytes. bytes.items ≡ upgraded_text (auction_text auction.now) outcome.now) }
{
    let upgraded = upgrade(alloc, auction)?;
    let mut text = print_auction(alloc, &upgraded)?;
    let after = print_outcome(alloc, &upgraded, outcome)?;
    text.extend_from_slice(&after)?;
    Ok(text)
}

/// Reads an auction of format 1 and the outcome after it, and prints with status 0 the auction in format 2, with its tie
/// order, and the outcome in version 2.
///
/// The error is what is wrong first with the text, which has at most 16,777,216 bytes; where the first row isn't `mix,1`, it
/// has the fault `Header`, whatever rows follow. `Memory` may come in place of any answer.
pub fn print_upgrade(alloc: Global, text: &[u8]) -> Result<Reply, TextError>
    requires { length text.now ≤ 16777216 }
    ensures done { IfOk result (λ reply. IsUpgradingOf text.now (output_of reply)) }
    ensures status { IfOk result (λ reply. reply.status ≡ 0) }
    ensures wrong { IfErr result (λ e. IsFromText (upgradable text.now) e) }
{
    let (auction, outcome) = read_upgradable(alloc, text)?;
    Ok(Reply {
        status: DONE,
        bytes: text_of(alloc, &auction, &outcome)?,
    })
}
