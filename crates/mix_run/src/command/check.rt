// The command `check`: whether an outcome is true of its auction, and else the first reason why it isn't.
ghost use Rattle.std.specs.Prelude.{◌≡◌, ◌<◌, ◌≤◌, length, Ok, IfOk, IfErr};
ghost use Rattle.mix_text.specs.AuctionTexts.{auction_text};
ghost use Rattle.mix_text.specs.Limits.{MeetsLimits};
ghost use Rattle.mix_text.specs.Pages.{line_of};
ghost use Rattle.mix_text.specs.Reading.{IsFromText};
ghost use Rattle.mix_answer.specs.Shapes.{HasShape};
ghost use Rattle.mix_run.specs.command.Check.{IsChecking, IsCheckingOf, IsNamed, auction_and_outcome, reason_row, yes_row};
ghost use Rattle.mix_run.specs.Replies.{output_of};

use crate::reasons::add_reason;
use crate::reply::Reply;
use mix_answer::{Outcome, OutcomeError, read_outcome};
use mix_check::{Reason, Verdict, check};
use mix_num::Memory;
use mix_text::{Auction, Page, TextError, read_auction};
use std::alloc::Global;

const YES: u8 = 0;

const NO: u8 = 1;

// The row of a yes by itself.
fn yes_text(alloc: Global) -> Result<Vec<u8>, Memory>
    ensures { IfOk result (λ bytes. bytes.items ≡ line_of yes_row) }
{
    let mut page = Page::new(alloc);
    page.text(b"yes")?;
    page.end_row()?;
    page.finish()
}

// The row of a reason by itself.
fn no_text(alloc: Global, auction: &Auction, reason: &Reason) -> Result<Vec<u8>, Memory>
    requires { IsNamed (auction_text auction.now) reason.now }
    ensures { IfOk result (λ bytes. bytes.items ≡ line_of (reason_row (auction_text auction.now) reason.now)) }
{
    let mut page = Page::new(alloc);
    add_reason(&mut page, auction, reason)?;
    page.finish()
}

// Yes where the outcome is true, else the first reason.
fn checked(alloc: Global, auction: &Auction, outcome: &Outcome) -> Result<Reply, Memory>
    requires { HasShape (auction_text auction.now) outcome.now }
    ensures output { IfOk result (λ reply. IsChecking (auction_text auction.now) outcome.now (output_of reply)) }
    ensures status { IfOk result (λ reply. reply.status < 2) }
{
    match check(alloc, auction, outcome)? {
        Verdict::Yes => Ok(Reply {
            status: YES,
            bytes: yes_text(alloc)?,
        }),
        Verdict::No(reason) => Ok(Reply {
            status: NO,
            bytes: no_text(alloc, auction, &reason)?,
        }),
    }
}

/// Reads an auction and the outcome after it. The error is what is wrong first with the text; `Memory` may come in place of
/// any answer.
#[tactic(auto, unfolding(crate::specs::command::Check::auction_and_outcome))]
pub fn read_both(alloc: Global, text: &[u8]) -> Result<(Auction, Outcome), TextError>
    requires { length text.now ≤ 16777216 }
    ensures read { IfOk result (λ both. auction_and_outcome text.now ≡ Ok (auction_text both.0, both.1)) }
    ensures limits { IfOk result (λ both. MeetsLimits (auction_text both.0)) }
    ensures shape { IfOk result (λ both. HasShape (auction_text both.0) both.1) }
    ensures wrong { IfErr result (λ e. IsFromText (auction_and_outcome text.now) e) }
{
    let (auction, rest) = read_auction(alloc, text)?;
    match read_outcome(alloc, &auction, &rest) {
        Ok(outcome) => Ok((auction, outcome)),
        Err(OutcomeError::Fault(fault)) => Err(TextError::Fault(fault)),
        Err(OutcomeError::Memory) => Err(TextError::Memory),
    }
}

/// Reads an auction and the outcome after it, and prints with status 0 `yes` where the outcome is true, else with status 1
/// `no` and the first reason why it isn't.
///
/// The error is what is wrong first with the text, which has at most 16,777,216 bytes; `Memory` may come in place of any
/// answer.
pub fn print_check(alloc: Global, text: &[u8]) -> Result<Reply, TextError>
    requires { length text.now ≤ 16777216 }
    ensures done { IfOk result (λ reply. IsCheckingOf text.now (output_of reply)) }
    ensures status { IfOk result (λ reply. reply.status < 2) }
    ensures wrong { IfErr result (λ e. IsFromText (auction_and_outcome text.now) e) }
{
    let (auction, outcome) = read_both(alloc, text)?;
    Ok(checked(alloc, &auction, &outcome)?)
}
