// The command `solve`: the outcome of an auction.
ghost use Rattle.std.specs.Prelude.{◌≡◌, ◌<◌, ◌≤◌, length, IfOk, IfErr};
ghost use Rattle.mix_text.specs.AuctionTexts.{auction_text};
ghost use Rattle.mix_text.specs.Reading.{IsFromText};
ghost use Rattle.mix_run.specs.Readings.{auction_alone};
ghost use Rattle.mix_run.specs.Replies.{output_of};
ghost use Rattle.mix_run.specs.command.Solve.{IsSolving, IsSolvingOf, outcome_status};

use crate::alone::read_alone;
use crate::reply::Reply;
use mix_answer::{Outcome, print_outcome};
use mix_num::Memory;
use mix_solve::solve;
use mix_text::{Auction, TextError};
use std::alloc::Global;

const CLEARED: u8 = 0;

const REFUSED: u8 = 1;

// The status of an outcome.
fn status_of(outcome: &Outcome) -> u8
    ensures { result ≡ outcome_status outcome.now }
{
    match outcome {
        Outcome::Cleared(_) => CLEARED,
        Outcome::Refused(_) => REFUSED,
    }
}

// The text of the outcome of an auction, and its status.
fn solved(alloc: Global, auction: &Auction) -> Result<Reply, Memory>
    ensures output { IfOk result (λ reply. IsSolving (auction_text auction.now) (output_of reply)) }
    ensures status { IfOk result (λ reply. reply.status < 2) }
{
    let outcome = solve(alloc, auction)?;
    Ok(Reply {
        status: status_of(&outcome),
        bytes: print_outcome(alloc, auction, &outcome)?,
    })
}

/// Reads an auction that nothing follows, and prints its outcome: with status 0 the least clearing prices, each bidder's
/// share, what is returned, and the tight pairs; with status 1 a refusal of the first bidder who isn't convex.
///
/// The error is what is wrong first with the text, which has at most 16,777,216 bytes; `Memory` may come in place of any
/// answer.
pub fn print_solution(alloc: Global, text: &[u8]) -> Result<Reply, TextError>
    requires { length text.now ≤ 16777216 }
    ensures done { IfOk result (λ reply. IsSolvingOf text.now (output_of reply)) }
    ensures status { IfOk result (λ reply. reply.status < 2) }
    ensures wrong { IfErr result (λ e. IsFromText (auction_alone text.now) e) }
{
    let auction = read_alone(alloc, text)?;
    Ok(solved(alloc, &auction)?)
}
