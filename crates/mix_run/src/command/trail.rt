// The command `trail`: the long steps from the reserves to the least prices, where every bidder is convex, else a refusal of the
// first bidder who isn't.
ghost use Rattle.std.specs.Prelude.{◌≡◌, ◌<◌, ◌≤◌, ◌++◌, [], length, map, IfOk, IfErr, OnOk};
ghost use Rattle.mix_text.specs.AuctionTexts.{auction_text};
ghost use Rattle.mix_text.specs.Pages.{printed};
ghost use Rattle.mix_text.specs.Reading.{IsFromText};
ghost use Rattle.mix_run.specs.Readings.{auction_alone};
ghost use Rattle.mix_run.specs.Replies.{output_of};
ghost use Rattle.mix_run.specs.command.Trail.{IsTrailing, IsTrailingOf, step_row, trail_page};

use crate::alone::read_alone;
use crate::refusal::refused_bidder;
use crate::reply::Reply;
use crate::rows::{add_end, add_prices, add_step};
use mix_descent::{Climb, LongSteps, trail};
use mix_num::Memory;
use mix_serve::{Admitted, admit};
use mix_text::{Auction, Page, TextError};
use std::alloc::Global;

const CLIMBED: u8 = 0;

// Adds the rows of all long steps in order.
fn add_steps(page: &mut Page, steps: &LongSteps) -> Result<(), Memory>
    requires { page.old.fields ≡ [] }
    ensures { OnOk result (page.new ≡ record { ended = page.old.ended ++ printed (map step_row steps.now); fields = [] }) }
{
    for k in 0..steps.len() {
        add_step(page, steps.get(k))?;
    }
    Ok(())
}

// The rows of the long steps, the row of the prices at their end, and the last row.
fn trail_text(alloc: Global, climb: &Climb) -> Result<Vec<u8>, Memory>
    ensures { IfOk result (λ bytes. bytes.items ≡ trail_page climb.now.steps climb.now.prices.items) }
{
    let mut page = Page::new(alloc);
    add_steps(&mut page, &climb.steps)?;
    add_prices(&mut page, &climb.prices)?;
    add_end(&mut page)?;
    page.finish()
}

// The trail of the auction where every bidder is convex, else a refusal.
fn trailed(alloc: Global, auction: &Auction) -> Result<Reply, Memory>
    ensures output { IfOk result (λ reply. IsTrailing (auction_text auction.now) (output_of reply)) }
    ensures status { IfOk result (λ reply. reply.status < 2) }
{
    match admit(alloc, auction)? {
        Admitted::Market(market) => {
            let climb = trail(alloc, &market)?;
            let bytes = trail_text(alloc, &climb)?;
            Ok(Reply {
                status: CLIMBED,
                bytes,
            })
        }
        Admitted::Refused(refusal) => refused_bidder(alloc, auction, refusal),
    }
}

/// Reads an auction that nothing follows, and prints with status 0 the long steps from its reserves and the prices at their
/// end where every bidder is convex, else with status 1 a refusal of the first bidder who isn't.
///
/// The error is what is wrong first with the text, which has at most 16,777,216 bytes; `Memory` may come in place of any
/// answer.
pub fn print_trail(alloc: Global, text: &[u8]) -> Result<Reply, TextError>
    requires { length text.now ≤ 16777216 }
    ensures done { IfOk result (λ reply. IsTrailingOf text.now (output_of reply)) }
    ensures status { IfOk result (λ reply. reply.status < 2) }
    ensures wrong { IfErr result (λ e. IsFromText (auction_alone text.now) e) }
{
    let auction = read_alone(alloc, text)?;
    Ok(trailed(alloc, &auction)?)
}
