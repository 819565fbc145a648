// The text of an outcome.
ghost use Rattle.std.specs.Prelude.{◌≡◌, ◌++◌, [], IfOk, OnOk};
ghost use Rattle.mix_text.specs.AuctionTexts.{auction_text};
ghost use Rattle.mix_text.specs.Pages.{printed};
ghost use Rattle.mix_answer.specs.Shapes.{HasShape};
ghost use Rattle.mix_answer.specs.Outcomes.{inner_rows, outcome_text};

use crate::outcome::Outcome;
use crate::rows::{add_answer, add_head, add_refusal};
use mix_num::Memory;
use mix_text::{Auction, Page, add_end, add_order};
use std::alloc::Global;

// Adds the rows of the outcome itself.
#[tactic(auto, using(crate::proofs::PrintedPages::printed_alone))]
fn add_inner(page: &mut Page, auction: &Auction, outcome: &Outcome) -> Result<(), Memory>
    requires closed { page.old.fields ≡ [] }
    requires shape { HasShape (auction_text auction.now) outcome.now }
    ensures { OnOk result (page.new ≡ record { ended = page.old.ended ++ printed (inner_rows (auction_text auction.now) outcome.now); fields = [] }) }
{
    match outcome {
        Outcome::Refused(refusal) => add_refusal(page, auction, refusal),
        Outcome::Cleared(answer) => add_answer(page, auction, answer),
    }
}

/// The text of an outcome that has the shape of the auction: its rows, each with its fields joined by commas and ended
/// by a line feed.
pub fn print_outcome(alloc: Global, auction: &Auction, outcome: &Outcome) -> Result<Vec<u8>, Memory>
    requires { HasShape (auction_text auction.now) outcome.now }
    ensures { IfOk result (λ bytes. bytes.items ≡ outcome_text (auction_text auction.now) outcome.now) }
{
    let mut page = Page::new(alloc);
    add_head(&mut page, auction.format)?;
    add_order(&mut page, auction)?;
    add_inner(&mut page, auction, outcome)?;
    add_end(&mut page)?;
    page.finish()
}
