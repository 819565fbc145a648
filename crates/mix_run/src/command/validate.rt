// The command `validate`: how many units each bidder bids for where all are convex, else a refusal of the first who isn't.
ghost use Rattle.std.specs.Prelude.{◌≡◌, ◌<◌, ◌≤◌, ◌++◌, [], length, map, IfOk, IfErr, OnOk};
ghost use Rattle.mix_num.specs.Orders.{places};
ghost use Rattle.mix_text.specs.AuctionTexts.{auction_text};
ghost use Rattle.mix_text.specs.Pages.{printed};
ghost use Rattle.mix_text.specs.Reading.{IsFromText};
ghost use Rattle.mix_run.specs.Replies.{output_of};
ghost use Rattle.mix_run.specs.Readings.{auction_alone};
ghost use Rattle.mix_run.specs.command.Validate.{IsValidity, IsValidityOf, valid_page, valid_row};

use crate::alone::read_alone;
use crate::refusal::refused_bidder;
use crate::reply::Reply;
use crate::rows::{add_end, add_valid};
use mix_num::Memory;
use mix_serve::{Admitted, admit};
use mix_text::{Auction, Page, TextError};
use std::alloc::Global;

const VALID: u8 = 0;

// Adds the rows of all bidders in order.
fn add_all_valid(page: &mut Page, auction: &Auction) -> Result<(), Memory>
    requires { page.old.fields ≡ [] }
    ensures { OnOk result (page.new ≡ record { ended = page.old.ended ++ printed (map (valid_row (auction_text auction.now)) (places (length auction.now.bidders))); fields = [] }) }
{
    for k in 0..auction.count() {
        add_valid(page, auction, k)?;
    }
    Ok(())
}

// The rows of all bidders, and the last row.
fn valid_text(alloc: Global, auction: &Auction) -> Result<Vec<u8>, Memory>
    ensures { IfOk result (λ bytes. bytes.items ≡ valid_page (auction_text auction.now)) }
{
    let mut page = Page::new(alloc);
    add_all_valid(&mut page, auction)?;
    add_end(&mut page)?;
    page.finish()
}

// The totals of the bidders where all are convex, else a refusal.
fn validity(alloc: Global, auction: &Auction) -> Result<Reply, Memory>
    ensures output { IfOk result (λ reply. IsValidity (auction_text auction.now) (output_of reply)) }
    ensures status { IfOk result (λ reply. reply.status < 2) }
{
    match admit(alloc, auction)? {
        Admitted::Market(_market) => Ok(Reply {
            status: VALID,
            bytes: valid_text(alloc, auction)?,
        }),
        Admitted::Refused(refusal) => refused_bidder(alloc, auction, refusal),
    }
}

/// Reads an auction that nothing follows, and prints with status 0 how many units each bidder bids for where all are convex,
/// else with status 1 a refusal of the first who isn't. A cap counts where it is less than the list's total.
///
/// The error is what is wrong first with the text, which has at most 16,777,216 bytes; `Memory` may come in place of any
/// answer.
pub fn print_validity(alloc: Global, text: &[u8]) -> Result<Reply, TextError>
    requires { length text.now ≤ 16777216 }
    ensures done { IfOk result (λ reply. IsValidityOf text.now (output_of reply)) }
    ensures status { IfOk result (λ reply. reply.status < 2) }
    ensures wrong { IfErr result (λ e. IsFromText (auction_alone text.now) e) }
{
    let auction = read_alone(alloc, text)?;
    Ok(validity(alloc, &auction)?)
}
