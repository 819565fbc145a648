// The command `compare`: whether each bidder's list has the first bidder's indirect utility at all whole prices.
ghost use Rattle.std.specs.Prelude.{◌≡◌, ◌<◌, ◌≤◌, ◌++◌, ◌∷◌, [], List, ℕ, codes, drop, length, IfOk, IfErr, OnOk};
ghost use Rattle.mix_text.specs.AuctionTexts.{auction_text};
ghost use Rattle.mix_text.specs.Bidders.{bidder_at, list_at};
ghost use Rattle.mix_text.specs.Pages.{line_of, printed};
ghost use Rattle.mix_text.specs.Reading.{IsFromText};
ghost use Rattle.mix_run.specs.command.Compare.{AreRowsOf, IsComparison, IsComparisonOf, IsRowOf};
ghost use Rattle.mix_run.specs.Readings.{auction_alone};

use crate::alone::read_alone;
use crate::rows::{add_differ, add_end, add_same};
use mix_canon::{Likeness, same};
use mix_num::Memory;
use mix_text::{Auction, Page, TextError};
use std::alloc::Global;

// Adds the row of the bidder at a place, from 0, that says how its list compares with the first one.
fn add_compared(alloc: Global, page: &mut Page, auction: &Auction, k: usize) -> Result<(), Memory>
    requires closed { page.old.fields ≡ [] }
    requires place { k < length auction.now.bidders }
    ensures { OnOk result ((row : List (List ℕ)) × IsRowOf (list_at auction.now.bidders 0) (bidder_at auction.now.bidders k) row × (page.new ≡ record { ended = page.old.ended ++ line_of row; fields = [] })) }
{
    let (_, first) = auction.bidder(0);
    let (_, own) = auction.bidder(k);
    match same(alloc, first, own)? {
        Likeness::Equal => add_same(page, auction, k),
        Likeness::Differ {
            prices,
            first,
            second,
        } => add_differ(page, auction, k, &prices, first, second),
    }
}

// Adds the rows of all bidders after the first, in order.
fn add_all_compared(alloc: Global, page: &mut Page, auction: &Auction) -> Result<(), Memory>
    requires { page.old.fields ≡ [] }
    ensures { OnOk result ((rows : List (List (List ℕ))) × AreRowsOf (list_at auction.now.bidders 0) (drop 1 auction.now.bidders) rows × (page.new ≡ record { ended = page.old.ended ++ printed rows; fields = [] })) }
{
    for k in 1..auction.count() {
        add_compared(alloc, page, auction, k)?;
    }
    Ok(())
}

// The rows of all bidders after the first, and the last row.
fn comparison_text(alloc: Global, auction: &Auction) -> Result<Vec<u8>, Memory>
    ensures { IfOk result (λ bytes. IsComparison (auction_text auction.now) (record { status = 0; bytes = bytes.items })) }
{
    let mut page = Page::new(alloc);
    add_all_compared(alloc, &mut page, auction)?;
    add_end(&mut page)?;
    page.finish()
}

/// Reads an auction that nothing follows, and prints for each bidder after the first whether its list has the first one's
/// indirect utility at all whole prices, and else the first of the prices tried at which they differ, with both utilities there.
///
/// The error is what is wrong first with the text, which has at most 16,777,216 bytes; `Memory` may come in place of any
/// answer.
pub fn print_comparison(alloc: Global, text: &[u8]) -> Result<Vec<u8>, TextError>
    requires { length text.now ≤ 16777216 }
    ensures done { IfOk result (λ bytes. IsComparisonOf text.now (record { status = 0; bytes = bytes.items })) }
    ensures wrong { IfErr result (λ e. IsFromText (auction_alone text.now) e) }
{
    let auction = read_alone(alloc, text)?;
    Ok(comparison_text(alloc, &auction)?)
}
