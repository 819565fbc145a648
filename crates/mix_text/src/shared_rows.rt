// Rows that the text of an auction and that of an outcome share.
ghost use Rattle.std.specs.Prelude.{◌≡◌, ◌++◌, [], true, OnOk};
ghost use Rattle.mix_text.specs.AuctionTexts.{auction_text};
ghost use Rattle.mix_text.specs.Bidders.{names_at};
ghost use Rattle.mix_text.specs.Pages.{is_printable, line_of, printed};
ghost use Rattle.mix_text.specs.SharedRows.{amounts_row, end_row, order_rows};

use crate::auction::Auction;
use crate::formats::has_order;
use crate::page::Page;
use mix_num::{Bundle, Memory};

/// Adds a row of a word and numbers.
pub fn add_amounts(page: &mut Page, word: &[u8], amounts: &Bundle) -> Result<(), Memory>
    requires closed { page.old.fields ≡ [] }
    requires word { is_printable word.now ≡ true }
    ensures { OnOk result (page.new ≡ record { ended = page.old.ended ++ line_of (amounts_row word.now amounts.now.items); fields = [] }) }
{
    page.text(word)?;
    page.numbers(amounts)?;
    page.end_row()
}

// Adds the names of the bidders in tie order to the open row.
#[tactic(auto, using(crate::proofs::AuctionNames::bidder_named, crate::proofs::AuctionNames::bidder_served))]
fn add_served(page: &mut Page, auction: &Auction) -> Result<(), Memory>
    ensures { OnOk result (page.new ≡ record page.old { fields = page.old.fields ++ names_at auction.now.bidders auction.now.order }) }
{
    for turn in 0..auction.order.count() {
        let (name, _) = auction.bidder(auction.order.place(turn));
        page.name(name)?;
    }
    Ok(())
}

/// Adds the row of the tie order, where the format states it.
pub fn add_order(page: &mut Page, auction: &Auction) -> Result<(), Memory>
    requires { page.old.fields ≡ [] }
    ensures { OnOk result (page.new ≡ record { ended = page.old.ended ++ printed (order_rows (auction_text auction.now)); fields = [] }) }
{
    if !has_order(auction.format) {
        return Ok(());
    }
    page.text(b"order")?;
    add_served(page, auction)?;
    page.end_row()
}

/// Adds the last row.
pub fn add_end(page: &mut Page) -> Result<(), Memory>
    requires { page.old.fields ≡ [] }
    ensures { OnOk result (page.new ≡ record { ended = page.old.ended ++ line_of end_row; fields = [] }) }
{
    page.text(b"end")?;
    page.end_row()
}
