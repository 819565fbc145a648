// The text of an auction.
ghost use Rattle.std.specs.Prelude.{◌≡◌, ◌+◌, [], Ok, length, IfOk};
ghost use Rattle.mix_text.specs.AuctionTexts.{auction_text};
ghost use Rattle.mix_text.specs.Limits.{MeetsLimits};
ghost use Rattle.mix_text.specs.Pages.{printed};
ghost use Rattle.mix_text.specs.Reading.{reading_of};
ghost use Rattle.mix_text.specs.Rows.{rows_of};
ghost use Rattle.mix_trial.specs.Printing.{auction_rows};

use crate::rows::{add_bidders, add_caps, add_goods, add_head};
use mix_num::Memory;
use mix_text::{Auction, Page, add_amounts, add_end, add_order};
use std::alloc::Global;

/// The text of an auction that keeps to the limits of its format, the bids of each bidder together: its rows, each with
/// its fields joined by commas and ended by a line feed. From format 2 on the tie order is stated, and from
/// format 3 on the cap of each bidder that has one, before it.
///
/// Reading the text gives the same auction, and no row after it.
pub fn print_auction(alloc: Global, auction: &Auction) -> Result<Vec<u8>, Memory>
    requires { MeetsLimits (auction_text auction.now) }
    ensures text { IfOk result (λ bytes. bytes.items ≡ printed (auction_rows (auction_text auction.now))) }
    ensures read { IfOk result (λ bytes. reading_of (rows_of bytes.items) ≡ Ok (auction_text auction.now, record { rows = []; next = length (auction_rows (auction_text auction.now)) + 1 })) }
{
    let mut page = Page::new(alloc);
    add_head(&mut page, auction.format)?;
    add_goods(&mut page, &auction.goods)?;
    add_amounts(&mut page, b"supply", &auction.supply)?;
    add_amounts(&mut page, b"reserve", &auction.reserve)?;
    add_bidders(&mut page, auction)?;
    add_caps(&mut page, auction)?;
    add_order(&mut page, auction)?;
    add_end(&mut page)?;
    page.finish()
}
