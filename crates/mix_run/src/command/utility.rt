// The command `utility`: each bidder's indirect utility at given prices.
ghost use Rattle.std.specs.Prelude.{◌≡◌, ◌≤◌, ◌++◌, [], length, map, Ok, IfOk, IfErr, OnOk};
ghost use Rattle.mix_num.specs.Orders.{places};
ghost use Rattle.mix_num.specs.Ranges.{HaveRoom};
ghost use Rattle.mix_text.specs.AuctionTexts.{auction_text};
ghost use Rattle.mix_text.specs.Pages.{printed};
ghost use Rattle.mix_text.specs.Reading.{IsFromText};
ghost use Rattle.mix_run.specs.command.Utility.{utility_page, utility_row, utility_text};

use crate::rows::{add_end, add_utility};
use mix_num::{Memory, Prices};
use mix_text::{Auction, Page, TextError, read_auction, read_price};
use std::alloc::Global;

// Adds the rows of all bidders in order.
fn add_utilities(
    alloc: Global,
    page: &mut Page,
    auction: &Auction,
    prices: &Prices,
) -> Result<(), Memory>
    requires closed { page.old.fields ≡ [] }
    requires prices { HaveRoom (length auction.now.goods) prices.now.items }
    ensures { OnOk result (page.new ≡ record {
      ended = page.old.ended ++ printed (map (utility_row (auction_text auction.now) prices.now.items) (places (length auction.now.bidders)));
      fields = [];
    }) }
{
    for k in 0..auction.count() {
        add_utility(alloc, page, auction, k, prices)?;
    }
    Ok(())
}

// The rows of all bidders, and the last row.
fn utilities(alloc: Global, auction: &Auction, prices: &Prices) -> Result<Vec<u8>, Memory>
    requires { HaveRoom (length auction.now.goods) prices.now.items }
    ensures { IfOk result (λ bytes. bytes.items ≡ utility_page (auction_text auction.now) prices.now.items) }
{
    let mut page = Page::new(alloc);
    add_utilities(alloc, &mut page, auction, prices)?;
    add_end(&mut page)?;
    page.finish()
}

/// Reads an auction and the one row of prices after it, and prints each bidder's indirect utility at these prices.
///
/// The error is what is wrong first with the text, which has at most 16,777,216 bytes; `Memory` may come in place of any
/// answer.
#[tactic(auto, unfolding(crate::specs::command::Utility::utility_text))]
pub fn print_utilities(alloc: Global, text: &[u8]) -> Result<Vec<u8>, TextError>
    requires { length text.now ≤ 16777216 }
    ensures read { IfOk result (λ bytes. utility_text text.now ≡ Ok bytes.items) }
    ensures wrong { IfErr result (λ e. IsFromText (utility_text text.now) e) }
{
    let (auction, rest) = read_auction(alloc, text)?;
    let prices = match read_price(&rest, auction.goods.len()) {
        Ok(prices) => prices,
        Err(fault) => return Err(TextError::Fault(fault)),
    };
    Ok(utilities(alloc, &auction, &prices)?)
}
