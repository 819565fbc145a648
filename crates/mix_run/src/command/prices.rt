// The command `prices`: the least prices where every bidder is convex, else a refusal of the first who isn't.
ghost use Rattle.std.specs.Prelude.{◌≡◌, ◌<◌, ◌≤◌, length, IfOk, IfErr};
ghost use Rattle.mix_text.specs.AuctionTexts.{auction_text};
ghost use Rattle.mix_text.specs.Reading.{IsFromText};
ghost use Rattle.mix_run.specs.Replies.{output_of};
ghost use Rattle.mix_run.specs.command.Prices.{IsPricing, IsPricingOf, prices_page};
ghost use Rattle.mix_run.specs.Readings.{auction_alone};

use crate::alone::read_alone;
use crate::refusal::refused_bidder;
use crate::reply::Reply;
use crate::rows::{add_end, add_prices};
use mix_num::{Memory, Prices};
use mix_serve::{Admitted, admit};
use mix_solve::least_prices;
use mix_text::{Auction, Page, TextError};
use std::alloc::Global;

const PRICED: u8 = 0;

// The row of the prices, and the last row.
fn prices_text(alloc: Global, prices: &Prices) -> Result<Vec<u8>, Memory>
    ensures { IfOk result (λ bytes. bytes.items ≡ prices_page prices.now.items) }
{
    let mut page = Page::new(alloc);
    add_prices(&mut page, prices)?;
    add_end(&mut page)?;
    page.finish()
}

// The least prices of the auction where every bidder is convex, else a refusal.
fn priced(alloc: Global, auction: &Auction) -> Result<Reply, Memory>
    ensures output { IfOk result (λ reply. IsPricing (auction_text auction.now) (output_of reply)) }
    ensures status { IfOk result (λ reply. reply.status < 2) }
{
    match admit(alloc, auction)? {
        Admitted::Market(market) => {
            let prices = least_prices(&market);
            let bytes = prices_text(alloc, &prices)?;
            Ok(Reply {
                status: PRICED,
                bytes,
            })
        }
        Admitted::Refused(refusal) => refused_bidder(alloc, auction, refusal),
    }
}

/// Reads an auction that nothing follows, and prints with status 0 its least prices where every bidder is convex, else with
/// status 1 a refusal of the first bidder who isn't.
///
/// The error is what is wrong first with the text, which has at most 16,777,216 bytes; `Memory` may come in place of any
/// answer.
pub fn print_prices(alloc: Global, text: &[u8]) -> Result<Reply, TextError>
    requires { length text.now ≤ 16777216 }
    ensures done { IfOk result (λ reply. IsPricingOf text.now (output_of reply)) }
    ensures status { IfOk result (λ reply. reply.status < 2) }
    ensures wrong { IfErr result (λ e. IsFromText (auction_alone text.now) e) }
{
    let auction = read_alone(alloc, text)?;
    Ok(priced(alloc, &auction)?)
}
