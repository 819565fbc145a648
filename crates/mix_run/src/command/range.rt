// The command `range`: how low and how high the prices may be at which the supply and all that is owned clear, and what each
// bidder trades, where every bidder is convex, else a refusal of the first bidder who isn't.
ghost use Rattle.std.specs.Prelude.{◌≡◌, ◌↔◌, ◌<◌, ◌≤◌, ◌++◌, [], length, map, All, Ok, IfErr, IfOk, IfSome, IsNone, OnOk};
ghost use Rattle.mix_num.specs.Orders.{places};
ghost use Rattle.mix_num.specs.Ranges.{AreWithin};
ghost use Rattle.mix_num.specs.Sellers.{AreAmounts};
ghost use Rattle.mix_num.specs.Vectors.{with_null};
ghost use Rattle.mix_text.specs.AuctionTexts.{auction_text};
ghost use Rattle.mix_text.specs.Pages.{printed};
ghost use Rattle.mix_text.specs.Reading.{IsFromText};
ghost use Rattle.mix_seller.specs.Sellers.{reserve_of};
ghost use Rattle.mix_market.specs.Gaps.{IsAboveSomewhere};
ghost use Rattle.mix_market.specs.Lyapunov.{IsLeastPoint};
ghost use Rattle.mix_market.specs.Markets.{goods_of, lyapunov_of, seller_of};
ghost use Rattle.mix_range.specs.HighPoints.{IsGreatestAsLow};
ghost use Rattle.mix_own.specs.Owned.{AreOwned};
ghost use Rattle.mix_serve.specs.Admissions.{IsMarketOf};
ghost use Rattle.mix_run.specs.command.Range.{IsRange, IsRanged, IsRanging, IsRangingOf, as_text, range_text, ranged_text as text_of_ranged, trade_row_at};
ghost use Rattle.mix_run.specs.Replies.{output_of};

use crate::refusal::refused_bidder;
use crate::reply::Reply;
use crate::rows::{add_end, add_high, add_low, add_return, add_trade};
use mix_cap::Member;
use mix_market::Market;
use mix_num::{Bundle, Memory, Prices};
use mix_own::{Owned, RangeError, TradeList, gross, read_range, trades};
use mix_range::greatest;
use mix_serve::{Admitted, admit, serve};
use mix_solve::least_prices;
use mix_step::Steps;
use mix_text::{Auction, Page, TextError, read_auction};
use std::alloc::Global;
use std::marker::Brand;
use std::sync::ledger::{Blank, Ledger};

const RANGED: u8 = 0;

/// What the text of a range tells.
#[derive(Drop)]
pub struct Range {
    pub auction: Auction,
    /// What its bidders own.
    pub owned: Owned,
    /// A price for each good, from 0 to 1,000,000.
    pub ceiling: Prices,
}

/// What comes of a range.
#[derive(Drop)]
pub struct Ranged {
    /// The least clearing prices.
    pub low: Prices,
    /// The greatest clearing prices under the ceiling, if any are.
    pub high: Option<Prices>,
    /// The trade of each bidder, in order.
    pub trades: TradeList,
    /// How much of each good stays with the seller.
    pub returns: Bundle,
}

// Reads an auction, and after it what its bidders own and the ceiling.
#[tactic(auto, unfolding(crate::specs::command::Range::range_text))]
fn read_told(alloc: Global, text: &[u8]) -> Result<Range, TextError>
    requires { length text.now ≤ 16777216 }
    ensures read { IfOk result (λ range. range_text text.now ≡ Ok (as_text range)) }
    ensures lawful { IfOk result (λ range. IsRange (as_text range)) }
    ensures wrong { IfErr result (λ e. IsFromText (range_text text.now) e) }
{
    let (auction, rest) = read_auction(alloc, text)?;
    match read_range(alloc, &auction, &rest) {
        Ok((owned, ceiling)) => Ok(Range {
            auction,
            owned,
            ceiling,
        }),
        Err(RangeError::Fault(fault)) => Err(TextError::Fault(fault)),
        Err(RangeError::Memory) => Err(TextError::Memory),
    }
}

// The greatest of the prices at or below the ceiling at which the market's Lyapunov function is as small as at its least point.
fn highest(market: &Market<Member>, low: &Prices, ceiling: &Prices) -> Option<Prices>
    requires low { length low.now.items ≡ goods_of market.now }
    requires least { IsLeastPoint (goods_of market.now) (lyapunov_of market.now) (with_null (reserve_of (seller_of market.now))) (with_null low.now.items) }
    requires ceiling { AreWithin 1000000 (goods_of market.now) ceiling.now.items }
    ensures none { IsNone result ↔ IsAboveSomewhere (goods_of market.now) (with_null low.now.items) (with_null ceiling.now.items) }
    ensures greatest { IfSome result (λ high. IsGreatestAsLow (goods_of market.now) (lyapunov_of market.now) (with_null (reserve_of (seller_of market.now))) (with_null ceiling.now.items) (with_null low.now.items) (with_null high.items)) }
    ensures range { IfSome result (λ high. AreWithin 1000000 (goods_of market.now) high.items) }
{
    search::<Brand>(market, low, ceiling, Blank::new(1))
}

// The same, with a counter of steps on a ledger of its own.
fn search<L: Ledger>(
    market: &Market<Member>,
    low: &Prices,
    ceiling: &Prices,
    blank: Blank,
) -> Option<Prices>
    requires name { blank.name ≡ L.name }
    requires parts { blank.parts ≡ L.parts }
    requires some { 0 < blank.parts }
    requires low { length low.now.items ≡ goods_of market.now }
    requires least { IsLeastPoint (goods_of market.now) (lyapunov_of market.now) (with_null (reserve_of (seller_of market.now))) (with_null low.now.items) }
    requires ceiling { AreWithin 1000000 (goods_of market.now) ceiling.now.items }
    ensures none { IsNone result ↔ IsAboveSomewhere (goods_of market.now) (with_null low.now.items) (with_null ceiling.now.items) }
    ensures greatest { IfSome result (λ high. IsGreatestAsLow (goods_of market.now) (lyapunov_of market.now) (with_null (reserve_of (seller_of market.now))) (with_null ceiling.now.items) (with_null low.now.items) (with_null high.items)) }
    ensures range { IfSome result (λ high. AreWithin 1000000 (goods_of market.now) high.items) }
{
    let mut steps = Steps::<L>::new(blank);
    greatest(market, low, ceiling, &mut steps)
}

// What comes of the gross auction, of which this is the market, where its bidders own this.
fn ranged_in(
    alloc: Global,
    gross: &Auction,
    market: &Market<Member>,
    owned: &Owned,
    ceiling: &Prices,
) -> Result<Ranged, Memory>
    requires market { IsMarketOf (auction_text gross.now) market.now }
    requires count { length owned.now ≡ length gross.now.bidders }
    requires owned { All (AreAmounts (length gross.now.goods)) owned.now }
    requires ceiling { AreAmounts (length gross.now.goods) ceiling.now.items }
    ensures { IfOk result (IsRanged (auction_text gross.now) owned.now ceiling.now.items) }
{
    let low = least_prices(market);
    let answer = serve(alloc, gross, market, &low)?;
    let trades = trades(alloc, owned, &answer)?;
    Ok(Ranged {
        high: highest(market, &low, ceiling),
        low,
        trades,
        returns: answer.returns,
    })
}

// Adds the rows of all trades in order.
fn add_trades(page: &mut Page, auction: &Auction, trades: &TradeList) -> Result<(), Memory>
    requires closed { page.old.fields ≡ [] }
    requires count { length trades.now ≡ length auction.now.bidders }
    ensures { OnOk result (page.new ≡ record {
      ended = page.old.ended ++ printed (map (trade_row_at (auction_text auction.now) trades.now) (places (length auction.now.bidders)));
      fields = [];
    }) }
{
    for k in 0..auction.count() {
        add_trade(page, auction, k, trades)?;
    }
    Ok(())
}

// The rows of what comes of a range of the auction, and the last row.
fn ranged_text(alloc: Global, auction: &Auction, ranged: &Ranged) -> Result<Vec<u8>, Memory>
    requires { length ranged.now.trades ≡ length auction.now.bidders }
    ensures { IfOk result (λ bytes. bytes.items ≡ text_of_ranged (auction_text auction.now) ranged.now) }
{
    let mut page = Page::new(alloc);
    add_low(&mut page, &ranged.low)?;
    add_high(&mut page, &ranged.high)?;
    add_trades(&mut page, auction, &ranged.trades)?;
    add_return(&mut page, &ranged.returns)?;
    add_end(&mut page)?;
    page.finish()
}

// What comes of a range where every bidder is convex, else a refusal.
fn replied(alloc: Global, range: &Range) -> Result<Reply, Memory>
    requires { IsRange (as_text range.now) }
    ensures output { IfOk result (λ reply. IsRanging (as_text range.now) (output_of reply)) }
    ensures status { IfOk result (λ reply. reply.status < 2) }
{
    let gross = gross(alloc, &range.auction, &range.owned)?;
    match admit(alloc, &gross)? {
        Admitted::Market(market) => {
            let ranged = ranged_in(alloc, &gross, &market, &range.owned, &range.ceiling)?;
            Ok(Reply {
                status: RANGED,
                bytes: ranged_text(alloc, &range.auction, &ranged)?,
            })
        }
        Admitted::Refused(refusal) => refused_bidder(alloc, &range.auction, refusal),
    }
}

/// Reads an auction, what its bidders own, and a ceiling of each good, and prints with status 0 the least prices at which the
/// supply and all that is owned clear, the greatest ones under the ceiling, each bidder's trade, and what is returned, where
/// every bidder is convex; else with status 1 a refusal of the first bidder who isn't.
///
/// The error is what is wrong first with the text, which has at most 16,777,216 bytes; `Memory` may come in place of any
/// answer.
pub fn print_range(alloc: Global, text: &[u8]) -> Result<Reply, TextError>
    requires { length text.now ≤ 16777216 }
    ensures done { IfOk result (λ reply. IsRangingOf text.now (output_of reply)) }
    ensures status { IfOk result (λ reply. reply.status < 2) }
    ensures wrong { IfErr result (λ e. IsFromText (range_text text.now) e) }
{
    let range = read_told(alloc, text)?;
    Ok(replied(alloc, &range)?)
}
