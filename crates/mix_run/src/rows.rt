// The rows that the program prints, one function for each kind.
ghost use Rattle.std.specs.Prelude.{◌≡◌, ◌<◌, ◌++◌, ◌∷◌, [], codes, decimal, length, IfOk, OnOk};
ghost use Rattle.mix_num.specs.Ranges.{HaveRoom, Lies};
ghost use Rattle.mix_num.specs.Vectors.{with_null};
ghost use Rattle.mix_text.specs.AuctionTexts.{auction_text};
ghost use Rattle.mix_text.specs.Bidders.{list_at, name_at};
ghost use Rattle.mix_text.specs.Caps.{cap_at};
ghost use Rattle.mix_text.specs.Pages.{line_of};
ghost use Rattle.mix_answer.specs.Utilities.{entrant_at, entrant_utility, total_under};
ghost use Rattle.mix_run.specs.command.Compare.{differ_row, same_row};
ghost use Rattle.mix_run.specs.Outputs.{fault_row, limit_row};
ghost use Rattle.mix_run.specs.command.Prices.{price_row};
ghost use Rattle.mix_run.specs.command.Range.{high_row, low_row, return_row, trade_row_at};
ghost use Rattle.mix_run.specs.command.Trail.{step_row};
ghost use Rattle.mix_run.specs.command.Trial.{revenue_row, sold_row};
ghost use Rattle.mix_run.specs.command.Utility.{utility_row};
ghost use Rattle.mix_run.specs.command.Validate.{valid_row};

use crate::words::{word_of_code, word_of_limit};
use itoa::Buffer;
use mix_answer::add_bidder;
use mix_cap::Capped;
use mix_descent::LongStep;
use mix_law::Convex;
use mix_num::{Bundle, Memory, Prices};
use mix_own::TradeList;
use mix_text::{Auction, Fault, Limit, Page};
use std::alloc::Global;

/// Adds a number that has no sign to the open row.
#[tactic(auto, using(mix_text::proofs::PrintedNumbers::decimal_printable))]
pub fn add_number(page: &mut Page, number: u64) -> Result<(), Memory>
    ensures { OnOk result (page.new ≡ record page.old { fields = page.old.fields ++ decimal number ∷ [] }) }
{
    let mut buffer = Buffer::new();
    page.text(buffer.format(number).as_bytes())
}

/// Adds the row of a fault.
#[tactic(auto, using(crate::proofs::PrintableWords::printable_code))]
pub fn add_fault(page: &mut Page, fault: Fault) -> Result<(), Memory>
    requires { page.old.fields ≡ [] }
    ensures { OnOk result (page.new ≡ record { ended = page.old.ended ++ line_of (fault_row fault); fields = [] }) }
{
    page.text(b"fault")?;
    add_number(page, fault.at)?;
    page.text(word_of_code(fault.code))?;
    page.end_row()
}

/// Adds the row of a limit.
#[tactic(auto, using(crate::proofs::PrintableWords::printable_what))]
pub fn add_limit(page: &mut Page, limit: Limit) -> Result<(), Memory>
    requires { page.old.fields ≡ [] }
    ensures { OnOk result (page.new ≡ record { ended = page.old.ended ++ line_of (limit_row limit); fields = [] }) }
{
    page.text(b"limit")?;
    add_number(page, limit.at)?;
    page.text(word_of_limit(limit.what))?;
    page.end_row()
}

// The indirect utility of the bidder at a place at the prices.
fn utility_of_bidder(
    alloc: Global,
    auction: &Auction,
    k: usize,
    prices: &Prices,
) -> Result<i64, Memory>
    requires place { k < length auction.now.bidders }
    requires prices { HaveRoom (length auction.now.goods) prices.now.items }
    ensures value { IfOk result (λ value. value ≡ entrant_utility (entrant_at (auction_text auction.now) k) (with_null prices.now.items)) }
    ensures range { IfOk result (λ value. Lies 40000000000000 value) }
{
    let (_, list) = auction.bidder(k);
    match auction.cap(k) {
        Some(cap) => Ok(Capped::new(list.copy(alloc)?, cap).value(prices)),
        None => Ok(list.utility(prices)),
    }
}

// How many units the bidder at a place bids for.
fn total_of_bidder(auction: &Auction, k: usize) -> i64
    requires { k < length auction.now.bidders }
    ensures value { result ≡ total_under (cap_at auction.now.caps k) (list_at auction.now.bidders k).bids }
    ensures range { Lies 4000000 result }
{
    let (_, list) = auction.bidder(k);
    let total = list.total();
    match auction.cap(k) {
        Some(cap) => total.min(cap),
        None => total,
    }
}

/// Adds the row of the indirect utility of the bidder at a place, from 0, at the prices.
pub fn add_utility(
    alloc: Global,
    page: &mut Page,
    auction: &Auction,
    k: usize,
    prices: &Prices,
) -> Result<(), Memory>
    requires closed { page.old.fields ≡ [] }
    requires place { k < length auction.now.bidders }
    requires prices { HaveRoom (length auction.now.goods) prices.now.items }
    ensures { OnOk result (page.new ≡ record { ended = page.old.ended ++ line_of (utility_row (auction_text auction.now) prices.now.items k); fields = [] }) }
{
    let value = utility_of_bidder(alloc, auction, k, prices)?;
    page.text(b"utility")?;
    add_bidder(page, auction, k)?;
    page.number(value)?;
    page.end_row()
}

/// Adds the row of the bidder at a place, from 0, who is convex: how many units it bids for.
pub fn add_valid(page: &mut Page, auction: &Auction, k: usize) -> Result<(), Memory>
    requires closed { page.old.fields ≡ [] }
    requires place { k < length auction.now.bidders }
    ensures { OnOk result (page.new ≡ record { ended = page.old.ended ++ line_of (valid_row (auction_text auction.now) k); fields = [] }) }
{
    let total = total_of_bidder(auction, k);
    page.text(b"valid")?;
    add_bidder(page, auction, k)?;
    page.number(total)?;
    page.end_row()
}

/// Adds the row of the bidder at a place, from 0, whose list has the first one's indirect utility.
pub fn add_same(page: &mut Page, auction: &Auction, k: usize) -> Result<(), Memory>
    requires closed { page.old.fields ≡ [] }
    requires place { k < length auction.now.bidders }
    ensures { OnOk result (page.new ≡ record { ended = page.old.ended ++ line_of (same_row (name_at auction.now.bidders k)); fields = [] }) }
{
    page.text(b"same")?;
    add_bidder(page, auction, k)?;
    page.end_row()
}

/// Adds the row of the bidder at a place, from 0, whose list differs from the first one at the prices: the prices, and the
/// utilities of the first list and of its own there.
pub fn add_differ(
    page: &mut Page,
    auction: &Auction,
    k: usize,
    prices: &Prices,
    first: i64,
    own: i64,
) -> Result<(), Memory>
    requires closed { page.old.fields ≡ [] }
    requires place { k < length auction.now.bidders }
    ensures { OnOk result (page.new ≡ record { ended = page.old.ended ++ line_of (differ_row (name_at auction.now.bidders k) prices.now.items first own); fields = [] }) }
{
    page.text(b"differ")?;
    add_bidder(page, auction, k)?;
    page.numbers(prices)?;
    page.number(first)?;
    page.number(own)?;
    page.end_row()
}

/// Adds the row of the prices.
pub fn add_prices(page: &mut Page, prices: &Prices) -> Result<(), Memory>
    requires { page.old.fields ≡ [] }
    ensures { OnOk result (page.new ≡ record { ended = page.old.ended ++ line_of (price_row prices.now.items); fields = [] }) }
{
    page.text(b"price")?;
    page.numbers(prices)?;
    page.end_row()
}

/// Adds the row of the units that are sold.
pub fn add_sold(page: &mut Page, units: &Bundle) -> Result<(), Memory>
    requires { page.old.fields ≡ [] }
    ensures { OnOk result (page.new ≡ record { ended = page.old.ended ++ line_of (sold_row units.now.items); fields = [] }) }
{
    page.text(b"sold")?;
    page.numbers(units)?;
    page.end_row()
}

/// Adds the row of what all bidders pay together.
pub fn add_revenue(page: &mut Page, sum: i64) -> Result<(), Memory>
    requires { page.old.fields ≡ [] }
    ensures { OnOk result (page.new ≡ record { ended = page.old.ended ++ line_of (revenue_row sum); fields = [] }) }
{
    page.text(b"revenue")?;
    page.number(sum)?;
    page.end_row()
}

/// Adds the row of a long step.
pub fn add_step(page: &mut Page, step: &LongStep) -> Result<(), Memory>
    requires { page.old.fields ≡ [] }
    ensures { OnOk result (page.new ≡ record { ended = page.old.ended ++ line_of (step_row step.now); fields = [] }) }
{
    page.text(b"step")?;
    page.number(i64::from(step.set.bits()))?;
    page.number(step.length)?;
    page.number(step.slope)?;
    page.end_row()
}

/// Adds the row of the low prices.
pub fn add_low(page: &mut Page, prices: &Prices) -> Result<(), Memory>
    requires { page.old.fields ≡ [] }
    ensures { OnOk result (page.new ≡ record { ended = page.old.ended ++ line_of (low_row prices.now.items); fields = [] }) }
{
    page.text(b"low")?;
    page.numbers(prices)?;
    page.end_row()
}

/// Adds the row of the high prices, or of none.
pub fn add_high(page: &mut Page, high: &Option<Prices>) -> Result<(), Memory>
    requires { page.old.fields ≡ [] }
    ensures { OnOk result (page.new ≡ record { ended = page.old.ended ++ line_of (high_row high.now); fields = [] }) }
{
    page.text(b"high")?;
    match high {
        Some(prices) => page.numbers(prices)?,
        None => page.text(b"none")?,
    }
    page.end_row()
}

/// Adds the row of the trade of the bidder at a place, from 0.
pub fn add_trade(
    page: &mut Page,
    auction: &Auction,
    k: usize,
    trades: &TradeList,
) -> Result<(), Memory>
    requires closed { page.old.fields ≡ [] }
    requires bidder { k < length auction.now.bidders }
    requires trade { k < length trades.now }
    ensures { OnOk result (page.new ≡ record { ended = page.old.ended ++ line_of (trade_row_at (auction_text auction.now) trades.now k); fields = [] }) }
{
    let trade = trades.get(k);
    page.text(b"trade")?;
    add_bidder(page, auction, k)?;
    page.numbers(&trade.net)?;
    page.number(trade.payment)?;
    page.end_row()
}

/// Adds the row of the units that are returned.
pub fn add_return(page: &mut Page, returns: &Bundle) -> Result<(), Memory>
    requires { page.old.fields ≡ [] }
    ensures { OnOk result (page.new ≡ record { ended = page.old.ended ++ line_of (return_row returns.now.items); fields = [] }) }
{
    page.text(b"return")?;
    page.numbers(returns)?;
    page.end_row()
}

/// Adds the last row.
pub fn add_end(page: &mut Page) -> Result<(), Memory>
    requires { page.old.fields ≡ [] }
    ensures { OnOk result (page.new ≡ record { ended = page.old.ended ++ line_of (codes "end" ∷ []); fields = [] }) }
{
    page.text(b"end")?;
    page.end_row()
}
