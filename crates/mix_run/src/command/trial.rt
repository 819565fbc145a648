// The summary of the trial auction of a number.
ghost use Rattle.std.specs.Prelude.{◌≡◌, ◌≤◌, ◌-ℤ◌, ◌++◌, ◌∷◌, [], true, All, IfOk, OnOk, get_or, length, map, pos, ◌≤ℤ◌};
ghost use Rattle.std.specs.List.{range_with_len};
ghost use Rattle.mix_num.specs.Sums.{total};
ghost use Rattle.mix_num.specs.Sellers.{AreAmounts};
ghost use Rattle.mix_text.specs.AuctionTexts.{auction_text};
ghost use Rattle.mix_text.specs.Pages.{is_printable, line_of, printed};
ghost use Rattle.mix_answer.specs.Shapes.{HasAnswerShape};
ghost use Rattle.mix_run.specs.command.Trial.{IsTrialing, count_rows, result_rows, summary_rows, trial_row};

use crate::rows::{add_end, add_number, add_prices, add_revenue, add_sold};
use mix_answer::{Answer, Outcome, Shares};
use mix_num::{Bundle, Memory, Prices};
use mix_solve::solve;
use mix_text::{Auction, Page};
use mix_trial::make;
use std::alloc::Global;

/// The summary of the outcome of the trial auction of a number, which is cleared, since each of its lists is convex.
pub fn trial_text(alloc: Global, number: u64) -> Result<Vec<u8>, Memory>
    ensures { IfOk result (λ bytes. IsTrialing number (record { status = 0; bytes = bytes.items })) }
{
    let auction = make(alloc, number)?;
    match solve(alloc, &auction)? {
        Outcome::Cleared(answer) => summary(alloc, number, &auction, &answer),
        Outcome::Refused(_) => unreachable!(),
    }
}

// The rows of the summary.
fn summary(
    alloc: Global,
    number: u64,
    auction: &Auction,
    answer: &Answer,
) -> Result<Vec<u8>, Memory>
    requires { HasAnswerShape (auction_text auction.now) answer.now }
    ensures { IfOk result (λ bytes. bytes.items ≡ printed (summary_rows number (auction_text auction.now) answer.now)) }
{
    let sold = units_sold(&auction.supply, &answer.returns);
    let revenue = revenue_of(&answer.shares);
    let mut page = Page::new(alloc);
    add_counts(&mut page, number)?;
    add_result(&mut page, &answer.prices, &sold, revenue)?;
    page.finish()
}

// Adds the rows that say which trial auction it is, and how much every trial auction has of what.
#[tactic(auto, using(crate::proofs::PrintedRows::four_rows))]
fn add_counts(page: &mut Page, number: u64) -> Result<(), Memory>
    requires { page.old.fields ≡ [] }
    ensures { OnOk result (page.new ≡ record { ended = page.old.ended ++ printed (count_rows number); fields = [] }) }
{
    add_trial(page, number)?;
    add_count(page, b"bidders", b"40")?;
    add_count(page, b"bids", b"1280")?;
    add_count(page, b"negatives", b"160")?;
    Ok(())
}

// Adds the row of the number.
fn add_trial(page: &mut Page, number: u64) -> Result<(), Memory>
    requires { page.old.fields ≡ [] }
    ensures { OnOk result (page.new ≡ record { ended = page.old.ended ++ line_of (trial_row number); fields = [] }) }
{
    page.text(b"trial")?;
    add_number(page, number)?;
    page.end_row()
}

// Adds the row of a count.
fn add_count(page: &mut Page, word: &[u8], count: &[u8]) -> Result<(), Memory>
    requires closed { page.old.fields ≡ [] }
    requires word { is_printable word.now ≡ true }
    requires count { is_printable count.now ≡ true }
    ensures { OnOk result (page.new ≡ record { ended = page.old.ended ++ line_of (word.now ∷ count.now ∷ []); fields = [] }) }
{
    page.text(word)?;
    page.text(count)?;
    page.end_row()
}

// Adds the rows of the outcome: its prices, what is sold, what comes in, and the last row.
#[tactic(auto, using(crate::proofs::PrintedRows::four_rows))]
fn add_result(page: &mut Page, prices: &Prices, sold: &Bundle, revenue: i64) -> Result<(), Memory>
    requires { page.old.fields ≡ [] }
    ensures { OnOk result (page.new ≡ record { ended = page.old.ended ++ printed (result_rows prices.now.items sold.now.items revenue); fields = [] }) }
{
    add_prices(page, prices)?;
    add_sold(page, sold)?;
    add_revenue(page, revenue)?;
    add_end(page)?;
    Ok(())
}

// The units that are sold of each good: those for sale less those that are returned.
fn units_sold(supply: &Bundle, returns: &Bundle) -> Bundle
    requires supply { AreAmounts (length supply.now.items) supply.now.items }
    requires returns { AreAmounts (length supply.now.items) returns.now.items }
    ensures { result.items ≡ map (λ i. get_or supply.now.items i (pos 0) -ℤ get_or returns.now.items i (pos 0)) (range_with_len 0 (length supply.now.items)) }
{
    let mut sold = Bundle::new();
    for good in 0..supply.len() {
        sold.push(supply[good] - returns[good]);
    }
    sold
}

// The sum of all payments.
fn revenue_of(shares: &Shares) -> i64
    requires few { length shares.now ≤ 256 }
    requires shares { All (λ share. (pos 0 ≤ℤ share.payment) × (share.payment ≤ℤ pos 10000000000000)) shares.now }
    ensures { result ≡ total (map (λ share. share.payment) shares.now) }
{
    let mut sum = 0;
    for place in 0..shares.len() {
        sum += shares.get(place).payment;
    }
    sum
}
