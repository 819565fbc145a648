// The rows of an outcome's text, one function for each kind.
ghost use Rattle.std.specs.Prelude.{◌≡◌, ◌<◌, ◌≤◌, ◌+◌, ◌*◌, ◌++◌, ◌∷◌, [], length, drop, slice_index_or, OnOk};
ghost use Rattle.mix_text.specs.AuctionTexts.{auction_text};
ghost use Rattle.mix_text.specs.Bidders.{name_at};
ghost use Rattle.mix_text.specs.Pages.{line_of, printed};
ghost use Rattle.mix_answer.specs.Shapes.{FitsAuction, HasAnswerShape};
ghost use Rattle.mix_answer.specs.Outcomes.{answer_rows, bidders_goods, choice_text, cleared_row, head_row, refusal_row, share_row, share_rows, tight_row, tight_rows, with_each};

use crate::outcome::Answer;
use crate::refusal::Refusal;
use crate::row_reading::version;
use crate::share::{Share, Shares};
use crate::tights::Tights;
use mix_num::{Memory, Tight};
use mix_text::{Auction, Page, add_amounts};

/// Adds the name of the bidder at a place, from 0, to the open row.
#[tactic(auto, using(mix_text::proofs::AuctionNames::bidder_named))]
pub fn add_bidder(page: &mut Page, auction: &Auction, k: usize) -> Result<(), Memory>
    requires { k < length auction.now.bidders }
    ensures { OnOk result (page.new ≡ record page.old { fields = page.old.fields ++ name_at auction.now.bidders k ∷ [] }) }
{
    let (name, _) = auction.bidder(k);
    page.name(name)
}

/// Adds the name of the good at a place, from 0, to the open row.
#[tactic(auto, using(crate::proofs::AuctionNames::good_at_named))]
pub fn add_good(page: &mut Page, auction: &Auction, j: usize) -> Result<(), Memory>
    requires { j < length auction.now.goods }
    ensures { OnOk result (page.new ≡ record page.old { fields = page.old.fields ++ slice_index_or auction.now.goods j [] ∷ [] }) }
{
    page.name(auction.goods.get(j))
}

// Adds a choice to the open row: `-` for the null choice, else the name of the good.
#[tactic(auto, using(crate::proofs::AuctionNames::good_named, crate::proofs::AuctionNames::good_text))]
fn add_choice(page: &mut Page, auction: &Auction, choice: usize) -> Result<(), Memory>
    requires { choice ≤ length auction.now.goods }
    ensures { OnOk result (page.new ≡ record page.old { fields = page.old.fields ++ choice_text auction.now.goods choice ∷ [] }) }
{
    if choice == 0 {
        return page.text(b"-");
    }
    page.name(auction.goods.get(choice - 1))
}

/// Adds the first row.
pub fn add_head(page: &mut Page, format: u8) -> Result<(), Memory>
    requires { page.old.fields ≡ [] }
    ensures { OnOk result (page.new ≡ record { ended = page.old.ended ++ line_of (head_row format); fields = [] }) }
{
    page.text(b"outcome")?;
    page.number(version(format))?;
    page.end_row()
}

/// Adds the row of a refusal.
pub fn add_refusal(page: &mut Page, auction: &Auction, refusal: &Refusal) -> Result<(), Memory>
    requires closed { page.old.fields ≡ [] }
    requires shape { FitsAuction (auction_text auction.now) refusal.now }
    ensures { OnOk result (page.new ≡ record { ended = page.old.ended ++ line_of (refusal_row (auction_text auction.now) refusal.now); fields = [] }) }
{
    page.text(b"refused")?;
    add_bidder(page, auction, refusal.bidder)?;
    add_choice(page, auction, refusal.first)?;
    add_choice(page, auction, refusal.second)?;
    page.numbers(&refusal.prices)?;
    page.number(refusal.weight)?;
    page.end_row()
}

// Adds the row before those of an answer.
fn add_cleared(page: &mut Page) -> Result<(), Memory>
    requires { page.old.fields ≡ [] }
    ensures { OnOk result (page.new ≡ record { ended = page.old.ended ++ line_of cleared_row; fields = [] }) }
{
    page.text(b"cleared")?;
    page.end_row()
}

// Adds the row of the share of the bidder at a place, from 0.
fn add_share(page: &mut Page, auction: &Auction, k: usize, share: &Share) -> Result<(), Memory>
    requires closed { page.old.fields ≡ [] }
    requires bidder { k < length auction.now.bidders }
    ensures { OnOk result (page.new ≡ record { ended = page.old.ended ++ line_of (share_row (name_at auction.now.bidders k) share.now); fields = [] }) }
{
    page.text(b"share")?;
    add_bidder(page, auction, k)?;
    page.numbers(&share.bundle)?;
    page.number(share.payment)?;
    page.end_row()
}

// Adds a row for the share of each bidder.
#[tactic(auto, using(crate::proofs::PrintedAnswers::shares_end, crate::proofs::PrintedAnswers::shares_more))]
fn add_shares(page: &mut Page, auction: &Auction, shares: &Shares) -> Result<(), Memory>
    requires closed { page.old.fields ≡ [] }
    requires count { length shares.now ≡ length auction.now.bidders }
    ensures { OnOk result (page.new ≡ record { ended = page.old.ended ++ printed (share_rows auction.now.bidders shares.now); fields = [] }) }
{
    for k in 0..shares.len() {
        add_share(page, auction, k, shares.get(k))?;
    }
    Ok(())
}

// Adds the row of the pair of a bidder and a good at their places, from 0.
fn add_tight(
    page: &mut Page,
    auction: &Auction,
    k: usize,
    j: usize,
    tight: Tight,
) -> Result<(), Memory>
    requires closed { page.old.fields ≡ [] }
    requires bidder { k < length auction.now.bidders }
    requires good { j < length auction.now.goods }
    ensures { OnOk result (page.new ≡ record { ended = page.old.ended ++ line_of (tight_row (record { bidder = name_at auction.now.bidders k; good = slice_index_or auction.now.goods j [] }) tight); fields = [] }) }
{
    page.text(b"tight")?;
    add_bidder(page, auction, k)?;
    add_good(page, auction, j)?;
    page.number(i64::from(tight.upper.bits()))?;
    page.number(i64::from(tight.lower.bits()))?;
    page.end_row()
}

// Adds a row for the pair of the bidder at a place, from 0, and each good.
#[tactic(auto, using(crate::proofs::PrintedAnswers::bidder_end, crate::proofs::PrintedAnswers::bidder_more))]
fn add_bidder_tights(
    page: &mut Page,
    auction: &Auction,
    k: usize,
    tights: &Tights,
) -> Result<(), Memory>
    requires closed { page.old.fields ≡ [] }
    requires bidder { k < length auction.now.bidders }
    requires pairs { k * length auction.now.goods + length auction.now.goods ≤ length tights.now }
    ensures { OnOk result (page.new ≡ record { ended = page.old.ended ++ printed (tight_rows (with_each auction.now.goods (name_at auction.now.bidders k)) (drop (k * length auction.now.goods) tights.now)); fields = [] }) }
{
    let first = k * auction.goods.len();
    for j in 0..auction.goods.len() {
        add_tight(page, auction, k, j, tights.get(first + j))?;
    }
    Ok(())
}

// Adds a row for the pair of each bidder and each good.
#[tactic(auto, using(crate::proofs::PrintedAnswers::tights_end, crate::proofs::PrintedAnswers::tights_more))]
fn add_tights(page: &mut Page, auction: &Auction, tights: &Tights) -> Result<(), Memory>
    requires closed { page.old.fields ≡ [] }
    requires pairs { length tights.now ≡ length auction.now.bidders * length auction.now.goods }
    ensures { OnOk result (page.new ≡ record { ended = page.old.ended ++ printed (tight_rows (bidders_goods auction.now.goods auction.now.bidders) tights.now); fields = [] }) }
{
    for k in 0..auction.count() {
        add_bidder_tights(page, auction, k, tights)?;
    }
    Ok(())
}

/// Adds the rows of an answer.
pub fn add_answer(page: &mut Page, auction: &Auction, answer: &Answer) -> Result<(), Memory>
    requires closed { page.old.fields ≡ [] }
    requires shape { HasAnswerShape (auction_text auction.now) answer.now }
    ensures { OnOk result (page.new ≡ record { ended = page.old.ended ++ printed (answer_rows (auction_text auction.now) answer.now); fields = [] }) }
{
    add_cleared(page)?;
    add_amounts(page, b"price", &answer.prices)?;
    add_shares(page, auction, &answer.shares)?;
    add_amounts(page, b"return", &answer.returns)?;
    add_tights(page, auction, &answer.tights)
}
