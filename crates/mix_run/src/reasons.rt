// The row of a reason why an outcome isn't true, one function for each kind.
ghost use Rattle.std.specs.Prelude.{◌≡◌, ◌<◌, ◌++◌, ◌∷◌, [], codes, length, pos, true, OnOk};
ghost use Rattle.mix_text.specs.AuctionTexts.{auction_text};
ghost use Rattle.mix_text.specs.Bidders.{name_at};
ghost use Rattle.mix_text.specs.Pages.{is_printable, line_of};
ghost use Rattle.mix_run.specs.command.Check.{IsNamed, good_at, reason_row};

use mix_answer::{add_bidder, add_good};
use mix_check::Reason;
use mix_num::{Memory, Set};
use mix_text::{Auction, Page};

// The number of a set of choices.
fn number_of(set: Set) -> i64
    ensures { result ≡ pos set }
{
    i64::from(set.bits())
}

// Adds the words of a failed test to the open row.
fn add_test(page: &mut Page, test: &[u8]) -> Result<(), Memory>
    requires closed { page.old.fields ≡ [] }
    requires word { is_printable test.now ≡ true }
    ensures { OnOk result (page.new ≡ record page.old { fields = codes "no" ∷ test.now ∷ [] }) }
{
    page.text(b"no")?;
    page.text(test)
}

// Adds a reason of a bidder: a word, and the bidder's name.
fn add_of_bidder(
    page: &mut Page,
    auction: &Auction,
    test: &[u8],
    bidder: usize,
) -> Result<(), Memory>
    requires closed { page.old.fields ≡ [] }
    requires word { is_printable test.now ≡ true }
    requires bidder { bidder < length auction.now.bidders }
    ensures { OnOk result (page.new ≡ record page.old { fields = codes "no" ∷ test.now ∷ name_at auction.now.bidders bidder ∷ [] }) }
{
    add_test(page, test)?;
    add_bidder(page, auction, bidder)
}

// Adds a reason of a good: a word, and the good's name.
fn add_of_good(page: &mut Page, auction: &Auction, test: &[u8], good: usize) -> Result<(), Memory>
    requires closed { page.old.fields ≡ [] }
    requires word { is_printable test.now ≡ true }
    requires good { good < length auction.now.goods }
    ensures { OnOk result (page.new ≡ record page.old { fields = codes "no" ∷ test.now ∷ good_at (auction_text auction.now) good ∷ [] }) }
{
    add_test(page, test)?;
    add_good(page, auction, good)
}

// Adds a reason of a bidder and a good: a word, and their names.
fn add_of_both(
    page: &mut Page,
    auction: &Auction,
    test: &[u8],
    bidder: usize,
    good: usize,
) -> Result<(), Memory>
    requires closed { page.old.fields ≡ [] }
    requires word { is_printable test.now ≡ true }
    requires bidder { bidder < length auction.now.bidders }
    requires good { good < length auction.now.goods }
    ensures { OnOk result (page.new ≡ record page.old { fields = codes "no" ∷ test.now ∷ name_at auction.now.bidders bidder ∷ good_at (auction_text auction.now) good ∷ [] }) }
{
    add_of_bidder(page, auction, test, bidder)?;
    add_good(page, auction, good)
}

/// Adds the row of a reason that holds of an outcome of the auction.
pub fn add_reason(page: &mut Page, auction: &Auction, reason: &Reason) -> Result<(), Memory>
    requires closed { page.old.fields ≡ [] }
    requires named { IsNamed (auction_text auction.now) reason.now }
    ensures { OnOk result (page.new ≡ record { ended = page.old.ended ++ line_of (reason_row (auction_text auction.now) reason.now); fields = [] }) }
{
    add_fields(page, auction, reason)?;
    page.end_row()
}

// Adds its fields.
fn add_fields(page: &mut Page, auction: &Auction, reason: &Reason) -> Result<(), Memory>
    requires closed { page.old.fields ≡ [] }
    requires named { IsNamed (auction_text auction.now) reason.now }
    ensures { OnOk result (page.new ≡ record page.old { fields = reason_row (auction_text auction.now) reason.now }) }
{
    match reason {
        Reason::Facet { weight } => {
            add_test(page, b"facet")?;
            page.number(*weight)
        }
        Reason::Earlier { bidder } => add_of_bidder(page, auction, b"earlier", *bidder),
        Reason::Invalid { bidder } => add_of_bidder(page, auction, b"invalid", *bidder),
        Reason::Floor { good } => add_of_good(page, auction, b"floor", *good),
        Reason::Sum { good, sum } => {
            add_of_good(page, auction, b"sum", *good)?;
            page.number(*sum)
        }
        Reason::Return { good } => add_of_good(page, auction, b"return", *good),
        Reason::Demand { bidder, set } => {
            add_of_bidder(page, auction, b"demand", *bidder)?;
            page.number(number_of(*set))
        }
        Reason::Lower { set } => {
            add_test(page, b"lower")?;
            page.number(number_of(*set))
        }
        Reason::Pay { bidder, amount } => {
            add_of_bidder(page, auction, b"pay", *bidder)?;
            page.number(*amount)
        }
        Reason::Pair { bidder, good } => add_of_both(page, auction, b"pair", *bidder, *good),
        Reason::Tight {
            bidder,
            good,
            bound,
        } => {
            add_of_both(page, auction, b"tight", *bidder, *good)?;
            page.number(*bound)
        }
    }
}
