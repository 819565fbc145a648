// The outcome of the rows after an auction: its rows in order, up to the first that has a fault.
ghost use Rattle.std.specs.Prelude.{◌≡◌, ◌≤◌, ◌<◌, ◌+◌, ◌*◌, ◌∷◌, [], Ok, Err, length, drop, map, IfOk, IfErr, OnOk};
ghost use Rattle.mix_text.specs.AuctionTexts.{auction_text};
ghost use Rattle.mix_text.specs.Bidders.{name_at};
ghost use Rattle.mix_text.specs.Reading.{end_of};
ghost use Rattle.mix_answer.specs.Outcomes.{bidders_goods, outcome_rows, with_each};
ghost use Rattle.mix_answer.specs.Shapes.{HasShape};
ghost use Rattle.mix_answer.specs.Readings.{IsFromRows, amounts_of, answer_in, first_row, first_rows, following, head_of, inner_in, lines_of, none_left, order_in, outcome_after, share_of, tight_of};

use crate::faults::OutcomeError;
use crate::outcome::{Answer, Outcome};
use crate::row_reading::{
    read_cleared, read_head, read_last, read_order, read_refusal_row, read_share, read_tight,
};
use crate::share::{Share, Shares};
use crate::tights::Tights;
use mix_num::{Prices, Tight};
use mix_text::{Auction, Code, Fault, Name, Rest, Row, has_order, read_numbers, row_begins};
use std::alloc::Global;

// The fault of the row with this number.
fn fault(number: u64, code: Code) -> OutcomeError
    ensures { result ≡ OutcomeError.Fault (record { at = number; code = code }) }
{
    OutcomeError::Fault(Fault { at: number, code })
}

// The row at a place, from 0, or that the rows end too early.
fn row_or_end(rest: &Rest, k: usize) -> Result<&Row, OutcomeError>
    ensures read { IfOk result (λ row. drop k rest.now.rows ≡ row.now ∷ drop (k + 1) rest.now.rows) }
    ensures none { IfErr result (λ e. drop k rest.now.rows ≡ []) }
    ensures wrong { IfErr result (λ e. e ≡ OutcomeError.Fault (record { at = rest.now.next; code = Code.End })) }
{
    match rest.rows().get(k) {
        Some(row) => Ok(row),
        None => Err(fault(rest.next_number(), Code::End)),
    }
}

// Reads the first row.
fn read_first(rest: &Rest, format: u8) -> Result<(), OutcomeError>
    ensures read { OnOk result (first_row rest.now.next (head_of format) rest.now.rows ≡ Ok (tt, drop 1 rest.now.rows)) }
    ensures wrong { IfErr result (λ e. first_row rest.now.next (head_of format) rest.now.rows ≡ Err e) }
{
    let row = row_or_end(rest, 0)?;
    match read_head(row, format) {
        Ok(()) => Ok(()),
        Err(code) => Err(fault(row.number(), code)),
    }
}

// Reads the row of the tie order, which comes second where the format states the order, and gives the place after it.
#[tactic(auto, unfolding(crate::specs::Readings::order_in))]
fn read_second(auction: &Auction, rest: &Rest) -> Result<usize, OutcomeError>
    ensures read { IfOk result (λ place. order_in (auction_text auction.now) rest.now.next (drop 1 rest.now.rows) ≡ Ok (drop place rest.now.rows)) }
    ensures near { IfOk result (λ place. place ≤ 2) }
    ensures wrong { IfErr result (λ e. order_in (auction_text auction.now) rest.now.next (drop 1 rest.now.rows) ≡ Err e) }
{
    if !has_order(auction.format) {
        return Ok(1);
    }
    let row = row_or_end(rest, 1)?;
    match read_order(row, auction) {
        Ok(()) => Ok(2),
        Err(code) => Err(fault(row.number(), code)),
    }
}

// Reads the row at a place: a word, and an amount from 0 to 1,000,000 of each good.
fn read_amounts(rest: &Rest, k: usize, word: &[u8], goods: usize) -> Result<Prices, OutcomeError>
    requires { goods ≤ 8 }
    ensures read { IfOk result (λ amounts. first_row rest.now.next (amounts_of word.now goods) (drop k rest.now.rows) ≡ Ok (amounts.items, drop (k + 1) rest.now.rows)) }
    ensures wrong { IfErr result (λ e. first_row rest.now.next (amounts_of word.now goods) (drop k rest.now.rows) ≡ Err e) }
{
    let row = row_or_end(rest, k)?;
    match read_numbers(row, word, goods, 0, 1_000_000) {
        Ok(amounts) => Ok(amounts),
        Err(code) => Err(fault(row.number(), code)),
    }
}

// Reads the row at a place: the share of the bidder of a name.
fn read_share_at(rest: &Rest, k: usize, name: &Name, goods: usize) -> Result<Share, OutcomeError>
    requires { goods ≤ 8 }
    ensures read { IfOk result (λ share. first_row rest.now.next (share_of goods name.now.bytes) (drop k rest.now.rows) ≡ Ok (share, drop (k + 1) rest.now.rows)) }
    ensures wrong { IfErr result (λ e. first_row rest.now.next (share_of goods name.now.bytes) (drop k rest.now.rows) ≡ Err e) }
{
    let row = row_or_end(rest, k)?;
    match read_share(row, name, goods) {
        Ok(share) => Ok(share),
        Err(code) => Err(fault(row.number(), code)),
    }
}

// Reads the share of each bidder: the rows from the one at `first` on.
fn read_shares(
    alloc: Global,
    auction: &Auction,
    rest: &Rest,
    first: usize,
) -> Result<Shares, OutcomeError>
    requires { first ≤ 1000 }
    ensures read { IfOk result (λ shares. first_rows rest.now.next (λ bidder. share_of (length auction.now.goods) bidder.0) auction.now.bidders (drop first rest.now.rows) ≡ Ok (shares, drop (first + length auction.now.bidders) rest.now.rows)) }
    ensures wrong { IfErr result (λ e. IsFromRows (first_rows rest.now.next (λ bidder. share_of (length auction.now.goods) bidder.0) auction.now.bidders (drop first rest.now.rows)) e) }
{
    let goods = auction.goods.len();
    let mut shares = Shares::new(alloc);
    for k in 0..auction.count() {
        let (name, _) = auction.bidder(k);
        let share = read_share_at(rest, first + k, name, goods)?;
        let Ok(()) = shares.push(share) else {
            return Err(OutcomeError::Memory);
        };
    }
    Ok(shares)
}

// Reads the row at a place: the pair of a bidder and a good of these names.
fn read_tight_at(
    rest: &Rest,
    k: usize,
    bidder: &Name,
    good: &Name,
    goods: usize,
) -> Result<Tight, OutcomeError>
    requires { goods ≤ 8 }
    ensures read { IfOk result (λ tight. first_row rest.now.next (tight_of goods (record { bidder = bidder.now.bytes; good = good.now.bytes })) (drop k rest.now.rows) ≡ Ok (tight, drop (k + 1) rest.now.rows)) }
    ensures wrong { IfErr result (λ e. first_row rest.now.next (tight_of goods (record { bidder = bidder.now.bytes; good = good.now.bytes })) (drop k rest.now.rows) ≡ Err e) }
{
    let row = row_or_end(rest, k)?;
    match read_tight(row, bidder, good, goods) {
        Ok(tight) => Ok(tight),
        Err(code) => Err(fault(row.number(), code)),
    }
}

// Reads the pairs of the bidder at a place with each good, and adds them: the rows from the one at `first` on.
fn read_bidder_tights(
    tights: &mut Tights,
    auction: &Auction,
    rest: &Rest,
    k: usize,
    first: usize,
) -> Result<(), OutcomeError>
    requires bidder { k < length auction.now.bidders }
    requires near { first ≤ 4000 }
    ensures read { OnOk result (following tights.old (first_rows rest.now.next (tight_of (length auction.now.goods)) (with_each auction.now.goods (name_at auction.now.bidders k)) (drop first rest.now.rows)) ≡ Ok (tights.new, drop (first + length auction.now.goods) rest.now.rows)) }
    ensures wrong { IfErr result (λ e. IsFromRows (first_rows rest.now.next (tight_of (length auction.now.goods)) (with_each auction.now.goods (name_at auction.now.bidders k)) (drop first rest.now.rows)) e) }
{
    let goods = auction.goods.len();
    let (name, _) = auction.bidder(k);
    for j in 0..goods {
        let tight = read_tight_at(rest, first + j, name, auction.goods.get(j), goods)?;
        let Ok(()) = tights.push(tight) else {
            return Err(OutcomeError::Memory);
        };
    }
    Ok(())
}

// Reads the pair of each bidder and each good: the rows from the one at `first` on.
fn read_tights(
    alloc: Global,
    auction: &Auction,
    rest: &Rest,
    first: usize,
) -> Result<Tights, OutcomeError>
    requires { first ≤ 1000 }
    ensures read { IfOk result (λ tights. first_rows rest.now.next (tight_of (length auction.now.goods)) (bidders_goods auction.now.goods auction.now.bidders) (drop first rest.now.rows) ≡ Ok (tights, drop (first + length auction.now.bidders * length auction.now.goods) rest.now.rows)) }
    ensures wrong { IfErr result (λ e. IsFromRows (first_rows rest.now.next (tight_of (length auction.now.goods)) (bidders_goods auction.now.goods auction.now.bidders) (drop first rest.now.rows)) e) }
{
    let goods = auction.goods.len();
    let mut tights = Tights::new(alloc);
    for k in 0..auction.count() {
        read_bidder_tights(&mut tights, auction, rest, k, first + k * goods)?;
    }
    Ok(tights)
}

// Reads an answer: the rows from the one at `first` on.
#[tactic(auto, unfolding(crate::specs::Readings::answer_in))]
fn read_answer(
    alloc: Global,
    auction: &Auction,
    rest: &Rest,
    first: usize,
) -> Result<Answer, OutcomeError>
    requires { first ≤ 3 }
    ensures read { IfOk result (λ answer. answer_in (auction_text auction.now) rest.now.next (drop first rest.now.rows) ≡ Ok (answer, drop (first + 2 + length auction.now.bidders + length auction.now.bidders * length auction.now.goods) rest.now.rows)) }
    ensures wrong { IfErr result (λ e. IsFromRows (answer_in (auction_text auction.now) rest.now.next (drop first rest.now.rows)) e) }
{
    let goods = auction.goods.len();
    let count = auction.count();
    let prices = read_amounts(rest, first, b"price", goods)?;
    let shares = read_shares(alloc, auction, rest, first + 1)?;
    let returns = read_amounts(rest, first + 1 + count, b"return", goods)?;
    let tights = read_tights(alloc, auction, rest, first + 2 + count)?;
    Ok(Answer {
        prices,
        shares,
        returns,
        tights,
    })
}

/// A refusal or an answer, and the place after its last row.
#[derive(Drop)]
struct Inner {
    outcome: Outcome,
    after: usize,
}

// Reads a refusal or an answer: the rows from the one at `first` on.
#[tactic(auto, unfolding(crate::specs::Readings::inner_in))]
fn read_inner(
    alloc: Global,
    auction: &Auction,
    rest: &Rest,
    first: usize,
) -> Result<Inner, OutcomeError>
    requires { first ≤ 2 }
    ensures read { IfOk result (λ inner. inner_in (auction_text auction.now) rest.now.next (drop first rest.now.rows) ≡ Ok (inner.outcome, drop inner.after rest.now.rows)) }
    ensures near { IfOk result (λ inner. inner.after ≤ 4000) }
    ensures wrong { IfErr result (λ e. IsFromRows (inner_in (auction_text auction.now) rest.now.next (drop first rest.now.rows)) e) }
{
    let row = row_or_end(rest, first)?;
    if !row_begins(row, b"cleared") {
        return match read_refusal_row(row, auction) {
            Ok(refusal) => Ok(Inner {
                outcome: Outcome::Refused(refusal),
                after: first + 1,
            }),
            Err(code) => Err(fault(row.number(), code)),
        };
    }
    if let Err(code) = read_cleared(row) {
        return Err(fault(row.number(), code));
    }
    let answer = read_answer(alloc, auction, rest, first + 1)?;
    Ok(Inner {
        outcome: Outcome::Cleared(answer),
        after: first + 3 + auction.count() + auction.count() * auction.goods.len(),
    })
}

// Reads the row at a place, which is the last.
fn read_last_at(rest: &Rest, k: usize) -> Result<(), OutcomeError>
    ensures read { OnOk result (first_row rest.now.next end_of (drop k rest.now.rows) ≡ Ok (tt, drop (k + 1) rest.now.rows)) }
    ensures wrong { IfErr result (λ e. first_row rest.now.next end_of (drop k rest.now.rows) ≡ Err e) }
{
    let row = row_or_end(rest, k)?;
    match read_last(row) {
        Ok(()) => Ok(()),
        Err(code) => Err(fault(row.number(), code)),
    }
}

// Refuses a row at a place: none is wanted there.
fn no_row_at(rest: &Rest, k: usize) -> Result<(), OutcomeError>
    ensures { result ≡ none_left (drop k rest.now.rows) }
{
    match rest.rows().get(k) {
        Some(row) => Err(fault(row.number(), Code::After)),
        None => Ok(()),
    }
}

// Reads the outcome of the rows after an auction.
#[tactic(auto, unfolding(crate::specs::Readings::outcome_in))]
fn read_rows(alloc: Global, auction: &Auction, rest: &Rest) -> Result<Outcome, OutcomeError>
    ensures read { IfOk result (λ outcome. outcome_after (auction_text auction.now) rest.now ≡ Ok outcome) }
    ensures wrong { IfErr result (λ e. IsFromRows (outcome_after (auction_text auction.now) rest.now) e) }
{
    read_first(rest, auction.format)?;
    let first = read_second(auction, rest)?;
    let inner = read_inner(alloc, auction, rest, first)?;
    read_last_at(rest, inner.after)?;
    no_row_at(rest, inner.after + 1)?;
    Ok(inner.outcome)
}

/// Reads the outcome of an auction from the rows after it.
///
/// The rows are looked at in order, and the first that has a fault decides. Its code is that of the first of its tests
/// that fails: `Place` where its first field is a word that may not stand there; `Fields` where the number of fields is
/// wrong; then, from left to right, `Number` where a field spells no number and `Range` where it spells one out of its
/// range (the version is 1 in format 1, and 2 in format 2), `Name` where a field has not the form of a name, and `Other` where it has and is not the
/// wanted one, where no bidder or good has it, or where the second choice of a refusal doesn't come after the first.
/// Where the rows end too early, that is the fault `End` of the row that would come next; a row after `end` has the
/// fault `After`. `Memory` may come in place of any answer.
pub fn read_outcome(alloc: Global, auction: &Auction, rest: &Rest) -> Result<Outcome, OutcomeError>
    ensures read { IfOk result (λ outcome. outcome_after (auction_text auction.now) rest.now ≡ Ok outcome) }
    ensures wrong { IfErr result (λ e. IsFromRows (outcome_after (auction_text auction.now) rest.now) e) }
    ensures lines { IfOk result (λ outcome. lines_of rest.now.rows ≡ outcome_rows (auction_text auction.now) outcome) }
    ensures shape { IfOk result (λ outcome. HasShape (auction_text auction.now) outcome) }
    ensures printed { (outcome : Outcome) → HasShape (auction_text auction.now) outcome → lines_of rest.now.rows ≡ outcome_rows (auction_text auction.now) outcome → outcome_after (auction_text auction.now) rest.now ≡ Ok outcome }
{
    read_rows(alloc, auction, rest)
}
