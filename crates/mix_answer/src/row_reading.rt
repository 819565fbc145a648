// What a row of an outcome says by itself, or the code of the first of its tests that fails.
ghost use Rattle.std.specs.Prelude.{◌≡◌, ◌≤◌, ◌<◌, ◌≤ℤ◌, ◌+◌, pos, neg_ℤ, length, drop, nat_abs, nat_lt, IfOk, IfErr};
ghost use Rattle.mix_text.specs.AuctionTexts.{auction_text};
ghost use Rattle.mix_text.specs.Bidders.{names_at};
ghost use Rattle.mix_text.specs.Reading.{bidder_of, end_of, field_at, holds};
ghost use Rattle.mix_answer.specs.Outcomes.{version_of};
ghost use Rattle.mix_answer.specs.Readings.{choice_of, cleared_of, head_of, numbers_at, order_of, refusal_of, refusal_row_of, set_of, share_of, tight_of, wanted_name, wanted_names};

use crate::refusal::Refusal;
use crate::share::Share;
use mix_num::{Prices, Set, Tight};
use mix_text::{
    Auction, Bidders, Code, Name, Names, Row, has_order, read_name, read_number, read_numbers,
    row_begins, unless,
};

// Tests that the name at a place is the wanted one.
#[tactic(auto, unfolding(crate::specs::Readings::wanted_name))]
fn read_wanted(row: &Row, k: usize, wanted: &Name) -> Result<(), Code>
    requires { k < length row.now.fields }
    ensures { result ≡ wanted_name wanted.now.bytes (field_at row.now.fields k) }
{
    let name = read_name(row.field(k))?;
    unless(name == *wanted, Code::Other)
}

// The place of the bidder that the name at a place tells.
fn read_bidder(row: &Row, k: usize, bidders: &Bidders) -> Result<usize, Code>
    requires { k < length row.now.fields }
    ensures { result ≡ bidder_of bidders.now (field_at row.now.fields k) }
{
    let name = read_name(row.field(k))?;
    match bidders.find(&name) {
        Some(place) => Ok(place),
        None => Err(Code::Other),
    }
}

// The choice at a place: 0 for the null choice, else the number of the good.
#[tactic(auto, unfolding(crate::specs::Readings::choice_of))]
fn read_choice(row: &Row, k: usize, goods: &Names) -> Result<usize, Code>
    requires few { length goods.now ≤ 8 }
    requires field { k < length row.now.fields }
    ensures { result ≡ choice_of goods.now (field_at row.now.fields k) }
{
    if row.field(k) == b"-".as_slice() {
        return Ok(0);
    }
    let name = read_name(row.field(k))?;
    match goods.find(&name) {
        Some(place) => Ok(place + 1),
        None => Err(Code::Other),
    }
}

// The set of a number, from 0 to 511.
fn set_numbered(number: i64) -> Set
    requires low { pos 0 ≤ℤ number }
    requires high { number ≤ℤ pos 511 }
    ensures { result ≡ nat_abs number }
{
    Set::from_bits(number.unsigned_abs() as u16)
}

// The set at a place, of the null choice and so many goods.
#[tactic(auto, unfolding(crate::specs::Readings::set_of))]
fn read_set(row: &Row, k: usize, goods: usize) -> Result<Set, Code>
    requires goods { goods ≤ 8 }
    requires field { k < length row.now.fields }
    ensures { result ≡ set_of goods (field_at row.now.fields k) }
{
    let most = i64::from(Set::whole(goods).bits());
    let number = read_number(row.field(k), 0, most)?;
    Ok(set_numbered(number))
}

// The numbers from `low` to `high` in `count` fields from a place on, from left to right.
#[tactic(auto, using(crate::proofs::Turns::rest_first, crate::proofs::Turns::rest_last, crate::proofs::Turns::rest_next, crate::proofs::Turns::rest_wrong))]
fn read_each(row: &Row, first: usize, count: usize, low: i64, high: i64) -> Result<Prices, Code>
    requires near { first ≤ 4 }
    requires few { count ≤ 8 }
    requires fields { first + count ≤ length row.now.fields }
    requires ordered { low ≤ℤ high }
    requires not_low { neg_ℤ (pos 10000000000000) ≤ℤ low }
    requires not_high { high ≤ℤ pos 10000000000000 }
    ensures read { IfOk result (λ numbers. numbers_at first count low high row.now.fields ≡ Ok numbers.items) }
    ensures wrong { IfErr result (λ code. numbers_at first count low high row.now.fields ≡ Err code) }
{
    let mut numbers = Prices::new();
    for j in 0..count {
        match read_number(row.field(first + j), low, high) {
            Ok(number) => numbers.push(number),
            Err(code) => return Err(code),
        }
    }
    Ok(numbers)
}

// Tests that the first choice has the smaller number.
fn in_order(first: usize, second: usize) -> Result<(), Code>
    ensures { result ≡ holds (nat_lt first second) Code.Other }
{
    unless(first < second, Code::Other)
}

// Reads the row of a refusal, whose word is known.
#[tactic(auto, unfolding(crate::specs::Readings::refusal_of))]
fn read_refusal(row: &Row, auction: &Auction) -> Result<Refusal, Code>
    ensures { result ≡ refusal_of (auction_text auction.now) row.now.fields }
{
    let goods = auction.goods.len();
    unless(row.len() == goods + 5, Code::Fields)?;
    let bidder = read_bidder(row, 1, &auction.bidders)?;
    let first = read_choice(row, 2, &auction.goods)?;
    let second = read_choice(row, 3, &auction.goods)?;
    in_order(first, second)?;
    let prices = read_each(row, 4, goods, -2_000_000, 2_000_000)?;
    let weight = read_number(row.field(goods + 4), -4_000_000, -1)?;
    Ok(Refusal {
        bidder,
        first,
        second,
        prices,
        weight,
    })
}

/// Reads a refusal, which may stand where the row before an answer may.
#[tactic(auto, unfolding(crate::specs::Readings::refusal_row_of))]
pub fn read_refusal_row(row: &Row, auction: &Auction) -> Result<Refusal, Code>
    ensures { result ≡ refusal_row_of (auction_text auction.now) row.now.fields }
{
    unless(row_begins(row, b"refused"), Code::Place)?;
    read_refusal(row, auction)
}

/// The version of an outcome's text, which follows from the format of its auction.
pub fn version(format: u8) -> i64
    ensures { result ≡ pos (version_of format) }
{
    if has_order(format) { 2 } else { 1 }
}

/// Reads the first row.
pub fn read_head(row: &Row, format: u8) -> Result<(), Code>
    ensures { result ≡ head_of format row.now.fields }
{
    let wanted = version(format);
    read_numbers(row, b"outcome", 1, wanted, wanted)?;
    Ok(())
}

// Tests the names after the first field: they are those of all bidders, in tie order.
#[tactic(auto, using(mix_text::proofs::AuctionNames::bidder_served, crate::proofs::Turns::names_next, crate::proofs::Turns::names_wrong, crate::proofs::Turns::names_last))]
fn read_wanted_names(row: &Row, auction: &Auction) -> Result<(), Code>
    requires { length row.now.fields ≡ length auction.now.order + 1 }
    ensures { result ≡ wanted_names (names_at auction.now.bidders auction.now.order) (drop 1 row.now.fields) }
{
    for turn in 0..auction.order.count() {
        let (name, _) = auction.bidder(auction.order.place(turn));
        read_wanted(row, turn + 1, name)?;
    }
    Ok(())
}

/// Reads the row of the tie order.
#[tactic(auto, unfolding(crate::specs::Readings::order_of))]
pub fn read_order(row: &Row, auction: &Auction) -> Result<(), Code>
    ensures { result ≡ order_of (names_at auction.now.bidders auction.now.order) row.now.fields }
{
    unless(row_begins(row, b"order"), Code::Place)?;
    unless(row.len() == auction.order.count() + 1, Code::Fields)?;
    read_wanted_names(row, auction)
}

/// Reads the row before an answer, whose word is known.
pub fn read_cleared(row: &Row) -> Result<(), Code>
    ensures { result ≡ cleared_of row.now.fields }
{
    unless(row.len() == 1, Code::Fields)
}

/// Reads the share of the bidder of a name, of so many goods.
#[tactic(auto, unfolding(crate::specs::Readings::share_of))]
pub fn read_share(row: &Row, name: &Name, goods: usize) -> Result<Share, Code>
    requires { goods ≤ 8 }
    ensures { result ≡ share_of goods name.now.bytes row.now.fields }
{
    unless(row_begins(row, b"share"), Code::Place)?;
    unless(row.len() == goods + 3, Code::Fields)?;
    read_wanted(row, 1, name)?;
    let bundle = read_each(row, 2, goods, 0, 1_000_000)?;
    let payment = read_number(row.field(goods + 2), 0, 10_000_000_000_000)?;
    Ok(Share { bundle, payment })
}

/// Reads the pair of a bidder and a good of these names, of so many goods.
#[tactic(auto, unfolding(crate::specs::Readings::tight_of))]
pub fn read_tight(row: &Row, bidder: &Name, good: &Name, goods: usize) -> Result<Tight, Code>
    requires { goods ≤ 8 }
    ensures { result ≡ tight_of goods (record { bidder = bidder.now.bytes; good = good.now.bytes }) row.now.fields }
{
    unless(row_begins(row, b"tight"), Code::Place)?;
    unless(row.len() == 5, Code::Fields)?;
    read_wanted(row, 1, bidder)?;
    read_wanted(row, 2, good)?;
    let upper = read_set(row, 3, goods)?;
    let lower = read_set(row, 4, goods)?;
    Ok(Tight { upper, lower })
}

/// Reads the last row.
#[tactic(auto, unfolding(mix_text::specs::Reading::end_of))]
pub fn read_last(row: &Row) -> Result<(), Code>
    ensures { result ≡ end_of row.now.fields }
{
    unless(row_begins(row, b"end"), Code::Place)?;
    unless(row.len() == 1, Code::Fields)
}
