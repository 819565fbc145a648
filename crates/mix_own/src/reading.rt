// What the rows after the auction of a range say: what the bidders own, and the ceiling.
ghost use Rattle.std.specs.Prelude.{◌≡◌, ◌≤◌, Ok, Err, false, pos, length, drop, replicate, IfOk, IfErr};
ghost use Rattle.mix_num.specs.Sellers.{AreAmounts};
ghost use Rattle.mix_text.specs.AuctionTexts.{auction_text};
ghost use Rattle.mix_text.specs.Reading.{nothing_after, numbered_as};
ghost use Rattle.mix_own.specs.Owned.{AreOwned};
ghost use Rattle.mix_own.specs.declared.reading.RangeError.TheVariants.{Fault as WrongRow, Memory as WantOfMemory};
ghost use Rattle.mix_own.specs.Readings.{IsFromRange, ceiling_in, ceiling_of, close_in, close_of, range_after, with_ceiling};

use crate::own_reading::read_own;
use crate::owned::Owned;
use mix_num::{Memory, Prices};
use mix_text::{Auction, Code, Fault, Rest, Row, read_numbers, row_begins, unless};
use std::alloc::Global;
use thiserror::Error;

/// Why the rows after an auction tell no range of it.
#[derive(Clone, Copy, PartialEq, Eq, Debug, Error)]
pub enum RangeError {
    #[error("row {}: {:?}", .0.at, .0.code)]
    Fault(Fault),
    #[error("out of memory")]
    Memory,
}

impl From<Fault> for RangeError {
    ghost from_gives = { λ fault e. e ≡ WrongRow fault };

    fn from(fault: Fault) -> RangeError {
        RangeError::Fault(fault)
    }
}

impl From<Memory> for RangeError {
    ghost from_gives = { λ _ e. e ≡ WantOfMemory };

    fn from(_: Memory) -> RangeError {
        RangeError::Memory
    }
}

// The fault of the row with this number.
fn fault(number: u64, code: Code) -> Fault
    ensures { result ≡ record { at = number; code = code } }
{
    Fault { at: number, code }
}

// Bidders of an auction that own nothing.
fn nothing_owned(alloc: Global, auction: &Auction) -> Result<Owned, RangeError>
    ensures owned { IfOk result (λ owned. owned ≡ replicate (length auction.now.bidders) (replicate (length auction.now.goods) (pos 0))) }
    ensures wrong { IfErr result (λ e. e ≡ RangeError.Memory) }
{
    Ok(Owned::nothing(alloc, auction.count(), auction.goods.len())?)
}

// No mark for any of so many bidders.
fn no_marks(alloc: Global, count: usize) -> Result<Vec<bool>, RangeError>
    ensures marks { IfOk result (λ marks. marks.items ≡ replicate count false) }
    ensures wrong { IfErr result (λ e. e ≡ RangeError.Memory) }
{
    match vec![in alloc; false; count] {
        Ok(marks) => Ok(marks),
        Err(_) => Err(RangeError::Memory),
    }
}

// What the bidders own, and the place of the row from which the reading goes on.
#[derive(Drop)]
struct Told {
    owned: Owned,
    after: usize,
}

// Reads the rows that say what bidders own, up to the first that says something else.
fn read_owned(alloc: Global, auction: &Auction, rest: &Rest) -> Result<Told, RangeError>
    ensures read { IfOk result (λ told. range_after (auction_text auction.now) rest.now ≡ with_ceiling (auction_text auction.now) rest.now.next told.owned (drop told.after rest.now.rows)) }
    ensures owned { IfOk result (λ told. AreOwned (auction_text auction.now) told.owned) }
    ensures near { IfOk result (λ told. told.after ≤ length rest.now.rows) }
    ensures wrong { IfErr result (λ e. IsFromRange (range_after (auction_text auction.now) rest.now) e) }
{
    let mut owned = nothing_owned(alloc, auction)?;
    let mut told = no_marks(alloc, auction.count())?;
    let rows = rest.rows();
    for k in 0..rows.len() {
        let row = &rows[k];
        if !row_begins(row, b"own") {
            return Ok(Told { owned, after: k });
        }
        if let Err(code) = read_own(auction, row, &mut owned, &mut told) {
            return Err(RangeError::Fault(fault(row.number(), code)));
        }
    }
    Ok(Told {
        owned,
        after: rows.len(),
    })
}

// Tests that a row is `close` alone.
#[tactic(auto, unfolding(crate::specs::Readings::close_of))]
fn close(row: &Row) -> Result<(), Code>
    ensures { result ≡ close_of row.now.fields }
{
    unless(row_begins(row, b"close"), Code::Place)?;
    unless(row.len() == 1, Code::Fields)
}

// Refuses rows where none is wanted.
fn no_rows(rows: &[Row]) -> Result<(), Fault>
    ensures { result ≡ nothing_after rows.now }
{
    match rows {
        [] => Ok(()),
        [row, ..] => Err(fault(row.number(), Code::After)),
    }
}

// Reads the last row, after which none may come.
fn read_close(rows: &[Row], next: u64) -> Result<(), Fault>
    ensures { result ≡ close_in next rows.now }
{
    match rows {
        [] => Err(fault(next, Code::End)),
        [row, left @ ..] => match close(row) {
            Ok(()) => no_rows(left),
            Err(code) => Err(fault(row.number(), code)),
        },
    }
}

// Reads the ceiling of each good.
fn read_ceiling_row(row: &Row, goods: usize) -> Result<Prices, Fault>
    requires { goods ≤ 8 }
    ensures read { IfOk result (λ ceiling. numbered_as row.now.number (ceiling_of goods row.now.fields) ≡ Ok ceiling.items) }
    ensures amounts { IfOk result (λ ceiling. AreAmounts goods ceiling.items) }
    ensures wrong { IfErr result (λ fault. numbered_as row.now.number (ceiling_of goods row.now.fields) ≡ Err fault) }
{
    match read_numbers(row, b"ceiling", goods, 0, 1_000_000) {
        Ok(ceiling) => Ok(ceiling),
        Err(code) => Err(fault(row.number(), code)),
    }
}

// Reads the ceiling of each good, and the last row.
fn read_ceiling(rows: &[Row], next: u64, goods: usize) -> Result<Prices, Fault>
    requires { goods ≤ 8 }
    ensures read { IfOk result (λ ceiling. ceiling_in goods next rows.now ≡ Ok ceiling.items) }
    ensures amounts { IfOk result (λ ceiling. AreAmounts goods ceiling.items) }
    ensures wrong { IfErr result (λ fault. ceiling_in goods next rows.now ≡ Err fault) }
{
    match rows {
        [] => Err(fault(next, Code::End)),
        [row, left @ ..] => {
            let ceiling = read_ceiling_row(row, goods)?;
            read_close(left, next)?;
            Ok(ceiling)
        }
    }
}

/// Reads from the rows after an auction what its bidders own, and the ceiling of each good, from 0 to 1,000,000.
///
/// The rows are any number of `own` rows, one `ceiling` row, and `close`. They are looked at in order, and the first that
/// has a fault decides. Its code is that of the first of its tests that fails: `Place` where its first field is a word
/// that may not stand there; `Fields` where the number of fields is wrong; in an `own` row `Name` where the second field
/// has not the form of a name, `Other` where no bidder has the name, and `Repeated` where the bidder has had its row; then,
/// from left to right, `Number` where a field spells no number, `Range` where it spells one out of its range, from 0 to
/// 1,000,000, and in an `own` row `Other` where the number is positive and the reserve of the good isn't 0, and `Range`
/// where the supply of the good, all that is owned of it so far, and the number add up to more than 1,000,000. Where the
/// rows end too early, that is the fault `End` of the row that would come next; a row after `close` has the fault `After`.
/// A bidder without a row owns nothing. `Memory` may come in place of any answer.
pub fn read_range(
    alloc: Global,
    auction: &Auction,
    rest: &Rest,
) -> Result<(Owned, Prices), RangeError>
    ensures read { IfOk result (λ p. range_after (auction_text auction.now) rest.now ≡ Ok (p.0, p.1.items)) }
    ensures owned { IfOk result (λ p. AreOwned (auction_text auction.now) p.0) }
    ensures ceiling { IfOk result (λ p. AreAmounts (length auction.now.goods) p.1.items) }
    ensures wrong { IfErr result (λ e. IsFromRange (range_after (auction_text auction.now) rest.now) e) }
{
    let told = read_owned(alloc, auction, rest)?;
    let left = &rest.rows()[told.after..];
    let ceiling = read_ceiling(left, rest.next_number(), auction.goods.len())?;
    Ok((told.owned, ceiling))
}
