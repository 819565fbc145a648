// What a row says by itself, or the code of the first of its tests that fails.
ghost use Rattle.std.specs.Prelude.{◌≡◌, ◌≤◌, ◌<◌, ◌≤ℤ◌, pos, neg_ℤ, length, drop, IfOk, IfErr};
ghost use Rattle.mix_text.specs.Reading.{begins, bid_of, bid_row_of, each_of, end_of, field_at, format_of, header_of, holds, number_in, numbers_of, value_of, weight_of};
ghost use Rattle.mix_bids.specs.Offers.{offers_some};

use crate::faults::{Code, Fault, TextError};
use crate::row::Row;
use crate::spelling::{Name, read_name, read_number};
use mix_bids::{Bid, Values};
use mix_num::Prices;

/// The fault of the row with this number.
pub(crate) fn fault(number: u64, code: Code) -> TextError
    ensures { result ≡ TextError.Fault (record { at = number; code = code }) }
{
    TextError::Fault(Fault { at: number, code })
}

// The field at a place; an empty one where there is none.
fn field_or_empty(row: &Row, k: usize) -> &[u8]
    ensures { result.now ≡ field_at row.now.fields k }
{
    if k < row.len() { row.field(k) } else { b"" }
}

/// Whether the first field is this word.
pub fn row_begins(row: &Row, word: &[u8]) -> bool
    ensures { result ≡ begins row.now.fields word.now }
{
    field_or_empty(row, 0) == word
}

/// Nothing, where a test holds; else a code.
pub fn unless(test: bool, code: Code) -> Result<(), Code>
    ensures { result ≡ holds test code }
{
    if test { Ok(()) } else { Err(code) }
}

// The format that a field names.
fn read_format(field: &[u8]) -> Result<u8, Code>
    ensures { result ≡ format_of field.now }
{
    if field == b"1".as_slice() {
        Ok(1)
    } else if field == b"2".as_slice() {
        Ok(2)
    } else if field == b"3".as_slice() {
        Ok(3)
    } else {
        Err(Code::Header)
    }
}

/// Reads the first row, which names the format.
#[tactic(auto, unfolding(crate::specs::Reading::header_of))]
pub(crate) fn read_header(row: &Row) -> Result<u8, Code>
    ensures { result ≡ header_of row.now.fields }
{
    unless(row_begins(row, b"mix") && row.len() == 2, Code::Header)?;
    read_format(field_or_empty(row, 1))
}

/// Reads the last row of an auction.
#[tactic(auto, unfolding(crate::specs::Reading::end_of))]
pub(crate) fn read_end(row: &Row) -> Result<(), Code>
    ensures { result ≡ end_of row.now.fields }
{
    unless(row_begins(row, b"end"), Code::Place)?;
    unless(row.len() == 1, Code::Fields)
}

/// The number from `low` to `high` that the field at a place spells.
pub(crate) fn number_at(row: &Row, k: usize, low: i64, high: i64) -> Result<i64, Code>
    requires place { k < length row.now.fields }
    requires ordered { low ≤ℤ high }
    requires not_low { neg_ℤ (pos 10000000000000) ≤ℤ low }
    requires not_high { high ≤ℤ pos 10000000000000 }
    ensures { result ≡ number_in low high (field_at row.now.fields k) }
{
    read_number(row.field(k), low, high)
}

// The numbers after the first field, from left to right.
#[tactic(auto, using(crate::proofs::Turns::first_turn, crate::proofs::Turns::last_turn, crate::proofs::Turns::next_turn, crate::proofs::Turns::wrong_turn))]
fn read_each_number(row: &Row, low: i64, high: i64) -> Result<Prices, Code>
    requires few { length row.now.fields ≤ 9 }
    requires ordered { low ≤ℤ high }
    requires not_low { neg_ℤ (pos 10000000000000) ≤ℤ low }
    requires not_high { high ≤ℤ pos 10000000000000 }
    ensures read { IfOk result (λ numbers. each_of (number_in low high) (drop 1 row.now.fields) ≡ Ok numbers.items) }
    ensures wrong { IfErr result (λ code. each_of (number_in low high) (drop 1 row.now.fields) ≡ Err code) }
{
    let mut numbers = Prices::new();
    for k in 1..row.len() {
        match number_at(row, k, low, high) {
            Ok(number) => numbers.push(number),
            Err(code) => return Err(code),
        }
    }
    Ok(numbers)
}

/// Reads a row of a word and a number from `low` to `high` for each of `goods` goods, at most 8.
///
/// The code is that of the first test that fails: `Place` where the first field is another word, `Fields` where there
/// isn't one field more for each good; then, from left to right, `Number` where a field spells no number, and `Range`
/// where it spells another one.
#[tactic(auto, unfolding(crate::specs::Reading::numbers_of))]
pub fn read_numbers(
    row: &Row,
    word: &[u8],
    goods: usize,
    low: i64,
    high: i64,
) -> Result<Prices, Code>
    requires goods { goods ≤ 8 }
    requires ordered { low ≤ℤ high }
    requires not_low { neg_ℤ (pos 10000000000000) ≤ℤ low }
    requires not_high { high ≤ℤ pos 10000000000000 }
    ensures read { IfOk result (λ numbers. numbers_of word.now goods low high row.now.fields ≡ Ok numbers.items) }
    ensures wrong { IfErr result (λ code. numbers_of word.now goods low high row.now.fields ≡ Err code) }
{
    unless(row_begins(row, word), Code::Place)?;
    unless(row.len() == goods + 1, Code::Fields)?;
    read_each_number(row, low, high)
}

// The weight at a place.
#[tactic(auto, unfolding(crate::specs::Reading::weight_of))]
fn weight_at(row: &Row, k: usize) -> Result<i64, Code>
    requires { k < length row.now.fields }
    ensures { result ≡ weight_of (field_at row.now.fields k) }
{
    let weight = number_at(row, k, -10_000, 10_000)?;
    unless(weight != 0, Code::Weight)?;
    Ok(weight)
}

// The value at a place; None where the good is left out.
#[tactic(auto, unfolding(crate::specs::Reading::value_of))]
fn value_at(row: &Row, k: usize) -> Result<Option<i64>, Code>
    requires { k < length row.now.fields }
    ensures { result ≡ value_of (field_at row.now.fields k) }
{
    if row.field(k) == b"-".as_slice() {
        return Ok(None);
    }
    let value = number_at(row, k, 0, 1_000_000)?;
    Ok(Some(value))
}

// The values from the fourth field on, from left to right.
#[tactic(auto, using(crate::proofs::Turns::first_turn, crate::proofs::Turns::last_turn, crate::proofs::Turns::next_turn, crate::proofs::Turns::wrong_turn))]
fn read_values(row: &Row) -> Result<Values, Code>
    requires { length row.now.fields ≤ 11 }
    ensures read { IfOk result (λ values. each_of value_of (drop 3 row.now.fields) ≡ Ok values.items) }
    ensures wrong { IfErr result (λ code. each_of value_of (drop 3 row.now.fields) ≡ Err code) }
{
    let mut values = Values::new();
    for k in 3..row.len() {
        values.push(value_at(row, k)?);
    }
    Ok(values)
}

// Whether any good is offered.
fn is_offering(values: &Values) -> bool
    ensures { result ≡ offers_some values.now.items }
{
    values.iter().any(|value| value.is_some())
}

/// Reads the name and the bid of a row, whatever its first field is. Values are taken for `goods` goods, 1 to 8.
///
/// The code is that of the first test that fails: `Fields` where there aren't three fields and a value for each good;
/// then, from left to right, `Name` where the name has not the form of one, `Number` where a weight or a value is no
/// number, `Range` where it lies out of its range, `Weight` where the weight is 0; and `Nothing` where no good has a value.
#[tactic(auto, unfolding(crate::specs::Reading::bid_of))]
pub fn read_bid(row: &Row, goods: usize) -> Result<(Name, Bid), Code>
    requires goods { (1 ≤ goods) × (goods ≤ 8) }
    requires field { 0 < length row.now.fields }
    ensures read { IfOk result (λ p. bid_of goods row.now.fields ≡ Ok (record { name = p.0.bytes; bid = p.1 })) }
    ensures wrong { IfErr result (λ code. bid_of goods row.now.fields ≡ Err code) }
{
    unless(row.len() == goods + 3, Code::Fields)?;
    let name = read_name(row.field(1))?;
    let weight = weight_at(row, 2)?;
    let values = read_values(row)?;
    unless(is_offering(&values), Code::Nothing)?;
    Ok((name, Bid { weight, values }))
}

/// Reads a row that stands where a bid may, and doesn't end the bids.
#[tactic(auto, unfolding(crate::specs::Reading::bid_row_of, crate::specs::Reading::bid_of))]
pub(crate) fn read_bid_row(row: &Row, goods: usize) -> Result<(Name, Bid), Code>
    requires { (1 ≤ goods) × (goods ≤ 8) }
    ensures read { IfOk result (λ p. bid_row_of goods row.now.fields ≡ Ok (record { name = p.0.bytes; bid = p.1 })) }
    ensures wrong { IfErr result (λ code. bid_row_of goods row.now.fields ≡ Err code) }
{
    unless(row_begins(row, b"bid"), Code::Place)?;
    if row.len() == 0 {
        return Err(Code::Fields);
    }
    read_bid(row, goods)
}
