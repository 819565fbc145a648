// The auction of a text: its rows in order, up to the first that has a fault or passes a limit.
ghost use Rattle.std.specs.Prelude.{◌≡◌, ◌≢◌, ◌≤◌, ◌<◌, ◌+◌, ◌∷◌, ◌++◌, [], List, ℕ, Some, None, Ok, Err, length, drop, codes, pos, IfOk, IfErr, OnOk};
ghost use Rattle.mix_bids.specs.Bids.{IsBid};
ghost use Rattle.mix_text.specs.Bidders.{place_of};
ghost use Rattle.mix_text.specs.AuctionTexts.{auction_text};
ghost use Rattle.mix_text.specs.Formats.{AreLimits};
ghost use Rattle.mix_text.specs.Limits.{MeetsLimits};
ghost use Rattle.mix_text.specs.Rows.{RestText, RowText, rows_of};
ghost use Rattle.mix_text.specs.Reading.{IsFromText, ReadsBids, header_of, read_at, bidders_of, bids_from, end_of, ends_bids, field_at, goods_at, goods_form_of, limit_of, list_limit_of, NamedBid, names_after, numbers_of, placed, reading_of, row_at, unless_past};

use crate::auction::Auction;
use crate::bid_limits::push_within;
use crate::bidders::Bidders;
use crate::cap_reading::{gives_cap, read_caps};
use crate::faults::{Code, Limit, TextError, What};
use crate::formats::{Limits, limits_of};
use crate::names::Names;
use crate::order_reading::{read_order, states_order};
use crate::rest::Rest;
use crate::row::Row;
use crate::row_list::rows;
use crate::row_reading::{
    fault, read_bid_row, read_end, read_header, read_numbers, row_begins, unless,
};
use crate::spelling::{Name, read_name};
use mix_bids::{Bid, BidList};
use mix_num::{Memory, Prices};
use std::alloc::Global;

// The limit that the row with this number passes.
fn limit(number: u64, what: What) -> TextError
    ensures { result ≡ TextError.Limit (record { at = number; what = what }) }
{
    TextError::Limit(Limit { at: number, what })
}

// The row at a place, or that the rows end too early.
fn row_or_end(rows: &[Row], k: usize) -> Result<&Row, TextError>
    ensures read { IfOk result (λ row. row_at rows.now k ≡ Ok row.now) }
    ensures wrong { IfErr result (λ e. row_at rows.now k ≡ Err e) }
{
    match rows.get(k) {
        Some(row) => Ok(row),
        None => Err(fault(rows.len() as u64 + 1, Code::End)),
    }
}

// Reads the name at a place of the row of the goods, unlike those before it, and adds it to these.
fn add_name(names: &mut Names, row: &Row, k: usize) -> Result<(), TextError>
    requires { k < length row.now.fields }
    ensures read { OnOk result ((rest : List (List ℕ)) → names_after names.old (field_at row.now.fields k ∷ rest) ≡ names_after names.new rest) }
    ensures wrong { IfErr result (λ e. (rest : List (List ℕ)) → IsFromText (placed row.now.number (names_after names.old (field_at row.now.fields k ∷ rest))) e) }
{
    let name = match read_name(row.field(k)) {
        Ok(name) => name,
        Err(code) => return Err(fault(row.number(), code)),
    };
    if names.contains(&name) {
        return Err(fault(row.number(), Code::Repeated));
    }
    names.push(name)?;
    Ok(())
}

// The names after the first field, all different.
fn read_names(alloc: Global, row: &Row) -> Result<Names, TextError>
    ensures read { IfOk result (λ names. names_after [] (drop 1 row.now.fields) ≡ Ok names) }
    ensures wrong { IfErr result (λ e. IsFromText (placed row.now.number (names_after [] (drop 1 row.now.fields))) e) }
{
    let mut names = Names::new(alloc);
    for k in 1..row.len() {
        add_name(&mut names, row, k)?;
    }
    Ok(names)
}

// Whether the row of the goods may stand there, by its word and its number of fields.
fn goods_form(row: &Row) -> Result<(), Code>
    ensures { result ≡ goods_form_of row.now.fields }
{
    unless(row_begins(row, b"goods"), Code::Place)?;
    unless(row.len() >= 2, Code::Fields)
}

// Reads the row of the goods.
#[tactic(auto, unfolding(crate::specs::Reading::goods_at, crate::specs::Reading::goods_row_of))]
fn read_goods(alloc: Global, limits: &Limits, row: &Row) -> Result<Names, TextError>
    ensures read { IfOk result (λ names. goods_at limits.now row.now ≡ Ok names) }
    ensures wrong { IfErr result (λ e. IsFromText (goods_at limits.now row.now) e) }
{
    if let Err(code) = goods_form(row) {
        return Err(fault(row.number(), code));
    }
    let names = read_names(alloc, row)?;
    if names.len() > limits.goods {
        return Err(limit(row.number(), What::Goods));
    }
    Ok(names)
}

// Adds the first bid of a new bidder, and gives the first limit that it passes.
fn add_bidder(
    alloc: Global,
    limits: &Limits,
    bidders: &mut Bidders,
    goods: usize,
    name: Name,
    bid: Bid,
) -> Result<Option<What>, Memory>
    requires limits { AreLimits limits.now }
    requires goods { (1 ≤ goods) × (goods ≤ 8) }
    requires absent { place_of name.bytes bidders.old ≡ None }
    requires bid { IsBid goods bid }
    ensures limit { IfOk result (λ limit. limit ≡ list_limit_of limits.now (record { goods = goods; bids = [] }) bid) }
    ensures added { IfOk result (λ limit. limit ≡ None → bidders.new ≡ bidders.old ++ (name.bytes, record { goods = goods; bids = bid ∷ [] }) ∷ []) }
{
    let mut list = BidList::new(alloc, goods);
    let limit = push_within(limits, &mut list, bid)?;
    bidders.add(name, list)?;
    Ok(limit)
}

// Adds a bid to the bidders of those before it, and gives the first limit that it passes. Where it passes one, the
// bidders are of no further use.
#[tactic(auto, using(crate::proofs::Bids::gathers_new, crate::proofs::Bids::limit_more))]
fn add_bid(
    alloc: Global,
    limits: &Limits,
    bidders: &mut Bidders,
    goods: usize,
    name: Name,
    bid: Bid,
) -> Result<Option<What>, Memory>
    requires limits { AreLimits limits.now }
    requires goods { (1 ≤ goods) × (goods ≤ 8) }
    requires bid { IsBid goods bid }
    requires gathered { (before : List NamedBid) × (bidders.old ≡ bidders_of goods before) }
    ensures limit { IfOk result (λ limit. (before : List NamedBid) → bidders.old ≡ bidders_of goods before → limit ≡ limit_of limits.now goods before (record { name = name.bytes; bid = bid })) }
    ensures added { IfOk result (λ limit. (before : List NamedBid) → bidders.old ≡ bidders_of goods before → limit ≡ None → bidders.new ≡ bidders_of goods (before ++ record { name = name.bytes; bid = bid } ∷ [])) }
{
    match bidders.find(&name) {
        Some(k) => bidders.push_within(k, limits, bid),
        None => {
            if bidders.count() >= limits.bidders {
                return Ok(Some(What::Bidders));
            }
            add_bidder(alloc, limits, bidders, goods, name, bid)
        }
    }
}

// Whether a row ends the bids.
fn ends_the_bids(format: u8, row: &Row) -> bool
    ensures { result ≡ ends_bids format row.now.fields }
{
    row_begins(row, b"end") || states_order(format, row) || gives_cap(format, row)
}

/// The bids of an auction by name, and the place of the row that ends them.
#[derive(Drop)]
struct Gathered {
    bidders: Bidders,
    end: usize,
}

// Reads the bids over `goods` goods from the fifth row on, up to the row that ends them.
fn read_bids(
    alloc: Global,
    format: u8,
    limits: &Limits,
    rows: &[Row],
    goods: usize,
) -> Result<Gathered, TextError>
    requires limits { AreLimits limits.now }
    requires goods { (1 ≤ goods) × (goods ≤ 8) }
    ensures read { IfOk result (λ read. ReadsBids format limits.now goods rows.now read.bidders read.end) }
    ensures wrong { IfErr result (λ e. IsFromText (bids_from format limits.now goods [] (drop 4 rows.now)) e) }
{
    let mut bidders = Bidders::new(alloc);
    for k in 4..rows.len() {
        let row = &rows[k];
        if ends_the_bids(format, row) {
            return Ok(Gathered { bidders, end: k });
        }
        let (name, bid) = match read_bid_row(row, goods) {
            Ok(named) => named,
            Err(code) => return Err(fault(row.number(), code)),
        };
        match add_bid(alloc, limits, &mut bidders, goods, name, bid) {
            Ok(None) => {}
            Ok(Some(what)) => return Err(limit(row.number(), what)),
            Err(Memory) => return Err(TextError::Memory),
        }
    }
    Ok(Gathered {
        bidders,
        end: rows.len(),
    })
}

// Reads the row at a place: a word, and an amount from 0 to 1,000,000 for each good.
fn read_amounts(rows: &[Row], k: usize, word: &[u8], goods: usize) -> Result<Prices, TextError>
    requires { goods ≤ 8 }
    ensures read { IfOk result (λ amounts. read_at rows.now k (numbers_of word.now goods (pos 0) (pos 1000000)) ≡ Ok amounts.items) }
    ensures wrong { IfErr result (λ e. read_at rows.now k (numbers_of word.now goods (pos 0) (pos 1000000)) ≡ Err e) }
{
    let row = row_or_end(rows, k)?;
    match read_numbers(row, word, goods, 0, 1_000_000) {
        Ok(amounts) => Ok(amounts),
        Err(code) => Err(fault(row.number(), code)),
    }
}

// Reads the first row, which names the format.
fn read_first(rows: &[Row]) -> Result<u8, TextError>
    ensures { result ≡ read_at rows.now 0 header_of }
{
    let row = row_or_end(rows, 0)?;
    match read_header(row) {
        Ok(format) => Ok(format),
        Err(code) => Err(fault(row.number(), code)),
    }
}

// Reads the last row of an auction, which stands at a place.
fn read_last(rows: &[Row], k: usize) -> Result<(), TextError>
    ensures { result ≡ read_at rows.now k end_of }
{
    let row = row_or_end(rows, k)?;
    match read_end(row) {
        Ok(()) => Ok(()),
        Err(code) => Err(fault(row.number(), code)),
    }
}

/// An auction, and the place after its last row.
#[derive(Drop)]
struct ReadRows {
    auction: Auction,
    after: usize,
}

// Reads the auction of these rows.
#[tactic(auto, unfolding(crate::specs::Reading::reading_of), using(crate::proofs::Steps::end_at))]
fn read_rows(alloc: Global, rows: &[Row]) -> Result<ReadRows, TextError>
    ensures read { IfOk result (λ read. reading_of rows.now ≡ Ok (auction_text read.auction, record { rows = drop read.after rows.now; next = length rows.now + 1 })) }
    ensures within { IfOk result (λ read. read.after ≤ length rows.now) }
    ensures wrong { IfErr result (λ e. IsFromText (reading_of rows.now) e) }
{
    let format = read_first(rows)?;
    let limits = limits_of(format);
    let goods = read_goods(alloc, &limits, row_or_end(rows, 1)?)?;
    let count = goods.len();
    let supply = read_amounts(rows, 2, b"supply", count)?;
    let reserve = read_amounts(rows, 3, b"reserve", count)?;
    let gathered = read_bids(alloc, format, &limits, rows, count)?;
    let capped = read_caps(alloc, format, &gathered.bidders, rows, gathered.end)?;
    let served = read_order(alloc, format, &gathered.bidders, rows, capped.after)?;
    read_last(rows, served.after)?;
    Ok(ReadRows {
        auction: Auction {
            format,
            goods,
            supply,
            reserve,
            bidders: gathered.bidders,
            caps: capped.caps,
            order: served.order,
        },
        after: served.after + 1,
    })
}

/// Reads the auction of a text of at most 16,777,216 bytes, and the rows after it.
///
/// The rows are looked at in order, and the first that has a fault or passes a limit decides, a fault before a limit
/// within a row. Where the rows end before `end`, that is the fault `End` of the row that would come next.
/// The auction that is read keeps to the limits of its format. Every format lets 400 bids of each bidder stand. Format 1
/// has at most 5 goods, 64 bidders, and of each bidder 12 bids of negative weight; formats 2 and 3 have at most 8 goods,
/// 256 bidders, and of each bidder's list 4,194,304 cells. A bidder has the cap of its row `cap`, which format 3 may have
/// after the bids, or else none. The tie order is that of the row `order`, which formats 2 and 3 may have before `end`, or
/// else that of first appearance. `Memory` may come in place of any answer.
pub fn read_auction(alloc: Global, text: &[u8]) -> Result<(Auction, Rest), TextError>
    requires { length text.now ≤ 16777216 }
    ensures read { IfOk result (λ p. reading_of (rows_of text.now) ≡ Ok (auction_text p.0, p.1)) }
    ensures limits { IfOk result (λ p. MeetsLimits (auction_text p.0)) }
    ensures wrong { IfErr result (λ e. IsFromText (reading_of (rows_of text.now)) e) }
{
    let list = rows(alloc, text)?;
    let read = read_rows(alloc, list.rows())?;
    Ok((read.auction, Rest::after(list, read.after)))
}
