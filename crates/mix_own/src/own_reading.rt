// What a row says that a bidder owns, or the code of the first of its tests that fails.
ghost use Rattle.std.specs.Prelude.{◌≡◌, ◌<◌, ◌+◌, [], Ok, Err, length, drop, get_or, pos, IfOk, IfErr, OnOk};
ghost use Rattle.mix_num.specs.Sellers.{IsAmount};
ghost use Rattle.mix_text.specs.AuctionTexts.{auction_text};
ghost use Rattle.mix_text.specs.Reading.{bidder_of, field_at};
ghost use Rattle.mix_own.specs.Owned.{AreOwned};
ghost use Rattle.mix_own.specs.Readings.{FitsRoom, IsSoFar, own_number_of, own_numbers_after, own_row_of, room_of};

use crate::offering::together;
use crate::owned::Owned;
use mix_num::Bundle;
use mix_text::{Auction, Bidders, Code, Row, read_name, read_number, unless};

// How many units of the good at a place, from 0, may be owned beside the supply and what is owned so far.
fn room(auction: &Auction, owned: &Owned, i: usize) -> i64
    requires owned { AreOwned (auction_text auction.now) owned.now }
    requires good { i < length auction.now.goods }
    ensures value { result ≡ room_of (auction_text auction.now) owned.now i }
    ensures range { IsAmount result }
{
    1_000_000 - auction.supply[i] - together(owned, i)
}

// The number of units of a good of this reserve and room that a field says a bidder owns.
#[tactic(auto, unfolding(crate::specs::Readings::own_number_of))]
fn read_units(field: &[u8], reserve: i64, room: i64) -> Result<i64, Code>
    ensures { result ≡ own_number_of reserve room field.now }
{
    let units = read_number(field, 0, 1_000_000)?;
    unless(units <= 0 || reserve == 0, Code::Other)?;
    unless(units <= room, Code::Range)?;
    Ok(units)
}

// The number of units of each good that the fields after the bidder's name say.
fn read_each_units(auction: &Auction, owned: &Owned, row: &Row) -> Result<Bundle, Code>
    requires owned { AreOwned (auction_text auction.now) owned.now }
    requires fields { length row.now.fields ≡ length auction.now.goods + 2 }
    ensures read { IfOk result (λ bundle. own_numbers_after (auction_text auction.now) owned.now [] (drop 2 row.now.fields) ≡ Ok bundle.items) }
    ensures fit { IfOk result (λ bundle. FitsRoom (auction_text auction.now) owned.now (length auction.now.goods) bundle.items) }
    ensures wrong { IfErr result (λ code. own_numbers_after (auction_text auction.now) owned.now [] (drop 2 row.now.fields) ≡ Err code) }
{
    let mut bundle = Bundle::new();
    for i in 0..auction.goods.len() {
        let room = room(auction, owned, i);
        match read_units(row.field(i + 2), auction.reserve[i], room) {
            Ok(units) => bundle.push(units),
            Err(code) => return Err(code),
        }
    }
    Ok(bundle)
}

// The place of the bidder whom a field names.
fn read_bidder(bidders: &Bidders, field: &[u8]) -> Result<usize, Code>
    ensures place { result ≡ bidder_of bidders.now field.now }
    ensures within { IfOk result (λ k. k < length bidders.now) }
{
    let name = read_name(field)?;
    match bidders.find(&name) {
        Some(k) => Ok(k),
        None => Err(Code::Other),
    }
}

/// Reads the row of a bidder, whose word is known, and marks the bidder.
#[tactic(auto, unfolding(crate::specs::Readings::own_row_of))]
pub(crate) fn read_own(
    auction: &Auction,
    row: &Row,
    owned: &mut Owned,
    told: &mut [bool],
) -> Result<(), Code>
    requires { IsSoFar (auction_text auction.now) (record { owned = owned.old; told = told.old }) }
    ensures read { OnOk result (own_row_of (auction_text auction.now) (record { owned = owned.old; told = told.old }) row.now.fields ≡ Ok (record { owned = owned.new; told = told.new })) }
    ensures sound { OnOk result (IsSoFar (auction_text auction.now) (record { owned = owned.new; told = told.new })) }
    ensures wrong { IfErr result (λ code. own_row_of (auction_text auction.now) (record { owned = owned.old; told = told.old }) row.now.fields ≡ Err code) }
{
    unless(row.len() == auction.goods.len() + 2, Code::Fields)?;
    let k = read_bidder(&auction.bidders, row.field(1))?;
    unless(!told[k], Code::Repeated)?;
    let bundle = read_each_units(auction, owned, row)?;
    owned.set(k, bundle);
    told[k] = true;
    Ok(())
}
