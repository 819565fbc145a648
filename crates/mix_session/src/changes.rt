// A bid that is added, and a bidder that leaves, with what is known of the bidders.
ghost use Rattle.std.specs.Prelude.{◌≡◌, None, false, is_ok, is_some, length, IfErr, OnErr, OnOk};
ghost use Rattle.mix_bids.specs.Bids.{IsBid};
ghost use Rattle.mix_text.specs.Auctions.{IsAuction};
ghost use Rattle.mix_text.specs.AuctionTexts.{auction_text};
ghost use Rattle.mix_text.specs.Bidders.{place_of};
ghost use Rattle.mix_text.specs.Changes.{limit_of_added, with_added, without};
ghost use Rattle.mix_session.specs.Additions.{IsWhyNot, is_capped_negative as is_capped_negative_of};
ghost use Rattle.mix_session.specs.Standings.{AreStandings};

use crate::faults::{AddError, NoBidder};
use crate::standing::Standing;
use mix_bids::{Bid, Values};
use mix_num::Memory;
use mix_text::{Auction, Name};
use std::alloc::Global;

// Whether a bid of this name has negative weight though its bidder has a cap.
fn is_capped_negative(auction: &Auction, name: &Name, bid: &Bid) -> bool
    ensures { result ≡ is_capped_negative_of (auction_text auction.now) name.now.bytes bid.now }
{
    auction.cap_of_name(name).is_some() && bid.weight < 0
}

// The same bid.
fn copy(bid: &Bid) -> Bid
    ensures { result ≡ bid.now }
{
    Bid {
        weight: bid.weight,
        values: Values::try_from(bid.values.as_slice()).unwrap(),
    }
}

/// Why a bid of this name may not be added to an auction, or nothing where it may.
pub(crate) fn test_added(
    alloc: Global,
    auction: &Auction,
    name: &Name,
    bid: &Bid,
) -> Result<(), AddError>
    requires { IsBid (length auction.now.goods) bid.now }
    ensures weight { OnOk result (is_capped_negative_of (auction_text auction.now) name.now.bytes bid.now ≡ false) }
    ensures limit { OnOk result (limit_of_added (auction_text auction.now) name.now.bytes bid.now ≡ None) }
    ensures err { IfErr result (IsWhyNot (auction_text auction.now) name.now.bytes bid.now) }
{
    if is_capped_negative(auction, name, bid) {
        return Err(AddError::Weight);
    }
    match auction.limit_of_added(alloc, name, copy(bid))? {
        None => Ok(()),
        Some(what) => Err(AddError::Limit(what)),
    }
}

// Adds the first bid of a new bidder, of whom nothing is known. Where memory is wanting, nothing changes.
fn join(
    auction: &mut Auction,
    standings: &mut Vec<Standing>,
    name: &Name,
    bid: Bid,
) -> Result<(), Memory>
    requires absent { place_of name.now.bytes auction.old.bidders ≡ None }
    requires bid { IsBid (length auction.old.goods) bid }
    requires keeps { IsAuction (with_added (auction_text auction.old) name.now.bytes bid) }
    requires stand { AreStandings (auction_text auction.old) standings.old.items }
    ensures ok { OnOk result (auction_text auction.new ≡ with_added (auction_text auction.old) name.now.bytes bid) }
    ensures err { OnErr result (auction_text auction.new ≡ auction_text auction.old) }
    ensures stand { AreStandings (auction_text auction.new) standings.new.items }
{
    let Ok(()) = standings.push(Standing::Open) else {
        return Err(Memory);
    };
    let Ok(()) = auction.add_bid(name, bid) else {
        standings.pop();
        return Err(Memory);
    };
    Ok(())
}

/// Adds a bid of this name, after which nothing is known of its bidder. Where memory is wanting, nothing changes.
pub(crate) fn add_to(
    auction: &mut Auction,
    standings: &mut Vec<Standing>,
    name: &Name,
    bid: Bid,
) -> Result<(), Memory>
    requires bid { IsBid (length auction.old.goods) bid }
    requires keeps { IsAuction (with_added (auction_text auction.old) name.now.bytes bid) }
    requires stand { AreStandings (auction_text auction.old) standings.old.items }
    ensures ok { OnOk result (auction_text auction.new ≡ with_added (auction_text auction.old) name.now.bytes bid) }
    ensures err { OnErr result (auction_text auction.new ≡ auction_text auction.old) }
    ensures stand { AreStandings (auction_text auction.new) standings.new.items }
{
    let Some(k) = auction.bidders.find(name) else {
        return join(auction, standings, name, bid);
    };
    auction.add_bid(name, bid)?;
    standings[k] = Standing::Open;
    Ok(())
}

/// Takes the bidder of this name out, with what is known of it. Where none has the name, nothing changes.
pub(crate) fn drop_from(
    auction: &mut Auction,
    standings: &mut Vec<Standing>,
    name: &Name,
) -> Result<(), NoBidder>
    requires { AreStandings (auction_text auction.old) standings.old.items }
    ensures found { is_ok result ≡ is_some (place_of name.now.bytes auction.old.bidders) }
    ensures ok { OnOk result (auction_text auction.new ≡ without (auction_text auction.old) name.now.bytes) }
    ensures err { OnErr result (auction_text auction.new ≡ auction_text auction.old) }
    ensures stand { AreStandings (auction_text auction.new) standings.new.items }
{
    let Some(k) = auction.bidders.find(name) else {
        return Err(NoBidder);
    };
    auction.drop_bidder(name);
    standings.remove(k);
    Ok(())
}
