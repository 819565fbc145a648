// The bidders as members of the market, tested for convexity.
ghost use Rattle.std.specs.Prelude.{◌≡◌, ◌<◌, ◌≤◌, length, Bool, true, false, IfOk, MatchOption};
ghost use Rattle.mix_bids.specs.Convexity.{IsConvexList};
ghost use Rattle.mix_text.specs.AuctionTexts.{auction_text};
ghost use Rattle.mix_text.specs.Bidders.{list_at};
ghost use Rattle.mix_validity.specs.ValidLists.{book_of};
ghost use Rattle.mix_answer.specs.Refusals.{AreConvexBefore};
ghost use Rattle.mix_answer.specs.Utilities.{IsConvexEntrant, entrant_at};
ghost use Rattle.mix_check.specs.Tests.{IsFirstInvalid, StandsFor, TellsConvex};

use mix_cap::{Capped, Member};
use mix_num::Memory;
use mix_text::Auction;
use mix_validity::{Refused, ValidList, validate};
use std::alloc::Global;

/// The bidder at a place, from 0, as a member; None where it isn't convex. A bidder with a cap always is.
pub fn member(alloc: Global, auction: &Auction, k: usize) -> Result<Option<Member>, Memory>
    requires { k < length auction.now.bidders }
    ensures { IfOk result (λ found. MatchOption found (¬ IsConvexEntrant (entrant_at (auction_text auction.now) k)) (StandsFor (auction_text auction.now) k)) }
{
    match auction.cap(k) {
        Some(cap) => {
            let (_, list) = auction.bidder(k);
            let copy = list.copy(alloc)?;
            Ok(Some(Member::Capped(Capped::new(copy, cap))))
        }
        None => match valid_list(alloc, auction, k)? {
            Some(valid) => Ok(Some(Member::List(valid))),
            None => Ok(None),
        },
    }
}

/// The first of so many bidders that isn't convex.
pub fn first_invalid(
    alloc: Global,
    auction: &Auction,
    count: usize,
) -> Result<Option<usize>, Memory>
    requires { count ≤ length auction.now.bidders }
    ensures { IfOk result (λ found. MatchOption found (AreConvexBefore (auction_text auction.now) count) (IsFirstInvalid (auction_text auction.now) count)) }
{
    for k in 0..count {
        if !is_convex(alloc, auction, k)? {
            return Ok(Some(k));
        }
    }
    Ok(None)
}

/// Whether the bidder at a place, from 0, is convex.
fn is_convex(alloc: Global, auction: &Auction, k: usize) -> Result<bool, Memory>
    requires { k < length auction.now.bidders }
    ensures { IfOk result (TellsConvex (auction_text auction.now) k) }
{
    match auction.cap(k) {
        Some(_) => Ok(true),
        None => Ok(valid_list(alloc, auction, k)?.is_some()),
    }
}

/// The list of the bidder at a place, from 0; None where it isn't convex.
fn valid_list(alloc: Global, auction: &Auction, k: usize) -> Result<Option<ValidList>, Memory>
    requires { k < length auction.now.bidders }
    ensures list { IfOk result (λ found. MatchOption found (¬ IsConvexList (list_at auction.now.bidders k).bids) (λ valid. book_of valid ≡ list_at auction.now.bidders k)) }
    ensures convex { IfOk result (λ found. MatchOption found (¬ IsConvexList (list_at auction.now.bidders k).bids) (λ valid. IsConvexList (list_at auction.now.bidders k).bids)) }
{
    let (_, list) = auction.bidder(k);
    let copy = list.copy(alloc)?;
    match validate(alloc, copy) {
        Ok(valid) => Ok(Some(valid)),
        Err(Refused::NotValid(_)) => Ok(None),
        Err(Refused::Memory) => Err(Memory),
    }
}
