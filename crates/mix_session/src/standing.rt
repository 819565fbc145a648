// What is known of a bidder, and what the bidders in order come to.
ghost use Rattle.std.specs.Prelude.{◌≡◌, ◌<◌, length, IfOk, OnOk, MatchOption};
ghost use Rattle.mix_text.specs.AuctionTexts.{auction_text};
ghost use Rattle.mix_answer.specs.Refusals.{IsTrueRefusal};
ghost use Rattle.mix_answer.specs.Utilities.{entrant_at};
ghost use Rattle.mix_serve.specs.Admissions.{IsRefusedAt};
ghost use Rattle.mix_session.specs.Standings.{AreStandings, AreTakenIn, HasStanding, IsKnown, IsTakenIn};

use mix_answer::Refusal;
use mix_cap::Member;
use mix_num::{Memory, copy};
use mix_serve::{Stopped, admit_bidder};
use mix_text::Auction;
use mix_validity::NotValid;
use std::alloc::Global;

/// What is known of a bidder.
#[derive(Drop)]
pub(crate) enum Standing {
    /// Nothing yet.
    Open,
    /// It is convex, and stands as this member.
    Convex(Member),
    /// It isn't convex, as this facet shows.
    Refused(NotValid),
}

// A refusal as the facet that it tells, without the bidder's place.
fn facet_of(refusal: Refusal) -> NotValid
    ensures { result ≡ record { first = refusal.first; second = refusal.second; prices = refusal.prices; weight = refusal.weight } }
{
    NotValid {
        first: refusal.first,
        second: refusal.second,
        prices: refusal.prices,
        weight: refusal.weight,
    }
}

// The refusal of the bidder at a place, by a facet of its list.
fn refusal_by(facet: &NotValid, bidder: usize) -> Refusal
    ensures { result ≡ record { bidder = bidder; first = facet.now.first; second = facet.now.second; prices = facet.now.prices; weight = facet.now.weight } }
{
    Refusal {
        bidder,
        first: facet.first,
        second: facet.second,
        prices: copy(&facet.prices),
        weight: facet.weight,
    }
}

// What is found of the bidder at a place.
fn found_at(alloc: Global, auction: &Auction, k: usize) -> Result<Standing, Memory>
    requires { k < length auction.now.bidders }
    ensures stands { IfOk result (HasStanding (entrant_at (auction_text auction.now) k)) }
    ensures known { IfOk result IsKnown }
{
    match admit_bidder(alloc, auction, k) {
        Ok(member) => Ok(Standing::Convex(member)),
        Err(Stopped::Refused(refusal)) => Ok(Standing::Refused(facet_of(refusal))),
        Err(Stopped::Memory) => Err(Memory),
    }
}

// Finds of the bidder at a place what isn't known yet. Where memory is wanting, what is known stays as it is.
fn find_at(
    alloc: Global,
    auction: &Auction,
    k: usize,
    standing: &mut Standing,
) -> Result<(), Memory>
    requires place { k < length auction.now.bidders }
    requires stands { HasStanding (entrant_at (auction_text auction.now) k) standing.old }
    ensures stands { HasStanding (entrant_at (auction_text auction.now) k) standing.new }
    ensures known { OnOk result (IsKnown standing.new) }
{
    if let Standing::Open = standing {
        *standing = found_at(alloc, auction, k)?;
    }
    Ok(())
}

// The refusal of the bidder at a place, of whom it is known whether it is convex, where it isn't.
fn refusal_at(auction: &Auction, k: usize, standing: &Standing) -> Option<Refusal>
    requires place { k < length auction.now.bidders }
    requires stands { HasStanding (entrant_at (auction_text auction.now) k) standing.now }
    requires known { IsKnown standing.now }
    ensures { MatchOption result (IsTakenIn standing.now) (λ r. IsRefusedAt (auction_text auction.now) k (Stopped.Refused r)) }
{
    match standing {
        Standing::Refused(facet) => Some(refusal_by(facet, k)),
        _ => None,
    }
}

/// The refusal of the first bidder that isn't convex, or None where all are.
///
/// Bidders of whom nothing is known yet are looked at in order, up to the first that isn't convex, and what is found of them is kept.
/// Where memory is wanting, what was found before is kept as well.
pub(crate) fn first_refusal(
    alloc: Global,
    auction: &Auction,
    standings: &mut [Standing],
) -> Result<Option<Refusal>, Memory>
    requires { AreStandings (auction_text auction.now) standings.old }
    ensures stand { AreStandings (auction_text auction.now) standings.new }
    ensures found { IfOk result (λ found. MatchOption found (AreTakenIn standings.new) (IsTrueRefusal (auction_text auction.now))) }
{
    for k in 0..auction.count() {
        let standing = &mut standings[k];
        find_at(alloc, auction, k, standing)?;
        if let Some(refusal) = refusal_at(auction, k, standing) {
            return Ok(Some(refusal));
        }
    }
    Ok(None)
}
