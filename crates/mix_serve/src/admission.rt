// Whether the bidders of an auction can be taken in: each must be convex. One with a cap always is.
ghost use Rattle.std.specs.Prelude.{◌≡◌, ◌<◌, length, map, IfErr, IfOk};
ghost use Rattle.mix_bids.specs.Convexity.{IsConvexList};
ghost use Rattle.mix_validity.specs.ValidLists.{book_of};
ghost use Rattle.mix_text.specs.AuctionTexts.{auction_text};
ghost use Rattle.mix_answer.specs.Refusals.{AreConvex};
ghost use Rattle.mix_answer.specs.Utilities.{IsConvexEntrant, entrant_at, entrants_of};
ghost use Rattle.mix_serve.specs.Admissions.{IsAdmitted, IsListRefused, IsRefusedAt, IsRefusedFirst, entrant_of};

use mix_answer::Refusal;
use mix_bids::BidList;
use mix_cap::{Capped, Member};
use mix_market::Market;
use mix_num::Memory;
use mix_seller::Seller;
use mix_text::Auction;
use mix_validity::{Refused, ValidList, validate};
use std::alloc::Global;

/// What comes of taking in the bidders of an auction.
#[derive(Drop)]
pub enum Admitted {
    /// A bidder isn't convex.
    Refused(Refusal),
    /// All bidders in order, and the seller.
    Market(Market<Member>),
}

/// Why a bidder isn't taken in.
#[derive(Drop)]
pub enum Stopped {
    /// It isn't convex.
    Refused(Refusal),
    /// Memory was wanting.
    Memory,
}

/// The market of all bidders of an auction in order and of its seller, where each bidder is convex over all rational prices; else a
/// refusal of the first bidder that isn't, with a facet of its list that has negative weight.
///
/// `Memory` comes where memory is wanting.
pub fn admit(alloc: Global, auction: &Auction) -> Result<Admitted, Memory>
    ensures { IfOk result (IsAdmitted (auction_text auction.now)) }
{
    match members(alloc, auction) {
        Ok(members) => {
            let seller = Seller::new(&auction.supply, &auction.reserve);
            Ok(Admitted::Market(Market::new(members, seller)))
        }
        Err(Stopped::Refused(refusal)) => Ok(Admitted::Refused(refusal)),
        Err(Stopped::Memory) => Err(Memory),
    }
}

// All bidders in order, or a refusal of the first one that isn't convex.
#[tactic(auto, using(crate::proofs::MembersInOrder::one_more, crate::proofs::MembersInOrder::refused_first))]
fn members(alloc: Global, auction: &Auction) -> Result<Vec<Member>, Stopped>
    ensures members { IfOk result (λ members. map entrant_of members.items ≡ entrants_of (auction_text auction.now)) }
    ensures convex { IfOk result (λ members. AreConvex (auction_text auction.now)) }
    ensures refused { IfErr result (IsRefusedFirst (auction_text auction.now)) }
{
    let mut members = Vec::new(alloc);
    for k in 0..auction.count() {
        let member = admit_bidder(alloc, auction, k)?;
        let Ok(()) = members.push(member) else {
            return Err(Stopped::Memory);
        };
    }
    Ok(members)
}

/// The bidder at a place, from 0, where it is convex over all rational prices; else a refusal of it, with a facet of its list that has
/// negative weight.
///
/// `Memory` comes where memory is wanting.
pub fn admit_bidder(alloc: Global, auction: &Auction, k: usize) -> Result<Member, Stopped>
    requires { k < length auction.now.bidders }
    ensures entrant { IfOk result (λ member. entrant_of member ≡ entrant_at (auction_text auction.now) k) }
    ensures convex { IfOk result (λ member. IsConvexEntrant (entrant_at (auction_text auction.now) k)) }
    ensures refused { IfErr result (IsRefusedAt (auction_text auction.now) k) }
{
    let (_, list) = auction.bidder(k);
    let Ok(copy) = list.copy(alloc) else {
        return Err(Stopped::Memory);
    };
    match auction.cap(k) {
        Some(cap) => Ok(Member::Capped(Capped::new(copy, cap))),
        None => Ok(Member::List(valid_list(alloc, copy, k)?)),
    }
}

// The list as a valid one, or a refusal of its bidder, who stands at this place.
fn valid_list(alloc: Global, list: BidList, bidder: usize) -> Result<ValidList, Stopped>
    ensures list { IfOk result (λ valid. book_of valid ≡ list) }
    ensures convex { IfOk result (λ valid. IsConvexList list.bids) }
    ensures refused { IfErr result (IsListRefused list bidder) }
{
    match validate(alloc, list) {
        Ok(valid) => Ok(valid),
        Err(Refused::NotValid(facet)) => Err(Stopped::Refused(Refusal {
            bidder,
            first: facet.first,
            second: facet.second,
            prices: facet.prices,
            weight: facet.weight,
        })),
        Err(Refused::Memory) => Err(Stopped::Memory),
    }
}
