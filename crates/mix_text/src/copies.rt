// Copies of an auction: an equal one, and the same in format 2.
ghost use Rattle.std.specs.Prelude.{◌≡◌, IfOk};
ghost use Rattle.mix_text.specs.AuctionTexts.{auction_text};
ghost use Rattle.mix_text.specs.Limits.{MeetsLimits};

use crate::auction::Auction;
use mix_num::{Bundle, Memory};
use std::alloc::Global;

// Equal amounts.
fn copied(amounts: &Bundle) -> Bundle
    ensures { result.items ≡ amounts.now.items }
{
    let mut copy = Bundle::new();
    for amount in amounts.as_slice() {
        copy.push(*amount);
    }
    copy
}

impl Auction {
    /// An equal auction, or want of memory.
    pub fn copy(&self, alloc: Global) -> Result<Auction, Memory>
        ensures { IfOk result (λ copy. auction_text copy ≡ auction_text self.now) }
    {
        Ok(Auction {
            format: self.format,
            goods: self.goods.copy(alloc)?,
            supply: copied(&self.supply),
            reserve: copied(&self.reserve),
            bidders: self.bidders.copy(alloc)?,
            caps: self.caps.copy(alloc)?,
            order: self.order.copy(alloc)?,
        })
    }
}

/// The same auction in format 2, which adds to format 1 that a text may state the tie order. It keeps to the limits of
/// format 2 where the auction keeps to those of format 1: few bids of negative weight over few goods have few cells.
///
/// The auction's format is 1. The one error is want of memory.
#[tactic(auto, using(crate::proofs::Upgrades::is_of_two, crate::proofs::Upgrades::meets_limits_of_two))]
pub fn upgrade(alloc: Global, auction: &Auction) -> Result<Auction, Memory>
    requires { auction.now.format ≡ 1 }
    ensures same { IfOk result (λ upgraded. auction_text upgraded ≡ record (auction_text auction.now) { format = 2 }) }
    ensures limits { IfOk result (λ upgraded. MeetsLimits (auction_text auction.now) → MeetsLimits (auction_text upgraded)) }
{
    let copy = auction.copy(alloc)?;
    Ok(Auction {
        format: 2,
        goods: copy.goods,
        supply: copy.supply,
        reserve: copy.reserve,
        bidders: copy.bidders,
        caps: copy.caps,
        order: copy.order,
    })
}
