// The auction in which all that the bidders own is offered beside the supply.
ghost use Rattle.std.specs.Prelude.{◌≡◌, ◌<◌, ◌≤ℤ◌, pos, length, All, IfOk};
ghost use Rattle.mix_num.specs.Sellers.{AreAmounts, IsAmount};
ghost use Rattle.mix_text.specs.AuctionTexts.{auction_text};
ghost use Rattle.mix_text.specs.Limits.{MeetsLimits};
ghost use Rattle.mix_own.specs.Owned.{AreOwned, gross_of, gross_supply as gross_supply_of, owned_of_good};

use crate::owned::Owned;
use mix_num::{Bundle, Memory};
use mix_text::Auction;
use std::alloc::Global;

/// What all bidders own of the good at a place, from 0: at most 1,000,000 units.
pub(crate) fn together(owned: &Owned, i: usize) -> i64
    requires amounts { All (λ bundle. (i < length bundle) × All IsAmount bundle) owned.now }
    requires most { owned_of_good owned.now i ≤ℤ pos 1000000 }
    ensures value { result ≡ owned_of_good owned.now i }
    ensures range { IsAmount result }
{
    let mut sum = 0;
    for k in 0..owned.count() {
        sum += owned.get(k)[i];
    }
    sum
}

// The supply of each good and all that is owned of it.
fn gross_supply(auction: &Auction, owned: &Owned) -> Bundle
    requires { AreOwned (auction_text auction.now) owned.now }
    ensures value { result.items ≡ gross_supply_of auction.now.supply.items owned.now }
    ensures range { AreAmounts (length auction.now.goods) result.items }
{
    let mut supply = Bundle::new();
    for (i, amount) in auction.supply.iter().enumerate() {
        supply.push(*amount + together(owned, i));
    }
    supply
}

/// The same auction, but the supply of each good is what it was and all that the bidders own of the good. It keeps to the
/// limits of its format where the auction does.
///
/// What is owned is told of each bidder of the auction, in the same order: from 0 to 1,000,000 units of each good. A good
/// of which a bidder owns a unit has the reserve price 0, and its supply and all that is owned of it are at most 1,000,000
/// units together. The one error is want of memory.
pub fn gross(alloc: Global, auction: &Auction, owned: &Owned) -> Result<Auction, Memory>
    requires { AreOwned (auction_text auction.now) owned.now }
    ensures value { IfOk result (λ gross. auction_text gross ≡ gross_of (auction_text auction.now) owned.now) }
    ensures limits { IfOk result (λ gross. MeetsLimits (auction_text auction.now) → MeetsLimits (auction_text gross)) }
{
    let copy = auction.copy(alloc)?;
    Ok(Auction {
        format: copy.format,
        goods: copy.goods,
        supply: gross_supply(auction, owned),
        reserve: copy.reserve,
        bidders: copy.bidders,
        caps: copy.caps,
        order: copy.order,
    })
}
