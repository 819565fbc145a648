// The tests of prices and amounts, good by good.
ghost use Rattle.std.specs.Prelude.{◌≡◌, ◌<◌, ◌≤◌, ◌∷◌, [], pos, length, map, All, IfErr, IfOk};
ghost use Rattle.mix_num.specs.Ranges.{Lies};
ghost use Rattle.mix_num.specs.Sellers.{IsAmount};
ghost use Rattle.mix_num.specs.Shares.{sum_at};
ghost use Rattle.mix_text.specs.AuctionTexts.{auction_text};
ghost use Rattle.mix_answer.specs.Shapes.{HasAnswerShape};
ghost use Rattle.mix_answer.specs.declared.outcome.Outcome.TheVariants.{Cleared};
ghost use Rattle.mix_check.specs.Orders.{IsFirstReason, NoneBefore};
ghost use Rattle.mix_check.specs.Tests.{AddUp, AreAboveReserves, AreReturnedAtReserves};

use crate::reason::Reason;
use mix_answer::{Answer, Shares};
use mix_text::Auction;

/// No price is below its reserve.
pub fn above_reserves(auction: &Auction, answer: &Answer) -> Result<(), Reason>
    requires shape { HasAnswerShape (auction_text auction.now) answer.now }
    requires before { NoneBefore (auction_text auction.now) (Cleared answer.now) (3 ∷ []) }
    ensures passed { IfOk result (λ done. AreAboveReserves (auction_text auction.now) answer.now) }
    ensures next { IfOk result (λ done. NoneBefore (auction_text auction.now) (Cleared answer.now) (4 ∷ [])) }
    ensures reason { IfErr result (IsFirstReason (auction_text auction.now) (Cleared answer.now)) }
{
    for good in 0..answer.prices.len() {
        if answer.prices[good] < auction.reserve[good] {
            return Err(Reason::Floor { good });
        }
    }
    Ok(())
}

/// The bundles and the returns of each good add up to its supply.
pub fn add_up(auction: &Auction, answer: &Answer) -> Result<(), Reason>
    requires shape { HasAnswerShape (auction_text auction.now) answer.now }
    requires before { NoneBefore (auction_text auction.now) (Cleared answer.now) (4 ∷ []) }
    ensures passed { IfOk result (λ done. AddUp (auction_text auction.now) answer.now) }
    ensures next { IfOk result (λ done. NoneBefore (auction_text auction.now) (Cleared answer.now) (5 ∷ [])) }
    ensures reason { IfErr result (IsFirstReason (auction_text auction.now) (Cleared answer.now)) }
{
    for good in 0..answer.returns.len() {
        let sum = given(&answer.shares, good) + answer.returns[good];
        if sum != auction.supply[good] {
            return Err(Reason::Sum { good, sum });
        }
    }
    Ok(())
}

/// What the bidders get of a good together.
fn given(shares: &Shares, good: usize) -> i64
    requires few { length shares.now ≤ 256 }
    requires amounts { All (λ share. (good < length share.bundle.items) × All IsAmount share.bundle.items) shares.now }
    ensures value { result ≡ sum_at (map (λ share. share.bundle.items) shares.now) good }
    ensures range { Lies 256000000 result }
{
    let mut sum = 0;
    for k in 0..shares.len() {
        sum += shares.get(k).bundle[good];
    }
    sum
}

/// What is returned is returned at the reserve.
pub fn returned_at_reserves(auction: &Auction, answer: &Answer) -> Result<(), Reason>
    requires shape { HasAnswerShape (auction_text auction.now) answer.now }
    requires before { NoneBefore (auction_text auction.now) (Cleared answer.now) (5 ∷ []) }
    ensures passed { IfOk result (λ done. AreReturnedAtReserves (auction_text auction.now) answer.now) }
    ensures next { IfOk result (λ done. NoneBefore (auction_text auction.now) (Cleared answer.now) (6 ∷ [])) }
    ensures reason { IfErr result (IsFirstReason (auction_text auction.now) (Cleared answer.now)) }
{
    for good in 0..answer.returns.len() {
        if answer.returns[good] > 0 && answer.prices[good] != auction.reserve[good] {
            return Err(Reason::Return { good });
        }
    }
    Ok(())
}
