// The tests of bundles and payments, bidder by bidder.
ghost use Rattle.std.specs.Prelude.{◌∷◌, [], IfErr, IfOk};
ghost use Rattle.mix_text.specs.AuctionTexts.{auction_text};
ghost use Rattle.mix_answer.specs.Refusals.{AreConvex};
ghost use Rattle.mix_answer.specs.Shapes.{HasAnswerShape};
ghost use Rattle.mix_answer.specs.declared.outcome.Outcome.TheVariants.{Cleared};
ghost use Rattle.mix_check.specs.Orders.{IsFirstReason, NoneBefore};
ghost use Rattle.mix_check.specs.Tests.{AreDemanded, ArePaid, AreTablesAt};

use crate::reason::Reason;
use crate::tables::AllTables;
use mix_answer::Answer;
use mix_demand::is_demanded;
use mix_pay::pay;
use mix_text::Auction;

/// Each bidder demands its bundle at the prices.
pub fn demanded(auction: &Auction, answer: &Answer, tables: &AllTables) -> Result<(), Reason>
    requires shape { HasAnswerShape (auction_text auction.now) answer.now }
    requires tables { AreTablesAt (auction_text auction.now) answer.now.prices.items tables.now }
    requires convex { AreConvex (auction_text auction.now) }
    requires before { NoneBefore (auction_text auction.now) (Cleared answer.now) (6 ∷ []) }
    ensures passed { IfOk result (λ done. AreDemanded (auction_text auction.now) answer.now) }
    ensures next { IfOk result (λ done. NoneBefore (auction_text auction.now) (Cleared answer.now) (7 ∷ [])) }
    ensures reason { IfErr result (IsFirstReason (auction_text auction.now) (Cleared answer.now)) }
{
    for bidder in 0..auction.count() {
        if let Some(set) = is_demanded(&tables.bidders[bidder], &answer.shares.get(bidder).bundle) {
            return Err(Reason::Demand { bidder, set });
        }
    }
    Ok(())
}

/// Each bidder pays price times quantity.
pub fn paid(auction: &Auction, answer: &Answer) -> Result<(), Reason>
    requires shape { HasAnswerShape (auction_text auction.now) answer.now }
    requires before { NoneBefore (auction_text auction.now) (Cleared answer.now) (8 ∷ []) }
    ensures passed { IfOk result (λ done. ArePaid (auction_text auction.now) answer.now) }
    ensures next { IfOk result (λ done. NoneBefore (auction_text auction.now) (Cleared answer.now) (9 ∷ [])) }
    ensures reason { IfErr result (IsFirstReason (auction_text auction.now) (Cleared answer.now)) }
{
    for bidder in 0..auction.count() {
        let share = answer.shares.get(bidder);
        let amount = pay(&answer.prices, &share.bundle);
        if share.payment != amount {
            return Err(Reason::Pay { bidder, amount });
        }
    }
    Ok(())
}
