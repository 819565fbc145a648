// The test that the prices are the least that clear: no set of goods can fall by one without a rise of the Lyapunov function.
ghost use Rattle.std.specs.Prelude.{◌∷◌, [], IfErr, IfOk};
ghost use Rattle.mix_text.specs.AuctionTexts.{auction_text};
ghost use Rattle.mix_answer.specs.Shapes.{HasAnswerShape};
ghost use Rattle.mix_answer.specs.declared.outcome.Outcome.TheVariants.{Cleared};
ghost use Rattle.mix_check.specs.Orders.{IsFirstReason, NoneBefore};
ghost use Rattle.mix_check.specs.Tests.{AreTablesAt, Rises};

use crate::reason::Reason;
use crate::tables::{AllTables, sets_of};
use mix_answer::Answer;
use mix_market::are_above;
use mix_num::{Set, sum_over};
use mix_text::Auction;

/// Where the prices of a set of goods, all above their reserves, fall by one, the Lyapunov function rises. It does so by the sum of the bidders'
/// numbers of the set less the supply of the set.
pub fn none_lower(auction: &Auction, answer: &Answer, tables: &AllTables) -> Result<(), Reason>
    requires shape { HasAnswerShape (auction_text auction.now) answer.now }
    requires tables { AreTablesAt (auction_text auction.now) answer.now.prices.items tables.now }
    requires before { NoneBefore (auction_text auction.now) (Cleared answer.now) (7 ∷ []) }
    ensures passed { IfOk result (λ done. Rises (auction_text auction.now) answer.now) }
    ensures next { IfOk result (λ done. NoneBefore (auction_text auction.now) (Cleared answer.now) (8 ∷ [])) }
    ensures reason { IfErr result (IsFirstReason (auction_text auction.now) (Cleared answer.now)) }
{
    for goods in 1..sets_of(answer.prices.len()) {
        let set = Set::from_bits(2 * goods);
        if are_above(&auction.reserve, &answer.prices, set)
            && tables.sum.at(set) <= sum_over(&auction.supply, 0, set)
        {
            return Err(Reason::Lower { set });
        }
    }
    Ok(())
}
