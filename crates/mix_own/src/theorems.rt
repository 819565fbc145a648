// What follows of trades, as the contract of a call that does nothing.
ghost use Rattle.std.specs.Prelude.{◌≡◌, ◌<◌, ℕ, ℤ, pos, ◌+ℤ◌, List, length, get_or};
ghost use Rattle.mix_num.specs.Shares.{sum_at};
ghost use Rattle.mix_num.specs.Sums.{dot_of};
ghost use Rattle.mix_text.specs.Auctions.{AuctionText, IsAuction};
ghost use Rattle.mix_answer.specs.Shapes.{HasAnswerShape};
ghost use Rattle.mix_answer.specs.Truths.{bundles_of};
ghost use Rattle.mix_answer.specs.declared.outcome.Answer.{Answer};
ghost use Rattle.mix_own.specs.Owned.{AreOwned, gross_of};
ghost use Rattle.mix_own.specs.Trades.{net_of, paid, trades_of};

/// Where the bundles and the returns of an answer add up to the gross supply, all trades together bring the prices times
/// what goes of the auction's own supply: the supply less the returns.
pub fn receipts()
    ensures { (a : AuctionText) → IsAuction a → (owned : List (List ℤ)) → AreOwned a owned → (answer : Answer) → HasAnswerShape a answer →
        ((i : ℕ) → i < length a.goods → sum_at (bundles_of answer) i +ℤ get_or answer.returns.items i (pos 0) ≡ get_or (gross_of a owned).supply i (pos 0)) →
        paid (trades_of owned answer) ≡ dot_of answer.prices.items (net_of a.supply answer.returns.items) }
{}
