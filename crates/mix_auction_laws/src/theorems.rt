// How the prices of an auction answer to changes, and what can be relied on in an answer, each theorem the contract of a call that does nothing.
ghost use Rattle.std.specs.Prelude.{◌≡◌, ℕ, ℤ, ◌+ℤ◌, ◌≤ℤ◌, ◌<◌, List, length, map};
ghost use Rattle.mix_num.specs.Sums.{dot_of, total};
ghost use Rattle.mix_num.specs.Vectors.{with_null};
ghost use Rattle.mix_law.specs.Clearings.{bidder_utility};
ghost use Rattle.mix_clearing.specs.Ceilings.{AreAtMost};
ghost use Rattle.mix_clearing.specs.Fairness.{IsFair};
ghost use Rattle.mix_text.specs.Auctions.{AuctionText, IsAuction};
ghost use Rattle.mix_answer.specs.Truths.{IsTrueAnswer, bundles_of};
ghost use Rattle.mix_answer.specs.Utilities.{scaled_utilities_of, utilities_of};
ghost use Rattle.mix_answer.specs.declared.outcome.Answer.{Answer};
ghost use Rattle.mix_scarcity.specs.Changes.{IsScarcerAuction};
ghost use Rattle.mix_auction_laws.specs.Reorderings.{IsReordered};

/// In a scarcer auction no price is lower.
pub fn scarcer_auction()
    ensures { (a b : AuctionText) → IsAuction a → IsScarcerAuction a b → (before after : Answer) → IsTrueAnswer a before → IsTrueAnswer b after →
        AreAtMost (length a.goods) before.prices.items after.prices.items }
{}

/// In a scarcer auction of the same supply and reserves the payments, and the returns at the reserves, are together no less.
pub fn seller_gains()
    ensures { (a b : AuctionText) → IsAuction a → IsScarcerAuction a b → b.supply ≡ a.supply → b.reserve ≡ a.reserve → (before after : Answer) →
        IsTrueAnswer a before → IsTrueAnswer b after →
        (total (map (λ share. share.payment) before.shares) +ℤ dot_of a.reserve before.returns.items)
        ≤ℤ (total (map (λ share. share.payment) after.shares) +ℤ dot_of a.reserve after.returns.items) }
{}

/// In a scarcer auction no bidder gains more by its bids of the first than there.
pub fn bidders_lose()
    ensures { (a b : AuctionText) → IsAuction a → IsScarcerAuction a b → (before after : Answer) → IsTrueAnswer a before → IsTrueAnswer b after →
        (k : ℕ) → k < length a.bidders →
        bidder_utility (utilities_of a) k (with_null after.prices.items) ≤ℤ bidder_utility (utilities_of a) k (with_null before.prices.items) }
{}

/// Every true answer is fair.
pub fn fair_answer()
    ensures { (a : AuctionText) → IsAuction a → (answer : Answer) → IsTrueAnswer a answer →
        IsFair (scaled_utilities_of a) a.supply a.reserve answer.prices.items (bundles_of answer) (map (λ share. share.payment) answer.shares) answer.returns.items }
{}

/// The same bidders in another order, whatever the tie orders, have the same prices.
pub fn reordered()
    ensures { (a b : AuctionText) (order : List ℕ) → IsAuction a → IsAuction b → IsReordered a order b → (before after : Answer) → IsTrueAnswer a before →
        IsTrueAnswer b after → before.prices.items ≡ after.prices.items }
{}
