// What follows of the texts of outcomes, each theorem the contract of a call that does nothing.
ghost use Rattle.std.specs.Prelude.{◌≡◌, ℕ};
ghost use Rattle.mix_text.specs.Auctions.{AuctionText, IsAuction};
ghost use Rattle.mix_text.specs.Rows.{rows_of};
ghost use Rattle.mix_answer.specs.Outcomes.{outcome_text};
ghost use Rattle.mix_answer.specs.Readings.{outcome_in};
ghost use Rattle.mix_answer.specs.Shapes.{HasShape};
ghost use Rattle.mix_answer.specs.declared.outcome.Outcome.{Outcome};

/// An outcome of an auction's shape that is printed is read again as the same outcome.
pub fn read_again()
    ensures { (a : AuctionText) → IsAuction a → (outcome : Outcome) → HasShape a outcome → (next : ℕ) →
        outcome_in a next (rows_of (outcome_text a outcome)) ≡ Ok outcome }
{}

/// Two different outcomes of an auction's shape have different texts.
pub fn texts_differ()
    ensures { (a : AuctionText) → IsAuction a → (outcome other : Outcome) → HasShape a outcome → HasShape a other →
        outcome_text a outcome ≡ outcome_text a other → outcome ≡ other }
{}
