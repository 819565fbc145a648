// Theorems on canonical lists, each the contract of a call that does nothing.
ghost use Rattle.std.specs.Prelude.{◌≡◌, ◌↔◌, ℕ, List};
ghost use Rattle.mix_bids.specs.Bids.{AreBids};
ghost use Rattle.mix_bids.specs.declared.bid.Bid.{Bid};
ghost use Rattle.mix_canon.specs.declared.term.Term.{Term};
ghost use Rattle.mix_canon.specs.Canons.{IsCanonOf};
ghost use Rattle.mix_canon.specs.Searches.{AreAlike, AreAlikeNear};

/// Each list of bids has one canonical list.
pub fn one_canonical_list()
    ensures some { (bs : List Bid) → (ts : List Term) × IsCanonOf bs ts }
    ensures no_other { (bs : List Bid) (ts us : List Term) → IsCanonOf bs ts → IsCanonOf bs us → ts ≡ us }
{}

/// Two lists of bids over the same goods have the same indirect utility at all whole prices exactly where their canonical lists are equal.
pub fn same_canonical_list()
    ensures { (n : ℕ) (bs cs : List Bid) (ts us : List Term) → AreBids n bs → AreBids n cs → IsCanonOf bs ts → IsCanonOf cs us → AreAlike n bs cs ↔ (ts ≡ us) }
{}

/// Two lists of bids over the same goods have the same indirect utility at all whole prices where they have it at those from -2 to 1,000,001.
pub fn near_prices()
    ensures { (n : ℕ) (bs cs : List Bid) → AreBids n bs → AreBids n cs → AreAlikeNear n bs cs → AreAlike n bs cs }
{}
