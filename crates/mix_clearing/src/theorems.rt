// What follows of clearing, each theorem the contract of a call that does nothing. The bidders are any utilities, functions of the prices.
ghost use Rattle.std.specs.Prelude.{◌≡◌, ◌↔◌, ℕ, ◌<◌, ℤ, pos, ◌≤ℤ◌, List, length, get_or};
ghost use Rattle.mix_num.specs.Vectors.{Vector, with_null};
ghost use Rattle.mix_num.specs.Orders.{IsOrder};
ghost use Rattle.mix_market.specs.Lyapunov.{IsBelow, lyapunov};
ghost use Rattle.mix_law.specs.Certificates.{IsTightPair};
ghost use Rattle.mix_law.specs.Clearings.{AreLeastClearing, CanClear, Clears, KeepsTieRule};
ghost use Rattle.mix_clearing.specs.Completions.{AreGreatestCompletable};
ghost use Rattle.mix_market.specs.Lowerings.{RisesWhereFallen};
ghost use Rattle.mix_clearing.specs.Scales.{AreLeastOfFractions, KeepScales, at_scale};
ghost use Rattle.mix_clearing.specs.Utilities.{KeepLaws};
ghost use Rattle.mix_clearing.specs.Values.{AreWorthMost};

/// Prices that clear have the least value of the Lyapunov function at or above the reserves.
pub fn least_value()
    ensures { (utilities : List (Vector → ℤ)) (supply reserve prices : List ℤ) → CanClear utilities supply reserve prices →
        (others : List ℤ) → length others ≡ length supply → IsBelow (length supply) (with_null reserve) (with_null others) →
        lyapunov utilities supply (with_null prices) ≤ℤ lyapunov utilities supply (with_null others) }
{}

/// The bundles and returns that clear at some prices clear at any prices at or above the reserves at which the Lyapunov function is no greater.
pub fn same_bundles()
    ensures { (utilities : List (Vector → ℤ)) (supply reserve prices : List ℤ) (bundles : List (List ℤ)) (returns : List ℤ) →
        Clears utilities supply reserve prices bundles returns →
        (others : List ℤ) → length others ≡ length supply → IsBelow (length supply) (with_null reserve) (with_null others) →
        lyapunov utilities supply (with_null others) ≤ℤ lyapunov utilities supply (with_null prices) →
        Clears utilities supply reserve others bundles returns }
{}

/// Of prices at or above the reserves exactly those clear at which the Lyapunov function is what it is at any that clear.
pub fn clears_exactly()
    ensures { (utilities : List (Vector → ℤ)) (supply reserve prices : List ℤ) → CanClear utilities supply reserve prices →
        (others : List ℤ) → length others ≡ length supply → IsBelow (length supply) (with_null reserve) (with_null others) →
        CanClear utilities supply reserve others ↔ (lyapunov utilities supply (with_null others) ≡ lyapunov utilities supply (with_null prices)) }
{}

/// Bundles that clear keep the tie rule exactly where, bidder by bidder in the order, each can be completed and is the lexicographically greatest that can.
pub fn greatest_completable()
    ensures { (utilities : List (Vector → ℤ)) (supply reserve prices : List ℤ) (bundles : List (List ℤ)) (returns : List ℤ) →
        Clears utilities supply reserve prices bundles returns → (order : List ℕ) →
        KeepsTieRule utilities supply reserve prices order bundles ↔ AreGreatestCompletable utilities supply reserve prices order bundles }
{}

/// Bundles and returns that clear are worth no less than any other allocation of the supply.
pub fn most_worth()
    ensures { (utilities : List (Vector → ℤ)) (supply reserve prices : List ℤ) (bundles : List (List ℤ)) (returns : List ℤ) →
        Clears utilities supply reserve prices bundles returns → length reserve ≡ length supply →
        AreWorthMost utilities supply reserve bundles returns }
{}

/// No prices with fractions clear below the least clearing whole prices, where the utilities at all scales go together.
pub fn least_of_fractions()
    ensures { (utilities : List (ℕ → Vector → ℤ)) (supply reserve prices : List ℤ) → KeepScales (length supply) utilities →
        AreLeastClearing (at_scale 1 utilities) supply reserve prices → AreLeastOfFractions utilities supply reserve prices }
{}

/// Prices that clear are the least that do exactly where no set of goods above their reserves can fall by one without a rise of the Lyapunov function, where
/// the utilities keep the laws of members.
pub fn least_by_lowering()
    ensures { (utilities : List (Vector → ℤ)) (supply reserve prices : List ℤ) → KeepLaws (length supply) utilities →
        CanClear utilities supply reserve prices →
        AreLeastClearing utilities supply reserve prices
        ↔ RisesWhereFallen (length supply) (lyapunov utilities supply) (with_null reserve) (with_null prices) }
{}

/// Bundles that clear keep the tie rule where each bidder has for each good a tight pair, whichever it is, and the utilities keep the laws of members.
pub fn tight_pairs()
    ensures { (utilities : List (Vector → ℤ)) (supply reserve prices : List ℤ) (order : List ℕ) (bundles : List (List ℤ)) (returns : List ℤ) →
        KeepLaws (length supply) utilities → IsOrder (length utilities) order → ((i : ℕ) → i < length supply → pos 0 ≤ℤ get_or supply i (pos 0)) →
        Clears utilities supply reserve prices bundles returns →
        ((k j : ℕ) → k < length order → j < length supply →
        (upper : ℕ) × (lower : ℕ) × IsTightPair utilities supply reserve prices order bundles k j upper lower) →
        KeepsTieRule utilities supply reserve prices order bundles }
{}
