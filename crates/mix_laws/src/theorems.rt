// What bidders and the seller can rely on, each theorem the contract of a call that does nothing. The bidders are any utilities, functions of the prices.
ghost use Rattle.std.specs.Prelude.{◌≡◌, ℕ, ◌≤◌, ◌<◌, ℤ, ◌+ℤ◌, ◌≤ℤ◌, List, ◌∷◌, ◌++◌, length, map};
ghost use Rattle.mix_num.specs.Vectors.{Vector};
ghost use Rattle.mix_num.specs.Sums.{dot_of, total};
ghost use Rattle.mix_num.specs.Orders.{IsOrder, place_at};
ghost use Rattle.mix_law.specs.Members.{KeepsLaws};
ghost use Rattle.mix_market.specs.Lyapunov.{IsBelow};
ghost use Rattle.mix_clearing.specs.Ceilings.{AreAtMost};
ghost use Rattle.mix_law.specs.Clearings.{AreLeastClearing, Clears, bidder_utility};
ghost use Rattle.mix_clearing.specs.Scales.{KeepScales, at_scale, multiplied};
ghost use Rattle.mix_clearing.specs.Utilities.{KeepLaws};
ghost use Rattle.mix_clearing.specs.Scarcity.{IsScarcer, NoPriceIsLower, WantsNoLess};
ghost use Rattle.mix_clearing.specs.Fairness.{AreBestForBidders, AreBestOfFractions, AreContent, IsPaid};
ghost use Rattle.mix_laws.specs.Orders.{utilities_in};
ghost use Rattle.mix_laws.specs.Sizes.{enlarged};

/// A utility that keeps the laws never rises where prices do.
pub fn utilities_fall()
    ensures { (n : ℕ) (f : Vector → ℤ) → 1 ≤ n → KeepsLaws n f → (x y : Vector) → IsBelow n x y → f y ≤ℤ f x }
{}

/// In a scarcer market no clearing price is lower.
pub fn scarcer_market()
    ensures { (utilities others : List (Vector → ℤ)) (supply reserve offered floor : List ℤ) → KeepLaws (length supply) utilities →
        IsScarcer utilities supply reserve others offered floor →
        NoPriceIsLower utilities supply reserve others offered floor }
{}

/// With one more bidder, at any place, no clearing price is lower.
pub fn one_more_bidder()
    ensures { (before after : List (Vector → ℤ)) (bidder : Vector → ℤ) (supply reserve : List ℤ) →
        KeepLaws (length supply) (before ++ after) → KeepsLaws (length supply) bidder →
        NoPriceIsLower (before ++ after) supply reserve (before ++ bidder ∷ after) supply reserve }
{}

/// Where one bidder wants no less than before, no clearing price is lower; so also where a utility that keeps the laws is added to its own.
pub fn one_wants_more()
    ensures less { (before after : List (Vector → ℤ)) (old new : Vector → ℤ) (supply reserve : List ℤ) →
        KeepLaws (length supply) (before ++ old ∷ after) → WantsNoLess (length supply) old new →
        NoPriceIsLower (before ++ old ∷ after) supply reserve (before ++ new ∷ after) supply reserve }
    ensures added { (before after : List (Vector → ℤ)) (old more : Vector → ℤ) (supply reserve : List ℤ) →
        KeepLaws (length supply) (before ++ old ∷ after) → KeepsLaws (length supply) more →
        NoPriceIsLower (before ++ old ∷ after) supply reserve (before ++ (λ x. old x +ℤ more x) ∷ after) supply reserve }
{}

/// Where no more of any good is offered, no clearing price is lower.
pub fn less_supply()
    ensures { (utilities : List (Vector → ℤ)) (supply reserve less : List ℤ) → KeepLaws (length supply) utilities →
        length less ≡ length supply → AreAtMost (length supply) less supply →
        NoPriceIsLower utilities supply reserve utilities less reserve }
{}

/// Where no reserve is lower, no clearing price is lower.
pub fn higher_reserves()
    ensures { (utilities : List (Vector → ℤ)) (supply reserve higher : List ℤ) → KeepLaws (length supply) utilities →
        AreAtMost (length supply) reserve higher →
        NoPriceIsLower utilities supply reserve utilities supply higher }
{}

/// The least clearing prices are the best for each bidder of all that clear.
pub fn best_for_bidders()
    ensures { (utilities : List (Vector → ℤ)) (supply reserve prices : List ℤ) → KeepLaws (length supply) utilities → 1 ≤ length supply →
        AreLeastClearing utilities supply reserve prices → AreBestForBidders utilities supply reserve prices }
{}

/// Nor are any with fractions better for a bidder, where the utilities at all scales go together.
pub fn best_of_fractions()
    ensures { (utilities : List (ℕ → Vector → ℤ)) (supply reserve prices : List ℤ) → KeepScales (length supply) utilities → KeepLaws (length supply) (at_scale 1 utilities) →
        1 ≤ length supply → AreLeastClearing (at_scale 1 utilities) supply reserve prices →
        AreBestOfFractions utilities supply reserve prices }
{}

/// At prices that clear each bidder is content with its own bundle, whatever the utilities.
pub fn no_envy()
    ensures { (utilities : List (Vector → ℤ)) (supply reserve prices : List ℤ) (bundles : List (List ℤ)) (returns : List ℤ) →
        Clears utilities supply reserve prices bundles returns →
        AreContent utilities (length supply) prices bundles }
{}

/// At prices that clear the seller has, in receipts and returns at the reserves, no less than the supply at the reserves, whatever the utilities.
pub fn seller_is_paid()
    ensures { (utilities : List (Vector → ℤ)) (supply reserve prices : List ℤ) (bundles : List (List ℤ)) (returns : List ℤ) →
        Clears utilities supply reserve prices bundles returns → length reserve ≡ length supply →
        IsPaid supply reserve prices (map (dot_of prices) bundles) returns }
{}

/// Where two markets have the same supply and reserves, and the prices at which the second clears are not lower, the seller has no less there in
/// receipts and returns at the reserves.
pub fn seller_gains()
    ensures { (utilities others : List (Vector → ℤ)) (supply reserve prices later : List ℤ) (bundles after : List (List ℤ)) (returns kept : List ℤ) →
        length reserve ≡ length supply → Clears utilities supply reserve prices bundles returns → Clears others supply reserve later after kept →
        AreAtMost (length supply) prices later →
        (total (map (dot_of prices) bundles) +ℤ dot_of reserve returns) ≤ℤ (total (map (dot_of later) after) +ℤ dot_of reserve kept) }
{}

/// In whatever order the bidders stand, the least clearing prices are the same, there and back, and so is each bidder's utility.
pub fn any_order()
    ensures prices { (utilities : List (Vector → ℤ)) (order : List ℕ) → IsOrder (length utilities) order → (supply reserve prices : List ℤ) →
        AreLeastClearing utilities supply reserve prices → AreLeastClearing (utilities_in order utilities) supply reserve prices }
    ensures back { (utilities : List (Vector → ℤ)) (order : List ℕ) → IsOrder (length utilities) order → (supply reserve prices : List ℤ) →
        AreLeastClearing (utilities_in order utilities) supply reserve prices → AreLeastClearing utilities supply reserve prices }
    ensures utility { (utilities : List (Vector → ℤ)) (order : List ℕ) → IsOrder (length utilities) order → (j : ℕ) → j < length order →
        bidder_utility (utilities_in order utilities) j ≡ bidder_utility utilities (place_at order j) }
{}

/// In a market that is m times as large in its bidders' wants and its supply the least clearing prices are the same.
pub fn larger_market()
    ensures { (m : ℕ) → 1 ≤ m → (utilities : List (Vector → ℤ)) (supply reserve prices : List ℤ) → AreLeastClearing utilities supply reserve prices →
        AreLeastClearing (enlarged m utilities) (multiplied m supply) reserve prices }
{}

/// In a finer unit of money, in which values and reserves are d times as many units, the least clearing prices are d times as many.
pub fn finer_units()
    ensures { (d : ℕ) → 1 ≤ d → (utilities : List (ℕ → Vector → ℤ)) (supply reserve prices : List ℤ) → KeepScales (length supply) utilities →
        KeepLaws (length supply) (at_scale 1 utilities) → KeepLaws (length supply) (at_scale d utilities) →
        AreLeastClearing (at_scale 1 utilities) supply reserve prices →
        AreLeastClearing (at_scale d utilities) supply (multiplied d reserve) (multiplied d prices) }
{}
