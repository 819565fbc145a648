// What holds of every capped bidder, the contract of a call that does nothing.
ghost use Rattle.std.specs.Prelude.{◌≡◌, ◌*◌, ℕ, pos, ◌*ℤ◌};
ghost use Rattle.mix_num.specs.Vectors.{Vector};
ghost use Rattle.mix_bids.specs.Caps.{IsConvexCapped, capped_utility_at};
ghost use Rattle.mix_law.specs.Scales.{KeepsScales};
ghost use Rattle.mix_cap.specs.Cappeds.{book_of, units_cap, utility_of};

use crate::capped::Capped;

/// The utility of a capped bidder at a scale is that at rational prices: at the scale 1 it is the utility itself, and prices `e` times as high at a
/// scale `e` times as great are the same rational prices, where it is `e` times as great. By it the bidder is convex over all rational prices; and at `d`
/// times whole prices a step of a set's prices changes it at the scale `d` by as much as the step at the prices themselves. The call takes no memory.
pub fn capped_at_scales(capped: &Capped)
    ensures whole { (x : Vector) → capped_utility_at (units_cap capped.now) (book_of capped.now).bids 1 x ≡ utility_of capped.now x }
    ensures same { (e d : ℕ) (x : Vector) → capped_utility_at (units_cap capped.now) (book_of capped.now).bids (e * d) (λ k. pos e *ℤ x k)
        ≡ pos e *ℤ capped_utility_at (units_cap capped.now) (book_of capped.now).bids d x }
    ensures convex { IsConvexCapped (units_cap capped.now) (book_of capped.now).bids }
    ensures steps { KeepsScales (book_of capped.now).goods (capped_utility_at (units_cap capped.now) (book_of capped.now).bids) }
{}
