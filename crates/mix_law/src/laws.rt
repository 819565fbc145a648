// Facts of every member, each the contract of a call that does nothing.
ghost use Rattle.std.specs.Prelude.{◌≡◌, ◌≤◌, ◌+◌, ℕ, ℤ, suc, ◌+ℤ◌, ◌-ℤ◌, ◌≤ℤ◌};
ghost use Rattle.mix_num.specs.Vectors.{Vector, Choices, plus, minus, both, either, ray, sum_to};
ghost use Rattle.mix_law.specs.Members.{IsWhereGreatest, IsLocallyLeast, tilted};

use crate::convex::Convex;

/// The function is submodular: with what two sets share raised by one, and with all that either has, it gives together no more than with the one set raised and with the other.
pub fn submodular<D: Convex>(member: &D)
    ensures { (x : Vector) (s t : Choices) →
        (D.function member.now (plus x (both s t)) +ℤ D.function member.now (plus x (either s t)))
        ≤ℤ (D.function member.now (plus x s) +ℤ D.function member.now (plus x t)) }
{}

/// Two vectors may move one nearer to each other on the set where the first lies above the second by the most: the function gives together no more there.
pub fn exchange<D: Convex>(member: &D)
    ensures { (x y : Vector) (m : ℤ) (s : Choices) → IsWhereGreatest (D.goods member.now) x y m s →
        (D.function member.now (minus x s) +ℤ D.function member.now (plus y s))
        ≤ℤ (D.function member.now x +ℤ D.function member.now y) }
{}

/// A vector that no set betters, raised or lowered, is least among all; the same where a linear function is added whose coefficients add up to the total.
pub fn local_to_global<D: Convex>(member: &D)
    ensures alone { (x : Vector) → IsLocallyLeast (D.function member.now) x → (y : Vector) →
        D.function member.now x ≤ℤ D.function member.now y }
    ensures with_linear { (q : Vector) → sum_to (suc (D.goods member.now)) q ≡ D.total member.now →
        (x : Vector) → IsLocallyLeast (tilted (D.goods member.now) (D.function member.now) q) x → (y : Vector) →
        tilted (D.goods member.now) (D.function member.now) q x ≤ℤ tilted (D.goods member.now) (D.function member.now) q y }
{}

/// The slope along a set never falls.
pub fn slopes<D: Convex>(member: &D)
    ensures { (x : Vector) (s : Choices) (k : ℕ) →
        (D.function member.now (ray x (k + 1) s) -ℤ D.function member.now (ray x k s))
        ≤ℤ (D.function member.now (ray x (k + 2) s) -ℤ D.function member.now (ray x (k + 1) s)) }
{}
