// What the indirect utility at a scale means, as the contract of a call that does nothing.
ghost use Rattle.std.specs.Prelude.{◌≡◌, ◌*◌, ℕ, pos, ◌*ℤ◌};
ghost use Rattle.mix_num.specs.Vectors.{Vector};
ghost use Rattle.mix_bids.specs.Bids.{utility};
ghost use Rattle.mix_bids.specs.Convexity.{utility_at};

use crate::list::BidList;

/// The indirect utility at a scale is that at rational prices: at the scale 1 it is the indirect utility itself, and prices
/// `e` times as high at a scale `e` times as great are the same rational prices, where it is `e` times as great. It takes no
/// memory.
pub fn utility_at_scales(list: &BidList)
    ensures whole { (x : Vector) → utility_at list.now.bids 1 x ≡ utility list.now.bids x }
    ensures same { (e d : ℕ) (x : Vector) → utility_at list.now.bids (e * d) (λ k. pos e *ℤ x k) ≡ pos e *ℤ utility_at list.now.bids d x }
{}
