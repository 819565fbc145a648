// What the bidders pay.
ghost use Rattle.std.specs.Prelude.{◌≡◌, All, length, map, IfOk};
ghost use Rattle.mix_num.specs.Ranges.{AreWithin, Lies};
ghost use Rattle.mix_num.specs.Sums.{dot_of};

use mix_answer::{Share, Shares};
use mix_num::{Bundle, Memory, Prices};
use mix_pay::pay;
use std::alloc::Global;

/// Each bundle with what it costs at the prices, in the same order.
pub fn charge(alloc: Global, prices: &Prices, bundles: Vec<Bundle>) -> Result<Shares, Memory>
    requires prices { All (Lies 4000000) prices.now.items }
    requires bundles { All (λ b. AreWithin 8000000 (length prices.now.items) b.items) bundles.items }
    ensures bundles { IfOk result (λ shares. map (λ share. share.bundle.items) shares ≡ map (λ b. b.items) bundles.items) }
    ensures payments { IfOk result (λ shares. All (λ share. share.payment ≡ dot_of prices.now.items share.bundle.items) shares) }
{
    let mut shares = Shares::new(alloc);
    for bundle in bundles {
        let share = share_of(prices, bundle);
        shares.push(share)?;
    }
    Ok(shares)
}

/// A bundle with what it costs.
fn share_of(prices: &Prices, bundle: Bundle) -> Share
    requires prices { All (Lies 4000000) prices.now.items }
    requires bundle { AreWithin 8000000 (length prices.now.items) bundle.items }
    ensures bundle { result.bundle ≡ bundle }
    ensures payment { result.payment ≡ dot_of prices.now.items bundle.items }
{
    let payment = pay(prices, &bundle);
    Share { bundle, payment }
}
