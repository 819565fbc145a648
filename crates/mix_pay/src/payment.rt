// The payment for a bundle, and the receipts from all of them.
ghost use Rattle.std.specs.Prelude.{◌≡◌, ◌≤◌, All, length, map};
ghost use Rattle.mix_num.specs.Ranges.{AreWithin, Lies};
ghost use Rattle.mix_num.specs.Sums.{dot_of};
ghost use Rattle.mix_pay.specs.Receipts.{receipts_of};

use mix_num::{Bundle, PRICE_BOUND, Prices, dot};

/// What a bundle costs at the prices: price times quantity, summed over the goods.
///
/// Both have the same length. Prices lie within plus and minus 4,000,000, entries of the bundle within plus and minus
/// 8,000,000.
pub fn pay(prices: &Prices, bundle: &Bundle) -> i64
    requires size { length prices.now.items ≡ length bundle.now.items }
    requires prices { All (Lies PRICE_BOUND) prices.now.items }
    requires bundle { All (Lies 8000000) bundle.now.items }
    ensures value { result ≡ dot_of prices.now.items bundle.now.items }
    ensures range { Lies 256000000000000 result }
{
    dot(prices, bundle)
}

/// What all bundles bring at the prices: the sum of their payments.
///
/// There are at most 256 bundles, each as for `pay`.
pub fn receipts(prices: &Prices, bundles: &[Bundle]) -> i64
    requires few { length bundles.now ≤ 256 }
    requires prices { All (Lies PRICE_BOUND) prices.now.items }
    requires bundles { All (λ bundle. AreWithin 8000000 (length prices.now.items) bundle.items) bundles.now }
    ensures value { result ≡ receipts_of prices.now.items (map (λ bundle. bundle.items) bundles.now) }
    ensures range { Lies 65536000000000000 result }
{
    let mut sum = 0;
    for bundle in bundles {
        sum += pay(prices, bundle);
    }
    sum
}
