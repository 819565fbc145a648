// Copies of prices and bundles.
ghost use Rattle.std.specs.Prelude.{◌≡◌};

use crate::Prices;

/// The same prices, or the same bundle.
pub fn copy(numbers: &Prices) -> Prices
    ensures { result.items ≡ numbers.now.items }
{
    Prices::try_from(numbers.as_slice()).unwrap()
}
