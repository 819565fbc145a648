// The order of bundles.
ghost use Rattle.std.specs.Prelude.{◌≡◌, length};
ghost use Rattle.mix_num.specs.Tables.{lex_order};

use crate::Bundle;
use std::cmp::Ordering;

/// Compares two bundles of the same length: the first place that differs decides.
pub fn lex_cmp(a: &Bundle, b: &Bundle) -> Ordering
    requires { length a.now.items ≡ length b.now.items }
    ensures { result ≡ lex_order a.now.items b.now.items }
{
    a.as_slice().cmp(b.as_slice())
}
