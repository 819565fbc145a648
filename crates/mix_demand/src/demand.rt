// The test whether a bundle is demanded.
ghost use Rattle.std.specs.Prelude.{◌≡◌, ◌^◌, ◌<◌, ◌↔◌, ℕ, suc, ℤ, ◌≤ℤ◌, ◌<ℤ◌, List, All, length, IsNone, IfSome};
ghost use Rattle.mix_num.specs.Ranges.{Lies};
ghost use Rattle.mix_num.specs.Tables.{Fits, number_of, null_share, share_in};
ghost use Rattle.mix_law.specs.Demands.{IsDemanded, IsTableOf};

use crate::Rho;
use mix_law::Convex;
use mix_num::{Bundle, Set, sum_over};

/// Whether the bundle fits the table: None where no set has more of the bundle than its number, and else the set of
/// the least number that has more. Entries of the bundle lie within plus and minus 8,000,000.
///
/// For the table of a member, bundles that fit are those that it demands (`demanded_where_fits`).
pub fn is_demanded(rho: &Rho, bundle: &Bundle) -> Option<Set>
    requires goods { length rho.now ≡ 2 ^ suc (length bundle.now.items) }
    requires bundle { All (Lies 8000000) bundle.now.items }
    ensures fits { IsNone result ↔ Fits (length bundle.now.items) rho.now bundle.now.items }
    ensures more { IfSome result (λ set. number_of rho.now set <ℤ share_in (length bundle.now.items) rho.now bundle.now.items set) }
    ensures first { IfSome result (λ set. (k : ℕ) → k < set → share_in (length bundle.now.items) rho.now bundle.now.items k ≤ℤ number_of rho.now k) }
{
    let null = null_of(rho, bundle);
    for (k, number) in rho.numbers().iter().enumerate() {
        let set = Set::from_bits(k as u16);
        if sum_over(bundle, null, set) > *number {
            return Some(set);
        }
    }
    None
}

/// The null share of the bundle: the table's number of the whole set less the sum of the bundle.
fn null_of(rho: &Rho, bundle: &Bundle) -> i64
    requires goods { length rho.now ≡ 2 ^ suc (length bundle.now.items) }
    requires bundle { All (Lies 8000000) bundle.now.items }
    ensures value { result ≡ null_share (length bundle.now.items) rho.now bundle.now.items }
    ensures range { Lies 5000000000 result }
{
    let goods = bundle.len();
    rho.at(Set::whole(goods)) - sum_over(bundle, 0, Set::goods(goods))
}

/// At each prices a bundle fits the member's table exactly where it is demanded there, over all whole prices.
pub fn demanded_where_fits<D: Convex>(member: &D)
    ensures { (p table bundle : List ℤ) → length p ≡ D.goods member.now → length bundle ≡ D.goods member.now → IsTableOf (D.goods member.now) (D.function member.now) p table
        → Fits (D.goods member.now) table bundle ↔ IsDemanded (D.goods member.now) (D.function member.now) p bundle }
{}
