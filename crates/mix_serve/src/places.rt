// What was shared in tie order, put back at the places of the members.
ghost use Rattle.std.specs.Prelude.{◌≡◌, ℕ, ◌+◌, ◌*◌, ◌/◌, ◌%◌, ◌<◌, ◌≤◌, [], All, length, map, slice_index_or, IfOk};
ghost use Rattle.mix_num.specs.Orders.{in_order, place_at};
ghost use Rattle.mix_text.specs.Orders.{IsTieOrder};

use mix_num::{Bundle, Memory, Set, Tight, copy};
use mix_text::Order;
use std::alloc::Global;

/// Bundles in tie order, each at the place of its member.
pub fn bundles_in_place(
    alloc: Global,
    order: &Order,
    shared: &[Bundle],
) -> Result<Vec<Bundle>, Memory>
    requires { IsTieOrder (length shared.now) order.now }
    ensures count { IfOk result (λ bundles. length bundles.items ≡ length shared.now) }
    ensures placed { IfOk result (λ bundles. in_order order.now (map (λ b. b.items) bundles.items) ≡ map (λ b. b.items) shared.now) }
{
    let mut bundles = empty_bundles(alloc, shared.len())?;
    for (turn, bundle) in shared.iter().enumerate() {
        bundles[order.place(turn)] = copy(bundle);
    }
    Ok(bundles)
}

/// Pairs in tie order, so many for each member, each at the place of its member.
pub fn pairs_in_place(
    alloc: Global,
    order: &Order,
    goods: usize,
    shared: &[Tight],
) -> Result<Vec<Tight>, Memory>
    requires order { IsTieOrder (length order.now) order.now }
    requires few { length order.now ≤ 256 }
    requires few_goods { goods ≤ 8 }
    requires count { length shared.now ≡ length order.now * goods }
    ensures count { IfOk result (λ pairs. length pairs.items ≡ length shared.now) }
    ensures placed { IfOk result (λ pairs. (k j : ℕ) → k < length order.now → j < goods
        → slice_index_or pairs.items (place_at order.now k * goods + j) (record { upper = 0; lower = 0 }) ≡ slice_index_or shared.now (k * goods + j) (record { upper = 0; lower = 0 })) }
{
    let mut pairs = empty_pairs(alloc, shared.len())?;
    for (place, pair) in shared.iter().enumerate() {
        pairs[place_of(order, goods, place)] = *pair;
    }
    Ok(pairs)
}

/// Where a pair belongs that stands at a place in tie order.
fn place_of(order: &Order, goods: usize, place: usize) -> usize
    requires order { IsTieOrder (length order.now) order.now }
    requires few { length order.now ≤ 256 }
    requires few_goods { goods ≤ 8 }
    requires inside { place < length order.now * goods }
    ensures value { result ≡ place_at order.now (place / goods) * goods + place % goods }
    ensures inside { result < length order.now * goods }
{
    order.place(place / goods) * goods + place % goods
}

/// So many bundles of no goods, to be written over.
pub fn empty_bundles(alloc: Global, count: usize) -> Result<Vec<Bundle>, Memory>
    ensures count { IfOk result (λ bundles. length bundles.items ≡ count) }
    ensures empty { IfOk result (λ bundles. All (λ b. b.items ≡ []) bundles.items) }
{
    let mut bundles = Vec::new(alloc);
    for _ in 0..count {
        bundles.push(Bundle::new())?;
    }
    Ok(bundles)
}

/// So many pairs of empty sets, to be written over.
pub fn empty_pairs(alloc: Global, count: usize) -> Result<Vec<Tight>, Memory>
    ensures count { IfOk result (λ pairs. length pairs.items ≡ count) }
    ensures empty { IfOk result (λ pairs. All (λ pair. (pair.upper ≡ 0) × (pair.lower ≡ 0)) pairs.items) }
{
    let none = Tight {
        upper: Set::from_bits(0),
        lower: Set::from_bits(0),
    };
    Ok(vec![in alloc; none; count]?)
}
