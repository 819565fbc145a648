// The weights of the value vectors of lists, gathered in an ordered map.
ghost use Rattle.std.specs.Prelude.{◌≡◌, ◌+ℤ◌, ◌-ℤ◌, ◌*ℤ◌, pos, cond, IfOk, OnOk};
ghost use Rattle.std.specs.Ordering.{is_eq};
ghost use Rattle.mix_num.specs.Ranges.{Lies};
ghost use Rattle.mix_bids.specs.Offers.{Offers};
ghost use Rattle.mix_canon.specs.Canons.{value_order, weight_of};
ghost use Rattle.mix_canon.specs.Maps.{weight_at};

use arrayvec::ArrayVec;
use mix_bids::{BidList, Values};
use mix_num::Memory;
use std::alloc::Global;
use std::collections::BTreeMap;

/// The weight gathered for each value vector.
pub type Weights = BTreeMap<Values, i64>;

/// The same values.
pub fn copy(values: &Values) -> Values
    ensures { result.items ≡ values.now.items }
{
    ArrayVec::try_from(values.as_slice()).unwrap()
}

/// The weight gathered so far for the values.
fn weight_so_far(weights: &Weights, values: &Values) -> i64
    ensures { result ≡ weight_at weights.now values.now.items }
{
    weights.get(values).copied().unwrap_or(0)
}

/// Adds the weight to that of the values.
fn add(weights: &mut Weights, values: &Values, weight: i64) -> Result<(), Memory>
    requires so_far { Lies 8000000 (weight_at weights.old values.now.items) }
    requires weight { Lies 10000 weight }
    ensures { OnOk result ((v : Offers) → weight_at weights.new v ≡ cond (is_eq (value_order v values.now.items)) weight (pos 0) +ℤ weight_at weights.old v) }
{
    let next = weight_so_far(weights, values) + weight;
    let Ok(_) = weights.insert(copy(values), next) else {
        return Err(Memory);
    };
    Ok(())
}

/// A weight, or its opposite.
fn times(factor: i64, weight: i64) -> i64
    requires factor { Lies 1 factor }
    requires weight { Lies 10000 weight }
    ensures value { result ≡ factor *ℤ weight }
    ensures range { Lies 10000 result }
{
    factor * weight
}

/// Adds the weight of each bid of the list, times 1 or -1, to that of its values.
fn gather(weights: &mut Weights, list: &BidList, factor: i64) -> Result<(), Memory>
    requires so_far { (v : Offers) → Lies 4000000 (weight_at weights.old v) }
    requires factor { Lies 1 factor }
    ensures { OnOk result ((v : Offers) → weight_at weights.new v ≡ weight_at weights.old v +ℤ (factor *ℤ weight_of v list.now.bids)) }
{
    for bid in list.bids() {
        add(weights, &bid.values, times(factor, bid.weight))?;
    }
    Ok(())
}

/// The weight of each value vector of the list.
pub fn weights_of(alloc: Global, list: &BidList) -> Result<Weights, Memory>
    ensures { IfOk result (λ weights. (v : Offers) → weight_at weights v ≡ weight_of v list.now.bids) }
{
    let mut weights = BTreeMap::new(alloc);
    gather(&mut weights, list, 1)?;
    Ok(weights)
}

/// The weight of each value vector in the first list, less that in the second.
pub fn differences_of(alloc: Global, first: &BidList, second: &BidList) -> Result<Weights, Memory>
    ensures { IfOk result (λ weights. (v : Offers) → weight_at weights v ≡ weight_of v first.now.bids -ℤ weight_of v second.now.bids) }
{
    // Whoever asks a list for its bids knows their ranges.
    let _bids = first.bids();
    let mut weights = weights_of(alloc, first)?;
    gather(&mut weights, second, -1)?;
    Ok(weights)
}
