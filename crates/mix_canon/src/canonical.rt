// The canonical list of a list of bids.
ghost use Rattle.std.specs.Prelude.{◌≡◌, ◌≢◌, pos, IfOk, MatchOption};
ghost use Rattle.mix_canon.specs.Canons.{ArePairsOf, IsCanonOf};
ghost use Rattle.mix_canon.specs.Maps.{weight_at};

use crate::term::{Term, TermList};
use crate::weights::{Weights, copy, weights_of};
use mix_bids::{BidList, Values};
use mix_num::Memory;
use std::alloc::Global;

/// The canonical list of the list, or want of memory: one pair for each different value vector of the list whose weights don't
/// add up to 0, with their sum as weight. The pairs stand in the order of their values, good by good, None before every number.
///
/// Two lists over the same goods have the same canonical list exactly where they have the same indirect utility at all whole prices.
pub fn canon(alloc: Global, list: &BidList) -> Result<TermList, Memory>
    ensures { IfOk result (λ terms. IsCanonOf list.now.bids terms) }
{
    let weights = weights_of(alloc, list)?;
    pairs_of(alloc, &weights)
}

/// The pairs of the gathered weights that aren't 0, in the order of their values.
pub fn pairs_of(alloc: Global, weights: &Weights) -> Result<TermList, Memory>
    ensures { IfOk result (ArePairsOf (weight_at weights.now)) }
{
    let mut terms = TermList::new(alloc);
    for (values, weight) in weights.iter() {
        if let Some(term) = pair(values, weight) {
            terms.push(term)?;
        }
    }
    Ok(terms)
}

/// The pair of the values and the weight, unless the weight is 0.
fn pair(values: &Values, weight: &i64) -> Option<Term>
    ensures { MatchOption result (weight.now ≡ pos 0) (λ term. (weight.now ≢ pos 0) × (term.values.items ≡ values.now.items) × (term.weight ≡ weight.now)) }
{
    let weight = *weight;
    if weight == 0 {
        return None;
    }
    Some(Term {
        values: copy(values),
        weight,
    })
}
