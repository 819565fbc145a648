// Whether two lists have the same indirect utility.
ghost use Rattle.std.specs.Prelude.{◌≡◌, ◌↔◌, ◌-ℤ◌, List, IfOk, MatchOption};
ghost use Rattle.mix_bids.specs.Offers.{Offers};
ghost use Rattle.mix_canon.specs.declared.term.Term.{Term};
ghost use Rattle.mix_canon.specs.declared.likeness.Likeness.TheVariants.{Equal};
ghost use Rattle.mix_canon.specs.Canons.{ArePairsOf, IsCanonOf, weight_of};
ghost use Rattle.mix_canon.specs.Searches.{AgreeLow, AreAlike, IsFirstAround, IsFirstTried, IsTold, TellsApart, WhereDiffer};

use crate::canonical::pairs_of;
use crate::likeness::Likeness;
use crate::points::{told_low, told_round};
use crate::term::Term;
use crate::weights::differences_of;
use mix_bids::BidList;
use mix_num::Memory;
use std::alloc::Global;

/// Whether the two lists, over the same goods, have the same indirect utility at all whole prices; or want of memory.
///
/// `Equal` comes exactly where they have, which is exactly where their canonical lists are equal. `Differ` carries prices from
/// -2 to 1,000,001 at which the two utilities are the two numbers, which differ. They are the first such prices in this order:
/// -1 in every good; -2 in every good; then those round the first value vector, good by good and None first, whose summed
/// weights in the two lists differ. Its own numbers, and -1 where it has none, are taken with each set of goods raised by 1,
/// then lowered by 1, the sets by their numbers: the empty set, the first good alone, the second alone, the first two, and so on.
pub fn same(alloc: Global, first: &BidList, second: &BidList) -> Result<Likeness, Memory>
    requires { first.now.goods ≡ second.now.goods }
    ensures equal { IfOk result (λ likeness. (likeness ≡ Equal) ↔ AreAlike first.now.goods first.now.bids second.now.bids) }
    ensures canonical { IfOk result (λ likeness. (ts us : List Term) → IsCanonOf first.now.bids ts → IsCanonOf second.now.bids us → (likeness ≡ Equal) ↔ (ts ≡ us)) }
    ensures differ { IfOk result (WhereDiffer (TellsApart first.now second.now)) }
    ensures first { IfOk result (WhereDiffer (λ p a b. IsFirstTried first.now.goods first.now.bids second.now.bids p)) }
{
    if let Some(told) = told_low(first, second) {
        return Ok(told);
    }
    let differences = differences_of(alloc, first, second)?;
    let pairs = pairs_of(alloc, &differences)?;
    Ok(told_by(first, second, pairs.terms()).unwrap_or(Likeness::Equal))
}

/// The two utilities at prices where they differ, if some value vector has another weight in the second list; given the pairs of the differences.
fn told_by(first: &BidList, second: &BidList, differences: &[Term]) -> Option<Likeness>
    requires goods { first.now.goods ≡ second.now.goods }
    requires low { AgreeLow first.now.goods first.now.bids second.now.bids }
    requires differences { ArePairsOf (λ v. weight_of v first.now.bids -ℤ weight_of v second.now.bids) differences.now }
    ensures { MatchOption result ((v : Offers) → weight_of v first.now.bids ≡ weight_of v second.now.bids) (IsTold first.now second.now (IsFirstAround first.now.goods first.now.bids second.now.bids)) }
{
    // Whoever asks a list for its bids knows their ranges.
    let _bids = first.bids();
    let _more = second.bids();
    let term = differences.first()?;
    told_round(first, second, &term.values)
}
