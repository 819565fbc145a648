// The pairs of a canonical list.
ghost use Rattle.std.specs.Prelude.{◌≡◌, ◌++◌, ◌∷◌, [], OnOk};

use mix_bids::Values;
use mix_num::Memory;
use std::alloc::Global;
use std::marker::Model;

/// A value vector, and the sum of the weights of the bids that have it: from -4,000,000 to 4,000,000, and not 0.
#[derive(Drop)]
pub struct Term {
    pub values: Values,
    pub weight: i64,
}

/// Pairs in order; contracts see their list.
#[derive(Drop)]
pub struct TermList {
    terms: Vec<Term>,
}

impl Model for TermList {
    ghost use Rattle.std.specs.Prelude.{List};
    ghost use Rattle.mix_canon.specs.declared.term.Term.{Term};

    ghost Value = { List Term };

    ghost view = { λ list. list.terms.items };
}

impl TermList {
    /// No pairs.
    pub(crate) fn new(alloc: Global) -> TermList
        ensures { result ≡ [] }
    {
        TermList {
            terms: Vec::new(alloc),
        }
    }

    /// Adds a pair at the end.
    pub(crate) fn push(&mut self, term: Term) -> Result<(), Memory>
        ensures { OnOk result (self.new ≡ self.old ++ term ∷ []) }
    {
        self.terms.push(term)?;
        Ok(())
    }

    /// The pairs in order.
    pub fn terms(&self) -> &[Term]
        ensures { result.now ≡ self.now }
    {
        &self.terms
    }
}
