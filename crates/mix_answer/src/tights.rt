// The pairs of sets that show what the bidders can't get.
ghost use Rattle.std.specs.Prelude.{◌≡◌, ◌<◌, ◌++◌, ◌∷◌, [], length, slice_index_or, OnErr, OnOk};
ghost use Rattle.mix_text.specs.Rows.{is_empty};

use mix_num::{Memory, Tight};
use std::alloc::Global;
use std::marker::Model;

/// Pairs in order; contracts see their list.
#[derive(Drop)]
pub struct Tights {
    tights: Vec<Tight>,
}

impl Model for Tights {
    ghost use Rattle.std.specs.Prelude.{List};
    ghost use Rattle.mix_num.specs.declared.pair.Tight.{Tight};

    ghost Value = { List Tight };

    ghost view = { λ list. list.tights.items };
}

impl Tights {
    /// No pairs.
    pub fn new(alloc: Global) -> Tights
        ensures { result ≡ [] }
    {
        Tights {
            tights: Vec::new(alloc),
        }
    }

    /// Adds a pair at the end. Where memory is wanting, the pairs stay as they were.
    pub fn push(&mut self, tight: Tight) -> Result<(), Memory>
        ensures ok { OnOk result (self.new ≡ self.old ++ tight ∷ []) }
        ensures err { OnErr result (self.new ≡ self.old) }
    {
        self.tights.push(tight)?;
        Ok(())
    }

    /// How many there are.
    pub fn len(&self) -> usize
        ensures { result ≡ length self.now }
    {
        self.tights.len()
    }

    /// Whether there are none.
    pub fn is_empty(&self) -> bool
        ensures { result ≡ is_empty self.now }
    {
        self.tights.is_empty()
    }

    /// The pair at a place, from 0.
    pub fn get(&self, k: usize) -> Tight
        requires { k < length self.now }
        ensures { result ≡ slice_index_or self.now k result }
    {
        self.tights[k]
    }
}
