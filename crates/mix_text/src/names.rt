// The names of the goods.
ghost use Rattle.std.specs.Prelude.{◌≡◌, ◌<◌, ◌++◌, ◌∷◌, [], false, length, IfOk, IfSome, OnErr, OnOk, slice_index_or};
ghost use Rattle.mix_text.specs.Names.{AreNames, is_among, place_among};
ghost use Rattle.mix_text.specs.Rows.{is_empty};

use crate::spelling::Name;
use indexmap::IndexSet;
use mix_num::Memory;
use std::alloc::Global;
use std::marker::Model;

/// Names in order, no two alike; contracts see the list of their bytes.
#[derive(Drop)]
pub struct Names {
    names: IndexSet<Name>,
}

impl Model for Names {
    ghost use Rattle.std.specs.Prelude.{List, ℕ, map};

    ghost Value = { List (List ℕ) };

    ghost view = { λ list. map (λ name. name.bytes) list.names.keys };
}

impl Names {
    /// No names.
    pub fn new(alloc: Global) -> Names
        ensures { result ≡ [] }
    {
        Names {
            names: IndexSet::new(alloc),
        }
    }

    /// Whether a name is among them.
    pub fn contains(&self, name: &Name) -> bool
        ensures { result ≡ is_among name.now.bytes self.now }
    {
        self.names.contains(name)
    }

    /// The place of a name, from 0; None where it isn't among them.
    pub fn find(&self, name: &Name) -> Option<usize>
        ensures place { result ≡ place_among name.now.bytes self.now }
        ensures within { IfSome result (λ k. k < length self.now) }
    {
        self.names.get_index_of(name)
    }

    /// Adds a name at the end. Where memory is wanting, the names stay as they were.
    pub fn push(&mut self, name: Name) -> Result<(), Memory>
        requires { is_among name.bytes self.old ≡ false }
        ensures ok { OnOk result (self.new ≡ self.old ++ name.bytes ∷ []) }
        ensures err { OnErr result (self.new ≡ self.old) }
    {
        let Ok(_) = self.names.insert(name) else {
            return Err(Memory);
        };
        Ok(())
    }

    // Equal names, of which no two are alike.
    pub(crate) fn copy(&self, alloc: Global) -> Result<Names, Memory>
        requires { AreNames self.now }
        ensures { IfOk result (λ names. names ≡ self.now) }
    {
        let mut names = Names::new(alloc);
        for k in 0..self.len() {
            names.push(*self.get(k))?;
        }
        Ok(names)
    }

    /// How many there are.
    pub fn len(&self) -> usize
        ensures { result ≡ length self.now }
    {
        self.names.len()
    }

    /// Whether there are none.
    pub fn is_empty(&self) -> bool
        ensures { result ≡ is_empty self.now }
    {
        self.names.is_empty()
    }

    /// The name at a place, from 0.
    pub fn get(&self, k: usize) -> &Name
        requires { k < length self.now }
        ensures { result.now.bytes ≡ slice_index_or self.now k [] }
    {
        &self.names.as_slice()[k]
    }
}
