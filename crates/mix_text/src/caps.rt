// The caps of the bidders.
ghost use Rattle.std.specs.Prelude.{◌≡◌, ◌<◌, ◌-◌, ◌∷◌, ◌++◌, [], length, remove, take, IfOk, OnErr, OnOk};
ghost use Rattle.mix_text.specs.Caps.{cap_at, no_caps, with_cap};

use mix_num::Memory;
use std::alloc::Global;
use std::marker::Model;

/// For each bidder in order how many units it takes at most in all goods together, or that it has no cap.
#[derive(Drop)]
pub struct Caps {
    caps: Vec<Option<i64>>,
}

impl Model for Caps {
    ghost use Rattle.std.specs.Prelude.{List, Option, ℤ};

    ghost Value = { List (Option ℤ) };

    ghost view = { λ caps. caps.caps.items };
}

impl Caps {
    /// So many bidders without caps.
    pub fn none(alloc: Global, count: usize) -> Result<Caps, Memory>
        ensures { IfOk result (λ caps. caps ≡ no_caps count) }
    {
        let caps = vec![in alloc; None; count]?;
        Ok(Caps { caps })
    }

    /// The cap of the bidder at a place, from 0.
    pub fn get(&self, k: usize) -> Option<i64>
        requires { k < length self.now }
        ensures { result ≡ cap_at self.now k }
    {
        self.caps[k]
    }

    /// Gives the bidder at a place, from 0, a cap, in place of the one that it may have had.
    pub fn set(&mut self, k: usize, cap: i64)
        requires { k < length self.old }
        ensures { self.new ≡ with_cap self.old k cap }
    {
        self.caps[k] = Some(cap);
    }

    /// How many bidders there are.
    pub fn count(&self) -> usize
        ensures { result ≡ length self.now }
    {
        self.caps.len()
    }

    // Adds the cap of a last bidder, or that it has none. Where memory is wanting, the caps stay as they were.
    pub(crate) fn push(&mut self, cap: Option<i64>) -> Result<(), Memory>
        ensures ok { OnOk result (self.new ≡ self.old ++ cap ∷ []) }
        ensures err { OnErr result (self.new ≡ self.old) }
    {
        self.caps.push(cap)?;
        Ok(())
    }

    // Takes out the cap of the last bidder.
    pub(crate) fn pop(&mut self)
        ensures { self.new ≡ take (length self.old - 1) self.old }
    {
        let _ = self.caps.pop();
    }

    // Takes out the cap of the bidder at a place, from 0.
    pub(crate) fn remove(&mut self, k: usize)
        requires { k < length self.old }
        ensures { self.new ≡ remove self.old k }
    {
        let _ = self.caps.remove(k);
    }

    // Equal caps.
    pub(crate) fn copy(&self, alloc: Global) -> Result<Caps, Memory>
        ensures { IfOk result (λ caps. caps ≡ self.now) }
    {
        let mut copy = Caps {
            caps: Vec::new(alloc),
        };
        for cap in &self.caps {
            copy.push(*cap)?;
        }
        Ok(copy)
    }
}
