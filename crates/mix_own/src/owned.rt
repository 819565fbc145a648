// What the bidders own.
ghost use Rattle.std.specs.Prelude.{◌≡◌, ◌<◌, ◌≤◌, ◌∷◌, ◌++◌, [], length, pos, replicate, slice_set, IfOk, OnErr, OnOk};
ghost use Rattle.mix_own.specs.Owned.{owned_at};

use mix_num::{Bundle, Memory};
use std::alloc::Global;
use std::marker::Model;

/// For each bidder in order how many units of each good it owns.
#[derive(Drop)]
pub struct Owned {
    bundles: Vec<Bundle>,
}

impl Model for Owned {
    ghost use Rattle.std.specs.Prelude.{List, ℤ, map};

    ghost Value = { List (List ℤ) };

    ghost view = { λ owned. map (λ bundle. bundle.items) owned.bundles.items };
}

impl Owned {
    /// So many bidders that own nothing of so many goods, 0 to 8. The one error is want of memory.
    pub fn nothing(alloc: Global, count: usize, goods: usize) -> Result<Owned, Memory>
        requires { goods ≤ 8 }
        ensures { IfOk result (λ owned. owned ≡ replicate count (replicate goods (pos 0))) }
    {
        let mut owned = Owned {
            bundles: Vec::new(alloc),
        };
        for _ in 0..count {
            owned.push(no_units(goods))?;
        }
        Ok(owned)
    }

    // Adds what a last bidder owns. Where memory is wanting, the bidders stay as they were.
    fn push(&mut self, bundle: Bundle) -> Result<(), Memory>
        ensures ok { OnOk result (self.new ≡ self.old ++ bundle.items ∷ []) }
        ensures err { OnErr result (self.new ≡ self.old) }
    {
        self.bundles.push(bundle)?;
        Ok(())
    }

    /// What the bidder at a place, from 0, owns of each good.
    pub fn get(&self, k: usize) -> &Bundle
        requires { k < length self.now }
        ensures { result.now.items ≡ owned_at self.now k }
    {
        &self.bundles[k]
    }

    /// Says what the bidder at a place, from 0, owns of each good, in place of what it owned before.
    pub fn set(&mut self, k: usize, bundle: Bundle)
        requires { k < length self.old }
        ensures { self.new ≡ slice_set self.old k bundle.items }
    {
        self.bundles[k] = bundle;
    }

    /// How many bidders there are.
    pub fn count(&self) -> usize
        ensures { result ≡ length self.now }
    {
        self.bundles.len()
    }
}

// Nothing of each of so many goods.
fn no_units(goods: usize) -> Bundle
    requires { goods ≤ 8 }
    ensures { result.items ≡ replicate goods (pos 0) }
{
    let mut none = Bundle::new();
    for _ in 0..goods {
        none.push(0);
    }
    none
}
