// What the bidders get and pay.
ghost use Rattle.std.specs.Prelude.{◌≡◌, ◌<◌, ◌++◌, ◌∷◌, [], length, slice_index_or, OnErr, OnOk};
ghost use Rattle.mix_text.specs.Rows.{is_empty};

use mix_num::{Bundle, Memory};
use std::alloc::Global;
use std::marker::Model;

/// What a bidder gets, and what it pays.
#[derive(Drop)]
pub struct Share {
    /// How much of each good it gets, from 0 to 1,000,000.
    pub bundle: Bundle,
    /// What it pays for all of it, from 0 to 10,000,000,000,000.
    pub payment: i64,
}

/// Shares in order; contracts see their list.
#[derive(Drop)]
pub struct Shares {
    shares: Vec<Share>,
}

impl Model for Shares {
    ghost use Rattle.std.specs.Prelude.{List};
    ghost use Rattle.mix_answer.specs.declared.share.Share.{Share};

    ghost Value = { List Share };

    ghost view = { λ list. list.shares.items };
}

impl Shares {
    /// No shares.
    pub fn new(alloc: Global) -> Shares
        ensures { result ≡ [] }
    {
        Shares {
            shares: Vec::new(alloc),
        }
    }

    /// Adds a share at the end. Where memory is wanting, the shares stay as they were.
    pub fn push(&mut self, share: Share) -> Result<(), Memory>
        ensures ok { OnOk result (self.new ≡ self.old ++ share ∷ []) }
        ensures err { OnErr result (self.new ≡ self.old) }
    {
        self.shares.push(share)?;
        Ok(())
    }

    /// How many there are.
    pub fn len(&self) -> usize
        ensures { result ≡ length self.now }
    {
        self.shares.len()
    }

    /// Whether there are none.
    pub fn is_empty(&self) -> bool
        ensures { result ≡ is_empty self.now }
    {
        self.shares.is_empty()
    }

    /// The share at a place, from 0.
    pub fn get(&self, k: usize) -> &Share
        requires { k < length self.now }
        ensures { result.now ≡ slice_index_or self.now k result.now }
    {
        &self.shares[k]
    }
}
