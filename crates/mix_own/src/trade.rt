// What the bidders trade.
ghost use Rattle.std.specs.Prelude.{◌≡◌, ◌<◌, ◌++◌, ◌∷◌, [], length, slice_index_or, OnErr, OnOk};
ghost use Rattle.mix_text.specs.Rows.{is_empty};

use mix_num::{Bundle, Memory};
use std::alloc::Global;
use std::marker::Model;

/// What a bidder gets beyond what it owns, and what it pays for that.
#[derive(Drop)]
pub struct Trade {
    /// How many units of each good it gets beyond its own, from -1,000,000 to 1,000,000: below 0 it gives of its own.
    pub net: Bundle,
    /// What it pays for all of them, from -10,000,000,000,000 to 10,000,000,000,000: below 0 it is paid.
    pub payment: i64,
}

/// Trades in order; contracts see their list.
#[derive(Drop)]
pub struct TradeList {
    trades: Vec<Trade>,
}

impl Model for TradeList {
    ghost use Rattle.std.specs.Prelude.{List};
    ghost use Rattle.mix_own.specs.declared.trade.Trade.{Trade};

    ghost Value = { List Trade };

    ghost view = { λ list. list.trades.items };
}

impl TradeList {
    /// No trades.
    pub fn new(alloc: Global) -> TradeList
        ensures { result ≡ [] }
    {
        TradeList {
            trades: Vec::new(alloc),
        }
    }

    /// Adds a trade at the end. Where memory is wanting, the trades stay as they were.
    pub fn push(&mut self, trade: Trade) -> Result<(), Memory>
        ensures ok { OnOk result (self.new ≡ self.old ++ trade ∷ []) }
        ensures err { OnErr result (self.new ≡ self.old) }
    {
        self.trades.push(trade)?;
        Ok(())
    }

    /// How many there are.
    pub fn len(&self) -> usize
        ensures { result ≡ length self.now }
    {
        self.trades.len()
    }

    /// Whether there are none.
    pub fn is_empty(&self) -> bool
        ensures { result ≡ is_empty self.now }
    {
        self.trades.is_empty()
    }

    /// The trade at a place, from 0.
    pub fn get(&self, k: usize) -> &Trade
        requires { k < length self.now }
        ensures { result.now ≡ slice_index_or self.now k result.now }
    {
        &self.trades[k]
    }
}
