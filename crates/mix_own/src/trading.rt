// The trades at which bidders come to their shares.
ghost use Rattle.std.specs.Prelude.{◌≡◌, ◌≤◌, length, All, IfOk};
ghost use Rattle.mix_num.specs.Ranges.{AreWithin};
ghost use Rattle.mix_num.specs.Sellers.{AreAmounts, IsAmount};
ghost use Rattle.mix_own.specs.Trades.{IsTrade, net_of, trade_of, trades_of};

use crate::owned::Owned;
use crate::trade::{Trade, TradeList};
use mix_answer::{Answer, Share};
use mix_num::{Bundle, Memory, Prices};
use mix_pay::pay;
use std::alloc::Global;

// Good by good the bundle less what is owned.
fn net(bundle: &Bundle, owned: &Bundle) -> Bundle
    requires bundle { All IsAmount bundle.now.items }
    requires owned { AreAmounts (length bundle.now.items) owned.now.items }
    ensures value { result.items ≡ net_of bundle.now.items owned.now.items }
    ensures range { AreWithin 1000000 (length bundle.now.items) result.items }
    ensures few { length result.items ≤ 8 }
{
    let mut net = Bundle::new();
    for (i, amount) in bundle.iter().enumerate() {
        net.push(*amount - owned[i]);
    }
    net
}

// The trade of a bidder that gets a share and owns this.
fn trade(prices: &Prices, share: &Share, owned: &Bundle) -> Trade
    requires prices { All IsAmount prices.now.items }
    requires bundle { AreAmounts (length prices.now.items) share.now.bundle.items }
    requires owned { AreAmounts (length prices.now.items) owned.now.items }
    ensures value { result ≡ trade_of prices.now.items share.now owned.now.items }
    ensures range { IsTrade (length prices.now.items) result }
{
    let net = net(&share.bundle, owned);
    let payment = pay(prices, &net);
    Trade { net, payment }
}

/// The trade of each bidder, in order of the shares: its net amounts, good by good its bundle less what it owns, and price
/// times these, summed over the goods.
///
/// There are as many bidders that own as there are shares. What each owns, the bundle of each share, and the prices are
/// over the same goods, each from 0 to 1,000,000. The one error is want of memory.
pub fn trades(alloc: Global, owned: &Owned, answer: &Answer) -> Result<TradeList, Memory>
    requires count { length owned.now ≡ length answer.now.shares }
    requires prices { All IsAmount answer.now.prices.items }
    requires bundles { All (λ share. AreAmounts (length answer.now.prices.items) share.bundle.items) answer.now.shares }
    requires owned { All (AreAmounts (length answer.now.prices.items)) owned.now }
    ensures value { IfOk result (λ trades. trades ≡ trades_of owned.now answer.now) }
    ensures range { IfOk result (λ trades. All (IsTrade (length answer.now.prices.items)) trades) }
{
    let mut trades = TradeList::new(alloc);
    for k in 0..answer.shares.len() {
        trades.push(trade(&answer.prices, answer.shares.get(k), owned.get(k)))?;
    }
    Ok(trades)
}
