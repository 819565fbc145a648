// The tables of all members of a market at prices, in tie order.
ghost use Rattle.std.specs.Prelude.{◌≡◌, suc, length, map, IfOk};
ghost use Rattle.mix_num.specs.Ranges.{HaveRoom};
ghost use Rattle.mix_seller.specs.Sellers.{reserve_of, supply_of};
ghost use Rattle.mix_market.specs.Markets.{goods_of, members_of, seller_of};
ghost use Rattle.mix_text.specs.Orders.{IsTieOrder};
ghost use Rattle.mix_ties.specs.Shares.{AreProper};
ghost use Rattle.mix_law.specs.Certificates.{tables_at};

use mix_law::Convex;
use mix_market::Market;
use mix_num::{Memory, Prices};
use mix_text::Order;
use mix_ties::Tables;
use std::alloc::Global;

/// The tables of the members in tie order at the prices, and the seller's last.
pub fn tables_of<D: Convex>(
    alloc: Global,
    market: &Market<D>,
    order: &Order,
    prices: &Prices,
) -> Result<Tables, Memory>
    requires order { IsTieOrder (length (members_of market.now)) order.now }
    requires prices { HaveRoom (goods_of market.now) prices.now.items }
    ensures goods { IfOk result (λ tables. tables.goods ≡ goods_of market.now) }
    ensures members { IfOk result (λ tables. length tables.rows ≡ suc (length (members_of market.now))) }
    ensures tables { IfOk result (λ tables. tables.rows ≡ tables_at (map D.function (members_of market.now)) (supply_of (seller_of market.now)) (reserve_of (seller_of market.now))
        prices.now.items order.now) }
    ensures proper { IfOk result (λ tables. AreProper (goods_of market.now) tables.rows) }
{
    let members = market.members();
    let mut tables = Tables::reserve(alloc, market.seller().supply().len(), members.len() + 1)?;
    for turn in 0..order.count() {
        tables.fill(turn, &members[order.place(turn)], prices);
    }
    tables.fill(members.len(), market.seller(), prices);
    Ok(tables)
}
