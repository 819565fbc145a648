// What the members of a market get at its least point, by the tie rule, and what shows it.
ghost use Rattle.std.specs.Prelude.{◌≡◌, ◌≤◌, ◌*◌, length, map, IfOk};
ghost use Rattle.mix_num.specs.Ranges.{AreWithin};
ghost use Rattle.mix_num.specs.Vectors.{with_null};
ghost use Rattle.mix_seller.specs.Sellers.{reserve_of, supply_of};
ghost use Rattle.mix_market.specs.Lyapunov.{IsLeastPoint};
ghost use Rattle.mix_market.specs.Markets.{goods_of, lyapunov_of, members_of, seller_of};
ghost use Rattle.mix_text.specs.Orders.{IsTieOrder};
ghost use Rattle.mix_law.specs.Clearings.{IsSolution};
ghost use Rattle.mix_serve.specs.Answers.{AreFirstPairs};

use crate::filling::tables_of;
use crate::places::{bundles_in_place, empty_bundles, empty_pairs, pairs_in_place};
use mix_law::Convex;
use mix_market::Market;
use mix_num::{Bundle, Memory, Prices, Tight};
use mix_text::Order;
use mix_ties::share;
use std::alloc::Global;

/// A bundle for each member as they stand, what the seller keeps, and for each member and each good a pair of sets.
#[derive(Drop)]
pub struct Sharing {
    pub bundles: Vec<Bundle>,
    pub returns: Bundle,
    pub tights: Vec<Tight>,
}

/// The bundles and the returns that clear the market at its least point, by the tie rule in the tie order, and the first
/// tight pairs.
pub fn share_out<D: Convex>(
    alloc: Global,
    market: &Market<D>,
    order: &Order,
    prices: &Prices,
) -> Result<Sharing, Memory>
    requires order { IsTieOrder (length (members_of market.now)) order.now }
    requires least { IsLeastPoint (goods_of market.now) (lyapunov_of market.now) (with_null (reserve_of (seller_of market.now))) (with_null prices.now.items) }
    requires range { AreWithin 1000000 (goods_of market.now) prices.now.items }
    ensures solution { IfOk result (λ s. IsSolution (map D.function (members_of market.now)) (supply_of (seller_of market.now)) (reserve_of (seller_of market.now))
        order.now prices.now.items (map (λ b. b.items) s.bundles.items) s.returns.items) }
    ensures tights { IfOk result (λ s. AreFirstPairs (map D.function (members_of market.now)) (supply_of (seller_of market.now)) (reserve_of (seller_of market.now))
        order.now prices.now.items (map (λ b. b.items) s.bundles.items) s.tights.items) }
{
    let members = market.members().len();
    let supply = market.seller().supply();
    let mut tables = tables_of(alloc, market, order, prices)?;
    let mut shared = empty_bundles(alloc, members + 1)?;
    let mut pairs = empty_pairs(alloc, members * supply.len())?;
    share(&mut tables, supply, &mut shared, &mut pairs);
    let returns = shared.pop().unwrap();
    let bundles = bundles_in_place(alloc, order, &shared)?;
    let tights = pairs_in_place(alloc, order, supply.len(), &pairs)?;
    Ok(Sharing {
        bundles,
        returns,
        tights,
    })
}
