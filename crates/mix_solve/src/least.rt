// The least prices at which the Lyapunov function of a market of bidders is least.
ghost use Rattle.std.specs.Prelude.{◌≡◌, ◌<◌};
ghost use Rattle.mix_num.specs.Vectors.{with_null};
ghost use Rattle.mix_num.specs.Ranges.{AreWithin};
ghost use Rattle.mix_seller.specs.Sellers.{reserve_of};
ghost use Rattle.mix_market.specs.Lyapunov.{IsLeastPoint};
ghost use Rattle.mix_market.specs.Markets.{goods_of, lyapunov_of, seller_of};

use mix_cap::Member;
use mix_descent::descend_near;
use mix_guess::guess_prices;
use mix_market::Market;
use mix_num::Prices;
use mix_step::Steps;
use std::marker::Brand;
use std::sync::ledger::{Blank, Ledger};

/// The least point of the market's Lyapunov function among the prices at or above the seller's reserves: a price for each
/// good, from 0 to 1,000,000.
pub fn least_prices(market: &Market<Member>) -> Prices
    ensures least { IsLeastPoint (goods_of market.now) (lyapunov_of market.now) (with_null (reserve_of (seller_of market.now))) (with_null result.items) }
    ensures range { AreWithin 1000000 (goods_of market.now) result.items }
{
    search::<Brand>(market, Blank::new(1))
}

// The least point, looked for near a guess, with a counter of steps on a ledger of its own.
fn search<L: Ledger>(market: &Market<Member>, blank: Blank) -> Prices
    requires name { blank.name ≡ L.name }
    requires parts { blank.parts ≡ L.parts }
    requires some { 0 < blank.parts }
    ensures least { IsLeastPoint (goods_of market.now) (lyapunov_of market.now) (with_null (reserve_of (seller_of market.now))) (with_null result.items) }
    ensures range { AreWithin 1000000 (goods_of market.now) result.items }
{
    let mut steps = Steps::<L>::new(blank);
    descend_near(market, &guess_prices(market), &mut steps)
}
