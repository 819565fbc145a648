// The tables of an auction's members, as worked out by hand: two bidders for two goods, and the seller of one unit of each.
ghost use Rattle.std.specs.Prelude.{◌≡◌, ◌<◌, ◌∷◌, [], suc, pos, length, Some, IfOk, OnOk};
ghost use Rattle.mix_bids.specs.Bids.{IsBid};
ghost use Rattle.mix_num.specs.Ranges.{HaveRoom, Lies};
ghost use Rattle.mix_num.specs.Sellers.{AreAmounts, IsAmount};
ghost use Rattle.mix_validity.specs.ValidLists.{book_of};

use mix_bids::{Bid, BidList, Values};
use mix_demand::{Rho, is_demanded, rho_of};
use mix_law::{Convex, Pair};
use mix_market::Market;
use mix_num::{Bundle, Memory, Prices, Set, SetTable};
use mix_seller::Seller;
use mix_validity::{ValidList, validate};
use std::alloc::Global;
use std::test::Fail;

/// Adds a bid of what is offered for either good.
fn add(
    list: &mut BidList,
    weight: i64,
    first: Option<i64>,
    second: Option<i64>,
) -> Result<(), Memory>
    requires bid { IsBid list.old.goods (record { weight = weight; values = record { items = first ∷ second ∷ [] } }) }
    requires room { length list.old.bids < 400 }
    ensures goods { OnOk result (list.new.goods ≡ list.old.goods) }
    ensures size { OnOk result (length list.new.bids ≡ suc (length list.old.bids)) }
{
    let mut values = Values::new();
    values.push(first);
    values.push(second);
    list.push(Bid { weight, values })
}

/// One unit of either good or of both, for 4 each, and a better offer for one of the two.
fn either(alloc: Global) -> Result<BidList, Memory>
    ensures { IfOk result (λ list. list.goods ≡ 2) }
{
    let mut list = BidList::new(alloc, 2);
    add(&mut list, 1, Some(4), None)?;
    add(&mut list, 1, None, Some(4))?;
    add(&mut list, 1, Some(6), Some(6))?;
    add(&mut list, -1, Some(4), Some(4))?;
    Ok(list)
}

/// One unit of a good, for 5.
fn single(alloc: Global, second: Option<i64>) -> Result<BidList, Memory>
    requires { IsBid 2 (record { weight = pos 1; values = record { items = Some (pos 5) ∷ second ∷ [] } }) }
    ensures { IfOk result (λ list. list.goods ≡ 2) }
{
    let mut list = BidList::new(alloc, 2);
    add(&mut list, 1, Some(5), second)?;
    Ok(list)
}

/// The list as a member.
fn valid(alloc: Global, list: BidList) -> Result<ValidList, Fail>
    ensures { IfOk result (λ valid. book_of valid ≡ list) }
{
    match validate(alloc, list) {
        Ok(valid) => Ok(valid),
        Err(_) => Err("refused".into()),
    }
}

/// Prices of both goods.
fn prices(first: i64, second: i64) -> Prices
    requires first { Lies 3999999 first }
    requires second { Lies 3999999 second }
    ensures { HaveRoom 2 result.items }
{
    let mut both = Prices::new();
    both.push(first);
    both.push(second);
    both
}

/// The same amount of both goods.
fn amounts(each: i64) -> Bundle
    requires { IsAmount each }
    ensures { AreAmounts 2 result.items }
{
    let mut both = Bundle::new();
    both.push(each);
    both.push(each);
    both
}

/// The member's table at the prices.
fn table<D: Convex>(alloc: Global, member: &D, first: i64, second: i64) -> Result<Rho, Memory>
    requires size { D.goods member.now ≡ 2 }
    requires first { Lies 3999999 first }
    requires second { Lies 3999999 second }
    ensures { IfOk result (λ table. length table ≡ 8) }
{
    rho_of(alloc, member, &prices(first, second))
}

#[test]
fn tables_of_an_auction(rt: HostRuntime) -> Result<(), Fail> {
    let alloc = rt.alloc();
    let torn = valid(alloc, either(alloc)?)?;
    let plain = valid(alloc, single(alloc, None)?)?;
    let seller = Seller::new(&amounts(1), &amounts(0));
    let of_torn = table(alloc, &torn, 4, 0)?;
    let of_plain = table(alloc, &plain, 4, 0)?;
    let of_seller = table(alloc, &seller, 4, 0)?;
    assert_eq!(rt; of_torn.numbers(), [0, 1, 1, 1, 1, 2, 2, 2].as_slice());
    assert_eq!(rt; of_plain.numbers(), [0, 0, 1, 1, 0, 0, 1, 1].as_slice());
    assert_eq!(rt; of_seller.numbers(), [0, 2, 0, 2, 1, 2, 1, 2].as_slice());
    Ok(())
}

// Whoever wants one unit of either good doesn't want one of each.
#[test]
fn both_goods_are_too_many(rt: HostRuntime) -> Result<(), Fail> {
    let alloc = rt.alloc();
    let member = valid(alloc, single(alloc, Some(5))?)?;
    let of_member = table(alloc, &member, 0, 0)?;
    assert_eq!(rt;
        is_demanded(&of_member, &amounts(1)),
        Some(Set::from_bits(6))
    );
    Ok(())
}

/// An amount of either good.
fn both_amounts(first: i64, second: i64) -> Bundle
    requires first { IsAmount first }
    requires second { IsAmount second }
    ensures { AreAmounts 2 result.items }
{
    let mut both = Bundle::new();
    both.push(first);
    both.push(second);
    both
}

/// What is asked of a member at prices of both goods and of the first good alone: its total, its tops, its value, its fall, its
/// gain and its reach.
fn answers<D: Convex>(member: &D, first: i64, second: i64) -> [i64; 7]
    requires size { D.goods member.now ≡ 2 }
    requires first { Lies 3999999 first }
    requires second { Lies 3999999 second }
{
    let prices = prices(first, second);
    let set = Set::from_bits(2);
    [
        member.total(),
        member.top(1),
        member.top(2),
        member.value(&prices),
        member.fall(&prices, set),
        member.gain_down(&prices, set),
        member.reach(&prices, set),
    ]
}

/// The slopes of the market of this member and of one unit of each good.
fn slopes<D: Convex + Drop>(
    alloc: Global,
    member: D,
    first: i64,
    second: i64,
) -> Result<SetTable, Fail>
    requires size { D.goods member ≡ 2 }
    requires first { Lies 3999999 first }
    requires second { Lies 3999999 second }
{
    let mut members = Vec::new(alloc);
    members.push(member)?;
    let market = Market::new(members, Seller::new(&amounts(1), &amounts(0)));
    let mut out = SetTable::new();
    market.slopes(&prices(first, second), &mut out);
    Ok(out)
}

// The list with a negative bid and a seller together are a member, by the sums of their numbers.
#[test]
fn a_pair_is_a_member(rt: HostRuntime) -> Result<(), Fail> {
    let alloc = rt.alloc();
    let list = valid(alloc, either(alloc)?)?;
    let seller = Seller::new(&both_amounts(30, 20), &both_amounts(10, 15));
    assert!(rt; list.total() + seller.total() <= 8_000_000);
    if list.total() + seller.total() <= 8_000_000 {
        let pair = Pair::new(list, seller);
        assert_eq!(rt; pair.goods(), 2);
        assert_eq!(rt; answers(&pair, 4, 0), [52, 10, 15, 486, 30, 31, 6]);
        let of_pair = table(alloc, &pair, 4, 0)?;
        assert_eq!(rt;
            of_pair.numbers(),
            [0, 1, 31, 31, 21, 22, 52, 52].as_slice()
        );
        let of_market = slopes(alloc, pair, 4, 0)?;
        for (bits, slope) in [(2, -29), (4, -20), (6, -49), (1, 0), (7, 0)] {
            assert_eq!(rt; of_market.at(Set::from_bits(bits)), slope);
        }
    }
    Ok(())
}
