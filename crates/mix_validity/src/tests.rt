// Lists that are valid, and lists whose facets of negative weight are known.
ghost use Rattle.std.specs.Prelude.{◌≡◌, ◌<◌, ◌≤◌, ◌≤ℤ◌, pos, suc, length, IfOk, OnOk};
ghost use Rattle.mix_bids.specs.Bids.{IsBid};
ghost use Rattle.mix_num.specs.Ranges.{HaveRoom};
ghost use Rattle.mix_validity.specs.ValidLists.{book_of};

use crate::{Refused, ValidList, validate};
use mix_bids::{Bid, BidList, Values};
use mix_law::{Convex, Pair};
use mix_num::{Memory, Prices, Set, SetTable};
use std::alloc::Global;
use std::test::Fail;

/// A bid of what is offered for each good.
fn bid(weight: i64, offers: &[Option<i64>]) -> Bid
    requires { length offers.now ≤ 8 }
    ensures { result ≡ record { weight = weight; values = record { items = offers.now } } }
{
    let mut values = Values::new();
    for offer in offers {
        values.push(*offer);
    }
    Bid { weight, values }
}

/// Adds a bid.
fn add(list: &mut BidList, bid: Bid) -> Result<(), Memory>
    requires bid { IsBid list.old.goods bid }
    requires room { length list.old.bids < 400 }
    ensures goods { OnOk result (list.new.goods ≡ list.old.goods) }
    ensures size { OnOk result (length list.new.bids ≡ suc (length list.old.bids)) }
{
    list.push(bid)
}

/// One unit of either good or of both, for 4 each, and a better offer for one of the two.
fn valid(alloc: Global) -> Result<BidList, Memory>
    ensures { IfOk result (λ list. list.goods ≡ 2) }
{
    let mut list = BidList::new(alloc, 2);
    add(&mut list, bid(1, &[Some(4), None]))?;
    add(&mut list, bid(1, &[None, Some(4)]))?;
    add(&mut list, bid(1, &[Some(6), Some(6)]))?;
    add(&mut list, bid(-1, &[Some(4), Some(4)]))?;
    Ok(list)
}

/// Two goods that are wanted together alone: nobody is torn between them but the bid of negative weight.
fn together(alloc: Global, value: i64) -> Result<BidList, Memory>
    requires { (pos 0 ≤ℤ value) × (value ≤ℤ pos 1000000) }
{
    let mut list = BidList::new(alloc, 2);
    add(&mut list, bid(1, &[Some(value), None]))?;
    add(&mut list, bid(1, &[None, Some(value)]))?;
    add(&mut list, bid(-1, &[Some(value), Some(value)]))?;
    Ok(list)
}

/// Seven bids whose one facet of negative weight shows where the second good and the third cost 9 or more.
fn seven(alloc: Global) -> Result<BidList, Memory> {
    let mut list = BidList::new(alloc, 3);
    add(&mut list, bid(1, &[Some(5), Some(2), Some(2)]))?;
    add(&mut list, bid(-1, &[Some(5), Some(2), Some(8)]))?;
    add(&mut list, bid(-1, &[Some(5), Some(8), Some(2)]))?;
    add(&mut list, bid(1, &[None, Some(8), Some(2)]))?;
    add(&mut list, bid(1, &[None, Some(2), Some(8)]))?;
    add(&mut list, bid(1, &[Some(6), Some(9), None]))?;
    add(&mut list, bid(1, &[Some(6), None, Some(9)]))?;
    Ok(list)
}

/// Four bids whose one facet of negative weight is met at the prices 3 and 2 alone. That the list isn't convex shows at 3.5
/// and 2.5, half way between 3 and 3, and 4 and 2.
fn four(alloc: Global) -> Result<BidList, Memory> {
    let mut list = BidList::new(alloc, 2);
    add(&mut list, bid(2, &[Some(3), Some(2)]))?;
    add(&mut list, bid(2, &[Some(3), Some(3)]))?;
    add(&mut list, bid(-1, &[Some(4), Some(3)]))?;
    add(&mut list, bid(1, &[Some(4), None]))?;
    Ok(list)
}

/// Twelve times the same bid of negative weight on one good.
fn twelve(alloc: Global) -> Result<BidList, Memory> {
    let mut list = BidList::new(alloc, 1);
    for _ in 0..12_usize {
        add(&mut list, bid(-1, &[Some(5)]))?;
    }
    Ok(list)
}

/// The two choices for which a list is refused, the facet weight that the refusal carries, and the one that the list
/// has at its prices.
fn refusal(alloc: Global, list: BidList) -> Result<Option<(usize, usize, i64, i64)>, Memory> {
    let copy = list.copy(alloc)?;
    match validate(alloc, list) {
        Ok(_) => Ok(None),
        Err(Refused::NotValid(facet)) => {
            let weight = copy.facet_weight(facet.first, facet.second, &facet.prices);
            Ok(Some((facet.first, facet.second, facet.weight, weight)))
        }
        Err(Refused::Memory) => Err(Memory),
    }
}

#[test]
fn refusals(rt: HostRuntime) -> Result<(), Fail> {
    let rows = [
        (valid(rt.alloc())?, None),
        (together(rt.alloc(), 6)?, Some((1, 2, -1, -1))),
        (together(rt.alloc(), 0)?, Some((1, 2, -1, -1))),
        (seven(rt.alloc())?, Some((0, 1, -1, -1))),
        (four(rt.alloc())?, Some((1, 2, -1, -1))),
        (twelve(rt.alloc())?, Some((0, 1, -12, -12))),
    ];
    for (list, expected) in rows {
        assert_eq!(rt; refusal(rt.alloc(), list)?, expected);
    }
    Ok(())
}

/// The prices 4 and 0.
fn prices() -> Prices
    ensures { HaveRoom 2 result.items }
{
    let mut prices = Prices::new();
    prices.push(4);
    prices.push(0);
    prices
}

/// What a member over two goods answers at the prices 4 and 0: its goods and its total, the tops, the value, the fall
/// and the rise of both goods, the rise of the first one, and the reach.
fn answers<D: Convex>(member: &D) -> [i64; 9]
    requires { D.goods member.now ≡ 2 }
{
    let prices = prices();
    let goods = Set::from_bits(6);
    [
        member.goods() as i64,
        member.total(),
        member.top(1),
        member.top(2),
        member.value(&prices),
        member.fall(&prices, goods),
        member.gain_down(&prices, goods),
        member.gain_down(&prices, Set::from_bits(2)),
        member.reach(&prices, goods),
    ]
}

/// The fall and the gain of each set of the null choice and two goods at the prices 4 and 0, read from the tables of all sets.
fn swept<D: Convex>(member: &D) -> [(i64, i64); 8]
    requires { D.goods member.now ≡ 2 }
{
    let prices = prices();
    let _total = member.total();
    let mut falls = SetTable::new();
    member.falls(&prices, &mut falls);
    let mut gains = SetTable::new();
    member.gains(&prices, &mut gains);
    let mut numbers = [(0, 0); 8];
    for bits in 0..8_u16 {
        let set = Set::from_bits(bits);
        numbers[bits as usize] = (falls.at(set), gains.at(set));
    }
    numbers
}

/// The valid list, as one.
fn member(alloc: Global) -> Result<ValidList, Refused>
    ensures { IfOk result (λ valid. (book_of valid).goods ≡ 2) }
{
    validate(alloc, valid(alloc)?)
}

/// Two valid lists over two goods as one member.
fn pair(first: ValidList, second: ValidList) -> Pair<ValidList, ValidList>
    requires first { (book_of first).goods ≡ 2 }
    requires second { (book_of second).goods ≡ 2 }
    ensures { result.first ≡ first }
{
    let _first = first.list().total();
    let _second = second.list().total();
    Pair::new(first, second)
}

#[test]
fn members(rt: HostRuntime) -> Result<(), Fail> {
    let first = member(rt.alloc()).ok().ok_or("memory")?;
    let second = member(rt.alloc()).ok().ok_or("memory")?;
    assert_eq!(rt; answers(&first), [2, 2, 6, 6, 6, 1, 2, 1, 4]);
    assert_eq!(rt;
        swept(&first),
        [
            (0, 0),
            (0, 1),
            (0, 1),
            (1, 1),
            (1, 1),
            (1, 2),
            (1, 2),
            (2, 2)
        ]
    );
    let both = pair(first, second);
    assert_eq!(rt; answers(&both), [2, 4, 6, 6, 12, 2, 4, 2, 4]);
    assert_eq!(rt;
        swept(&both),
        [
            (0, 0),
            (0, 2),
            (0, 2),
            (2, 2),
            (2, 2),
            (2, 4),
            (2, 4),
            (4, 4)
        ]
    );
    Ok(())
}
