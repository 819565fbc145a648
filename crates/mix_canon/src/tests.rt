// Canonical lists and comparisons, worked out by hand.
ghost use Rattle.std.specs.Prelude.{◌≡◌, ◌≤◌, ◌<◌, ◌∷◌, [], suc, pos, length, Some, IfOk, OnOk};
ghost use Rattle.mix_bids.specs.Bids.{IsBid};

use crate::{Likeness, Term, canon, same};
use mix_bids::{Bid, BidList, Values};
use mix_num::{Memory, Prices};
use std::alloc::Global;
use std::test::Fail;

/// A bid over one good.
fn single(weight: i64, value: i64) -> Bid
    ensures { result ≡ record { weight = weight; values = record { items = Some value ∷ [] } } }
{
    let mut values = Values::new();
    values.push(Some(value));
    Bid { weight, values }
}

/// A bid over two goods.
fn bid(weight: i64, first: Option<i64>, second: Option<i64>) -> Bid
    ensures { result ≡ record { weight = weight; values = record { items = first ∷ second ∷ [] } } }
{
    let mut values = Values::new();
    values.push(first);
    values.push(second);
    Bid { weight, values }
}

/// Adds a bid.
fn add(list: &mut BidList, bid: Bid) -> Result<(), Memory>
    requires bid { IsBid list.old.goods bid }
    requires room { length list.old.bids < 400 }
    ensures goods { OnOk result (list.new.goods ≡ list.old.goods) }
    ensures size { OnOk result (length list.new.bids ≡ suc (length list.old.bids)) }
{
    list.push(bid)
}

/// A list of two bids.
fn pair(alloc: Global, goods: usize, first: Bid, second: Bid) -> Result<BidList, Memory>
    requires goods { (1 ≤ goods) × (goods ≤ 8) }
    requires first { IsBid goods first }
    requires second { IsBid goods second }
    ensures { IfOk result (λ list. list.goods ≡ goods) }
{
    let mut list = BidList::new(alloc, goods);
    add(&mut list, first)?;
    add(&mut list, second)?;
    Ok(list)
}

/// The bids (4, -; 1), (-, 4; 1), (6, 6; 1) and (4, 4; -1).
fn four(alloc: Global) -> Result<BidList, Memory>
    ensures { IfOk result (λ list. list.goods ≡ 2) }
{
    let mut list = BidList::new(alloc, 2);
    add(&mut list, bid(1, Some(4), None))?;
    add(&mut list, bid(1, None, Some(4)))?;
    add(&mut list, bid(1, Some(6), Some(6)))?;
    add(&mut list, bid(-1, Some(4), Some(4)))?;
    Ok(list)
}

/// The same bids the other way round, then (9, 9; 1) and (9, 9) with the last weight.
fn turned(alloc: Global, last: i64) -> Result<BidList, Memory>
    requires { IsBid 2 (record { weight = last; values = record { items = Some (pos 9) ∷ Some (pos 9) ∷ [] } }) }
    ensures { IfOk result (λ list. list.goods ≡ 2) }
{
    let mut list = BidList::new(alloc, 2);
    add(&mut list, bid(-1, Some(4), Some(4)))?;
    add(&mut list, bid(1, Some(6), Some(6)))?;
    add(&mut list, bid(1, None, Some(4)))?;
    add(&mut list, bid(1, Some(4), None))?;
    add(&mut list, bid(1, Some(9), Some(9)))?;
    add(&mut list, bid(last, Some(9), Some(9)))?;
    Ok(list)
}

/// Whether the lists were told apart at these prices, where their utilities are these numbers.
fn tells(likeness: &Likeness, at: &[i64], left: i64, right: i64) -> bool {
    match likeness {
        Likeness::Equal => false,
        Likeness::Differ {
            prices,
            first,
            second,
        } => prices.as_slice() == at && *first == left && *second == right,
    }
}

/// Whether there is a pair, with these values and this weight.
fn is_pair(term: Option<&Term>, values: &[Option<i64>], weight: i64) -> bool {
    match term {
        None => false,
        Some(term) => term.values.as_slice() == values && term.weight == weight,
    }
}

#[test]
fn pairs_in_order(rt: HostRuntime) -> Result<(), Fail> {
    let list = canon(rt.alloc(), &turned(rt.alloc(), -1)?)?;
    let rows = [
        (None, Some(4), 1),
        (Some(4), None, 1),
        (Some(4), Some(4), -1),
        (Some(6), Some(6), 1),
    ];
    for (place, (first, second, weight)) in rows.into_iter().enumerate() {
        assert!(rt; is_pair(list.terms().get(place), &[first, second], weight));
    }
    assert_eq!(rt; list.terms().len(), 4);
    Ok(())
}

#[test]
fn weights_of_equal_values(rt: HostRuntime) -> Result<(), Fail> {
    let twice = canon(
        rt.alloc(),
        &pair(rt.alloc(), 1, single(1, 5), single(1, 5))?,
    )?;
    assert!(rt; is_pair(twice.terms().get(0), &[Some(5)], 2));
    assert_eq!(rt; twice.terms().len(), 1);
    let cancelled = canon(
        rt.alloc(),
        &pair(rt.alloc(), 1, single(1, 7), single(-1, 7))?,
    )?;
    assert_eq!(rt; cancelled.terms().len(), 0);
    Ok(())
}

#[test]
fn other_order_and_nothing_more(rt: HostRuntime) -> Result<(), Fail> {
    let first = four(rt.alloc())?;
    let second = same(rt.alloc(), &first, &turned(rt.alloc(), -1)?)?;
    assert!(rt; matches!(second, Likeness::Equal));
    let third = same(rt.alloc(), &first, &turned(rt.alloc(), -2)?)?;
    assert!(rt; tells(&third, &[-1, -1], 12, 2));
    Ok(())
}

/// Two units of one good at 5 each.
fn fives(alloc: Global) -> Result<BidList, Memory>
    ensures { IfOk result (λ list. list.goods ≡ 1) }
{
    pair(alloc, 1, single(1, 5), single(1, 5))
}

#[test]
fn one_good(rt: HostRuntime) -> Result<(), Fail> {
    let first = fives(rt.alloc())?;
    let mut second = BidList::new(rt.alloc(), 1);
    add(&mut second, single(2, 5))?;
    assert!(rt; matches!(same(rt.alloc(), &first, &second)?, Likeness::Equal));
    let nothing = pair(rt.alloc(), 1, single(1, 7), single(-1, 7))?;
    assert!(rt; tells(&same(rt.alloc(), &first, &nothing)?, &[-1], 12, 0));
    Ok(())
}

#[test]
fn more_units_of_one_good(rt: HostRuntime) -> Result<(), Fail> {
    let first = fives(rt.alloc())?;
    let more = pair(rt.alloc(), 1, single(2, 2), single(1, 5))?;
    assert!(rt; tells(&same(rt.alloc(), &first, &more)?, &[-2], 14, 15));
    Ok(())
}

#[test]
fn other_values_of_one_good(rt: HostRuntime) -> Result<(), Fail> {
    let first = fives(rt.alloc())?;
    let near = pair(rt.alloc(), 1, single(1, 4), single(1, 6))?;
    assert!(rt; tells(&same(rt.alloc(), &first, &near)?, &[5], 0, 1));
    let far = pair(rt.alloc(), 1, single(1, 3), single(1, 7))?;
    assert!(rt; tells(&same(rt.alloc(), &first, &far)?, &[4], 2, 3));
    Ok(())
}

// Nothing stands before every number: the first vector is (-, 5).
#[test]
fn a_good_left_out_comes_first(rt: HostRuntime) -> Result<(), Fail> {
    let fives = pair(
        rt.alloc(),
        2,
        bid(1, Some(5), Some(5)),
        bid(1, Some(5), Some(5)),
    )?;
    let apart = pair(rt.alloc(), 2, bid(1, None, Some(5)), bid(1, Some(5), None))?;
    assert!(rt; tells(&same(rt.alloc(), &apart, &fives)?, &[-1, 5], 6, 12));
    Ok(())
}

// The lists agree at (5, 5), and where the price of one good is another.
#[test]
fn both_goods_at_once(rt: HostRuntime) -> Result<(), Fail> {
    let sixes = pair(
        rt.alloc(),
        2,
        bid(1, Some(6), Some(6)),
        bid(1, Some(6), Some(6)),
    )?;
    let wide = pair(
        rt.alloc(),
        2,
        bid(1, Some(5), Some(5)),
        bid(1, Some(7), Some(7)),
    )?;
    assert!(rt; tells(&same(rt.alloc(), &wide, &sixes)?, &[6, 6], 1, 0));
    Ok(())
}

// They agree where the first good's price is one more.
#[test]
fn one_good_lower(rt: HostRuntime) -> Result<(), Fail> {
    let second = pair(
        rt.alloc(),
        2,
        bid(1, Some(5), Some(5)),
        bid(1, Some(5), Some(7)),
    )?;
    let middle = pair(
        rt.alloc(),
        2,
        bid(1, Some(5), Some(6)),
        bid(1, Some(5), Some(6)),
    )?;
    assert!(rt; tells(&same(rt.alloc(), &second, &middle)?, &[4, 5], 3, 2));
    Ok(())
}
