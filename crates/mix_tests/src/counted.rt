// How often a member is asked: by a climb, by a search for the least step, and by the filling of a table.
ghost use Rattle.std.specs.Prelude.{◌≡◌, ◌<◌, length, IfOk};
ghost use Rattle.mix_num.specs.Ranges.{AreWithin, HaveRoom};
ghost use Rattle.mix_num.specs.Sellers.{AreAmounts, IsAmount};
ghost use Rattle.mix_market.specs.Markets.{goods_of};
ghost use Rattle.mix_validity.specs.ValidLists.{book_of};

use mix_bids::{Bid, BidList, Values};
use mix_demand::Rho;
use mix_descent::descend;
use mix_law::Convex;
use mix_market::{Market, Seller};
use mix_num::{Bundle, Memory, Prices, Set, SetTable};
use mix_step::{Steps, least_step};
use mix_text::Auction;
use mix_trial::make;
use mix_validity::{ValidList, validate};
use std::alloc::Global;
use std::cell::Cell;
use std::marker::Brand;
use std::sync::ledger::{Blank, Ledger};
use std::test::Fail;

/// A member that counts what it is asked.
#[derive(Drop)]
struct Counted<D: Convex> {
    member: D,
    calls: Cell<u64>,
}

impl<D: Convex> Counted<D> {
    /// One call more.
    fn count(&self) {
        self.calls.set(self.calls.get().saturating_add(1));
    }
}

/// The member, before it was asked anything.
fn unasked<D: Convex>(member: D) -> Counted<D>
    ensures { result.member ≡ member }
{
    Counted {
        member,
        calls: Cell::new(0),
    }
}

impl<D: Convex> Convex for Counted<D> {
    ghost goods = { λ counted. D.goods counted.member };

    ghost total = { λ counted. D.total counted.member };

    ghost top = { λ counted. D.top counted.member };

    ghost function = { λ counted. D.function counted.member };

    ghost reach = { λ counted. D.reach counted.member };

    ghost l_natural = { λ counted. D.l_natural counted.member };

    fn goods(&self) -> usize {
        self.member.goods()
    }

    fn total(&self) -> i64 {
        self.member.total()
    }

    fn top(&self, good: usize) -> i64 {
        self.member.top(good)
    }

    fn value(&self, prices: &Prices) -> i64 {
        self.count();
        self.member.value(prices)
    }

    fn fall(&self, prices: &Prices, set: Set) -> i64 {
        self.count();
        self.member.fall(prices, set)
    }

    fn gain_down(&self, prices: &Prices, set: Set) -> i64 {
        self.count();
        self.member.gain_down(prices, set)
    }

    fn reach(&self, prices: &Prices, set: Set) -> i64 {
        self.count();
        self.member.reach(prices, set)
    }

    fn falls(&self, prices: &Prices, out: &mut SetTable) {
        self.count();
        self.member.falls(prices, out);
    }

    fn falls_by_parts(&self, prices: &Prices, parts: &mut SetTable) -> bool {
        self.count();
        self.member.falls_by_parts(prices, parts)
    }

    fn gains(&self, prices: &Prices, out: &mut SetTable) {
        self.count();
        self.member.gains(prices, out);
    }
}

/// An amount of one good.
fn one(amount: i64) -> Bundle
    requires { IsAmount amount }
    ensures amounts { AreAmounts 1 result.items }
    ensures prices { AreWithin 1000000 1 result.items }
{
    let mut bundle = Bundle::new();
    bundle.push(amount);
    bundle
}

/// One unit of one good at up to the greatest value.
fn keen_list(alloc: Global) -> Result<BidList, Memory>
    ensures { IfOk result (λ list. list.goods ≡ 1) }
{
    let mut values = Values::new();
    values.push(Some(1_000_000));
    let mut list = BidList::new(alloc, 1);
    list.push(Bid { weight: 1, values })?;
    Ok(list)
}

/// A bidder with that list.
fn keen_bidder(alloc: Global) -> Result<Counted<ValidList>, Fail>
    ensures { IfOk result (λ bidder. (book_of bidder.member).goods ≡ 1) }
{
    let list = keen_list(alloc).ok().ok_or("memory")?;
    Ok(unasked(validate(alloc, list).ok().ok_or("not convex")?))
}

/// The first bidder of an auction.
#[tactic(auto, using(crate::proofs::FirstBidders::first_goods, crate::proofs::FirstBidders::first_room))]
fn first_bidder(alloc: Global, auction: &Auction) -> Result<Counted<ValidList>, Fail>
    requires { 0 < length auction.now.bidders }
    ensures goods { IfOk result (λ bidder. (book_of bidder.member).goods ≡ length auction.now.supply.items) }
    ensures room { HaveRoom (length auction.now.supply.items) auction.now.reserve.items }
{
    let _goods = &auction.goods;
    let list = auction.bidder(0).1.copy(alloc).ok().ok_or("memory")?;
    Ok(unasked(validate(alloc, list).ok().ok_or("not convex")?))
}

/// The end of the climb from the start, on a ledger of its own.
fn end_of<D: Convex, L: Ledger>(market: &Market<D>, start: &Prices, blank: Blank) -> Prices
    requires start { AreWithin 1000000 (goods_of market.now) start.now.items }
    requires name { blank.name ≡ L.name }
    requires parts { blank.parts ≡ L.parts }
    requires some { blank.parts ≡ 1 }
{
    let mut steps = Steps::<L>::new(blank);
    descend(market, start, &mut steps)
}

/// Looks for the least step once, on a ledger of its own.
fn search_once<D: Convex, L: Ledger>(market: &Market<D>, prices: &Prices, blank: Blank)
    requires prices { HaveRoom (goods_of market.now) prices.now.items }
    requires name { blank.name ≡ L.name }
    requires parts { blank.parts ≡ L.parts }
    requires some { blank.parts ≡ 1 }
{
    let mut steps = Steps::<L>::new(blank);
    least_step(market, prices, &mut steps);
}

#[test]
fn counted_calls(rt: HostRuntime) -> Result<(), Fail> {
    let mut members = Vec::new(rt.alloc());
    members.push(keen_bidder(rt.alloc())?)?;
    members.push(keen_bidder(rt.alloc())?)?;
    let market = Market::new(members, Seller::new(&one(1), &one(0)));
    let end = end_of::<Counted<ValidList>, Brand>(&market, &one(0), Blank::new(1));
    assert_eq!(rt; end.as_slice(), [1_000_000].as_slice());
    for member in market.members() {
        assert!(rt; member.calls.get() <= 1_000);
    }
    Ok(())
}

#[test]
fn counted_sets(rt: HostRuntime) -> Result<(), Fail> {
    let alloc = rt.alloc();
    let auction = make(alloc, 1).ok().ok_or("memory")?;
    if auction.count() == 0 {
        return Err("no bidder".into());
    }
    let member = first_bidder(alloc, &auction)?;
    let mut table = Rho::zero(alloc, member.goods()).ok().ok_or("memory")?;
    table.fill(&member, &auction.reserve);
    let filled = member.calls.get();
    assert!(rt; filled <= 10);
    let mut members = Vec::new(alloc);
    members.push(member)?;
    let market = Market::new(members, Seller::new(&auction.supply, &auction.reserve));
    search_once::<Counted<ValidList>, Brand>(&market, &auction.reserve, Blank::new(1));
    for member in market.members() {
        assert!(rt; member.calls.get().saturating_sub(filled) <= 10);
    }
    Ok(())
}
