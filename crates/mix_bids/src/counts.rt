// How the number of cells of a list grows with a bid of negative weight.
ghost use Rattle.std.specs.Prelude.{◌≡◌, ℕ, ◌+◌, ◌-◌, ◌^◌, ◌<◌, ◌≤◌, ◌++◌, ◌∷◌, [], cond, eqb, get_or, int_lt, length, min, pos, true, false, List};
ghost use Rattle.std.specs.Option.{is_some};
ghost use Rattle.mix_num.specs.Vectors.{members};
ghost use Rattle.mix_bids.specs.Bids.{AreBids, IsBid};
ghost use Rattle.mix_bids.specs.Offers.{offer as offer_of};
ghost use Rattle.mix_bids.specs.Levels.{other as other_of};
ghost use Rattle.mix_bids.specs.Cells.{cells as cells_of, sum_below};
ghost use Rattle.mix_bids.specs.Counted.{cells_of_leads, growth as growth_of, leads_at, triangle, AreKept, AreLeads, IsCounted, IsKnown};
ghost use Rattle.mix_bids.specs.declared.bid.Bid.{Bid as BidOf};

use crate::agreements::{Agreement, agreements, shared_at};
use crate::bid::Bid;
use crate::choices::{beyond, with_where};
use crate::leads::{offer, other};
use mix_num::Set;

/// How many different leads each other choice has at the levels of a bid of negative weight, counted among the bids up to it. The
/// pairs of choices stand in the order of their second ones and then of their first ones.
#[derive(Clone, Copy, Drop)]
pub struct Counts {
    levels: [[u16; 7]; 36],
}

/// The number of cells of a list with one bid more, and what that bid keeps.
#[derive(Clone, Copy, Drop)]
pub struct Tally {
    pub cells: u64,
    pub counts: Counts,
}

/// What is known of a new bid of negative weight: the choices that it offers, what the bids of negative weight before it keep, and
/// their agreements with it.
#[derive(Drop)]
struct Known<'a> {
    goods: usize,
    offers: Set,
    kept: &'a [Counts],
    agreements: &'a [Agreement],
}

/// By how much the cells of two choices grow with a bid, and how many different leads each other choice has at its level then.
#[derive(Clone, Copy, Drop)]
struct Growth {
    cells: u64,
    leads: [u16; 7],
}

/// The number of cells of the bids with one of negative weight more at their end, counted to 4,194,305, where `cells` is the number
/// without it; and what that bid keeps, where `kept` is what those before it do.
pub fn tally_with(goods: usize, bids: &[Bid], kept: &[Counts], cells: u64, bid: &Bid) -> Tally
    requires goods { (1 ≤ goods) × (goods ≤ 8) }
    requires few { length bids.now < 400 }
    requires bids { AreBids goods bids.now }
    requires bid { IsBid goods bid.now }
    requires negative { int_lt bid.now.weight (pos 0) ≡ true }
    requires kept { AreKept goods bids.now kept.now }
    requires cells { cells ≡ min (cells_of (record { goods = goods; bids = bids.now })) 4194305 }
    ensures cells { result.cells ≡ min (cells_of (record { goods = goods; bids = bids.now ++ bid.now ∷ [] })) 4194305 }
    ensures counts { IsCounted goods (bids.now ++ bid.now ∷ []) bid.now result.counts }
{
    let agreements = agreements(bids, bid);
    let known = Known {
        goods,
        offers: offers(bid),
        kept,
        agreements: agreements.as_slice(),
    };
    let mut tally = Tally {
        cells,
        counts: Counts {
            levels: [[0; 7]; 36],
        },
    };
    let mut start = 0;
    for second in 0..goods + 1 {
        tally = with_pairs_below(&known, tally, second, start);
        start += second;
    }
    tally
}

/// The choices that a bid offers.
fn offers(bid: &Bid) -> Set
    requires { IsBid (length bid.now.values.items) bid.now }
    ensures { (c : ℕ) → c < 9 → members result c ≡ is_some (offer_of bid.now.values.items c) }
{
    let mut set = Set::from_bits(0);
    for choice in 0..9 {
        set = with_where(offer(&bid.values, choice).is_some(), set, choice);
    }
    set
}

/// Adds the growth of the cells of all pairs with this second choice, counted to 4,194,305, and what the bid keeps of these pairs,
/// from place `start` on.
fn with_pairs_below(known: &Known, before: Tally, second: usize, start: usize) -> Tally
    requires known { (bs : List BidOf) × (b : BidOf) × IsKnown known.now.goods bs b known.now.offers known.now.kept.now known.now.agreements.now }
    requires second { second ≤ known.now.goods }
    requires start { start ≡ triangle second }
    requires cells { before.cells ≤ 4194305 }
    requires size { length before.counts.levels ≡ 36 }
    ensures range { result.cells ≤ 4194305 }
    ensures size { length result.counts.levels ≡ 36 }
    ensures sum { (bs : List BidOf) (b : BidOf) → IsKnown known.now.goods bs b known.now.offers known.now.kept.now known.now.agreements.now →
        result.cells ≡ min (before.cells + sum_below second (λ i. growth_of known.now.goods bs b i second)) 4194305 }
    ensures counts { (bs : List BidOf) (b : BidOf) → IsKnown known.now.goods bs b known.now.offers known.now.kept.now known.now.agreements.now →
        (i : ℕ) → i < second → AreLeads known.now.goods (bs ++ b ∷ []) b i second (leads_at result.counts i second) }
    ensures others { (i j : ℕ) → i < j → j < second → leads_at result.counts i j ≡ leads_at before.counts i j }
{
    let mut tally = before;
    for first in 0..second {
        let growth = pair_growth(known, first, second, start + first);
        tally.cells = capped(tally.cells + growth.cells);
        let leads = growth.leads;
        tally.counts.levels[start + first] = leads;
    }
    tally
}

/// The number, or 4,194,305 where it is greater.
fn capped(cells: u64) -> u64
    ensures { result ≡ min cells 4194305 }
{
    cells.min(4194305)
}

/// By how much the cells of two choices grow: by those of the bid's level with it less those without it, if there was the level.
fn pair_growth(known: &Known, first: usize, second: usize, place: usize) -> Growth
    requires known { (bs : List BidOf) × (b : BidOf) × IsKnown known.now.goods bs b known.now.offers known.now.kept.now known.now.agreements.now }
    requires order { first < second }
    requires second { second ≤ known.now.goods }
    requires place { place ≡ triangle second + first }
    ensures range { result.cells ≤ 401 ^ 7 }
    ensures cells { (bs : List BidOf) (b : BidOf) → IsKnown known.now.goods bs b known.now.offers known.now.kept.now known.now.agreements.now →
        result.cells ≡ growth_of known.now.goods bs b first second }
    ensures leads { (bs : List BidOf) (b : BidOf) → IsKnown known.now.goods bs b known.now.offers known.now.kept.now known.now.agreements.now →
        AreLeads known.now.goods (bs ++ b ∷ []) b first second result.leads }
{
    if !has_both(known.offers, first, second) {
        return Growth {
            cells: 0,
            leads: [0; 7],
        };
    }
    let shared = shared_at(known.agreements, first, second);
    let fresh = beyond(known.offers, shared.choices);
    match shared.last {
        Some(last) => grown(
            known.kept[last].levels[place],
            fresh,
            known.goods,
            first,
            second,
        ),
        None => new_level(fresh, known.goods, first, second),
    }
}

/// Whether a set has two choices.
fn has_both(set: Set, first: usize, second: usize) -> bool
    requires first { first ≤ 8 }
    requires second { second ≤ 8 }
    ensures { result ≡ cond (members set first) (members set second) false }
{
    set.has(first) && set.has(second)
}

/// One bid more at a level, which has a lead that is new for each choice of a set.
fn grown(before: [u16; 7], fresh: Set, goods: usize, first: usize, second: usize) -> Growth
    requires order { first < second }
    requires second { second ≤ goods }
    requires goods { goods ≤ 8 }
    requires few { (k : ℕ) → k < goods - 1 → get_or before k 0 ≤ 399 }
    ensures leads { (k : ℕ) → k < goods - 1 → get_or result.leads k 0 ≡ get_or before k 0 + cond (members fresh (other_of first second k)) 1 0 }
    ensures cells { result.cells ≡ cells_of_leads goods first second result.leads - cells_of_leads goods first second before }
    ensures range { result.cells ≤ 401 ^ 7 }
{
    let leads = with_fresh(before, fresh, goods, first, second);
    let cells = level_cells(&leads, goods, first, second);
    Growth {
        cells: cells - level_cells(&before, goods, first, second),
        leads,
    }
}

/// The first bid of a level, which has a lead for each choice of a set.
fn new_level(fresh: Set, goods: usize, first: usize, second: usize) -> Growth
    requires order { first < second }
    requires second { second ≤ goods }
    requires goods { goods ≤ 8 }
    ensures leads { (k : ℕ) → k < goods - 1 → get_or result.leads k 0 ≡ cond (members fresh (other_of first second k)) 1 0 }
    ensures cells { result.cells ≡ cells_of_leads goods first second result.leads }
    ensures range { result.cells ≤ 401 ^ 7 }
{
    let leads = with_fresh([0; 7], fresh, goods, first, second);
    Growth {
        cells: level_cells(&leads, goods, first, second),
        leads,
    }
}

/// One lead more for each choice of a set.
fn with_fresh(before: [u16; 7], fresh: Set, goods: usize, first: usize, second: usize) -> [u16; 7]
    requires order { first < second }
    requires second { second ≤ goods }
    requires goods { goods ≤ 8 }
    requires few { (k : ℕ) → k < goods - 1 → get_or before k 0 ≤ 399 }
    ensures { (k : ℕ) → k < goods - 1 → get_or result k 0 ≡ get_or before k 0 + cond (members fresh (other_of first second k)) 1 0 }
{
    let mut leads = before;
    for place in 0..goods - 1 {
        leads[place] += one_where(fresh.has(other(first, second, place)));
    }
    leads
}

/// 1 where the test holds, else 0.
fn one_where(test: bool) -> u16
    ensures { result ≡ cond test 1 0 }
{
    if test { 1 } else { 0 }
}

/// The number of cells of a level where the other choices have so many different leads.
fn level_cells(leads: &[u16], goods: usize, first: usize, second: usize) -> u64
    requires size { length leads.now ≡ 7 }
    requires order { first < second }
    requires second { second ≤ goods }
    requires goods { goods ≤ 8 }
    requires few { (k : ℕ) → k < goods - 1 → get_or leads.now k 0 ≤ 400 }
    ensures value { result ≡ cells_of_leads goods first second leads.now }
    ensures range { result ≤ 401 ^ 7 }
{
    let mut product = 1;
    for place in 0..goods - 1 {
        product *= one_for_good(other(first, second, place)) + leads[place] as u64;
    }
    product
}

/// 1 for a good, and 0 for the null choice.
fn one_for_good(choice: usize) -> u64
    ensures value { result ≡ cond (eqb choice 0) 0 1 }
    ensures range { result ≤ 1 }
{
    if choice == 0 { 0 } else { 1 }
}
