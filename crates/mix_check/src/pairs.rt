// The tests of the pairs of sets, for each bidder and each good in turn.
ghost use Rattle.std.specs.Prelude.{◌≡◌, ◌<◌, ◌≤◌, ◌^◌, ◌+◌, ◌∷◌, [], ◌-ℤ◌, ◌+ℤ◌, ℕ, suc, pos, List, All, length, get_or, IfErr, IfOk};
ghost use Rattle.mix_num.specs.Orders.{IsOrder, place_at};
ghost use Rattle.mix_num.specs.Ranges.{Lies};
ghost use Rattle.mix_num.specs.Sellers.{AreAmounts, IsAmount};
ghost use Rattle.mix_num.specs.Sums.{total};
ghost use Rattle.mix_num.specs.Tables.{IsProper, number_of, share_in};
ghost use Rattle.mix_text.specs.AuctionTexts.{auction_text};
ghost use Rattle.mix_answer.specs.Shapes.{AreSets, HasAnswerShape};
ghost use Rattle.mix_answer.specs.Truths.{HaveTights, pair_of};
ghost use Rattle.mix_answer.specs.declared.outcome.Outcome.TheVariants.{Cleared};
ghost use Rattle.mix_check.specs.Orders.{IsFirstReason, NoneBefore};
ghost use Rattle.mix_check.specs.Reasons.{bundle_of, number_at};
ghost use Rattle.mix_check.specs.Tests.{AreAtTurn, AreTablesAt, HasTightPair, HaveSums, IsAgainst, IsFirstFailure, IsFirstOfTurn, LieWithin, rows_of, spare_at};

use crate::reason::Reason;
use crate::tables::{AllTables, sets_of};
use mix_answer::Answer;
use mix_demand::Rho;
use mix_num::{Bundle, Set, Tight, pair_number, sum_over};
use mix_text::Auction;

/// The bidder of least number, of those that had their turn, with a pair that isn't tight, and why; or the number of all bidders, and no reason.
#[derive(Clone, Copy, Drop)]
struct Failure {
    bidder: usize,
    reason: Option<Reason>,
}

/// For each bidder and each good the two sets are a pair, and its number is what the bidder has of the good. The bidders have their turns in
/// tie order; the reason is against the first of them in order of first appearance.
pub fn tight(auction: &Auction, answer: &Answer, tables: &AllTables) -> Result<(), Reason>
    requires shape { HasAnswerShape (auction_text auction.now) answer.now }
    requires tables { AreTablesAt (auction_text auction.now) answer.now.prices.items tables.now }
    requires before { NoneBefore (auction_text auction.now) (Cleared answer.now) (9 ∷ []) }
    ensures passed { IfOk result (λ done. HaveTights (auction_text auction.now) answer.now) }
    ensures reason { IfErr result (IsFirstReason (auction_text auction.now) (Cleared answer.now)) }
{
    let mut spare = [0; 512];
    start(&mut spare, &auction.supply, tables);
    let mut first = Failure {
        bidder: auction.count(),
        reason: None,
    };
    for turn in 0..auction.count() {
        let bidder = bidder_at(auction, turn);
        let table = &tables.bidders[bidder];
        give_back(&mut spare, table);
        first = first_failure(auction, answer, table, turn, &spare, first);
        take(&mut spare, table, &answer.shares.get(bidder).bundle);
    }
    match first.reason {
        Some(reason) => Err(reason),
        None => Ok(()),
    }
}

/// What failed first, with the turn of one more bidder.
fn first_failure(
    auction: &Auction,
    answer: &Answer,
    table: &Rho,
    turn: usize,
    floor: &[i64],
    first: Failure,
) -> Failure
    requires shape { HasAnswerShape (auction_text auction.now) answer.now }
    requires inside { turn < length auction.now.bidders }
    requires turn { AreAtTurn (auction_text auction.now) answer.now turn table.now floor.now }
    requires first { IsFirstFailure (auction_text auction.now) answer.now turn first }
    ensures { IsFirstFailure (auction_text auction.now) answer.now (turn + 1) result }
{
    let bidder = bidder_at(auction, turn);
    if bidder > first.bidder {
        return first;
    }
    match tight_of_turn(auction, answer, table, turn, floor) {
        Ok(()) => first,
        Err(reason) => Failure {
            bidder,
            reason: Some(reason),
        },
    }
}

/// The pairs of the bidder at a turn, good by good, from what must be given to it at each set.
fn tight_of_turn(
    auction: &Auction,
    answer: &Answer,
    table: &Rho,
    turn: usize,
    floor: &[i64],
) -> Result<(), Reason>
    requires shape { HasAnswerShape (auction_text auction.now) answer.now }
    requires inside { turn < length auction.now.bidders }
    requires turn { AreAtTurn (auction_text auction.now) answer.now turn table.now floor.now }
    ensures passed { IfOk result (λ done. (j : ℕ) → j < length auction.now.goods → HasTightPair (auction_text auction.now) answer.now turn j) }
    ensures reason { IfErr result (IsFirstOfTurn (auction_text auction.now) answer.now turn) }
{
    for good in 0..auction.goods.len() {
        tight_of_good(auction, answer, table, turn, good, floor)?;
    }
    Ok(())
}

/// The same of one good.
fn tight_of_good(
    auction: &Auction,
    answer: &Answer,
    table: &Rho,
    turn: usize,
    good: usize,
    floor: &[i64],
) -> Result<(), Reason>
    requires shape { HasAnswerShape (auction_text auction.now) answer.now }
    requires inside { turn < length auction.now.bidders }
    requires good { good < length auction.now.goods }
    requires turn { AreAtTurn (auction_text auction.now) answer.now turn table.now floor.now }
    ensures passed { IfOk result (λ done. HasTightPair (auction_text auction.now) answer.now turn good) }
    ensures reason { IfErr result (IsAgainst (auction_text auction.now) answer.now (place_at auction.now.order turn) good) }
{
    let bidder = bidder_at(auction, turn);
    if !pair_at(auction, answer, bidder, good).is_pair(good, auction.goods.len()) {
        return Err(Reason::Pair { bidder, good });
    }
    let bound = bound_at(auction, answer, turn, good, table, floor);
    if bound != amount_at(auction, answer, bidder, good) {
        return Err(Reason::Tight {
            bidder,
            good,
            bound,
        });
    }
    Ok(())
}

/// The bidder whose turn it is.
fn bidder_at(auction: &Auction, turn: usize) -> usize
    requires { turn < length auction.now.bidders }
    ensures place { result ≡ place_at auction.now.order turn }
    ensures inside { result < length auction.now.bidders }
{
    auction.order.place(turn)
}

/// The two sets of a bidder and a good.
fn pair_at(auction: &Auction, answer: &Answer, bidder: usize, good: usize) -> Tight
    requires shape { HasAnswerShape (auction_text auction.now) answer.now }
    requires bidder { bidder < length auction.now.bidders }
    requires good { good < length auction.now.goods }
    ensures pair { result ≡ pair_of (length auction.now.goods) answer.now bidder good }
    ensures sets { AreSets (length auction.now.goods) result }
{
    answer.tights.get(bidder * auction.goods.len() + good)
}

/// What a bidder has of a good.
fn amount_at(auction: &Auction, answer: &Answer, bidder: usize, good: usize) -> i64
    requires shape { HasAnswerShape (auction_text auction.now) answer.now }
    requires bidder { bidder < length auction.now.bidders }
    requires good { good < length auction.now.goods }
    ensures value { result ≡ get_or (bundle_of answer.now bidder) good (pos 0) }
    ensures range { IsAmount result }
{
    answer.shares.get(bidder).bundle[good]
}

/// The number of the pair of a good and of the bidder at a turn, from what must be given to the bidder at each set.
fn bound_at(
    auction: &Auction,
    answer: &Answer,
    turn: usize,
    good: usize,
    table: &Rho,
    floor: &[i64],
) -> i64
    requires shape { HasAnswerShape (auction_text auction.now) answer.now }
    requires inside { turn < length auction.now.bidders }
    requires good { good < length auction.now.goods }
    requires turn { AreAtTurn (auction_text auction.now) answer.now turn table.now floor.now }
    ensures value { result ≡ number_at (auction_text auction.now) answer.now turn good }
    ensures range { Lies 9000000000000 result }
{
    let bidder = bidder_at(auction, turn);
    let pair = pair_at(auction, answer, bidder, good);
    let bundle = &answer.shares.get(bidder).bundle;
    let number = table.at(pair.upper);
    pair_number(
        number,
        floor[pair.lower.bits() as usize],
        bundle,
        good,
        pair,
    )
}

/// Writes, for each set, what the supply has there less all that the members can take.
fn start(spare: &mut [i64], supply: &Bundle, tables: &AllTables)
    requires size { length spare.old ≡ 512 }
    requires few { length supply.now.items ≤ 8 }
    requires supply { All IsAmount supply.now.items }
    requires tables { HaveSums (length supply.now.items) tables.now }
    ensures size { length spare.new ≡ 512 }
    ensures value { (order : List ℕ) → IsOrder (length tables.now.bidders.items) order → (set : ℕ) → set < 2 ^ suc (length supply.now.items)
        → number_of spare.new set ≡ spare_at (length supply.now.items) (rows_of order tables.now) supply.now.items [] 0 set }
    ensures range { LieWithin (length supply.now.items) 9000000000 spare.new }
{
    let whole = Set::whole(supply.len());
    let null = null_of(supply, tables.sum.at(whole) + tables.seller.at(whole));
    for bits in 0..2 * sets_of(supply.len()) {
        let set = Set::from_bits(bits);
        spare[bits as usize] = sum_over(supply, null, set)
            - (tables.sum.at(set) + tables.seller.at(set));
    }
}

/// Adds what a bidder can take, set by set.
fn give_back(spare: &mut [i64], table: &Rho)
    requires size { length table.now ≤ length spare.old }
    requires range { (set : ℕ) → set < length table.now → Lies 4000000000000 (number_of spare.old set) }
    ensures size { length spare.new ≡ length spare.old }
    ensures value { (set : ℕ) → set < length table.now → number_of spare.new set ≡ number_of spare.old set +ℤ number_of table.now set }
{
    for (set, number) in table.numbers().iter().enumerate() {
        spare[set] += *number;
    }
}

/// Takes away what a bidder gets, set by set.
fn take(spare: &mut [i64], table: &Rho, bundle: &Bundle)
    requires few { length bundle.now.items ≤ 8 }
    requires size { length spare.old ≡ 512 }
    requires proper { IsProper (length bundle.now.items) table.now }
    requires bundle { All IsAmount bundle.now.items }
    requires range { LieWithin (length bundle.now.items) 4000000000000 spare.old }
    ensures size { length spare.new ≡ 512 }
    ensures value { (set : ℕ) → set < 2 ^ suc (length bundle.now.items) → number_of spare.new set ≡ number_of spare.old set -ℤ share_in (length bundle.now.items) table.now bundle.now.items set }
    ensures near { (set : ℕ) → set < 2 ^ suc (length bundle.now.items) → Lies 140000000 (number_of spare.old set -ℤ number_of spare.new set) }
{
    let null = null_of(bundle, table.at(Set::whole(bundle.len())));
    for bits in 0..2 * sets_of(bundle.len()) {
        spare[bits as usize] -= sum_over(bundle, null, Set::from_bits(bits));
    }
}

/// The null share of a bundle that fills up this number.
fn null_of(bundle: &Bundle, number: i64) -> i64
    requires bundle { All IsAmount bundle.now.items }
    requires number { Lies 4500000000 number }
    ensures value { result ≡ number -ℤ total bundle.now.items }
    ensures range { (m : ℕ) → Lies m number → Lies (m + 64000000) result }
{
    number - sum_over(bundle, 0, Set::goods(bundle.len()))
}
