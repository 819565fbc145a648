// What earlier bids of negative weight share with a new one: the choices at which their values are as much above its values.
ghost use Rattle.std.specs.Prelude.{◌≡◌, ◌≢◌, ℕ, suc, ◌<◌, ◌≤◌, true, cond, get_or, length, pos};
ghost use Rattle.std.specs.Ordering.{int_eq};
ghost use Rattle.mix_num.specs.Ranges.{Lies};
ghost use Rattle.mix_num.specs.Vectors.{members};
ghost use Rattle.mix_bids.specs.Bids.{AreBids, IsBid};
ghost use Rattle.mix_bids.specs.Offers.{AreOffers, IsOffer};
ghost use Rattle.mix_bids.specs.Leads.{lead};
ghost use Rattle.mix_bids.specs.Shared.{agreeing, agreement_in, negatives, shift as shift_of, shift_number, AreAgreements, IsAgreement, IsLast, IsShared};

use crate::bid::{Bid, Values};
use crate::choices::{either, with_where};
use crate::leads::offer;
use arrayvec::ArrayVec;
use mix_num::Set;

/// For each of the choices 0 to 8, the set of the choices at which an earlier bid's value is as much above a new one's as there, by
/// its bits.
#[derive(Clone, Copy, Default, Drop)]
pub struct Agreement {
    sets: [u16; 9],
}

/// What the earlier bids of one level share with a new bid of it: the place of the last one, if there is one, and the choices of
/// which some bid has the new bid's lead.
#[derive(Clone, Copy, Drop)]
pub struct Shared {
    pub last: Option<usize>,
    pub choices: Set,
}

/// The agreement of each bid of negative weight with a new bid, in order.
pub fn agreements(bids: &[Bid], bid: &Bid) -> ArrayVec<Agreement, 400>
    requires few { length bids.now ≤ 400 }
    requires bids { (n : ℕ) × (n ≤ 8) × AreBids n bids.now × IsBid n bid.now }
    ensures { AreAgreements (negatives bids.now) bid.now result.items }
{
    let mut found = ArrayVec::new();
    for earlier in bids {
        if earlier.is_negative() {
            found.push(agreement_of(&earlier.values, &bid.values));
        }
    }
    found
}

/// The agreement of two bids' values.
fn agreement_of(earlier: &Values, new: &Values) -> Agreement
    requires { (n : ℕ) × (n ≤ 8) × AreOffers n earlier.now.items × AreOffers n new.now.items }
    ensures { IsAgreement earlier.now.items new.now.items result }
{
    let shifts = shifts(earlier, new);
    let mut sets = [0; 9];
    for choice in 0..9 {
        sets[choice] = equals(&shifts, choice).bits();
    }
    Agreement { sets }
}

/// The choices with the same shift as a choice.
fn equals(shifts: &[i64], choice: usize) -> Set
    requires size { length shifts.now ≡ 9 }
    requires choice { choice < 9 }
    requires range { (k : ℕ) → k < 9 → Lies 10000008 (get_or shifts.now k (pos 0)) }
    ensures { (k : ℕ) → k < 9 → members result k ≡ int_eq (get_or shifts.now k (pos 0)) (get_or shifts.now choice (pos 0)) }
{
    let mut set = Set::from_bits(0);
    for other in 0..9 {
        set = with_where(is_same(shifts[other], shifts[choice]), set, other);
    }
    set
}

/// Whether two numbers are the same.
fn is_same(first: i64, second: i64) -> bool
    requires first { Lies 10000008 first }
    requires second { Lies 10000008 second }
    ensures { result ≡ int_eq first second }
{
    first == second
}

/// By how much the earlier values are greater than the new ones, at each of the choices 0 to 8.
fn shifts(earlier: &Values, new: &Values) -> [i64; 9]
    requires { (n : ℕ) × (n ≤ 8) × AreOffers n earlier.now.items × AreOffers n new.now.items }
    ensures value { (c : ℕ) → c < 9 → get_or result c (pos 0) ≡ shift_number c (shift_of earlier.now.items new.now.items c) }
    ensures range { (c : ℕ) → c < 9 → Lies 10000008 (get_or result c (pos 0)) }
{
    let mut shifts = [0; 9];
    for choice in 0..9 {
        shifts[choice] = shift(offer(earlier, choice), offer(new, choice), choice);
    }
    shifts
}

/// By how much the earlier value is greater, or a number out of reach that no other choice has, where one isn't offered.
fn shift(earlier: Option<i64>, new: Option<i64>, choice: usize) -> i64
    requires choice { choice < 9 }
    requires earlier { IsOffer earlier }
    requires new { IsOffer new }
    ensures value { result ≡ shift_number choice (lead earlier new) }
    ensures range { Lies 10000008 result }
{
    match (earlier, new) {
        (Some(earlier), Some(new)) => earlier - new,
        _ => 10_000_000 + choice as i64,
    }
}

/// What the earlier bids of the level of two choices share with the new bid.
pub fn shared_at(agreements: &[Agreement], first: usize, second: usize) -> Shared
    requires first { first < 9 }
    requires second { second < 9 }
    requires sets { (p : ℕ) → get_or (agreement_in agreements.now p).sets second 0 < 512 }
    ensures last { IsLast (λ p. agreeing (agreement_in agreements.now p) second first) (length agreements.now) result.last }
    ensures choices { IsShared agreements.now first second (length agreements.now) result.choices }
{
    let mut shared = Shared {
        last: None,
        choices: Set::from_bits(0),
    };
    for (place, agreement) in agreements.iter().enumerate() {
        let choices = Set::from_bits(agreement.sets[second]);
        if choices.has(first) {
            shared = Shared {
                last: Some(place),
                choices: either(shared.choices, choices),
            };
        }
    }
    shared
}
