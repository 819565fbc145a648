// By how much a bid values one choice above another, and the choices other than two.
ghost use Rattle.std.specs.Prelude.{◌≡◌, ℤ, ◌+◌, ◌<◌, ◌≤◌, length, Some};
ghost use Rattle.mix_num.specs.Ranges.{Lies};
ghost use Rattle.mix_bids.specs.Bids.{IsBid};
ghost use Rattle.mix_bids.specs.Offers.{AreOffers, IsOffer, offer as offer_of};
ghost use Rattle.mix_bids.specs.Levels.{has_lead, other as other_of};
ghost use Rattle.mix_bids.specs.Leads.{lead as lead_between, lead_of, negative_lead as negative_lead_of};

use crate::bid::{Bid, Values};
use mix_num::MOST_VALUE;

/// What is offered for a choice: 0 for the null choice, else the value of the good, if there is the good and it has one.
pub fn offer(values: &Values, choice: usize) -> Option<i64>
    requires { AreOffers (length values.now.items) values.now.items }
    ensures value { result ≡ offer_of values.now.items choice }
    ensures range { IsOffer result }
{
    if choice == 0 {
        Some(0)
    } else if choice <= values.len() {
        values[choice - 1]
    } else {
        None
    }
}

/// One offer less another, if both are made.
fn margin(greater: Option<i64>, lesser: Option<i64>) -> Option<i64>
    requires greater { IsOffer greater }
    requires lesser { IsOffer lesser }
    ensures value { result ≡ lead_between greater lesser }
    ensures range { (v : ℤ) → result ≡ Some v → Lies MOST_VALUE v }
{
    match (greater, lesser) {
        (Some(greater), Some(lesser)) => Some(greater - lesser),
        _ => None,
    }
}

/// By how much a bid values `choice` above `over`, from -1,000,000 to 1,000,000, if it offers both.
pub fn lead(bid: &Bid, choice: usize, over: usize) -> Option<i64>
    requires choice { choice ≤ length bid.now.values.items }
    requires over { over ≤ length bid.now.values.items }
    requires bid { IsBid (length bid.now.values.items) bid.now }
    ensures value { result ≡ lead_of bid.now choice over }
    ensures range { (v : ℤ) → result ≡ Some v → Lies MOST_VALUE v }
{
    margin(offer(&bid.values, choice), offer(&bid.values, over))
}

/// The same for a bid of negative weight, and None for any other.
pub fn negative_lead(bid: &Bid, choice: usize, over: usize) -> Option<i64>
    requires choice { choice ≤ length bid.now.values.items }
    requires over { over ≤ length bid.now.values.items }
    requires bid { IsBid (length bid.now.values.items) bid.now }
    ensures value { result ≡ negative_lead_of bid.now choice over }
    ensures range { (v : ℤ) → result ≡ Some v → Lies MOST_VALUE v }
{
    if bid.weight < 0 {
        lead(bid, choice, over)
    } else {
        None
    }
}

/// Whether a bid offers both choices and values the first above the second by `difference`.
pub fn has_difference(bid: &Bid, first: usize, second: usize, difference: i64) -> bool
    requires first { first ≤ length bid.now.values.items }
    requires second { second ≤ length bid.now.values.items }
    requires bid { IsBid (length bid.now.values.items) bid.now }
    requires difference { Lies MOST_VALUE difference }
    ensures { result ≡ has_lead first second difference bid.now }
{
    match lead(bid, first, second) {
        Some(lead) => lead == difference,
        None => false,
    }
}

/// The choice at a place among those other than `first` and `second`.
pub fn other(first: usize, second: usize, place: usize) -> usize
    requires order { first < second }
    requires few { place ≤ 8 }
    ensures value { result ≡ other_of first second place }
    ensures range { result ≤ place + 2 }
{
    if place < first {
        place
    } else if place + 1 < second {
        place + 1
    } else {
        place + 2
    }
}
