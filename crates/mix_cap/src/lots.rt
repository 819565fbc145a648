// The units of a list by what they gain at prices.
ghost use Rattle.std.specs.Prelude.{◌≡◌, ◌≤◌, ℕ, suc, pos, ◌*ℤ◌, ◌≤ℤ◌, ◌<ℤ◌, cond, length, All};
ghost use Rattle.std.specs.Int.{int_max};
ghost use Rattle.mix_num.specs.Vectors.{with_null};
ghost use Rattle.mix_num.specs.Ranges.{ArePrices, Lies};
ghost use Rattle.mix_bids.specs.Caps.{ArePositive};
ghost use Rattle.mix_cap.specs.Lots.{IsLot, above, lifted as lifted_of, lots_of, sum_over};

use arrayvec::ArrayVec;
use mix_bids::{BidList, best_choices};
use mix_num::Prices;

/// The units of one bid: what each of them gains, from 0 to 5,000,000, and how many they are, from 1 to 10,000.
#[derive(Clone, Copy, Default, Drop)]
pub struct Lot {
    pub gain: i64,
    pub units: i64,
}

/// The lots of a list, in the order of its bids.
pub type Lots = ArrayVec<Lot, 400>;

/// The lots of a list of bids of positive weight at the prices.
pub fn lots_at(list: &BidList, prices: &Prices) -> Lots
    requires prices { ArePrices list.now.goods prices.now.items }
    requires positive { ArePositive list.now.bids }
    ensures lots { result.items ≡ lots_of (with_null prices.now.items) list.now.bids }
    ensures proper { All IsLot result.items }
{
    let mut lots = Lots::new();
    for bid in list.bids() {
        lots.push(Lot {
            gain: best_choices(bid, prices).gain,
            units: bid.weight,
        });
    }
    lots
}

/// How many units gain more than the threshold.
pub fn units_above(lots: &[Lot], threshold: u32) -> i64
    requires few { length lots.now ≤ 400 }
    requires lots { All IsLot lots.now }
    ensures value { result ≡ sum_over (above (pos threshold)) lots.now }
    ensures range { (pos 0 ≤ℤ result) × (result ≤ℤ pos 4000000) }
{
    let mut sum = 0;
    for lot in lots {
        sum += units_where(lot.gain > i64::from(threshold), lot.units);
    }
    sum
}

/// The units where the test holds, or none.
fn units_where(test: bool, units: i64) -> i64
    requires { (pos 0 ≤ℤ units) × (units ≤ℤ pos 10000) }
    ensures value { result ≡ cond test units (pos 0) }
    ensures range { (pos 0 ≤ℤ result) × (result ≤ℤ pos 10000) }
{
    if test { units } else { 0 }
}

/// What all units gain, where each gains the threshold at least.
pub fn lifted(lots: &[Lot], threshold: u32) -> i64
    requires few { length lots.now ≤ 400 }
    requires lots { All IsLot lots.now }
    requires threshold { threshold ≤ 5000000 }
    ensures value { result ≡ sum_over (lifted_of (pos threshold)) lots.now }
    ensures range { (pos 0 ≤ℤ result) × (result ≤ℤ pos 20000000000000) }
{
    let mut sum = 0;
    for lot in lots {
        sum += units_at(lot.units, lot.gain.max(i64::from(threshold)));
    }
    sum
}

/// What so many units gain, each of them this much.
fn units_at(units: i64, gain: i64) -> i64
    requires units { (pos 0 ≤ℤ units) × (units ≤ℤ pos 10000) }
    requires gain { (pos 0 ≤ℤ gain) × (gain ≤ℤ pos 5000000) }
    ensures value { result ≡ units *ℤ gain }
    ensures range { (pos 0 ≤ℤ result) × (result ≤ℤ pos 50000000000) }
{
    units * gain
}

/// The least threshold that at most `cap` units pass, from 0 to 5,000,000.
pub fn threshold_of(lots: &[Lot], cap: i64) -> u32
    requires few { length lots.now ≤ 400 }
    requires lots { All IsLot lots.now }
    requires cap { pos 0 ≤ℤ cap }
    ensures range { result ≤ 5000000 }
    ensures passed { sum_over (above (pos result)) lots.now ≤ℤ cap }
    ensures least { (k : ℕ) → result ≡ suc k → cap <ℤ sum_over (above (pos k)) lots.now }
{
    let mut low: u32 = 0;
    let mut high: u32 = 5_000_000;
    while low < high {
        let middle = low + (high - low) / 2;
        if units_above(lots, middle) <= cap {
            high = middle;
        } else {
            low = middle + 1;
        }
    }
    low
}
