// One bid.
ghost use Rattle.std.specs.Prelude.{◌≡◌, int_lt, pos};
ghost use Rattle.mix_num.specs.Ranges.{Lies};

use arrayvec::ArrayVec;

/// What a bid offers for each good: a value from 0 to 1,000,000, or None where it leaves the good out.
pub type Values = ArrayVec<Option<i64>, 8>;

/// A bid: a weight from -10,000 to 10,000 that isn't 0, and a value for each good that it offers.
#[derive(Drop)]
pub struct Bid {
    pub weight: i64,
    pub values: Values,
}

impl Bid {
    /// Whether the weight is negative.
    pub(crate) fn is_negative(&self) -> bool
        requires { Lies 10000 self.now.weight }
        ensures { result ≡ int_lt self.now.weight (pos 0) }
    {
        self.weight < 0
    }

    /// An equal bid. It takes no memory.
    pub(crate) fn copy(&self) -> Bid
        ensures { result ≡ self.now }
    {
        let offers = self.values.as_slice();
        let mut values = Values::new();
        for offer in offers {
            values.push(*offer);
        }
        Bid {
            weight: self.weight,
            values,
        }
    }
}
