// What the checker says.
use mix_num::Set;

/// What the checker says of an outcome.
#[derive(Clone, Copy, Debug, PartialEq, Eq, Drop)]
pub enum Verdict {
    /// The outcome is true.
    Yes,
    /// It isn't, and this is the first reason.
    No(Reason),
}

/// Why an outcome isn't true: the first two of a refusal, the others of a cleared one. The tests are made in this order, but for the last
/// two, which are made together for each bidder and each good in turn. Bidders and goods are counted from 0.
#[derive(Clone, Copy, Debug, PartialEq, Eq, Drop)]
pub enum Reason {
    /// The facet weight of the two choices isn't the one that is stated, but this.
    Facet {
        weight: i64,
    },
    /// A bidder before the refused one isn't convex.
    Earlier {
        bidder: usize,
    },
    /// A bidder isn't convex.
    Invalid {
        bidder: usize,
    },
    /// A price is below its reserve.
    Floor {
        good: usize,
    },
    /// The bundles and the returns of a good add up to this sum, which isn't the supply.
    Sum {
        good: usize,
        sum: i64,
    },
    /// Some of a good is returned at a price other than its reserve.
    Return {
        good: usize,
    },
    /// A bundle isn't demanded at the prices: of this set of choices, the one of least number, it has more than the bidder's table says.
    Demand {
        bidder: usize,
        set: Set,
    },
    /// The prices of this set of goods, all above their reserves, can fall by one, and the Lyapunov function doesn't rise.
    Lower {
        set: Set,
    },
    /// A payment isn't price times quantity, which is this amount.
    Pay {
        bidder: usize,
        amount: i64,
    },
    /// The two sets of a bidder and a good are no pair for the good.
    Pair {
        bidder: usize,
        good: usize,
    },
    /// They are one, but its number isn't what the bidder has of the good, but this.
    Tight {
        bidder: usize,
        good: usize,
        bound: i64,
    },
}
