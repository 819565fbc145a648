// A set of goods, and what raising it does.
use mix_num::Set;

/// A set of goods, and by how much the Lyapunov function rises when their prices rise by one.
#[derive(Clone, Copy, Debug, PartialEq, Eq)]
pub struct Step {
    /// The goods that rise; none at a least point.
    pub set: Set,
    /// The rise, which is negative or 0.
    pub slope: i64,
}
