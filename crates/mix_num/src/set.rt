// A set of choices: the null choice is 0, and the goods are numbered from 1.
ghost use Rattle.std.specs.Prelude.{◌≡◌, ◌+◌, ◌-◌, ◌^◌, ◌<◌, ◌≤◌, ℕ, suc, not};
ghost use Rattle.mix_num.specs.Vectors.{members};

use std::marker::Model;

/// A set of choices. Bit 0 is the null choice, bit `i` is good `i`; contracts see the number of these bits.
#[derive(Clone, Copy, PartialEq, Eq, Debug, Drop)]
pub struct Set {
    bits: u16,
}

impl Model for Set {
    ghost use Rattle.std.specs.Prelude.{ℕ, ◌<◌};

    ghost Value = { ℕ };

    ghost view = { λ s. s.bits };

    ghost invariant = { λ s. s.bits < 512 };

    ghost inverse = { λ number. record { bits = number } };
}

impl Set {
    /// The set with these bits.
    pub fn from_bits(bits: u16) -> Set
        requires { bits < 512 }
        ensures { result ≡ bits }
    {
        Set { bits }
    }

    /// The number of the set, below 512.
    pub fn bits(self) -> u16
        ensures value { result ≡ self }
        ensures range { self < 512 }
    {
        self.bits
    }

    /// Whether a choice is in the set.
    pub fn has(self, choice: usize) -> bool
        requires { choice ≤ 8 }
        ensures { result ≡ members self choice }
    {
        self.bits >> choice & 1 == 1
    }

    /// The goods 1 to `n`.
    pub fn goods(n: usize) -> Set
        requires { n ≤ 8 }
        ensures { result ≡ 2 ^ (n + 1) - 2 }
    {
        Set {
            bits: (1 << (n + 1)) - 2,
        }
    }

    /// The choices 0 to `n`.
    pub fn whole(n: usize) -> Set
        requires { n ≤ 8 }
        ensures { result ≡ 2 ^ (n + 1) - 1 }
    {
        Set {
            bits: (1 << (n + 1)) - 1,
        }
    }
}

/// The choices 0 to n outside a set.
pub fn outside(set: Set, n: usize) -> Set
    requires { n ≤ 8 }
    ensures members { (k : ℕ) → k < suc n → members result k ≡ not (members set k) }
    ensures within { result < 2 ^ suc n }
{
    Set::from_bits(!set.bits() & Set::whole(n).bits())
}

#[cfg(test)]
mod tests {
    use super::*;
    use std::test::Fail;

    #[test]
    fn sets_hold_their_choices(rt: HostRuntime) -> Result<(), Fail> {
        let set = Set::from_bits(0b1_0000_0101);
        assert_eq!(rt; set.bits(), 261);
        assert!(rt; set.has(0) && set.has(2) && set.has(8));
        assert!(rt; !set.has(1) && !set.has(3) && !set.has(7));
        assert_eq!(rt; Set::goods(3), Set::from_bits(14));
        assert_eq!(rt; Set::whole(3), Set::from_bits(15));
        assert_eq!(rt; Set::goods(0), Set::from_bits(0));
        assert_eq!(rt; Set::whole(8), Set::from_bits(511));
        Ok(())
    }
}
