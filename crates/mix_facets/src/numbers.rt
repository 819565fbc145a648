// A list of numbers in rising order.
ghost use Rattle.std.specs.Prelude.{◌≡◌, ◌↔◌, ◌⊎◌, ℕ, ℤ, ◌+◌, ◌<◌, ◌≤◌, ◌<ℤ◌, ◌≤ℤ◌, [], length, get_or, pos, Some, Contains, OnOk, OnErr};
ghost use Rattle.mix_facets.specs.Grids.{IsRising};

use mix_num::Memory;
use std::alloc::Global;
use std::marker::Model;

/// Numbers, each once, in rising order.
#[derive(Drop)]
pub(crate) struct Numbers {
    numbers: Vec<i64>,
}

impl Model for Numbers {
    ghost use Rattle.std.specs.Prelude.{List, ℤ};
    ghost use Rattle.mix_facets.specs.Grids.{IsRising};

    ghost Value = { List ℤ };

    ghost view = { λ list. list.numbers.items };

    ghost invariant = { λ list. IsRising list.numbers.items };
}

impl Numbers {
    /// No number.
    pub(crate) fn new(alloc: Global) -> Numbers
        ensures { result ≡ [] }
    {
        Numbers {
            numbers: Vec::new(alloc),
        }
    }

    /// Adds a number in its place, if there is one and it isn't there yet.
    pub(crate) fn insert(&mut self, number: Option<i64>) -> Result<(), Memory>
        ensures added { OnOk result ((v : ℤ) → Contains self.new v ↔ (Contains self.old v ⊎ (number ≡ Some v))) }
        ensures longer { OnOk result (length self.new ≤ length self.old + 1) }
        ensures err { OnErr result (self.new ≡ self.old) }
    {
        let Some(number) = number else {
            return Ok(());
        };
        let place = self.first_from(number);
        if place < self.numbers.len() && self.numbers[place] == number {
            return Ok(());
        }
        let Ok(()) = self.numbers.insert(place, number) else {
            return Err(Memory);
        };
        Ok(())
    }

    /// The place of the first number that is at least `bound`, or how many there are.
    pub(crate) fn first_from(&self, bound: i64) -> usize
        ensures within { result ≤ length self.now }
        ensures below { (k : ℕ) → k < result → get_or self.now k (pos 0) <ℤ bound }
        ensures from { (k : ℕ) → result ≤ k → k < length self.now → bound ≤ℤ get_or self.now k (pos 0) }
    {
        for (place, number) in self.numbers.iter().enumerate() {
            if *number >= bound {
                return place;
            }
        }
        self.numbers.len()
    }

    /// How many numbers there are.
    pub(crate) fn len(&self) -> usize
        ensures value { result ≡ length self.now }
        ensures rising { IsRising self.now }
    {
        self.numbers.len()
    }

    /// The number at a place.
    pub(crate) fn at(&self, place: usize) -> i64
        requires { place < length self.now }
        ensures { result ≡ get_or self.now place (pos 0) }
    {
        self.numbers[place]
    }
}
