// The order in which the bidders are served.
ghost use Rattle.std.specs.Prelude.{◌≡◌, ◌<◌, ◌-◌, ◌++◌, ◌∷◌, [], length, map, take, IfOk, OnErr, OnOk};
ghost use Rattle.mix_num.specs.Orders.{place_at, places as places_of};
ghost use Rattle.mix_text.specs.Changes.{order_without, place_without};

use mix_num::Memory;
use std::alloc::Global;
use std::marker::Model;

// The place of a bidder where the one at another has left.
fn lowered(place: usize, left: usize) -> usize
    ensures { result ≡ place_without left place }
{
    if place > left { place - 1 } else { place }
}

// Where the bidder at a place has left, those behind it stand one place nearer the front.
#[tactic(auto, using(crate::proofs::ChangedInPlace::change_next, crate::proofs::ChangedInPlace::changed_all))]
fn close_gap(places: &mut [usize], left: usize)
    ensures { places.new ≡ map (place_without left) places.old }
{
    for place in places.iter_mut() {
        *place = lowered(*place, left);
    }
}

/// A tie order: the places of the bidders, from 0, in the order in which they are served.
#[derive(Drop)]
pub struct Order {
    places: Vec<usize>,
}

impl Model for Order {
    ghost use Rattle.std.specs.Prelude.{List, ℕ};

    ghost Value = { List ℕ };

    ghost view = { λ order. order.places.items };
}

impl Order {
    /// The order of nobody.
    pub fn new(alloc: Global) -> Order
        ensures { result ≡ [] }
    {
        Order {
            places: Vec::new(alloc),
        }
    }

    /// So many bidders as they stand: the order of first appearance.
    pub fn of_appearance(alloc: Global, count: usize) -> Result<Order, Memory>
        ensures { IfOk result (λ order. order ≡ places_of count) }
    {
        let mut order = Order::new(alloc);
        for place in 0..count {
            order.push(place)?;
        }
        Ok(order)
    }

    /// Adds the place of a bidder, who is served last. Where memory is wanting, the order stays as it was.
    pub fn push(&mut self, place: usize) -> Result<(), Memory>
        ensures ok { OnOk result (self.new ≡ self.old ++ place ∷ []) }
        ensures err { OnErr result (self.new ≡ self.old) }
    {
        self.places.push(place)?;
        Ok(())
    }

    // Takes out the bidder who is served last.
    pub(crate) fn pop(&mut self)
        ensures { self.new ≡ take (length self.old - 1) self.old }
    {
        let _ = self.places.pop();
    }

    // Takes out the bidder at a place, and lowers the places behind it. The others are served in the order in which they were.
    pub(crate) fn remove(&mut self, place: usize)
        ensures { self.new ≡ order_without place self.old }
    {
        self.places.retain(|other| *other != place);
        close_gap(&mut self.places, place);
    }

    // An equal order.
    pub(crate) fn copy(&self, alloc: Global) -> Result<Order, Memory>
        ensures { IfOk result (λ order. order ≡ self.now) }
    {
        let mut order = Order::new(alloc);
        for place in self.places() {
            order.push(*place)?;
        }
        Ok(order)
    }

    /// The places in order.
    pub fn places(&self) -> &[usize]
        ensures { result.now ≡ self.now }
    {
        &self.places
    }

    /// The place of the bidder who is served at a turn, from 0.
    pub fn place(&self, turn: usize) -> usize
        requires { turn < length self.now }
        ensures { result ≡ place_at self.now turn }
    {
        self.places[turn]
    }

    /// How many bidders are served.
    pub fn count(&self) -> usize
        ensures { result ≡ length self.now }
    {
        self.places.len()
    }
}
