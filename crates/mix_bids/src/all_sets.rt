// One pass over the bids of a list for all sets of choices at once.
ghost use Rattle.std.specs.Prelude.{◌≡◌, ◌<◌, ◌≤◌, ◌^◌, ℕ, suc, pos, not, ◌+ℤ◌, ◌-ℤ◌, ◌≤ℤ◌};
ghost use Rattle.mix_num.specs.Vectors.{members, minus, plus, with_null};
ghost use Rattle.mix_num.specs.Ranges.{ArePrices, Lies};
ghost use Rattle.mix_num.specs.Subsets.{sizes, subset_sum};
ghost use Rattle.mix_num.specs.Tables.{number_of};
ghost use Rattle.mix_bids.specs.Bids.{best_weight, total_weight, utility, weight_within};

use crate::best::best_set;
use crate::list::BidList;
use mix_num::{Prices, Set, SetTable, outside};

impl BidList {
    /// Puts in place of each number of the table the sum of the weights of the bids whose best set is its set. It takes no memory.
    ///
    /// The sizes of all numbers add up to at most 4,000,000 then.
    pub fn best_weights(&self, prices: &Prices, out: &mut SetTable)
        requires { ArePrices self.now.goods prices.now.items }
        ensures weights { (set : ℕ) → set < 512 → number_of out.new set ≡ best_weight self.now.bids (with_null prices.now.items) set }
        ensures small { sizes out.new ≤ℤ pos 4000000 }
    {
        *out = SetTable::new();
        self.add_best_weights(prices, out);
    }

    /// Adds each bid's weight to the number of its best set, so that the sum over the subsets of a set grows by how much the utility
    /// falls where the prices of the set rise by one. It takes no memory.
    ///
    /// The sizes of all numbers add up to at most 3,996,000,000 before, and to at most 4,000,000 more then.
    pub fn add_best_weights(&self, prices: &Prices, out: &mut SetTable)
        requires prices { ArePrices self.now.goods prices.now.items }
        requires small { sizes out.old ≤ℤ pos 3996000000 }
        ensures weights { (set : ℕ) → set < 512 → number_of out.new set ≡ number_of out.old set +ℤ best_weight self.now.bids (with_null prices.now.items) set }
        ensures falls { (set : ℕ) → set < 2 ^ suc self.now.goods → let x = with_null prices.now.items in
            subset_sum out.new set ≡ subset_sum out.old set +ℤ (utility self.now.bids x -ℤ utility self.now.bids (plus x (members set))) }
        ensures small { sizes out.new ≤ℤ (sizes out.old +ℤ pos 4000000) }
    {
        for bid in self.bids() {
            out.add(best_set(bid, prices), bid.weight);
        }
    }

    /// Adds to the number of each set of the choices 0 to n by how much the utility falls where the prices of the set rise by one;
    /// other numbers stay. It takes no memory.
    ///
    /// Each sum lies from -4,000,000,000 to 4,000,000,000.
    pub fn falls(&self, prices: &Prices, out: &mut SetTable)
        requires prices { ArePrices self.now.goods prices.now.items }
        requires range { (set : ℕ) → set < 2 ^ suc self.now.goods → let x = with_null prices.now.items in
            Lies 4000000000 (number_of out.old set +ℤ (utility self.now.bids x -ℤ utility self.now.bids (plus x (members set)))) }
        ensures sums { (set : ℕ) → set < 2 ^ suc self.now.goods → let x = with_null prices.now.items in
            number_of out.new set ≡ number_of out.old set +ℤ (utility self.now.bids x -ℤ utility self.now.bids (plus x (members set))) }
        ensures others { (set : ℕ) → 2 ^ suc self.now.goods ≤ set → number_of out.new set ≡ number_of out.old set }
    {
        let within = weights_within(self, prices);
        for bits in 0..Set::whole(self.goods()).bits() + 1 {
            let set = Set::from_bits(bits);
            out.add(set, within.at(set));
        }
    }

    /// Adds to the number of each set of the choices 0 to n by how much the utility rises where the prices of the set fall by one;
    /// other numbers stay. It takes no memory.
    ///
    /// Each sum lies from -4,000,000,000 to 4,000,000,000.
    pub fn gains(&self, prices: &Prices, out: &mut SetTable)
        requires prices { ArePrices self.now.goods prices.now.items }
        requires range { (set : ℕ) → set < 2 ^ suc self.now.goods → let x = with_null prices.now.items in
            Lies 4000000000 (number_of out.old set +ℤ (utility self.now.bids (minus x (members set)) -ℤ utility self.now.bids x)) }
        ensures sums { (set : ℕ) → set < 2 ^ suc self.now.goods → let x = with_null prices.now.items in
            number_of out.new set ≡ number_of out.old set +ℤ (utility self.now.bids (minus x (members set)) -ℤ utility self.now.bids x) }
        ensures others { (set : ℕ) → 2 ^ suc self.now.goods ≤ set → number_of out.new set ≡ number_of out.old set }
    {
        let within = weights_within(self, prices);
        let total = self.total();
        for bits in 0..Set::whole(self.goods()).bits() + 1 {
            let set = Set::from_bits(bits);
            out.add(set, total - within.at(outside(set, self.goods())));
        }
    }
}

/// For each set of the choices 0 to n the sum of the weights of the bids whose best set lies in it.
fn weights_within(list: &BidList, prices: &Prices) -> SetTable
    requires { ArePrices list.now.goods prices.now.items }
    ensures weights { (set : ℕ) → set < 2 ^ suc list.now.goods → number_of result set ≡ weight_within list.now.goods (members set) list.now.bids (with_null prices.now.items) }
    ensures falls { (set : ℕ) → set < 2 ^ suc list.now.goods → let x = with_null prices.now.items in
        number_of result set ≡ utility list.now.bids x -ℤ utility list.now.bids (plus x (members set)) }
    ensures gains { (set rest : ℕ) → rest < 2 ^ suc list.now.goods → ((k : ℕ) → k < suc list.now.goods → members rest k ≡ not (members set k)) → let x = with_null prices.now.items in
        total_weight list.now.bids -ℤ number_of result rest ≡ utility list.now.bids (minus x (members set)) -ℤ utility list.now.bids x }
{
    // Whoever asks the list for its bids knows that each is a bid over its goods.
    let _bids = list.bids();
    let mut weights = SetTable::new();
    list.best_weights(prices, &mut weights);
    weights.subset_sums(list.goods());
    weights
}
