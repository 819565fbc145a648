// What holds of every seller, the contract of a call that does nothing.
ghost use Rattle.std.specs.Prelude.{◌↔◌, ℕ, ◌<◌, ℤ, pos, ◌≤ℤ◌, List, length, get_or};
ghost use Rattle.mix_num.specs.Returns.{AreLawfulReturns};
ghost use Rattle.mix_num.specs.Sellers.{seller_gain};
ghost use Rattle.mix_num.specs.Tables.{Fits};
ghost use Rattle.mix_law.specs.Demands.{IsTableOf};
ghost use Rattle.mix_seller.specs.Sellers.{reserve_of, supply_of};

use crate::seller::Seller;

/// At prices at or above the reserves, returns fit the seller's row, its table there, exactly where they are lawful: of each good from nothing to the
/// whole supply, and some only where the price is the reserve. The call takes no memory.
pub fn fits_exactly(seller: &Seller)
    ensures { (prices row returns : List ℤ) →
        ((i : ℕ) → i < length (supply_of seller.now) → get_or (reserve_of seller.now) i (pos 0) ≤ℤ get_or prices i (pos 0)) →
        IsTableOf (length (supply_of seller.now)) (seller_gain (supply_of seller.now) (reserve_of seller.now)) prices row →
        Fits (length (supply_of seller.now)) row returns ↔ AreLawfulReturns (supply_of seller.now) (reserve_of seller.now) prices returns }
{}
