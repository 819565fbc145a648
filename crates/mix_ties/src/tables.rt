// The tables of all members, and sharing by them.
ghost use Rattle.std.specs.Prelude.{◌≡◌, ◌≢◌, ◌<◌, ◌≤◌, ◌^◌, ◌-◌, ◌*◌, ℕ, suc, pos, All, [], ◌∷◌, ◌++◌, length, map, replicate, slice_index_or, IfOk, OnOk};
ghost use Rattle.mix_num.specs.Ranges.{HaveRoom};
ghost use Rattle.mix_num.specs.Sellers.{IsAmount};
ghost use Rattle.mix_num.specs.Tables.{IsProper};
ghost use Rattle.mix_law.specs.Demands.{IsTableOf};
ghost use Rattle.mix_num.specs.Shares.{AreShares};
ghost use Rattle.mix_ties.specs.Shares.{KeepTieRule, AreProper, LiesInSum};
ghost use Rattle.mix_ties.specs.Tights.{AreFirstTights};

use crate::contraction::sets_of;
use crate::rows::sum_rows;
use crate::turn::share_in_turn;
use mix_demand::Rho;
use mix_law::Convex;
use mix_num::{Bundle, Memory, Prices, Tight};
use std::alloc::Global;
use std::marker::Model;

/// A table for each member, and room to work on them.
///
/// Contracts see the number of goods, at most 8, and the rows, at most 257: the list of the members' tables.
#[derive(Drop)]
pub struct Tables {
    goods: usize,
    rows: Vec<Rho>,
    later: Vec<i64>,
    floor: Vec<i64>,
    upper: Vec<i64>,
    lower: Vec<i64>,
}

impl Model for Tables {
    ghost use Rattle.std.specs.Prelude.{◌≡◌, suc, ◌≤◌, ◌^◌, All, length};
    ghost use Rattle.mix_ties.specs.Shares.{TableRows};

    ghost Value = { TableRows };

    ghost view = { λ t. record { goods = t.goods; rows = t.rows.items } };

    ghost invariant = { λ t. record {
      small : t.goods ≤ 8;
      few : length t.rows.items ≤ 257;
      sizes : All (λ row. length row ≡ 2 ^ suc t.goods) t.rows.items;
      later : length t.later.items ≡ 2 ^ suc t.goods;
      floor : length t.floor.items ≡ 2 ^ suc t.goods;
      upper : length t.upper.items ≡ 2 ^ suc t.goods;
      lower : length t.lower.items ≡ 2 ^ suc t.goods;
    } };
}

impl Tables {
    /// Tables of 0 for so many goods, 1 to 8, and so many members, 1 to 257, the seller among them. It takes all the
    /// memory that filling and sharing need.
    pub fn reserve(alloc: Global, goods: usize, members: usize) -> Result<Tables, Memory>
        requires goods { (1 ≤ goods) × (goods ≤ 8) }
        requires members { (1 ≤ members) × (members ≤ 257) }
        ensures size { IfOk result (λ tables. (tables.goods ≡ goods) × (length tables.rows ≡ members)) }
        ensures zeros { IfOk result (λ tables. All (λ row. row ≡ replicate (2 ^ suc goods) (pos 0)) tables.rows) }
    {
        let mut rows = Vec::new(alloc);
        for _ in 0..members {
            add_row(alloc, &mut rows, goods)?;
        }
        Ok(Tables {
            goods,
            rows,
            later: room(alloc, goods)?,
            floor: room(alloc, goods)?,
            upper: room(alloc, goods)?,
            lower: room(alloc, goods)?,
        })
    }

    /// Sets a row, from 0, to the table of a member at prices.
    pub fn fill<D: Convex>(&mut self, row: usize, member: &D, prices: &Prices)
        requires row { row < length self.old.rows }
        requires goods { D.goods member.now ≡ self.old.goods }
        requires prices { HaveRoom (D.goods member.now) prices.now.items }
        ensures goods { self.new.goods ≡ self.old.goods }
        ensures members { length self.new.rows ≡ length self.old.rows }
        ensures table { IsTableOf self.old.goods (D.function member.now) prices.now.items (slice_index_or self.new.rows row []) }
        ensures proper { IsProper self.old.goods (slice_index_or self.new.rows row []) }
        ensures others { (k : ℕ) → k ≢ row → slice_index_or self.new.rows k [] ≡ slice_index_or self.old.rows k [] }
    {
        self.rows[row].fill(member, prices);
    }
}

/// Shares the supply among the rows by the tie rule, and writes the bundle of each row into its place, and the first tight
/// pairs: one for each good of the first row, then those of the second, and so on. The last row is the seller's, and has
/// no pairs.
///
/// Every row is proper, as rows that were filled are; supplies lie from 0 to 1,000,000; and the supply lies in the sum of
/// the rows. There is a place for each row's bundle, and for each row but the last as many places for pairs as there are
/// goods. Nothing is said of the rows afterwards.
pub fn share(tables: &mut Tables, supply: &Bundle, bundles: &mut [Bundle], tights: &mut [Tight])
    requires proper { AreProper tables.old.goods tables.old.rows }
    requires supply { All IsAmount supply.now.items }
    requires places { length bundles.old ≡ length tables.old.rows }
    requires tight_places { length tights.old ≡ (length tables.old.rows - 1) * tables.old.goods }
    requires lies { LiesInSum tables.old.goods tables.old.rows supply.now.items }
    ensures goods { tables.new.goods ≡ tables.old.goods }
    ensures members { length tables.new.rows ≡ length tables.old.rows }
    ensures shares { AreShares tables.old.goods tables.old.rows (map (λ b. b.items) bundles.new) supply.now.items }
    ensures tie_rule { KeepTieRule tables.old.goods tables.old.rows (map (λ b. b.items) bundles.new) supply.now.items }
    ensures tights { AreFirstTights tables.old.goods tables.old.rows supply.now.items (map (λ b. b.items) bundles.new) tights.new }
{
    sum_rows(&tables.rows, &mut tables.later);
    share_in_turn(
        &tables.rows,
        supply,
        bundles,
        tights,
        &mut tables.later,
        &mut tables.floor,
        &mut tables.upper,
        &mut tables.lower,
    );
}

/// Adds a table of 0.
fn add_row(alloc: Global, rows: &mut Vec<Rho>, goods: usize) -> Result<(), Memory>
    requires { goods ≤ 8 }
    ensures { OnOk result (rows.new.items ≡ rows.old.items ++ replicate (2 ^ suc goods) (pos 0) ∷ []) }
{
    let row = Rho::zero(alloc, goods)?;
    rows.push(row)?;
    Ok(())
}

/// Room for a number for each set.
fn room(alloc: Global, goods: usize) -> Result<Vec<i64>, Memory>
    requires { goods ≤ 8 }
    ensures { IfOk result (λ numbers. length numbers.items ≡ 2 ^ suc goods) }
{
    Ok(vec![in alloc; 0; sets_of(goods)]?)
}
