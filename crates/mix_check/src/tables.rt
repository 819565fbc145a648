// The tables of all members at the prices of an answer.
ghost use Rattle.std.specs.Prelude.{◌≡◌, ◌<◌, ◌≤◌, ◌^◌, ℕ, suc, [], length, slice_index_or, IfOk};
ghost use Rattle.mix_num.specs.Sellers.{AreAmounts};
ghost use Rattle.mix_num.specs.Shares.{sum_at};
ghost use Rattle.mix_num.specs.Tables.{IsProper, number_of};
ghost use Rattle.mix_text.specs.AuctionTexts.{auction_text};
ghost use Rattle.mix_check.specs.Tests.{AreTablesAt, AreTablesOfFirst, IsTaken};

use crate::members::member;
use mix_demand::{Rho, rho_of, sum_into};
use mix_num::{Memory, Prices};
use mix_seller::Seller;
use mix_text::Auction;
use std::alloc::Global;

/// The tables of all members, and the sums of those of the bidders, set by set.
#[derive(Drop)]
pub struct AllTables {
    /// The bidders' tables in order.
    pub bidders: Vec<Rho>,
    /// The seller's table.
    pub seller: Rho,
    /// The sums of the bidders' tables.
    pub sum: Rho,
}

/// What comes of taking the bidders' tables.
#[derive(Drop)]
pub enum Taken {
    /// Each bidder is convex, and these are their tables.
    Tables(Vec<Rho>),
    /// This bidder isn't convex; it is the first such.
    Invalid(usize),
}

/// The tables of the bidders at the prices, where each is convex.
pub fn bidder_tables(alloc: Global, auction: &Auction, prices: &Prices) -> Result<Taken, Memory>
    requires { AreAmounts (length auction.now.goods) prices.now.items }
    ensures { IfOk result (IsTaken (auction_text auction.now) prices.now.items) }
{
    let mut tables = Vec::new(alloc);
    for k in 0..auction.count() {
        let Some(member) = member(alloc, auction, k)? else {
            return Ok(Taken::Invalid(k));
        };
        let table = rho_of(alloc, &member, prices)?;
        let Ok(()) = tables.push(table) else {
            return Err(Memory);
        };
    }
    Ok(Taken::Tables(tables))
}

/// The tables of all members at the prices, from those of the bidders.
pub fn all_tables(
    alloc: Global,
    auction: &Auction,
    prices: &Prices,
    bidders: Vec<Rho>,
) -> Result<AllTables, Memory>
    requires prices { AreAmounts (length auction.now.goods) prices.now.items }
    requires bidders { AreTablesOfFirst (auction_text auction.now) prices.now.items (length auction.now.bidders) bidders.items }
    ensures { IfOk result (AreTablesAt (auction_text auction.now) prices.now.items) }
{
    let seller = rho_of(
        alloc,
        &Seller::new(&auction.supply, &auction.reserve),
        prices,
    )?;
    let sum = sum_of(alloc, prices.len(), &bidders)?;
    Ok(AllTables {
        bidders,
        seller,
        sum,
    })
}

/// The sums of tables over so many goods, at most 8, set by set.
fn sum_of(alloc: Global, goods: usize, tables: &[Rho]) -> Result<Rho, Memory>
    requires goods { goods ≤ 8 }
    requires few { length tables.now ≤ 256 }
    requires proper { (k : ℕ) → k < length tables.now → IsProper goods (slice_index_or tables.now k []) }
    ensures size { IfOk result (λ sum. length sum ≡ 2 ^ suc goods) }
    ensures sums { IfOk result (λ sum. (set : ℕ) → set < 2 ^ suc goods → number_of sum set ≡ sum_at tables.now set) }
{
    let mut sum = Rho::zero(alloc, goods)?;
    for table in tables {
        sum_into(&mut sum, table);
    }
    Ok(sum)
}

/// How many sets `n` goods have. With the null choice they have twice as many.
pub fn sets_of(n: usize) -> u16
    requires { n ≤ 8 }
    ensures value { result ≡ 2 ^ n }
    ensures range { result ≤ 256 }
{
    1 << n
}
