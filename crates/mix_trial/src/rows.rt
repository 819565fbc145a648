// The rows of an auction's text, one function for each kind.
ghost use Rattle.std.specs.Prelude.{◌≡◌, ◌++◌, ◌∷◌, [], true, map, OnOk};
ghost use Rattle.std.specs.List.{AllPass};
ghost use Rattle.mix_text.specs.Pages.{line_of, printed};
ghost use Rattle.mix_text.specs.Spelling.{is_name};
ghost use Rattle.mix_trial.specs.Printing.{bid_row, bidder_rows, cap_rows, goods_row, head_row, own_cap_rows, value_text};

use mix_bids::Bid;
use mix_num::Memory;
use mix_text::{Auction, Name, Names, Page};

/// Adds the first row, which names the format.
pub fn add_head(page: &mut Page, format: u8) -> Result<(), Memory>
    requires { page.old.fields ≡ [] }
    ensures { OnOk result (page.new ≡ record { ended = page.old.ended ++ line_of (head_row format); fields = [] }) }
{
    page.text(b"mix")?;
    page.number(i64::from(format))?;
    page.end_row()
}

// Adds names to the open row.
fn add_names(page: &mut Page, names: &Names) -> Result<(), Memory>
    requires { AllPass is_name names.now }
    ensures { OnOk result (page.new ≡ record page.old { fields = page.old.fields ++ names.now }) }
{
    for k in 0..names.len() {
        page.name(names.get(k))?;
    }
    Ok(())
}

/// Adds the row of the goods.
pub fn add_goods(page: &mut Page, names: &Names) -> Result<(), Memory>
    requires closed { page.old.fields ≡ [] }
    requires names { AllPass is_name names.now }
    ensures { OnOk result (page.new ≡ record { ended = page.old.ended ++ line_of (goods_row names.now); fields = [] }) }
{
    page.text(b"goods")?;
    add_names(page, names)?;
    page.end_row()
}

// Adds a value to the open row: `-` where the good is left out.
fn add_value(page: &mut Page, value: Option<i64>) -> Result<(), Memory>
    ensures { OnOk result (page.new ≡ record page.old { fields = page.old.fields ++ value_text value ∷ [] }) }
{
    match value {
        None => page.text(b"-"),
        Some(value) => page.number(value),
    }
}

// Adds values to the open row.
fn add_values(page: &mut Page, values: &[Option<i64>]) -> Result<(), Memory>
    ensures { OnOk result (page.new ≡ record page.old { fields = page.old.fields ++ map value_text values.now }) }
{
    for value in values {
        add_value(page, *value)?;
    }
    Ok(())
}

// Adds the row of a bid.
fn add_bid(page: &mut Page, name: &Name, bid: &Bid) -> Result<(), Memory>
    requires closed { page.old.fields ≡ [] }
    requires name { is_name name.now.bytes ≡ true }
    ensures { OnOk result (page.new ≡ record { ended = page.old.ended ++ line_of (bid_row name.now.bytes bid.now); fields = [] }) }
{
    page.text(b"bid")?;
    page.name(name)?;
    page.number(bid.weight)?;
    add_values(page, &bid.values)?;
    page.end_row()
}

// Adds the rows of a bidder's bids.
#[tactic(auto, using(crate::proofs::PrintedBids::bids_end, crate::proofs::PrintedBids::bids_more))]
fn add_bids(page: &mut Page, name: &Name, bids: &[Bid]) -> Result<(), Memory>
    requires closed { page.old.fields ≡ [] }
    requires name { is_name name.now.bytes ≡ true }
    ensures { OnOk result (page.new ≡ record { ended = page.old.ended ++ printed (map (bid_row name.now.bytes) bids.now); fields = [] }) }
{
    for bid in bids {
        add_bid(page, name, bid)?;
    }
    Ok(())
}

/// Adds the rows of the bidders, the bids of each together.
#[tactic(auto, using(crate::proofs::PrintedBids::bidders_end, crate::proofs::PrintedBids::bidders_more, mix_text::proofs::AuctionNames::bidder_named))]
pub fn add_bidders(page: &mut Page, auction: &Auction) -> Result<(), Memory>
    requires { page.old.fields ≡ [] }
    ensures { OnOk result (page.new ≡ record { ended = page.old.ended ++ printed (bidder_rows auction.now.bidders); fields = [] }) }
{
    for k in 0..auction.count() {
        let (name, list) = auction.bidder(k);
        add_bids(page, name, list.bids())?;
    }
    Ok(())
}

// Adds the row of a bidder's cap, where it has one.
fn add_cap(page: &mut Page, name: &Name, cap: Option<i64>) -> Result<(), Memory>
    requires closed { page.old.fields ≡ [] }
    requires name { is_name name.now.bytes ≡ true }
    ensures { OnOk result (page.new ≡ record { ended = page.old.ended ++ printed (own_cap_rows name.now.bytes cap); fields = [] }) }
{
    let Some(cap) = cap else {
        return Ok(());
    };
    page.text(b"cap")?;
    page.name(name)?;
    page.number(cap)?;
    page.end_row()
}

/// Adds the rows of the bidders' caps in the bidders' order, those without a cap left out.
#[tactic(auto, using(crate::proofs::PrintedBids::caps_counted, crate::proofs::PrintedBids::caps_end, crate::proofs::PrintedBids::caps_more, mix_text::proofs::AuctionNames::bidder_named))]
pub fn add_caps(page: &mut Page, auction: &Auction) -> Result<(), Memory>
    requires { page.old.fields ≡ [] }
    ensures { OnOk result (page.new ≡ record { ended = page.old.ended ++ printed (cap_rows auction.now.bidders auction.now.caps); fields = [] }) }
{
    for k in 0..auction.count() {
        let (name, _) = auction.bidder(k);
        add_cap(page, name, auction.cap(k))?;
    }
    Ok(())
}
