// What holds of every auction, the contract of a call that does nothing.
ghost use Rattle.std.specs.Prelude.{◌↔◌, ℤ, List};
ghost use Rattle.mix_text.specs.AuctionTexts.{auction_text};
ghost use Rattle.mix_law.specs.Clearings.{AreLeastClearing};
ghost use Rattle.mix_answer.specs.Refusals.{AreConvex};
ghost use Rattle.mix_answer.specs.Utilities.{utilities_of};
ghost use Rattle.mix_serve.specs.LeastPrices.{AreLeastPrices};

use mix_text::Auction;

/// Where each bidder is convex, the least prices of an auction are its least clearing prices: some bundles and returns clear there, and
/// wherever some clear no price is lower.
pub fn least_prices_clear(auction: &Auction)
    ensures { AreConvex (auction_text auction.now) → (prices : List ℤ) →
        AreLeastPrices (auction_text auction.now) prices
        ↔ AreLeastClearing (utilities_of (auction_text auction.now)) auction.now.supply.items auction.now.reserve.items prices }
{}
