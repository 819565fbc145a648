// The formats of an auction's text, and how much of each quantity they let stand.
ghost use Rattle.std.specs.Prelude.{◌≡◌};
ghost use Rattle.mix_text.specs.Formats.{AreLimits, has_caps as has_caps_of, has_order as has_order_of, limits_of as limits_of_format};

/// How much of each quantity a format lets stand; None where it sets no limit.
#[derive(Clone, Copy)]
pub struct Limits {
    /// The goods of the auction.
    pub goods: usize,
    /// The bidders of the auction.
    pub bidders: usize,
    /// The bids of one bidder.
    pub bids: usize,
    /// The bids of negative weight of one bidder.
    pub negatives: Option<usize>,
    /// The cells of one bidder's list.
    pub cells: Option<u64>,
}

// The limits of `mix,1`.
const MIX_ONE: Limits = Limits {
    goods: 5,
    bidders: 64,
    bids: 400,
    negatives: Some(12),
    cells: None,
};

// The limits of `mix,2` and of `mix,3`.
const MIX_TWO: Limits = Limits {
    goods: 8,
    bidders: 256,
    bids: 400,
    negatives: None,
    cells: Some(4_194_304),
};

/// The limits of a format, from 1 to 3. Format 3 has those of format 2.
#[tactic(auto, unfolding(crate::specs::Formats::limits_of), using(crate::proofs::FormatLimits::limits_are))]
pub fn limits_of(format: u8) -> Limits
    ensures value { result ≡ limits_of_format format }
    ensures sound { AreLimits result }
{
    if format == 1 { MIX_ONE } else { MIX_TWO }
}

/// Whether a text of a format may state the tie order: from format 2 on.
pub fn has_order(format: u8) -> bool
    ensures { result ≡ has_order_of format }
{
    format >= 2
}

/// Whether a text of a format may give bidders caps: from format 3 on.
pub fn has_caps(format: u8) -> bool
    ensures { result ≡ has_caps_of format }
{
    format >= 3
}
