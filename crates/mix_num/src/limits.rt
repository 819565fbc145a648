// How large the numbers of an auction may be. Code and contracts cite them by name.

/// The most bytes of a text: 16 MiB.
pub const MOST_BYTES: usize = 16_777_216;

/// The most that a value, a reserve or a ceiling may be, in the auction's unit of money.
pub const MOST_VALUE: u32 = 1_000_000;

/// The most units of a good, of a supply, a cap, a bundle, or of what is owned: as many as a value may be.
pub const MOST_UNITS: u32 = MOST_VALUE;

/// No price lies further from 0, in the auction's unit of money.
pub const PRICE_BOUND: u32 = 4_000_000;
