// The choices that a bid likes best, where gains are counted in whole lengths.
ghost use Rattle.std.specs.Prelude.{◌≤◌};

use mix_bids::Bid;

/// Of the choices looked at so far, the greatest gain, and the bits of those that have it.
#[derive(Clone, Copy, Drop)]
pub struct Favourites {
    pub gain: i64,
    pub choices: usize,
}

impl Favourites {
    /// With one more choice looked at.
    fn with(self, choice: usize, offer: Option<i64>, price: i64, halvings: u32) -> Favourites
        requires choice { choice ≤ 8 }
        requires halvings { halvings ≤ 19 }
    {
        match offer {
            Some(value) => self.with_gain(choice, value.wrapping_sub(price) >> halvings),
            None => self,
        }
    }

    /// With one more choice looked at, which has this gain.
    fn with_gain(self, choice: usize, gain: i64) -> Favourites
        requires { choice ≤ 8 }
    {
        if gain < self.gain {
            return self;
        }
        let before = if gain == self.gain { self.choices } else { 0 };
        Favourites {
            gain,
            choices: before | 1 << choice,
        }
    }
}

/// The greatest value less price, counted in whole lengths of `2^halvings`, and the bits of the choices, the null choice among
/// them, that have it.
pub fn best_choices(bid: &Bid, prices: &[i64; 8], halvings: u32) -> Favourites
    requires { halvings ≤ 19 }
{
    let offers = bid.values.as_slice();
    let mut best = Favourites {
        gain: 0,
        choices: 1,
    };
    // The compiler knows how many turns these are, and writes them out one by one.
    for i in 0..8 {
        if i < offers.len() {
            best = best.with(i + 1, offers[i], prices[i], halvings);
        }
    }
    best
}
