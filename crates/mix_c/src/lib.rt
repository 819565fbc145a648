//! The commands on product-mix auctions for C: words and a text in memory, and room for what comes of them.
#![tactic(auto)]

ghost use Rattle.std.specs.Prelude.{◌≡◌, ◌≢◌, ◌<◌, ◌≤◌, ◌⊎◌, [], ◌++◌, ℕ, List, Some, length, drop};
ghost use Rattle.mix_answer.specs.Outcomes.{version_of};
ghost use Rattle.mix_run.specs.Calls.{IsAnswered};
ghost use Rattle.mix_run.specs.Words.{task_of, words_in};
ghost use Rattle.mix_c.specs.Handing.{IsHandedOver};
ghost use Rattle.mix_c.specs.Versions.{IsGreatest};

#[cfg(test)]
mod tests;

use mix_run::reply_to;
use std::alloc::Global;

// Memory was wanting.
const NO_MEMORY: u32 = 7;

// The version of these functions. A greater one may have more of them, and gives a call of a lower one the same answer.
const LIBRARY: u32 = 1;

// The greatest format of auctions that is read.
const AUCTIONS: u32 = 3;

// The greatest version of outcomes that is written.
const OUTCOMES: u32 = 2;

/// Does what the words ask for with a text, hands over what the program writes of them, and gives its status.
///
/// The words stand in one text: the second, which `trial` alone has, follows the first blank.
///
/// `needed` is how many bytes the reply has. Where there is room for all of them they stand at the front of `out`; where there
/// isn't, `out` is as it was, and a call with so much room hands them over. 0, 1, 2, 3 and 4 are the program's statuses. 7:
/// memory was wanting, `needed` is 0, and `out` is as it was.
#[unsafe(no_mangle)]
pub extern "C" fn product_mix_run(
    alloc: Global,
    words: &[u8],
    text: &[u8],
    out: &mut [u8],
    needed: &mut usize,
) -> u32
    ensures range { (result < 5) ⊎ (result ≡ 7) }
    ensures answer { result ≢ 7 → (bytes : List ℕ) × IsAnswered (task_of (words_in words.now)) (Some text.now) ⊥ ⊥ (Some []) (Some bytes) result × IsHandedOver bytes needed.new out.old out.new }
    ensures memory { result ≡ 7 → (needed.new ≡ 0) × (out.new ≡ out.old) }
{
    let Ok(reply) = reply_to(alloc, words, text) else {
        *needed = 0;
        return NO_MEMORY;
    };
    *needed = reply.bytes.len();
    put(&reply.bytes, out);
    u32::from(reply.status)
}

// Puts the bytes at the front, where there is room for all of them.
fn put(bytes: &[u8], out: &mut [u8])
    ensures fits { length bytes.now ≤ length out.old → out.new ≡ bytes.now ++ drop (length bytes.now) out.old }
    ensures too_wide { length out.old < length bytes.now → out.new ≡ out.old }
{
    if bytes.len() <= out.len() {
        out[..bytes.len()].copy_from_slice(bytes);
    }
}

/// The version of a part. 0: of these functions. 1: the greatest format of auctions that is read. 2: the greatest version of
/// outcomes that is written. Any other part: 0.
#[tactic(auto, using(crate::proofs::Greatest::auctions_greatest, crate::proofs::Greatest::outcomes_greatest))]
#[unsafe(no_mangle)]
pub extern "C" fn product_mix_version(part: u32) -> u32
    ensures library { part ≡ 0 → result ≡ 1 }
    ensures auctions { part ≡ 1 → IsGreatest (λ format. format) result }
    ensures outcomes { part ≡ 2 → IsGreatest version_of result }
    ensures other { 2 < part → result ≡ 0 }
{
    match part {
        0 => LIBRARY,
        1 => AUCTIONS,
        2 => OUTCOMES,
        _ => 0,
    }
}
