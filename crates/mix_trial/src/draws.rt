// Numbers drawn from the words of a generator.
ghost use Rattle.std.specs.Prelude.{◌≡◌, ◌<◌, ◌≤◌, ◌+◌, ◌≤ℤ◌, pos};
ghost use Rattle.mix_trial.specs.Words.{words_of};
ghost use Rattle.mix_trial.specs.Draws.{alone, drawn, for_each};
ghost use Rattle.mix_trial.specs.Trials.{amount};

use mix_num::Bundle;
use rand_core::utils::NextWord;
use rand_pcg::Lcg64Xsh32;

/// The goods of a trial auction.
pub const GOODS: usize = 5;

/// The next word modulo `below`.
#[tactic(auto, using(crate::proofs::GeneratorWords::first_word))]
pub fn draw(words: &mut Lcg64Xsh32, below: u32) -> u32
    requires { 0 < below }
    ensures value { result ≡ (drawn below (words_of words.old)).0 }
    ensures rest { words_of words.new ≡ (drawn below (words_of words.old)).1 }
    ensures range { result < below }
{
    words.next_word() % below
}

// An amount from `low` on, below `low + below`.
fn draw_amount(words: &mut Lcg64Xsh32, low: u32, below: u32) -> i64
    requires some { 0 < below }
    requires few { low + below ≤ 1000000 }
    ensures value { result ≡ (amount low below (words_of words.old)).0 }
    ensures rest { words_of words.new ≡ (amount low below (words_of words.old)).1 }
    ensures range { (pos 0 ≤ℤ result) × (result ≤ℤ pos 1000000) }
{
    i64::from(low + draw(words, below))
}

/// An amount for each of five goods, `low` and a number below `below` more.
pub fn draw_amounts(words: &mut Lcg64Xsh32, low: u32, below: u32) -> Bundle
    requires some { 0 < below }
    requires few { low + below ≤ 1000000 }
    ensures value { result.items ≡ (for_each 5 1 (λ _. alone (amount low below)) (words_of words.old)).0 }
    ensures rest { words_of words.new ≡ (for_each 5 1 (λ _. alone (amount low below)) (words_of words.old)).1 }
{
    let mut amounts = Bundle::new();
    for _good in 0..GOODS {
        amounts.push(draw_amount(words, low, below));
    }
    amounts
}
