// The words that the program is called with, and those that it prints for faults and limits.
ghost use Rattle.std.specs.Prelude.{◌≡◌, ◌<◌, length, map, true, IfSome};
ghost use Rattle.std.specs.List.{position_from};
ghost use Rattle.std.specs.Str.{bytes_eq};
ghost use Rattle.std.specs.String.{string_bytes};
ghost use Rattle.mix_text.specs.Pages.{is_printable};
ghost use Rattle.mix_run.specs.Words.{command_of, code_word, is_blank, task_of, trial_asked, what_word, words_in};

use mix_text::{Code, What, read_number};

// The greatest number of a trial auction.
const MOST_TRIALS: i64 = 4_294_967_295;

/// What the program may be asked to do with a text.
#[derive(Clone, Copy, Debug, PartialEq, Eq)]
pub enum Command {
    /// Print each bidder's indirect utility at given prices.
    Utility,
    /// Print each bidder's total, where every list of bids is convex.
    Validate,
    /// Print the least prices, where every list of bids is convex.
    Prices,
    /// Print the long steps from the reserves to the least prices, where every list of bids is convex.
    Trail,
    /// Print the outcome: prices, shares, returns and tight pairs, where every list of bids is convex.
    Solve,
    /// Say whether an outcome is true, and else why it isn't.
    Check,
    /// Write an auction of format 1 and its outcome in format 2.
    Upgrade,
    /// Say of each bidder after the first whether its list has the first one's indirect utility at all whole prices.
    Compare,
    /// Print how low and how high the prices may be at which bidders who own units trade, where every list of bids is convex.
    Range,
    /// Print the outcome wherever one is asked for, while bids are added and bidders leave.
    Session,
}

/// What the words ask for.
#[derive(Clone, Copy, Debug, PartialEq, Eq)]
pub enum Task {
    /// A command on the text of the input.
    OnText(Command),
    /// The trial auction of a number, from 0 to 4,294,967,295; nothing is read.
    Trial(u64),
}

impl Task {
    /// What the words ask for; None where it is nothing that is known. It takes no memory.
    pub fn asked_by(words: &[String]) -> Option<Task>
        ensures { result ≡ task_of (map (λ w. string_bytes w) words.now) }
    {
        match words {
            [first, second] => trial_of(first.as_bytes(), second.as_bytes()),
            [only] => Command::called_by(only.as_bytes()).map(Task::OnText),
            _ => None,
        }
    }

    /// What the words ask for that stand in one text, the second after the first blank; None where it is nothing that is known.
    pub fn asked_in(words: &[u8]) -> Option<Task>
        ensures { result ≡ task_of (words_in words.now) }
    {
        match first_blank(words) {
            Some(at) => trial_of(&words[..at], &words[at + 1..]),
            None => Command::called_by(words).map(Task::OnText),
        }
    }
}

// Where the first blank stands.
fn first_blank(words: &[u8]) -> Option<usize>
    ensures place { result ≡ position_from is_blank 0 words.now }
    ensures bound { IfSome result (λ at. at < length words.now) }
{
    words.iter().position(|byte| *byte == b' ')
}

// The trial auction that two words ask for: `trial`, and a number.
fn trial_of(first: &[u8], second: &[u8]) -> Option<Task>
    ensures { result ≡ trial_asked first.now second.now }
{
    if !is_word(first, "trial") {
        return None;
    }
    match read_number(second, 0, MOST_TRIALS) {
        Ok(number) => Some(Task::Trial(number.unsigned_abs())),
        Err(_) => None,
    }
}

impl Command {
    /// The command that a word calls; None where it calls none.
    fn called_by(word: &[u8]) -> Option<Command>
        ensures { result ≡ command_of word.now }
    {
        if is_word(word, "utility") {
            Some(Command::Utility)
        } else if is_word(word, "validate") {
            Some(Command::Validate)
        } else if is_word(word, "prices") {
            Some(Command::Prices)
        } else if is_word(word, "trail") {
            Some(Command::Trail)
        } else if is_word(word, "solve") {
            Some(Command::Solve)
        } else if is_word(word, "check") {
            Some(Command::Check)
        } else if is_word(word, "upgrade") {
            Some(Command::Upgrade)
        } else if is_word(word, "compare") {
            Some(Command::Compare)
        } else if is_word(word, "range") {
            Some(Command::Range)
        } else if is_word(word, "session") {
            Some(Command::Session)
        } else {
            None
        }
    }
}

// Whether a word is this one.
fn is_word(word: &[u8], known: &str) -> bool
    ensures { result ≡ bytes_eq word.now known.now }
{
    word == known.as_bytes()
}

/// The word that is printed for what is wrong with a row.
pub fn word_of_code(code: Code) -> &'static [u8]
    ensures { result.now ≡ code_word code }
{
    match code {
        Code::Header => b"header",
        Code::Place => b"place",
        Code::Fields => b"fields",
        Code::Name => b"name",
        Code::Repeated => b"repeated",
        Code::Number => b"number",
        Code::Range => b"range",
        Code::Weight => b"weight",
        Code::Nothing => b"nothing",
        Code::End => b"end",
        Code::After => b"after",
        Code::Other => b"other",
    }
}

/// The word that is printed for what there is too much of.
pub fn word_of_limit(what: What) -> &'static [u8]
    ensures { result.now ≡ what_word what }
{
    match what {
        What::Bytes => b"bytes",
        What::Goods => b"goods",
        What::Bidders => b"bidders",
        What::Bids => b"bids",
        What::Negatives => b"negatives",
        What::Cells => b"cells",
        What::Clears => b"clears",
    }
}
