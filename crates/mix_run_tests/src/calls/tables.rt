// Every command at the sizes that a text may have: none of them gives up there, where memory is ample. What is printed was worked
// out by hand.
mod check;
mod compare;
mod prices;
mod range;
mod session;
mod solve;
mod trail;
mod upgrade;
mod utility;
mod validate;

use crate::calls::words_of;
use mix_io::{MemorySink, MemorySource};
use mix_run::run;
use std::alloc::Global;
use std::test::Fail;

// Adds a number to a text.
fn add_number(alloc: Global, text: &mut Vec<u8>, number: u32) -> Result<(), Fail> {
    let digits = format!(in alloc; "{number}")?;
    text.extend_from_slice(digits.as_bytes())?;
    Ok(())
}

// Adds what a pair of braces holds: two numbers, and what comes for each number from the first to the second.
fn add_turns(alloc: Global, text: &mut Vec<u8>, turns: &str) -> Result<(), Fail> {
    let (numbers, body) = turns.split_once('|').ok_or("a body")?;
    let (first, last) = numbers.split_once("..").ok_or("two numbers")?;
    let first = first.parse::<u32>()?;
    let last = last.parse::<u32>()?;
    for number in first..=last {
        for byte in body.bytes() {
            match byte {
                b'#' => add_number(alloc, text, number)?,
                b'@' => add_number(
                    alloc,
                    text,
                    first.saturating_add(last).saturating_sub(number),
                )?,
                _ => text.push(byte)?,
            }
        }
    }
    Ok(())
}

// The text of a recipe: `{1..3|bid,B#,1,@\n}` stands for three rows, with the numbers 1 to 3 in place of `#` and 3 to 1 in place
// of `@`.
fn text_by(alloc: Global, recipe: &str) -> Result<Vec<u8>, Fail> {
    let mut text = Vec::new(alloc);
    for piece in recipe.split('{') {
        match piece.split_once('}') {
            Some((turns, rest)) => {
                add_turns(alloc, &mut text, turns)?;
                text.extend_from_slice(rest.as_bytes())?;
            }
            None => text.extend_from_slice(piece.as_bytes())?,
        }
    }
    Ok(text)
}

// Whether a call with one word on an auction and what comes after it, both told by recipes, ends with the status and writes exactly
// this text.
fn gives_by(
    alloc: Global,
    word: &str,
    auction: &str,
    rest: &str,
    status: u8,
    output: &str,
) -> Result<bool, Fail> {
    let named = words_of(alloc, &[word])?;
    let mut text = text_by(alloc, auction)?;
    text.extend_from_slice(&text_by(alloc, rest)?)?;
    let wanted = text_by(alloc, output)?;
    let mut input = MemorySource::new(text, 4096, Vec::new(alloc));
    let mut sink = MemorySink::new(alloc, wanted.len(), 4096, Vec::new(alloc))?;
    let answer = run(alloc, &named, &mut input, &mut sink);
    Ok(answer == status && sink.bytes() == wanted.as_slice())
}

const NOBODY: &str = "mix,1\ngoods,A\nsupply,2\nreserve,3\nend\n";

const ONE_BIDDER: &str = "mix,1\ngoods,A\nsupply,2\nreserve,0\nbid,P,1,5\nend\n";

// Each bids its number for one of 200 units, so the price is the 201st greatest bid, 56.
const BIDDERS: &str = "mix,2\ngoods,A\nsupply,200\nreserve,0\n{1..256|bid,B#,1,#\n}end\n";

// The same by caps: each bids for three units and takes one.
const CAPS: &str =
    "mix,3\ngoods,A\nsupply,200\nreserve,0\n{1..256|bid,B#,3,#\n}{1..256|cap,B#,1\n}end\n";

// One bids each number from 1 to 400 for the one unit.
const BIDS: &str = "mix,2\ngoods,A\nsupply,1\nreserve,0\n{1..400|bid,P,1,#\n}end\n";

// Eight groups of 32 bidders, each for one unit of a good of its own.
const GOODS: &str =
    "mix,2\ngoods,A,B,C,D,E,F,G,H\nsupply,32,32,32,32,32,32,32,32\nreserve,0,0,0,0,0,0,0,0\n{1..32|bid,B#,1,5,-,-,-,-,-,-,-\n}{33..64|bid,B#,1,-,5,-,-,-,-,-,-\n}{65..96|bid,B#,1,-,-,5,-,-,-,-,-\n}{97..128|bid,B#,1,-,-,-,5,-,-,-,-\n}{129..160|bid,B#,1,-,-,-,-,5,-,-,-\n}{161..192|bid,B#,1,-,-,-,-,-,5,-,-\n}{193..224|bid,B#,1,-,-,-,-,-,-,5,-\n}{225..256|bid,B#,1,-,-,-,-,-,-,-,5\n}end\n";

// The list of the 200th bidder isn't convex.
const REFUSED: &str =
    "mix,2\ngoods,A\nsupply,1\nreserve,0\n{1..199|bid,B#,1,5\n}bid,B200,-1,5\n{201..256|bid,B#,1,5\n}end\n";

// What is printed of it.
const REFUSAL: &str = "outcome,2\norder{1..256|,B#}\nrefused,B200,-,A,5,-1\nend\n";

// The outcome of 256 bidders, whether by bids or by caps.
const OF_BIDDERS: &str =
    "outcome,2\norder{1..256|,B#}\ncleared\nprice,56\n{1..56|share,B#,0,0\n}{57..256|share,B#,1,56\n}return,0\n{1..55|tight,B#,A,2,0\n}tight,B56,A,3,1\n{57..256|tight,B#,A,2,0\n}end\n";

// The outcome of 400 bids.
const OF_BIDS: &str =
    "outcome,2\norder,P\ncleared\nprice,399\nshare,P,1,399\nreturn,0\ntight,P,A,3,1\nend\n";

// The outcome for eight goods: all get what they bid for, for nothing.
const OF_GOODS: &str =
    "outcome,2\norder{1..256|,B#}\ncleared\nprice,0,0,0,0,0,0,0,0\n{1..32|share,B#,1,0,0,0,0,0,0,0,0\n}{33..64|share,B#,0,1,0,0,0,0,0,0,0\n}{65..96|share,B#,0,0,1,0,0,0,0,0,0\n}{97..128|share,B#,0,0,0,1,0,0,0,0,0\n}{129..160|share,B#,0,0,0,0,1,0,0,0,0\n}{161..192|share,B#,0,0,0,0,0,1,0,0,0\n}{193..224|share,B#,0,0,0,0,0,0,1,0,0\n}{225..256|share,B#,0,0,0,0,0,0,0,1,0\n}return,0,0,0,0,0,0,0,0\n{1..256|tight,B#,A,2,0\ntight,B#,B,4,0\ntight,B#,C,8,0\ntight,B#,D,16,0\ntight,B#,E,32,0\ntight,B#,F,64,0\ntight,B#,G,128,0\ntight,B#,H,256,0\n}end\n";
