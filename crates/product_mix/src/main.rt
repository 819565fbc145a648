//! A product-mix auction: does the command of its words on the auction of standard input.
#![tactic(auto)]

ghost use Rattle.std.specs.Prelude.{◌≡◌, drop};

use mix_io::{StdSink, StdSource};
pub use mix_run::run;
use std::env;
use std::process::ExitCode;

// The words couldn't be had, so nothing was done.
const NO_WORDS: u8 = 8;

fn main(rt: HostRuntime) -> ExitCode {
    let Ok(args) = arguments(&rt) else {
        return ExitCode::from(NO_WORDS);
    };
    let mut input = StdSource::new(rt.stdin());
    let mut output = StdSink::new(rt.stdout());
    let status = run(rt.alloc(), words_of(&args), &mut input, &mut output);
    ExitCode::from(status)
}

// All arguments of the program, its name first.
fn arguments(rt: &HostRuntime) -> std::io::Result<Vec<String>> {
    let mut args = Vec::new(rt.alloc());
    for arg in env::args(rt)? {
        args.push(arg)?;
    }
    Ok(args)
}

// The words that follow the program's name.
fn words_of(args: &[String]) -> &[String]
    ensures { result.now ≡ drop 1 args.now }
{
    match args {
        [_, words @ ..] => words,
        [] => args,
    }
}
