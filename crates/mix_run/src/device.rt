// The top call: a command from the bytes of its input to those of its output.
ghost use Rattle.std.specs.Prelude.{◌≡◌, ◌≢◌, ◌<◌, ◌≤◌, ◌⊎◌, Some, None, length, map, IfOk, IfErr, IsSome};
ghost use Rattle.std.specs.Io.KnownBytes.{IsAtEnd, Keeps};
ghost use Rattle.std.specs.String.{string_bytes};
ghost use Rattle.mix_io.specs.Causes.{Rose};
ghost use Rattle.mix_io.specs.Given.{IsLonger};
ghost use Rattle.mix_run.specs.Replies.{output_of};
ghost use Rattle.mix_run.specs.Calls.{IsAnswered, IsDone, IsOutput, IsWritten, IsWrong, Reads, TakesAtMost, WritesFor, WritesTrial};
ghost use Rattle.mix_run.specs.Causes.{AreCheckedAlike, Has, IsFaulty, IsMet, IsTooMuch, IsUnmet, Shows, Within};
ghost use Rattle.mix_run.specs.command.Swaps.{AreNoWorse, BringReceipts, ClearWhereAsLow, LieBetween, WritesRange};
ghost use Rattle.mix_run.specs.Words.{task_of};

use crate::command::check::print_check;
use crate::command::compare::print_comparison;
use crate::command::prices::print_prices;
use crate::command::range::print_range;
use crate::command::session::print_session;
use crate::command::solve::print_solution;
use crate::command::trail::print_trail;
use crate::command::trial::trial_text;
use crate::command::upgrade::print_upgrade;
use crate::command::utility::print_utilities;
use crate::command::validate::print_validity;
use crate::refusal::refused;
use crate::reply::Reply;
use crate::words::{Command, Task};
use mix_io::{ReadRefused, Sink, Source, read_all, write_all};
use mix_num::Memory;
use mix_text::TextError;
use std::alloc::Global;

/// How many bytes a text may have.
pub const MOST_BYTES: usize = 16_777_216;

pub const DONE: u8 = 0;

pub const UNKNOWN_WORDS: u8 = 2;

pub const TOO_LONG: u8 = 4;

const UNREAD: u8 = 5;

const UNWRITTEN: u8 = 6;

const NO_MEMORY: u8 = 7;

// Writes a text, and gives its status, or that the writing failed.
fn write_out<K: Sink>(output: &mut K, status: u8, text: &[u8]) -> u8
    requires { status < 6 }
    ensures written { IsWritten (record { status = status; bytes = text.now }) (Rose (K.faults output.old) (K.faults output.new)) (K.taken output.old) (K.taken output.new) result }
    ensures range { (result ≡ status) ⊎ (result ≡ 6) }
    ensures quiet { result ≢ 6 → K.faults output.new ≡ K.faults output.old }
{
    match write_all(output, text) {
        Ok(()) => status,
        Err(_) => UNWRITTEN,
    }
}

// Does the command on a text, and prints what comes of it; the error is what is wrong first with the text.
fn done(alloc: Global, command: Command, text: &[u8]) -> Result<Reply, TextError>
    requires { length text.now ≤ 16777216 }
    ensures done { IfOk result (λ reply. IsDone command text.now (output_of reply)) }
    ensures status { IfOk result (λ reply. reply.status < 2) }
    ensures wrong { IfErr result (λ e. (e ≡ TextError.Memory) ⊎ IsWrong command text.now e) }
{
    match command {
        Command::Utility => {
            let bytes = print_utilities(alloc, text)?;
            Ok(Reply {
                status: DONE,
                bytes,
            })
        }
        Command::Validate => print_validity(alloc, text),
        Command::Prices => print_prices(alloc, text),
        Command::Trail => print_trail(alloc, text),
        Command::Solve => print_solution(alloc, text),
        Command::Check => print_check(alloc, text),
        Command::Upgrade => print_upgrade(alloc, text),
        Command::Compare => {
            let bytes = print_comparison(alloc, text)?;
            Ok(Reply {
                status: DONE,
                bytes,
            })
        }
        Command::Range => print_range(alloc, text),
        Command::Session => {
            let bytes = print_session(alloc, text)?;
            Ok(Reply {
                status: DONE,
                bytes,
            })
        }
    }
}

/// The reply of the command to a text.
pub fn reply(alloc: Global, command: Command, text: &[u8]) -> Result<Reply, Memory>
    requires { length text.now ≤ 16777216 }
    ensures output { IfOk result (λ reply. IsOutput command text.now (output_of reply)) }
    ensures status { IfOk result (λ reply. (reply.status < 5) × (reply.status ≢ 2)) }
{
    match done(alloc, command, text) {
        Ok(reply) => Ok(reply),
        Err(error) => refused(alloc, error),
    }
}

// Writes the reply of the command to a text.
fn reply_out<K: Sink>(alloc: Global, command: Command, text: &[u8], output: &mut K) -> u8
    requires { length text.now ≤ 16777216 }
    ensures written { result ≢ 7 → WritesFor command text.now (Rose (K.faults output.old) (K.faults output.new)) (K.taken output.old) (K.taken output.new) result }
    ensures memory { result ≡ 7 → Keeps (K.taken output.old) (K.taken output.new) }
    ensures range { ((result < 5) × (result ≢ 2)) ⊎ (result ≡ 6) ⊎ (result ≡ 7) }
    ensures unwritten { result ≡ 6 → Rose (K.faults output.old) (K.faults output.new) }
    ensures quiet { result ≢ 6 → K.faults output.new ≡ K.faults output.old }
{
    let Ok(reply) = reply(alloc, command, text) else {
        return NO_MEMORY;
    };
    write_out(output, reply.status, &reply.bytes)
}

// Writes the summary of the trial auction of a number.
fn trial_out<K: Sink>(alloc: Global, number: u64, output: &mut K) -> u8
    ensures written { result ≢ 7 → WritesTrial number (Rose (K.faults output.old) (K.faults output.new)) (K.taken output.old) (K.taken output.new) result }
    ensures memory { result ≡ 7 → Keeps (K.taken output.old) (K.taken output.new) }
    ensures range { (result ≡ 0) ⊎ (result ≡ 6) ⊎ (result ≡ 7) }
    ensures unwritten { result ≡ 6 → Rose (K.faults output.old) (K.faults output.new) }
    ensures quiet { result ≢ 6 → K.faults output.new ≡ K.faults output.old }
{
    let Ok(bytes) = trial_text(alloc, number) else {
        return NO_MEMORY;
    };
    write_out(output, DONE, &bytes)
}

// Does the command on the bytes of the input.
fn perform_on_text<I: Source, K: Sink>(
    alloc: Global,
    command: Command,
    input: &mut I,
    output: &mut K,
) -> u8
    ensures range { (result < 8) × (result ≢ 2) }
    ensures answer { result ≢ 7 → IsAnswered (Some (Task.OnText command)) (I.left input.old) (Rose (I.faults input.old) (I.faults input.new)) (Rose (K.faults output.old) (K.faults output.new)) (K.taken output.old) (K.taken output.new) result }
    ensures memory { result ≡ 7 → Keeps (K.taken output.old) (K.taken output.new) }
    ensures unread { result ≡ 5 → Rose (I.faults input.old) (I.faults input.new) }
    ensures unwritten { result ≡ 6 → Rose (K.faults output.old) (K.faults output.new) }
    ensures quiet_output { result ≢ 6 → K.faults output.new ≡ K.faults output.old }
    ensures quiet_input { result ≢ 5 → result ≢ 6 → I.faults input.new ≡ I.faults input.old }
    ensures at_end { (result ≡ 0) ⊎ (result ≡ 1) ⊎ (result ≡ 3) → IsAtEnd (I.left input.new) }
    ensures at_end_or_long { result ≡ 4 → IsAtEnd (I.left input.new) ⊎ IsLonger (I.left input.old) 16777216 }
    ensures taken { TakesAtMost 16777217 (I.left input.old) (I.left input.new) }
    ensures taken_unread { result ≡ 5 → TakesAtMost 16777216 (I.left input.old) (I.left input.new) }
{
    match read_all(alloc, input, MOST_BYTES) {
        Ok(text) => reply_out(alloc, command, &text, output),
        Err(ReadRefused::ReadFault) => write_out(output, UNREAD, b"error,read\n"),
        Err(ReadRefused::TooLong) => write_out(output, TOO_LONG, b"limit,0,bytes\n"),
        Err(ReadRefused::Memory) => NO_MEMORY,
    }
}

// Does the task; None is that of words which ask for nothing that is known.
#[tactic(auto, using(crate::proofs::Taken::takes_none))]
fn perform<I: Source, K: Sink>(
    alloc: Global,
    task: Option<Task>,
    input: &mut I,
    output: &mut K,
) -> u8
    ensures range { result < 8 }
    ensures answer { result ≢ 7 → IsAnswered task (I.left input.old) (Rose (I.faults input.old) (I.faults input.new)) (Rose (K.faults output.old) (K.faults output.new)) (K.taken output.old) (K.taken output.new) result }
    ensures memory { result ≡ 7 → IsSome task × Keeps (K.taken output.old) (K.taken output.new) }
    ensures unknown { task ≡ None → (result ≡ 2) ⊎ (result ≡ 6) }
    ensures known { result ≡ 2 → task ≡ None }
    ensures unread { result ≡ 5 → Rose (I.faults input.old) (I.faults input.new) }
    ensures unwritten { result ≡ 6 → Rose (K.faults output.old) (K.faults output.new) }
    ensures quiet_output { result ≢ 6 → K.faults output.new ≡ K.faults output.old }
    ensures quiet_input { result ≢ 5 → result ≢ 6 → I.faults input.new ≡ I.faults input.old }
    ensures at_end { Reads task → (result ≡ 0) ⊎ (result ≡ 1) ⊎ (result ≡ 3) → IsAtEnd (I.left input.new) }
    ensures at_end_or_long { Reads task → result ≡ 4 → IsAtEnd (I.left input.new) ⊎ IsLonger (I.left input.old) 16777216 }
    ensures taken { TakesAtMost 16777217 (I.left input.old) (I.left input.new) }
    ensures taken_unread { result ≡ 5 → TakesAtMost 16777216 (I.left input.old) (I.left input.new) }
    ensures untouched { ¬ Reads task → input.new ≡ input.old }
{
    match task {
        Some(Task::OnText(command)) => perform_on_text(alloc, command, input, output),
        Some(Task::Trial(number)) => trial_out(alloc, number, output),
        None => write_out(output, UNKNOWN_WORDS, b"error,words\n"),
    }
}

/// Does what the words ask for, a command on the bytes of the input or a trial auction, and gives the status.
///
/// 0: it was done. 1: it needs lists that are convex over all rational prices, and some bidder's list isn't; or it
/// checks an outcome, and that isn't true. 2: the
/// words ask for nothing that is known; then nothing is read. 3: the text has a fault. 4: it passes a limit, or has
/// more than 16,777,216 bytes. 5: a read failed. 6: a write failed, and a prefix of the text was written. 7: nothing was
/// written. It comes of want of memory, though no clause says that it comes of nothing else. With every other status
/// the whole text was written.
#[tactic(auto, using(crate::proofs::Causes::met_cause, crate::proofs::Causes::unmet_cause, crate::proofs::Causes::fault_cause, crate::proofs::Causes::limit_cause, crate::proofs::Causes::no_failure, crate::proofs::Causes::met_shown, crate::proofs::Causes::unmet_shown, crate::proofs::Causes::fault_shown, crate::proofs::Causes::limit_shown))]
pub fn run<I: Source, K: Sink>(alloc: Global, words: &[String], input: &mut I, output: &mut K) -> u8
    ensures range { result < 8 }

    // What is written, and the status, at every answer but 7; and all of it where no device failed.
    ensures answer { result ≢ 7 → IsAnswered (task_of (map (λ w. string_bytes w) words.now)) (I.left input.old) (Rose (I.faults input.old) (I.faults input.new)) (Rose (K.faults output.old) (K.faults output.new)) (K.taken output.old) (K.taken output.new) result }
    ensures complete { ¬ Rose (I.faults input.old) (I.faults input.new) → ¬ Rose (K.faults output.old) (K.faults output.new) → result ≢ 7 → IsAnswered (task_of (map (λ w. string_bytes w) words.now)) (I.left input.old) ⊥ ⊥ (K.taken output.old) (K.taken output.new) result }

    // What each status means.
    ensures unknown { task_of (map (λ w. string_bytes w) words.now) ≡ None → (result ≡ 2) ⊎ (result ≡ 6) }
    ensures known { result ≡ 2 → task_of (map (λ w. string_bytes w) words.now) ≡ None }
    ensures met { result ≡ 0 → Has (Within IsMet) (Unit {0}) (task_of (map (λ w. string_bytes w) words.now)) (I.left input.old) }
    ensures unmet { result ≡ 1 → Has (Within IsUnmet) ⊥ (task_of (map (λ w. string_bytes w) words.now)) (I.left input.old) }
    ensures fault { result ≡ 3 → Has (Within IsFaulty) ⊥ (task_of (map (λ w. string_bytes w) words.now)) (I.left input.old) }
    ensures limit { result ≡ 4 → Has IsTooMuch ⊥ (task_of (map (λ w. string_bytes w) words.now)) (I.left input.old) }
    ensures unread { result ≡ 5 → Rose (I.faults input.old) (I.faults input.new) }
    ensures unwritten { result ≡ 6 → Rose (K.faults output.old) (K.faults output.new) }
    ensures memory { result ≡ 7 → IsSome (task_of (map (λ w. string_bytes w) words.now)) × Keeps (K.taken output.old) (K.taken output.new) }

    // When each status comes, where the text is told, no device failed and memory was enough.
    ensures when_met { Shows (Within IsMet) (Unit {0}) (task_of (map (λ w. string_bytes w) words.now)) (I.left input.old) → ¬ Rose (I.faults input.old) (I.faults input.new) → ¬ Rose (K.faults output.old) (K.faults output.new) → result ≢ 7 → result ≡ 0 }
    ensures when_unmet { Shows (Within IsUnmet) ⊥ (task_of (map (λ w. string_bytes w) words.now)) (I.left input.old) → ¬ Rose (I.faults input.old) (I.faults input.new) → ¬ Rose (K.faults output.old) (K.faults output.new) → result ≢ 7 → result ≡ 1 }
    ensures when_faulty { Shows (Within IsFaulty) ⊥ (task_of (map (λ w. string_bytes w) words.now)) (I.left input.old) → ¬ Rose (I.faults input.old) (I.faults input.new) → ¬ Rose (K.faults output.old) (K.faults output.new) → result ≢ 7 → result ≡ 3 }
    ensures when_too_much { Shows IsTooMuch ⊥ (task_of (map (λ w. string_bytes w) words.now)) (I.left input.old) → ¬ Rose (I.faults input.old) (I.faults input.new) → ¬ Rose (K.faults output.old) (K.faults output.new) → result ≢ 7 → result ≡ 4 }

    // What `upgrade` writes is checked as what it read.
    ensures alike { task_of (map (λ w. string_bytes w) words.now) ≡ Some (Task.OnText Command.Upgrade) → result ≡ 0 → AreCheckedAlike (I.left input.old) (K.taken output.old) (K.taken output.new) }

    // What `range` writes: where the prices lie that clear, which of them do, that no bidder is worse off than with what it owns, and what all trades bring.
    ensures between { task_of (map (λ w. string_bytes w) words.now) ≡ Some (Task.OnText Command.Range) → result ≡ 0 → WritesRange LieBetween (I.left input.old) (K.taken output.old) (K.taken output.new) }
    ensures clears { task_of (map (λ w. string_bytes w) words.now) ≡ Some (Task.OnText Command.Range) → result ≡ 0 → WritesRange ClearWhereAsLow (I.left input.old) (K.taken output.old) (K.taken output.new) }
    ensures no_worse { task_of (map (λ w. string_bytes w) words.now) ≡ Some (Task.OnText Command.Range) → result ≡ 0 → WritesRange AreNoWorse (I.left input.old) (K.taken output.old) (K.taken output.new) }
    ensures receipts { task_of (map (λ w. string_bytes w) words.now) ≡ Some (Task.OnText Command.Range) → result ≡ 0 → WritesRange BringReceipts (I.left input.old) (K.taken output.old) (K.taken output.new) }

    // No fault of a device is passed over.
    ensures quiet_output { result ≢ 6 → K.faults output.new ≡ K.faults output.old }
    ensures quiet_input { result ≢ 5 → result ≢ 6 → I.faults input.new ≡ I.faults input.old }

    // What is taken and what is left of the input.
    ensures taken { TakesAtMost 16777217 (I.left input.old) (I.left input.new) }
    ensures taken_unread { result ≡ 5 → TakesAtMost 16777216 (I.left input.old) (I.left input.new) }
    ensures at_end { Reads (task_of (map (λ w. string_bytes w) words.now)) → (result ≡ 0) ⊎ (result ≡ 1) ⊎ (result ≡ 3) → IsAtEnd (I.left input.new) }
    ensures at_end_or_long { Reads (task_of (map (λ w. string_bytes w) words.now)) → result ≡ 4 → IsAtEnd (I.left input.new) ⊎ IsLonger (I.left input.old) 16777216 }
    ensures untouched { ¬ Reads (task_of (map (λ w. string_bytes w) words.now)) → input.new ≡ input.old }
{
    perform(alloc, Task::asked_by(words), input, output)
}
