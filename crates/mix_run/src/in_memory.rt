// The reply to words and a text in memory, where no device is read or written.
ghost use Rattle.std.specs.Prelude.{◌≡◌, ◌<◌, [], Some, length, IfOk};
ghost use Rattle.mix_run.specs.Replies.{output_of};
ghost use Rattle.mix_run.specs.Calls.{IsAnswered, IsOutput, IsWanted};
ghost use Rattle.mix_run.specs.command.Trial.{IsTrialing};
ghost use Rattle.mix_run.specs.Words.{task_of, words_in};

use crate::command::trial::trial_text;
use crate::device::{DONE, MOST_BYTES, TOO_LONG, UNKNOWN_WORDS, reply};
use crate::reply::Reply;
use crate::words::{Command, Task};
use mix_num::Memory;
use std::alloc::Global;

// A reply of these bytes.
fn reply_with(alloc: Global, status: u8, bytes: &[u8]) -> Result<Reply, Memory>
    ensures { IfOk result (λ reply. output_of reply ≡ record { status = status; bytes = bytes.now }) }
{
    let Ok(bytes) = bytes.to_vec(alloc) else {
        return Err(Memory);
    };
    Ok(Reply { status, bytes })
}

// The reply of the command to a text of any length.
#[tactic(auto, using(crate::proofs::InMemory::too_long_ok))]
fn reply_at_any_length(alloc: Global, command: Command, text: &[u8]) -> Result<Reply, Memory>
    ensures output { IfOk result (λ reply. IsOutput command text.now (output_of reply)) }
    ensures status { IfOk result (λ reply. reply.status < 5) }
{
    if text.len() > MOST_BYTES {
        return reply_with(alloc, TOO_LONG, b"limit,0,bytes\n");
    }
    reply(alloc, command, text)
}

// The summary of the trial auction of a number, as a reply.
fn trial_reply(alloc: Global, number: u64) -> Result<Reply, Memory>
    ensures output { IfOk result (λ reply. IsTrialing number (output_of reply)) }
    ensures status { IfOk result (λ reply. reply.status ≡ 0) }
{
    let bytes = trial_text(alloc, number)?;
    Ok(Reply {
        status: DONE,
        bytes,
    })
}

// The reply to a task; None is that of words which ask for nothing that is known.
#[tactic(auto, using(crate::proofs::InMemory::wanted_of_text, crate::proofs::InMemory::wanted_of_trial))]
fn reply_of(alloc: Global, task: Option<Task>, text: &[u8]) -> Result<Reply, Memory>
    ensures status { IfOk result (λ reply. reply.status < 5) }
    ensures wanted { IfOk result (λ reply. IsWanted task (Some text.now) ⊥ (output_of reply)) }
{
    match task {
        Some(Task::OnText(command)) => reply_at_any_length(alloc, command, text),
        Some(Task::Trial(number)) => trial_reply(alloc, number),
        None => reply_with(alloc, UNKNOWN_WORDS, b"error,words\n"),
    }
}

/// The reply to words and a text in memory: the bytes that `run` writes of them where no device fails, and its status.
///
/// The words stand in one text, the second after the first blank. `Memory` comes where `run` has the status 7; 5 and 6 don't come.
#[tactic(auto, using(crate::proofs::InMemory::answered))]
pub fn reply_to(alloc: Global, words: &[u8], text: &[u8]) -> Result<Reply, Memory>
    ensures status { IfOk result (λ reply. reply.status < 5) }
    ensures answer { IfOk result (λ reply. IsAnswered (task_of (words_in words.now)) (Some text.now) ⊥ ⊥ (Some []) (Some reply.bytes.items) reply.status) }
{
    reply_of(alloc, Task::asked_in(words), text)
}
