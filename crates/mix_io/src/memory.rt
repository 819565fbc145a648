// A source and a sink in memory. Both tell their bytes, and their calls fail where they are told to.
ghost use Rattle.std.specs.Prelude.{◌≡◌, ◌<◌, ◌≤◌, ◌-◌, ◌↔◌, ◌⊎◌, [], ◌++◌, Some, length, take, drop, min, Contains, IsErr, IsTrue, IfOk, OnOk, OnErr};
ghost use Rattle.std.specs.Io.{ReadsAtMost, WritesAtMost};
ghost use Rattle.std.specs.Io.KnownBytes.{Keeps, ReadConsumes, WriteAppends};
ghost use Rattle.mix_io.specs.Causes.{HasCause, next};

use crate::ends::{Failed, Sink, Source};
use mix_num::Memory;
use std::alloc::Global;
use std::marker::Model;

// Counts a call, and says whether it is one of those that fail.
fn is_next_listed(calls: &mut u64, fails: &[u64]) -> bool
    ensures counted { calls.new ≡ next calls.old }
    ensures listed { IsTrue result ↔ Contains fails.now (next calls.old) }
{
    *calls = calls.saturating_add(1);
    fails.contains(calls)
}

/// Bytes in memory, given in pieces.
#[derive(Drop)]
pub struct MemorySource {
    bytes: Vec<u8>,
    at: usize,
    piece: usize,
    fails: Vec<u64>,
    calls: u64,
    faults: u64,
}

impl Model for MemorySource {
    ghost use Rattle.std.specs.Prelude.{◌≤◌, length, drop};
    ghost use Rattle.mix_io.specs.Memory.{SourceInMemory};

    ghost Value = { SourceInMemory };

    ghost view = { λ source. record {
      left = drop source.at source.bytes.items;
      piece = source.piece;
      fails = source.fails.items;
      calls = source.calls;
      faults = source.faults;
    } };

    ghost invariant = { λ source. (source.at ≤ length source.bytes.items) × (1 ≤ source.piece) };
}

impl MemorySource {
    /// A source of `bytes` that gives at most `piece` of them a call.
    ///
    /// The calls of `read` are numbered from 1, and those in `fails` fail.
    pub fn new(bytes: Vec<u8>, piece: usize, fails: Vec<u64>) -> MemorySource
        requires { 1 ≤ piece }
        ensures { result ≡ record {
          left = bytes.items;
          piece = piece;
          fails = fails.items;
          calls = 0;
          faults = 0;
        } }
    {
        MemorySource {
            bytes,
            at: 0,
            piece,
            fails,
            calls: 0,
            faults: 0,
        }
    }
}

impl Source for MemorySource {
    ghost left = { λ source. Some source.left };

    ghost faults = { λ source. source.faults };

    fn read(&mut self, buf: &mut [u8]) -> Result<usize, Failed>
        ensures bound { ReadsAtMost result buf.new }
        ensures bytes { ReadConsumes (Some self.old.left) (Some self.new.left) result buf.new }
        ensures cause { HasCause self.old.faults self.new.faults result }

        // Exactly the calls that are listed fail, and any other gives as much as there is to give.
        ensures listed { IsErr result ↔ Contains self.old.fails (next self.old.calls) }
        ensures count { IfOk result (λ count.
            count ≡ min (min (length self.old.left) (length buf.old)) self.old.piece) }
        ensures ok { IfOk result (λ count. self.new ≡ record self.old {
          left = drop count self.old.left;
          calls = next self.old.calls;
        }) }
        ensures err { OnErr result (self.new ≡ record self.old {
          calls = next self.old.calls;
          faults = next self.old.faults;
        }) }
    {
        if is_next_listed(&mut self.calls, &self.fails) {
            return Err(Failed::counted(&mut self.faults));
        }
        let left = &self.bytes[self.at..];
        let count = left.len().min(buf.len()).min(self.piece);
        buf[..count].copy_from_slice(&left[..count]);
        self.at += count;
        Ok(count)
    }
}

/// Bytes taken into memory in pieces, as long as there is room.
#[derive(Drop)]
pub struct MemorySink {
    bytes: Vec<u8>,
    room: usize,
    piece: usize,
    fails: Vec<u64>,
    calls: u64,
    faults: u64,
}

impl Model for MemorySink {
    ghost use Rattle.std.specs.Prelude.{◌≤◌, ◌+◌, vec_len, vec_capacity};
    ghost use Rattle.mix_io.specs.Memory.{SinkInMemory};

    ghost Value = { SinkInMemory };

    ghost view = { λ sink. record {
      bytes = sink.bytes.items;
      room = sink.room;
      piece = sink.piece;
      fails = sink.fails.items;
      calls = sink.calls;
      faults = sink.faults;
    } };

    ghost invariant = { λ sink.
        (vec_len sink.bytes + sink.room ≤ vec_capacity sink.bytes) × (1 ≤ sink.piece) };
}

impl MemorySink {
    /// A sink with room for `room` bytes, which it takes at once, and at most `piece` bytes a call.
    ///
    /// The calls of `write` and `flush` are numbered together from 1, and those in `fails` fail, as does a write with
    /// no room left. `Memory` means that the room wasn't to be had.
    pub fn new(
        alloc: Global,
        room: usize,
        piece: usize,
        fails: Vec<u64>,
    ) -> Result<MemorySink, Memory>
        requires { 1 ≤ piece }
        ensures { IfOk result (λ sink. sink ≡ record {
          bytes = [];
          room = room;
          piece = piece;
          fails = fails.items;
          calls = 0;
          faults = 0;
        }) }
    {
        let bytes = Vec::with_capacity(alloc, room)?;
        Ok(MemorySink {
            bytes,
            room,
            piece,
            fails,
            calls: 0,
            faults: 0,
        })
    }

    /// The bytes taken.
    pub fn bytes(&self) -> &[u8]
        ensures { result.now ≡ self.now.bytes }
    {
        &self.bytes
    }
}

impl Sink for MemorySink {
    ghost taken = { λ sink. Some sink.bytes };

    ghost faults = { λ sink. sink.faults };

    fn write(&mut self, piece: &[u8]) -> Result<usize, Failed>
        ensures bound { WritesAtMost result piece.now }
        ensures some { 0 < length piece.now → IfOk result (λ count. 0 < count) }
        ensures bytes { WriteAppends (Some self.old.bytes) (Some self.new.bytes) result piece.now }
        ensures cause { HasCause self.old.faults self.new.faults result }

        // Exactly the calls that are listed fail, and those that find no room. Any other takes as much as it may.
        ensures fails { IsErr result ↔ (Contains self.old.fails (next self.old.calls)
            ⊎ ((0 < length piece.now) × (self.old.room ≡ 0))) }
        ensures count { IfOk result (λ count.
            count ≡ min (min (length piece.now) self.old.piece) self.old.room) }
        ensures ok { IfOk result (λ count. self.new ≡ record self.old {
          bytes = self.old.bytes ++ take count piece.now;
          room = self.old.room - count;
          calls = next self.old.calls;
        }) }
        ensures err { OnErr result (self.new ≡ record self.old {
          calls = next self.old.calls;
          faults = next self.old.faults;
        }) }
    {
        let count = piece.len().min(self.piece).min(self.room);
        if is_next_listed(&mut self.calls, &self.fails) || (count == 0 && !piece.is_empty()) {
            return Err(Failed::counted(&mut self.faults));
        }
        let Ok(()) = self.bytes.extend_from_slice(&piece[..count]) else {
            unreachable!()
        };
        self.room -= count;
        Ok(count)
    }

    fn flush(&mut self) -> Result<(), Failed>
        ensures bytes { Keeps (Some self.old.bytes) (Some self.new.bytes) }
        ensures cause { HasCause self.old.faults self.new.faults result }

        // Exactly the calls that are listed fail.
        ensures listed { IsErr result ↔ Contains self.old.fails (next self.old.calls) }
        ensures ok { OnOk result (self.new ≡ record self.old { calls = next self.old.calls }) }
        ensures err { OnErr result (self.new ≡ record self.old {
          calls = next self.old.calls;
          faults = next self.old.faults;
        }) }
    {
        if is_next_listed(&mut self.calls, &self.fails) {
            return Err(Failed::counted(&mut self.faults));
        }
        Ok(())
    }
}

#[cfg(test)]
mod tests {
    use super::*;
    use std::test::Fail;

    type Answers = [Result<usize, Failed>; 4];

    const NO: Result<usize, Failed> = Err(Failed);

    // Five bytes are read into a buffer of three, and "abc" is written again and again into a room of four.
    #[test]
    fn calls_give_and_take_pieces(rt: HostRuntime) -> Result<(), Fail> {
        let alloc = rt.alloc();
        let table: [(usize, &[u64], Answers, Answers); 3] = [
            (9, &[], [Ok(3), Ok(2), Ok(0), Ok(0)], [Ok(3), Ok(1), NO, NO]),
            (
                2,
                &[2, 5],
                [Ok(2), NO, Ok(2), Ok(1)],
                [Ok(2), NO, Ok(2), NO],
            ),
            (1, &[1, 3], [NO, Ok(1), NO, Ok(1)], [NO, Ok(1), NO, Ok(1)]),
        ];
        for (piece, fails, reads, writes) in table {
            assert!(rt; piece >= 1);
            let mut source = MemorySource::new(
                b"abcde".to_vec(alloc)?,
                piece,
                fails.to_vec(alloc)?,
            );
            for wanted in reads {
                assert_eq!(rt; source.read(&mut [0; 3]), wanted, "piece {piece}");
            }
            let mut sink = MemorySink::new(alloc, 4, piece, fails.to_vec(alloc)?)?;
            for wanted in writes {
                assert_eq!(rt; sink.write(b"abc"), wanted, "piece {piece}");
            }
            assert_eq!(rt; sink.flush().is_err(), fails.contains(&5));
        }
        Ok(())
    }
}
