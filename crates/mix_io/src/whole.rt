// A whole read and a whole write.
ghost use Rattle.std.specs.Prelude.{◌≡◌, ◌≤◌, length, IfOk, OnOk, OnErr, IsErrOf};
ghost use Rattle.std.specs.Io.KnownBytes.{Appends, IsAtEnd};
ghost use Rattle.mix_io.specs.Causes.{HasCause, Rose};
ghost use Rattle.mix_io.specs.Given.{AppendsPrefix, AreAll, IsLonger};
ghost use Rattle.mix_io.specs.Taken.{TakesFor};

use crate::ends::{Sink, Source};
use mix_num::MOST_BYTES;
use std::alloc::Global;
use thiserror::Error;

/// Why a whole read gives no bytes.
#[derive(Clone, Copy, PartialEq, Eq, Debug, Error)]
pub enum ReadRefused {
    #[error("a read failed")]
    ReadFault,
    #[error("there are more bytes than the limit")]
    TooLong,
    #[error("out of memory")]
    Memory,
}

/// A whole write failed.
#[derive(Clone, Copy, Debug, PartialEq, Eq)]
pub struct WriteFault;

// How many bytes are asked for at once.
const CHUNK: usize = 4096;

/// Reads to the end, and gives all bytes: at most `limit`, which is at most [`MOST_BYTES`].
///
/// `ReadFault` comes at the first call that fails, and only where the count of faults rose. `TooLong` comes exactly
/// where `limit + 1` bytes were given before the end and before a fault; no more are asked for. `Memory` means that
/// memory was wanted and not there. After each of them the bytes taken are gone from the source.
pub fn read_all<S: Source>(
    alloc: Global,
    source: &mut S,
    limit: usize,
) -> Result<Vec<u8>, ReadRefused>
    requires { limit ≤ MOST_BYTES }
    ensures all { IfOk result (λ bytes. AreAll (S.left source.old) bytes.items) }
    ensures short { IfOk result (λ bytes. length bytes.items ≤ limit) }
    ensures end { OnOk result (IsAtEnd (S.left source.new)) }
    ensures long { IsErrOf result ReadRefused.TooLong → IsLonger (S.left source.old) limit }

    // What is taken, and how much, at each answer.
    ensures taken { TakesFor result limit (S.left source.old) (S.left source.new) }

    // The count of faults stays, but where a fault is answered.
    ensures later { S.faults source.old ≤ S.faults source.new }
    ensures fault { IsErrOf result ReadRefused.ReadFault
        → Rose (S.faults source.old) (S.faults source.new) }
    ensures kept { OnOk result (S.faults source.new ≡ S.faults source.old) }
    ensures kept_long { IsErrOf result ReadRefused.TooLong
        → S.faults source.new ≡ S.faults source.old }
    ensures kept_memory { IsErrOf result ReadRefused.Memory
        → S.faults source.new ≡ S.faults source.old }
{
    let mut bytes = Vec::new(alloc);
    let mut chunk = [0; CHUNK];
    loop {
        // One byte past the limit shows that there are too many.
        let wanted = CHUNK.min(limit + 1 - bytes.len());
        let Ok(count) = source.read(&mut chunk[..wanted]) else {
            return Err(ReadRefused::ReadFault);
        };
        if count == 0 {
            return Ok(bytes);
        }
        if bytes.len() + count > limit {
            return Err(ReadRefused::TooLong);
        }
        if bytes.extend_from_slice(&chunk[..count]).is_err() {
            return Err(ReadRefused::Memory);
        }
    }
}

/// Writes all bytes, and flushes once.
///
/// `WriteFault` comes at the first call that fails, and only where the count of faults rose; then a prefix of the
/// bytes was appended to those that the sink has taken.
pub fn write_all<K: Sink>(sink: &mut K, bytes: &[u8]) -> Result<(), WriteFault>
    ensures whole { OnOk result (Appends (K.taken sink.old) (K.taken sink.new) bytes.now) }
    ensures part { OnErr result (AppendsPrefix (K.taken sink.old) (K.taken sink.new) bytes.now) }
    ensures cause { HasCause (K.faults sink.old) (K.faults sink.new) result }
{
    let mut at = 0;
    while at < bytes.len() {
        let Ok(count) = sink.write(&bytes[at..]) else {
            return Err(WriteFault);
        };
        at += count;
    }
    match sink.flush() {
        Ok(()) => Ok(()),
        Err(_) => Err(WriteFault),
    }
}

#[cfg(test)]
mod tests {
    use super::*;
    use crate::{Failed, MemorySink, MemorySource};
    use std::test::Fail;

    // Gives bytes without end and tells none of them, but counts them.
    #[derive(Drop)]
    struct Endless(usize);

    impl Source for Endless {
        ghost use Rattle.std.specs.Prelude.{None};

        ghost left = { λ _. None };

        ghost faults = { λ _. 0 };

        fn read(&mut self, buf: &mut [u8]) -> Result<usize, Failed> {
            self.0 = self.0.saturating_add(buf.len());
            Ok(buf.len())
        }
    }

    // Takes a byte a call, and counts how often it is flushed.
    #[derive(Drop)]
    struct Flushed(u64);

    impl Sink for Flushed {
        ghost use Rattle.std.specs.Prelude.{None};

        ghost taken = { λ _. None };

        ghost faults = { λ _. 0 };

        fn write(&mut self, piece: &[u8]) -> Result<usize, Failed> {
            Ok(piece.len().min(1))
        }

        fn flush(&mut self) -> Result<(), Failed> {
            self.0 = self.0.saturating_add(1);
            Ok(())
        }
    }

    #[test]
    fn a_text_is_read_and_written(rt: HostRuntime) -> Result<(), Fail> {
        let alloc = rt.alloc();
        let text = b"supply,1,1";
        let mut source = MemorySource::new(text.to_vec(alloc)?, 4, Vec::new(alloc));
        let bytes = read_all(alloc, &mut source, text.len())?;
        let mut sink = MemorySink::new(alloc, 16, 3, Vec::new(alloc))?;
        write_all(&mut sink, &bytes)?;
        assert_eq!(rt; sink.bytes(), text.as_slice());
        Ok(())
    }

    #[test]
    fn the_limit_stops_an_endless_source(rt: HostRuntime) -> Result<(), Fail> {
        let mut source = Endless(0);
        let answer = read_all(rt.alloc(), &mut source, 10_000);
        assert!(rt; matches!(answer, Err(ReadRefused::TooLong)));
        assert_eq!(rt; source.0, 10_001);
        Ok(())
    }

    #[test]
    fn a_whole_write_flushes_once(rt: HostRuntime) -> Result<(), Fail> {
        for text in [b"".as_slice(), b"end"] {
            let mut sink = Flushed(0);
            write_all(&mut sink, text)?;
            assert_eq!(rt; sink.0, 1);
        }
        Ok(())
    }
}
