// A source over any reader, and a sink over any writer.
ghost use Rattle.std.specs.Prelude.{◌≡◌, ◌<◌, ◌↔◌, ◌⊎◌, [], Ok, IsOk, IsOkAnd, IfOk, OnErr};
ghost use Rattle.mix_io.specs.Causes.{next, HasCause};

use crate::ends::{Failed, Sink, Source};
use std::io::{Read, Write};

// Hands on an answer, and counts a fault exactly where it is none.
fn answered<T, E: Drop>(answer: Result<T, E>, faults: &mut u64) -> Result<T, Failed>
    ensures ok { IsOk result ↔ IsOk answer }
    ensures value { IfOk result (λ value. answer ≡ Ok value) }
    ensures cause { HasCause faults.old faults.new result }
    ensures raised { OnErr result (faults.new ≡ next faults.old) }
{
    match answer {
        Ok(value) => Ok(value),
        Err(_) => Err(Failed::counted(faults)),
    }
}

// The answer to a write, which fails also where it takes nothing of a piece that isn't empty.
fn some_taken<E: Drop>(answer: Result<usize, E>, piece: &[u8]) -> Result<usize, Failed>
    ensures ok { IsOk result ↔ IsOkAnd answer (λ count. (0 < count) ⊎ (piece.now ≡ [])) }
    ensures value { IfOk result (λ count. answer ≡ Ok count) }
{
    match answer {
        Ok(count) if count > 0 || piece.is_empty() => Ok(count),
        _ => Err(Failed),
    }
}

/// A source over a reader. It tells the bytes that the reader tells, and counts each `Err`, an interrupted call among
/// them.
#[derive(Drop)]
pub struct StdSource<R: Read> {
    inner: R,
    faults: u64,
}

impl<R: Read> StdSource<R> {
    /// A source over `inner`, with no fault so far.
    pub fn new(inner: R) -> StdSource<R>
        ensures left { ⟦<StdSource<R> as Source>⟧.left result ≡ R.remaining inner }
        ensures faults { ⟦<StdSource<R> as Source>⟧.faults result ≡ 0 }
    {
        StdSource { inner, faults: 0 }
    }
}

impl<R: Read> Source for StdSource<R> {
    ghost left = { λ source. R.remaining source.inner };

    ghost faults = { λ source. source.faults };

    fn read(&mut self, buf: &mut [u8]) -> Result<usize, Failed> {
        answered(self.inner.read(buf), &mut self.faults)
    }
}

/// A sink over a writer. It tells the bytes that the writer tells, and counts each `Err`, an interrupted call among
/// them, and each write that takes nothing of a piece that isn't empty.
#[derive(Drop)]
pub struct StdSink<W: Write> {
    inner: W,
    faults: u64,
}

impl<W: Write> StdSink<W> {
    /// A sink over `inner`, with no fault so far.
    pub fn new(inner: W) -> StdSink<W>
        ensures taken { ⟦<StdSink<W> as Sink>⟧.taken result ≡ W.contents inner }
        ensures faults { ⟦<StdSink<W> as Sink>⟧.faults result ≡ 0 }
    {
        StdSink { inner, faults: 0 }
    }
}

impl<W: Write> Sink for StdSink<W> {
    ghost taken = { λ sink. W.contents sink.inner };

    ghost faults = { λ sink. sink.faults };

    fn write(&mut self, piece: &[u8]) -> Result<usize, Failed> {
        answered(some_taken(self.inner.write(piece), piece), &mut self.faults)
    }

    fn flush(&mut self) -> Result<(), Failed> {
        answered(self.inner.flush(), &mut self.faults)
    }
}

#[cfg(test)]
mod tests {
    use super::*;
    use std::io;
    use std::io::ErrorKind;
    use std::test::Fail;

    // Gives "ab" at the first and at the third call, is interrupted at the second, and ends then.
    #[derive(Drop)]
    struct Interrupted(u8);

    impl Read for Interrupted {
        fn read(&mut self, buf: &mut [u8]) -> io::Result<usize> {
            self.0 = self.0.saturating_add(1);
            match self.0 {
                2 => Err(io::Error::from(ErrorKind::Interrupted)),
                1 | 3 => {
                    let count = buf.len().min(2);
                    buf[..count].copy_from_slice(&b"ab"[..count]);
                    Ok(count)
                }
                _ => Ok(0),
            }
        }
    }

    // Has room for so many bytes, and can't be flushed.
    #[derive(Drop)]
    struct Narrow(usize);

    impl Write for Narrow {
        fn write(&mut self, piece: &[u8]) -> io::Result<usize> {
            let count = piece.len().min(self.0);
            self.0 -= count;
            Ok(count)
        }

        fn flush(&mut self) -> io::Result<()> {
            Err(io::Error::from(ErrorKind::BrokenPipe))
        }
    }

    // Gives or takes at most so many bytes a call, and never fails.
    #[derive(Drop)]
    struct Willing(usize);

    impl Read for Willing {
        fn read(&mut self, buf: &mut [u8]) -> io::Result<usize> {
            Ok(buf.len().min(self.0))
        }
    }

    impl Write for Willing {
        fn write(&mut self, piece: &[u8]) -> io::Result<usize> {
            Ok(piece.len().min(self.0))
        }

        fn flush(&mut self) -> io::Result<()> {
            Ok(())
        }
    }

    #[test]
    fn no_fault_is_counted_where_none_came(rt: HostRuntime) -> Result<(), Fail> {
        let sizes = [1, 64, 4_095, 4_096, 100_000];
        for most in sizes {
            let mut source = StdSource::new(Willing(most));
            let mut sink = StdSink::new(Willing(most));
            for size in sizes {
                let mut bytes = vec![in rt.alloc(); 0; size]?;
                assert_eq!(rt; source.read(&mut bytes), Ok(size.min(most)));
                assert_eq!(rt; sink.write(&bytes), Ok(size.min(most)));
                assert_eq!(rt; sink.flush(), Ok(()));
            }
            assert_eq!(rt; source.faults, 0, "{most} bytes a call");
            assert_eq!(rt; sink.faults, 0, "{most} bytes a call");
        }
        Ok(())
    }

    #[test]
    fn a_source_counts_what_its_reader_fails(rt: HostRuntime) -> Result<(), Fail> {
        let mut source = StdSource::new(Interrupted(0));
        let mut buf = [0; 4];
        for (wanted, faults) in [(Ok(2), 0), (Err(Failed), 1), (Ok(2), 1), (Ok(0), 1)] {
            assert_eq!(rt; source.read(&mut buf), wanted);
            assert_eq!(rt; source.faults, faults);
        }
        assert_eq!(rt; buf, *b"ab\0\0");
        Ok(())
    }

    #[test]
    fn a_sink_counts_what_its_writer_fails(rt: HostRuntime) -> Result<(), Fail> {
        let mut sink = StdSink::new(Narrow(3));
        for (wanted, faults) in [(Ok(2), 0), (Ok(1), 0), (Err(Failed), 1)] {
            assert_eq!(rt; sink.write(b"ab"), wanted);
            assert_eq!(rt; sink.faults, faults);
        }
        assert_eq!(rt; sink.write(b""), Ok(0));
        assert_eq!(rt; sink.flush(), Err(Failed));
        assert_eq!(rt; sink.faults, 2);
        Ok(())
    }
}
