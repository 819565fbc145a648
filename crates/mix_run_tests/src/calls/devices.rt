// Devices of which one call fails, a source without end, and texts that are cut short.
use crate::calls::outcomes::OUTCOME;
use crate::calls::{AUCTION, gives, words_of};
use mix_io::{Failed, MemorySink, MemorySource, Source};
use mix_run::run;
use std::alloc::Global;
use std::test::Fail;

// Solves the auction from a source that gives 8 bytes a call into a sink that takes 8. The listed calls fail.
fn solved(alloc: Global, reads: Vec<u64>, writes: Vec<u64>) -> Result<(u8, MemorySink), Fail> {
    let words = words_of(alloc, &["solve"])?;
    let mut input = MemorySource::new(AUCTION.to_vec(alloc)?, 8, reads);
    let mut output = MemorySink::new(alloc, 4096, 8, writes)?;
    let status = run(alloc, &words, &mut input, &mut output);
    Ok((status, output))
}

// Of the 104 bytes the thirteenth call gives the last, the fourteenth finds the end, and there is none after it.
#[test]
fn each_read_fails_in_turn(rt: HostRuntime) -> Result<(), Fail> {
    let alloc = rt.alloc();
    for k in 1..=15_u64 {
        let (status, sink) = solved(alloc, vec![in alloc; k]?, Vec::new(alloc))?;
        let (wanted, text) = if k <= 14 {
            (5, b"error,read\n".as_slice())
        } else {
            (0, OUTCOME)
        };
        assert_eq!(rt; status, wanted, "read {k}");
        assert_eq!(rt; sink.bytes(), text, "read {k}");
    }
    Ok(())
}

// Of the 127 bytes the sixteenth call takes the last, the seventeenth flushes, and there is none after it.
#[test]
fn each_write_fails_in_turn(rt: HostRuntime) -> Result<(), Fail> {
    let alloc = rt.alloc();
    for k in 1..=18_usize {
        let (status, sink) = solved(alloc, Vec::new(alloc), vec![in alloc; k as u64]?)?;
        let taken = OUTCOME.len().min(8 * (k - 1));
        assert_eq!(rt; status, if k <= 17 { 6 } else { 0 }, "write {k}");
        assert_eq!(rt; sink.bytes(), &OUTCOME[..taken], "write {k}");
    }
    Ok(())
}

// Gives line feeds without end, and counts them.
#[derive(Drop)]
struct LineFeeds(usize);

impl Source for LineFeeds {
    ghost use Rattle.std.specs.Prelude.{None};

    ghost left = { λ _. None };

    ghost faults = { λ _. 0 };

    fn read(&mut self, buf: &mut [u8]) -> Result<usize, Failed> {
        buf.fill(b'\n');
        self.0 = self.0.saturating_add(buf.len());
        Ok(buf.len())
    }
}

// A source without end gives one byte more than a text may have, and no further one.
#[test]
fn a_source_without_end_is_stopped(rt: HostRuntime) -> Result<(), Fail> {
    let alloc = rt.alloc();
    for word in ["utility", "validate", "prices", "trail", "solve", "check"] {
        let words = words_of(alloc, &[word])?;
        let mut input = LineFeeds(0);
        let mut output = MemorySink::new(alloc, 64, 8, Vec::new(alloc))?;
        let status = run(alloc, &words, &mut input, &mut output);
        assert_eq!(rt; status, 4, "{word}");
        assert_eq!(rt; output.bytes(), b"limit,0,bytes\n".as_slice());
        assert_eq!(rt; input.0, 16_777_217, "{word}");
    }
    Ok(())
}

// The first rows of the auction, from none to all but the last: the fault names the row that would come next.
#[test]
fn cut_texts(rt: HostRuntime) -> Result<(), Fail> {
    let alloc = rt.alloc();
    let mut text = Vec::new(alloc);
    for (count, row) in AUCTION.split_inclusive(|byte| *byte == b'\n').enumerate() {
        let fault = format!(in alloc; "fault,{},end\n", count.saturating_add(1))?;
        assert!(rt;
            gives(alloc, "solve", text.to_vec(alloc)?, 3, fault.as_bytes())?,
            "{count} rows"
        );
        text.extend_from_slice(row)?;
    }
    assert!(rt; gives(alloc, "solve", text, 0, OUTCOME)?);
    Ok(())
}
