//! Sources and sinks that fail.
use crate::expect::words_of;
use crate::narrow::Narrow;
use schemagen_run::fault::Fault;
use schemagen_run::run::run;
use schemagen_run::streams::{Sink, SinkOf, Source, SourceOf};
use std::alloc::Global;
use std::io;
use std::io::{Error, ErrorKind, Read, Write};
use std::process::Abort;
use std::test::Fail;

const ANY: &[u8] = br#"{"types":[{"id":"t","name":"T","inline":true,"shape":"any"}],"root":0}"#;

const LINE: &[u8] =
    b"{\"$schema\":\"https://json-schema.org/draft/2020-12/schema\",\"title\":\"T\"}\n";

// How many bytes a call moves at most, how many calls go well, and whether a sink then fails or
// takes none.
#[derive(Clone, Copy)]
struct Calls {
    block: usize,
    reads: usize,
    writes: usize,
    fails: bool,
}

// Gives a block a call, and fails once the calls are used up.
#[derive(Drop)]
struct Trickle<'a> {
    left: &'a [u8],
    block: usize,
    calls: usize,
}

impl Read for Trickle<'_> {
    fn read(&mut self, buf: &mut [u8]) -> io::Result<usize> {
        if self.calls == 0 {
            return Err(Error::from(ErrorKind::BrokenPipe));
        }
        self.calls -= 1;
        let count = buf.len().min(self.block).min(self.left.len());
        buf[..count].copy_from_slice(&self.left[..count]);
        self.left = &self.left[count..];
        Ok(count)
    }
}

fn trickle_of(calls: Calls) -> Trickle<'static> {
    Trickle {
        left: ANY,
        block: calls.block,
        calls: calls.reads,
    }
}

// How a run ends over such streams.
fn ended(alloc: Global, words: &[String], calls: Calls, narrow: &mut Narrow) -> Result<(), Fault> {
    let mut source = SourceOf::new(trickle_of(calls));
    let mut sink = SinkOf::new(narrow);
    run(alloc, words, &mut source, &mut sink)?;
    Ok(())
}

// Whether a run over such streams ends in this way, with as many bytes of the line taken.
fn ends(
    alloc: Global,
    words: &[String],
    calls: Calls,
    end: Result<(), Fault>,
    taken: usize,
) -> bool {
    let mut narrow = Narrow::new(alloc, calls.block, calls.writes, calls.fails);
    let result = ended(alloc, words, calls, &mut narrow);
    result == end && narrow.taken.len() == taken && LINE.starts_with(&narrow.taken)
}

// Sizes of blocks, how many calls read the input to its end, and how many write the line.
const BLOCKS: [(usize, usize, usize); 3] = [(1, 71, 71), (7, 11, 11), (4096, 2, 2)];

fn calls_of(block: usize, reads: usize, writes: usize, fails: bool) -> Calls {
    Calls {
        block,
        reads,
        writes,
        fails,
    }
}

#[test]
fn failed_sources_are_told(rt: HostRuntime) -> Result<(), Fail> {
    let words = words_of(rt.alloc(), &["types", "2020-12"])?;
    for (block, all, _) in BLOCKS {
        for reads in 0..all {
            let calls = calls_of(block, reads, 1000, true);
            assert!(rt; ends(rt.alloc(), &words, calls, Err(Fault::Refused(23)), 0));
        }
        let calls = calls_of(block, all, 1000, true);
        assert!(rt; ends(rt.alloc(), &words, calls, Ok(()), LINE.len()));
    }
    Ok(())
}

// The newline is the last write.
fn expect_failed_sinks(rt: &impl Abort, alloc: Global, words: &[String], fails: bool) {
    for (block, _, all) in BLOCKS {
        for writes in 0..all {
            let calls = calls_of(block, 1000, writes, fails);
            let taken = block
                .saturating_mul(writes)
                .min(LINE.len().saturating_sub(1));
            assert!(rt; ends(alloc, words, calls, Err(Fault::Refused(24)), taken));
        }
        let calls = calls_of(block, 1000, all, fails);
        assert!(rt; ends(alloc, words, calls, Ok(()), LINE.len()));
    }
}

#[test]
fn failed_sinks_are_told(rt: HostRuntime) -> Result<(), Fail> {
    let words = words_of(rt.alloc(), &["types", "2020-12"])?;
    expect_failed_sinks(&rt, rt.alloc(), &words, true);
    expect_failed_sinks(&rt, rt.alloc(), &words, false);
    Ok(())
}

#[test]
fn streams_stay_failed(rt: HostRuntime) {
    let mut source = SourceOf::new(Trickle {
        left: ANY,
        block: 1,
        calls: 0,
    });
    let mut buf = [0u8; 8];
    assert!(rt; source.read(&mut buf).is_err());
    assert!(rt; source.read(&mut buf).is_err());
    let mut sink = SinkOf::new(Narrow::new(rt.alloc(), 1, 0, false));
    assert!(rt; sink.write(b"a").is_err());
    assert!(rt; sink.write(b"").is_err());
}

// A signal comes first three times, and then before every other call.
#[derive(Drop)]
struct Interrupted<T> {
    stream: T,
    signals: usize,
    seen: usize,
}

impl<T> Interrupted<T> {
    fn new(stream: T) -> Interrupted<T> {
        Interrupted {
            stream,
            signals: 3,
            seen: 0,
        }
    }

    // Whether a signal comes before this call.
    fn is_interrupted(&mut self) -> bool {
        if self.signals == 0 {
            self.signals = 1;
            return false;
        }
        self.signals -= 1;
        self.seen = self.seen.saturating_add(1);
        true
    }
}

impl<R: Read> Read for Interrupted<R> {
    fn read(&mut self, buf: &mut [u8]) -> io::Result<usize> {
        if self.is_interrupted() {
            return Err(Error::from(ErrorKind::Interrupted));
        }
        self.stream.read(buf)
    }
}

impl<W: Write> Write for Interrupted<W> {
    fn write(&mut self, buf: &[u8]) -> io::Result<usize> {
        if self.is_interrupted() {
            return Err(Error::from(ErrorKind::Interrupted));
        }
        self.stream.write(buf)
    }

    fn flush(&mut self) -> io::Result<()> {
        self.stream.flush()
    }
}

// How a run over interrupted streams of these calls ends, and how many signals came before reads
// and before writes.
fn signals_of(
    alloc: Global,
    words: &[String],
    calls: Calls,
    narrow: &mut Narrow,
) -> (Result<(), Fault>, usize, usize) {
    let mut reader = Interrupted::new(trickle_of(calls));
    let mut writer = Interrupted::new(narrow);
    let result = match run(
        alloc,
        words,
        &mut SourceOf::new(&mut reader),
        &mut SinkOf::new(&mut writer),
    ) {
        Ok(_) => Ok(()),
        Err(fault) => Err(fault),
    };
    (result, reader.seen, writer.seen)
}

// Two more signals come than there are calls.
#[test]
fn interrupted_calls_are_made_again(rt: HostRuntime) -> Result<(), Fail> {
    let words = words_of(rt.alloc(), &["types", "2020-12"])?;
    for (block, reads, writes) in BLOCKS {
        let calls = calls_of(block, reads, writes, true);
        let mut narrow = Narrow::new(rt.alloc(), block, writes, true);
        let (result, before_reads, before_writes) = signals_of(
            rt.alloc(),
            &words,
            calls,
            &mut narrow,
        );
        assert_eq!(rt; result, Ok(()));
        assert!(rt; narrow.taken.as_slice() == LINE);
        assert_eq!(rt; before_reads, reads.saturating_add(2));
        assert_eq!(rt; before_writes, writes.saturating_add(2));
    }
    Ok(())
}
