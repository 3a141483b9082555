//! Where a run's bytes come from, and where they go.
ghost use Rattle.std.specs.Prelude.{◌≡◌, ◌≤◌, ℕ, List, Bool, false, Option, length, IsTrue, IfOk, OnOk, IfErr};
ghost use Rattle.std.specs.Result.{is_err};
ghost use Rattle.std.specs.Io.KnownBytes.{ReadConsumes, Consumes, IsAtEnd};

pub use schemars::schema::{Failed, Sink, SinkOf};
use std::alloc::{AllocError, Global};
use std::io::{self, ErrorKind, Read};

/// Where bytes come from.
///
/// A call fails exactly where the source has failed in it or before, and then gives no byte.
pub trait Source {
    // The bytes that reads will give from here on, where they are known.
    ghost left: { Self → Option (List ℕ) };

    ghost has_failed: { Self → Bool };

    /// Puts the next bytes at the front of the buffer, and answers how many. They are none for a
    /// buffer that isn't empty only where none are left.
    fn read(&mut self, buf: &mut [u8]) -> Result<usize, Failed>
        ensures within { IfOk result (λ n. n ≤ length buf.new) }
        ensures bytes { ReadConsumes (left self.old) (left self.new) result buf.new }
        ensures failed { is_err result ≡ has_failed self.new }
        ensures stays { IsTrue (has_failed self.old) → IsTrue (has_failed self.new) };
}

/// A reader as a source. A read that a signal interrupts is made again. Once a read has failed, so
/// does each later one.
#[derive(Drop)]
pub struct SourceOf<R> {
    reader: R,
    failed: bool,
}

impl<R: Read> SourceOf<R> {
    /// A source of the bytes that the reader gives.
    pub fn new(reader: R) -> SourceOf<R>
        ensures bytes { ⟦<SourceOf<R> as Source>⟧.left result ≡ R.remaining reader }
        ensures sound { ⟦<SourceOf<R> as Source>⟧.has_failed result ≡ false }
    {
        SourceOf {
            reader,
            failed: false,
        }
    }
}

impl<R: Read> Source for SourceOf<R> {
    ghost left = { λ s. R.remaining s.reader };

    ghost has_failed = { λ s. s.failed };

    fn read(&mut self, buf: &mut [u8]) -> Result<usize, Failed> {
        if self.failed {
            return Err(Failed);
        }
        match read_again(&mut self.reader, buf) {
            Ok(count) => Ok(count),
            Err(_) => {
                self.failed = true;
                Err(Failed)
            }
        }
    }
}

// Reads, and reads again where a signal came first.
fn read_again<R: Read>(reader: &mut R, buf: &mut [u8]) -> io::Result<usize>
    ensures within { IfOk result (λ n. n ≤ length buf.new) }
    ensures bytes { ReadConsumes (R.remaining reader.old) (R.remaining reader.new) result buf.new }
{
    for _ in 0..u64::MAX {
        match reader.read(buf) {
            Err(error) if error.kind() == ErrorKind::Interrupted => {}
            answer => return answer,
        }
    }
    reader.read(buf)
}

/// Why reading all of a source stopped early.
#[derive(Clone, Copy, Debug)]
pub(crate) enum ReadError {
    OutOfMemory,
    Failed,
}

impl From<AllocError> for ReadError {
    ghost use Rattle.schemagen_run.specs.declared.streams.ReadError.TheVariants.{OutOfMemory};

    ghost from_gives = { λ _ e. e ≡ OutOfMemory };

    fn from(_e: AllocError) -> ReadError {
        ReadError::OutOfMemory
    }
}

/// All bytes that the source has left.
pub(crate) fn read_all<S: Source>(alloc: Global, source: &mut S) -> Result<Vec<u8>, ReadError>
    ensures bytes { IfOk result (λ v. Consumes (S.left source.old) (S.left source.new) v.items) }
    ensures end { OnOk result (IsAtEnd (S.left source.new)) }
    ensures sound { OnOk result (S.has_failed source.new ≡ false) }
    ensures failed { IfErr result (λ e. e ≡ ReadError.Failed → IsTrue (S.has_failed source.new)) }
    ensures memory { IfErr result (λ e. e ≡ ReadError.OutOfMemory
        → S.has_failed source.new ≡ false) }
{
    let mut all = Vec::new(alloc);
    let mut buf = [0u8; 4096];
    for _ in 0..u64::MAX {
        let Ok(count) = source.read(&mut buf) else {
            return Err(ReadError::Failed);
        };
        if count == 0 {
            return Ok(all);
        }
        all.extend_from_slice(&buf[..count])?;
    }
    // Each read gave a byte, and no memory holds so many.
    Err(ReadError::OutOfMemory)
}
