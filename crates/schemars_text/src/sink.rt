//! Where the bytes of a text go.
ghost use Rattle.std.specs.Prelude.{◌≡◌, ◌<◌, ◌≤◌, ℕ, List, Bool, false, Option, length, IsTrue, IfOk, OnOk, OnErr};
ghost use Rattle.schemars_text.specs.Words.{is_err, WriteAppends, Appends, AppendsBeginning};

use std::io::{self, ErrorKind, Write};

/// A source or a sink has failed.
#[derive(Clone, Copy, Debug)]
pub struct Failed;

/// Where bytes go.
///
/// A call fails exactly where the sink has failed in it or before, and then adds no byte.
pub trait Sink {
    // The bytes that the sink holds, where they are known.
    ghost bytes: { Self → Option (List ℕ) };

    ghost has_failed: { Self → Bool };

    /// Takes bytes from the front of the buffer, and answers how many: at least one, if there are
    /// any.
    fn write(&mut self, buf: &[u8]) -> Result<usize, Failed>
        ensures within { IfOk result (λ n. n ≤ length buf.now) }
        ensures some { IfOk result (λ n. 0 < length buf.now → 0 < n) }
        ensures bytes { WriteAppends (bytes self.old) (bytes self.new) result buf.now }
        ensures failed { is_err result ≡ has_failed self.new }
        ensures stays { IsTrue (has_failed self.old) → IsTrue (has_failed self.new) };
}

/// A writer as a sink. A write that a signal interrupts is made again. Any other error is a
/// failure, and so is a write that takes no byte. Once a write has failed, so does each later one.
#[derive(Drop)]
pub struct SinkOf<W> {
    writer: W,
    failed: bool,
}

impl<W: Write> SinkOf<W> {
    /// A sink that hands its bytes to the writer.
    pub fn new(writer: W) -> SinkOf<W>
        ensures bytes { ⟦<SinkOf<W> as Sink>⟧.bytes result ≡ W.contents writer }
        ensures sound { ⟦<SinkOf<W> as Sink>⟧.has_failed result ≡ false }
    {
        let failed = false;
        SinkOf { writer, failed }
    }
}

impl<W: Write> Sink for SinkOf<W> {
    ghost bytes = { λ s. W.contents s.writer };

    ghost has_failed = { λ s. s.failed };

    fn write(&mut self, buf: &[u8]) -> Result<usize, Failed> {
        if self.failed {
            return Err(Failed);
        }
        match write_again(&mut self.writer, buf) {
            Ok(count) if count > 0 || buf.is_empty() => Ok(count),
            _ => {
                self.failed = true;
                Err(Failed)
            }
        }
    }
}

// Writes, and writes again where a signal came first.
fn write_again<W: Write>(writer: &mut W, buf: &[u8]) -> io::Result<usize>
    ensures within { IfOk result (λ n. n ≤ length buf.now) }
    ensures bytes { WriteAppends (W.contents writer.old) (W.contents writer.new) result buf.now }
{
    for _ in 0..u64::MAX {
        match writer.write(buf) {
            Err(error) if error.kind() == ErrorKind::Interrupted => {}
            answer => return answer,
        }
    }
    writer.write(buf)
}

/// Hands all bytes to the sink. Where it fails, a beginning of them has been taken.
pub fn write_all<K: Sink>(sink: &mut K, bytes: &[u8]) -> Result<(), Failed>
    ensures bytes { OnOk result (Appends (K.bytes sink.old) (K.bytes sink.new) bytes.now) }
    ensures beginning { OnErr result
        (AppendsBeginning (K.bytes sink.old) (K.bytes sink.new) bytes.now) }
    ensures failed { OnErr result (IsTrue (K.has_failed sink.new)) }
    ensures sound { OnOk result (0 < length bytes.now → K.has_failed sink.new ≡ false) }
{
    let mut rest = bytes;
    while !rest.is_empty() {
        let count = sink.write(rest)?;
        rest = &rest[count..];
    }
    Ok(())
}
