//! What a run writes.
ghost use Rattle.std.specs.Prelude.{◌≡◌, ◌≢◌, Err, IsTrue, IfErr, OnOk, [], ◌∷◌, false};
ghost use Rattle.schemagen_run.specs.Vocabulary.{IsSent, IsSentInPart, output_has_float, output_text, IsOutputLine, WritesLine};

use crate::fault::{Fault, WRITE};
use crate::streams::{Failed, Sink};
use schemars::Schema;
use schemars::schema::OrderedError;
use schemars_text::sink::write_all;

/// What a run has made, whose text it has written.
#[derive(Drop)]
pub enum Output {
    Document(Schema),
    Text(String),
}

/// Writes the text of an output, and a newline, and returns the output.
pub(crate) fn write_output<K: Sink>(output: Output, sink: &mut K) -> Result<Output, Fault>
    ensures written { WritesLine K.bytes K.has_failed (IsOutputLine output) result
        sink.old sink.new }
    ensures fault { IfErr result (λ e. e ≡ Fault.Refused WRITE) }
{
    write_line_of(&output, sink)?;
    Ok(output)
}

// Writes the text of an output, and a newline.
fn write_line_of<K: Sink>(output: &Output, sink: &mut K) -> Result<(), Fault>
    ensures written { WritesLine K.bytes K.has_failed (IsOutputLine output.now) result
        sink.old sink.new }
    ensures fault { IfErr result (λ e. e ≡ Fault.Refused WRITE) }
{
    write_text(output, sink)?;
    end_line(sink)
}

// Writes the text of an output.
fn write_text<K: Sink>(output: &Output, sink: &mut K) -> Result<(), OrderedError>
    ensures written { OnOk result
        (IsSent (output_has_float output.now) (output_text output.now) (K.bytes sink.old)
        (K.bytes sink.new) (K.has_failed sink.new)) }
    ensures beginning { result ≡ Err OrderedError.Write
        → IsSentInPart (output_has_float output.now) (output_text output.now)
        (K.bytes sink.old) (K.bytes sink.new) }
    ensures failed { result ≡ Err OrderedError.Write → IsTrue (K.has_failed sink.new) }
    ensures memory { result ≢ Err OrderedError.OutOfMemory }
{
    match output {
        Output::Document(document) => document.write_ordered(sink),
        Output::Text(text) => write_bytes(text.as_bytes(), sink),
    }
}

// Writes the bytes of a text.
fn write_bytes<K: Sink>(bytes: &[u8], sink: &mut K) -> Result<(), OrderedError>
    ensures written { OnOk result (IsSent false bytes.now (K.bytes sink.old) (K.bytes sink.new)
        (K.has_failed sink.new)) }
    ensures beginning { result ≡ Err OrderedError.Write
        → IsSentInPart false bytes.now (K.bytes sink.old) (K.bytes sink.new) }
    ensures failed { result ≡ Err OrderedError.Write → IsTrue (K.has_failed sink.new) }
    ensures memory { result ≢ Err OrderedError.OutOfMemory }
{
    match write_all(sink, bytes) {
        Ok(()) => Ok(()),
        Err(Failed) => Err(OrderedError::Write),
    }
}

// Writes a newline.
fn end_line<K: Sink>(sink: &mut K) -> Result<(), Fault>
    ensures written { WritesLine K.bytes K.has_failed (λ line. line ≡ 10 ∷ []) result
        sink.old sink.new }
    ensures fault { IfErr result (λ e. e ≡ Fault.Refused WRITE) }
{
    match write_all(sink, b"\n") {
        Ok(()) => Ok(()),
        Err(Failed) => Err(Fault::Refused(WRITE)),
    }
}
