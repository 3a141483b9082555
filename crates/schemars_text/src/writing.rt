//! The text of a schema or of definitions, in memory or written to a sink.
ghost use Rattle.std.specs.Prelude.{◌≡◌, ◌≢◌, ℕ, List, [], Err, false, not, string_bytes, IfOk, OnOk, IsTrue};
ghost use Rattle.schemars_text.specs.Words.{tokens, print, view, members_view, has_float, members_have_float, with_value, ordered_text, definitions_text, has_floats, text_of, IsSent, IsSentInPart, Becomes, IsGathered};

use crate::error::OrderedError;
use crate::gathered::Gathered;
use crate::memory::InMemory;
use crate::ordered::{Layout, write_object, write_value};
use crate::sink::Sink;
use crate::target::Target;
use serde_json::{Map, Value};
use std::alloc::{AllocError, Global};

/// A schema as compact JSON, with the members of each schema object in a fixed order: `$id`,
/// `$schema`, `title`, `description`, `type`, `format` and `properties` come first, `$defs` and
/// `definitions` last, and the others are between them in map order.
///
/// The members of `properties`, `patternProperties`, `dependentSchemas`, `$defs` and `definitions`
/// are schemas by name, and the names are in map order. The value of `examples`, of `default` and
/// of a key that begins with `x-` is plain JSON, in map order.
///
/// A number with a fraction or beyond 64 bits has the digits that `serde_json` gives it.
pub fn to_ordered_string(alloc: Global, schema: &Value) -> Result<String, AllocError>
    ensures ordered { IfOk result (λ s. has_float (view schema.now) ≡ false
        → string_bytes s ≡ ordered_text (view schema.now)) }
    ensures compact { IfOk result (λ s. string_bytes s ≡ print (tokens (string_bytes s))) }
{
    Document::Schema(schema).to_text(alloc)
}

/// Definitions as compact JSON: one object in map order, with each definition written as by
/// `to_ordered_string`.
pub fn definitions_to_ordered_string(
    alloc: Global,
    definitions: &Map<String, Value>,
) -> Result<String, AllocError>
    ensures ordered { IfOk result
        (λ s. members_have_float (members_view definitions.now.entries) ≡ false
        → string_bytes s ≡ definitions_text (members_view definitions.now.entries)) }
    ensures compact { IfOk result (λ s. string_bytes s ≡ print (tokens (string_bytes s))) }
{
    Document::Definitions(definitions).to_text(alloc)
}

/// Writes a schema to the sink, as `to_ordered_string` gives it.
///
/// # Errors
///
/// `Write` if the sink has failed: it has a beginning of the text. No memory is taken.
pub fn write_ordered<K: Sink>(schema: &Value, sink: &mut K) -> Result<(), OrderedError>
    ensures written { OnOk result (IsSent (has_float (view schema.now))
        (ordered_text (view schema.now)) (K.bytes sink.old) (K.bytes sink.new)
        (K.has_failed sink.new)) }
    ensures beginning { result ≡ Err OrderedError.Write → IsSentInPart (has_float (view schema.now))
        (ordered_text (view schema.now)) (K.bytes sink.old) (K.bytes sink.new) }
    ensures failed { result ≡ Err OrderedError.Write → IsTrue (K.has_failed sink.new) }
    ensures memory { result ≢ Err OrderedError.OutOfMemory }
{
    Document::Schema(schema).send(sink)
}

/// Writes definitions to the sink, as `definitions_to_ordered_string` gives them.
///
/// # Errors
///
/// `Write` if the sink has failed: it has a beginning of the text. No memory is taken.
pub fn write_ordered_definitions<K: Sink>(
    definitions: &Map<String, Value>,
    sink: &mut K,
) -> Result<(), OrderedError>
    ensures written { OnOk result
        (IsSent (members_have_float (members_view definitions.now.entries))
        (definitions_text (members_view definitions.now.entries)) (K.bytes sink.old)
        (K.bytes sink.new) (K.has_failed sink.new)) }
    ensures beginning { result ≡ Err OrderedError.Write
        → IsSentInPart (members_have_float (members_view definitions.now.entries))
        (definitions_text (members_view definitions.now.entries)) (K.bytes sink.old)
        (K.bytes sink.new) }
    ensures failed { result ≡ Err OrderedError.Write → IsTrue (K.has_failed sink.new) }
    ensures memory { result ≢ Err OrderedError.OutOfMemory }
{
    Document::Definitions(definitions).send(sink)
}

// What is written.
#[derive(Clone, Copy)]
enum Document<'v> {
    Schema(&'v Value),
    Definitions(&'v Map<String, Value>),
}

impl Document<'_> {
    fn write<S, T: Target<S>>(self, lent: &mut S, out: &mut T)
        ensures { Becomes (T.has out.old lent.old) (T.has out.new lent.new) (has_floats self.entry)
            (λ o. with_value o (text_of self.entry)) }
    {
        match self {
            Document::Schema(schema) => write_value(schema, Layout::Schema, lent, out),
            Document::Definitions(definitions) => {
                write_object(definitions, Layout::NamedSchemas, lent, out);
            }
        }
    }

    fn to_text(self, alloc: Global) -> Result<String, AllocError>
        ensures ordered { IfOk result (λ s. has_floats self.entry ≡ false
            → string_bytes s ≡ text_of self.entry) }
        ensures compact { IfOk result (λ s. string_bytes s ≡ print (tokens (string_bytes s))) }
    {
        let mut text = InMemory::new(alloc)?;
        self.write(&mut (), &mut text);
        text.into_string()
    }

    fn send<K: Sink>(self, sink: &mut K) -> Result<(), OrderedError>
        ensures written { OnOk result (IsSent (has_floats self.entry) (text_of self.entry)
            (K.bytes sink.old) (K.bytes sink.new) (K.has_failed sink.new)) }
        ensures beginning { result ≡ Err OrderedError.Write → IsSentInPart (has_floats self.entry)
            (text_of self.entry) (K.bytes sink.old) (K.bytes sink.new) }
        ensures failed { result ≡ Err OrderedError.Write → IsTrue (K.has_failed sink.new) }
        ensures memory { result ≢ Err OrderedError.OutOfMemory }
    {
        if self.write_to(sink) {
            Ok(())
        } else {
            Err(OrderedError::Write)
        }
    }

    // Answers whether the sink has taken all.
    fn write_to<K: Sink>(self, sink: &mut K) -> bool
        ensures { (text : List ℕ) × (has_floats self.entry ≡ false → text ≡ text_of self.entry)
            × IsGathered (K.bytes sink.old) text (K.bytes sink.new) (K.has_failed sink.new) []
            (not result) }
    {
        let mut out = Gathered::new();
        self.write(sink, &mut out);
        out.finish(sink)
    }
}
