//! The text of a schema, with its keywords in a fixed order.
ghost use Rattle.std.specs.Prelude.{◌≡◌, ◌≢◌, Err, false, string_bytes, IfOk, OnOk, IsTrue};
ghost use Rattle.schemars_schema.specs.Words.{tokens, print, has_float, ordered_text, IsSent, IsSentInPart};

use crate::schema::Schema;
use schemars_text::{OrderedError, Sink};
use std::alloc::{AllocError, Global};

impl Schema {
    /// Returns the schema as compact JSON, with the members of each schema object in a fixed order:
    /// `$id`, `$schema`, `title`, `description`, `type`, `format` and `properties` first, `$defs`
    /// and `definitions` last, and the others between them in map order.
    ///
    /// Names under `properties`, `patternProperties`, `dependentSchemas`, `$defs` and `definitions`
    /// are in map order. Values of `examples`, `default` and keys that begin with `x-` are plain
    /// JSON, in map order.
    ///
    /// A number with a fraction or beyond 64 bits has the digits that `serde_json` gives it.
    ///
    /// # Errors
    ///
    /// `AllocError` if memory runs out.
    pub fn to_ordered_string(&self, alloc: Global) -> Result<String, AllocError>
        ensures ordered { IfOk result (λ s. has_float self.now ≡ false
            → string_bytes s ≡ ordered_text self.now) }
        ensures compact { IfOk result (λ s. string_bytes s ≡ print (tokens (string_bytes s))) }
    {
        schemars_text::to_ordered_string(alloc, self.as_value())
    }

    /// Writes the schema to the sink, as `to_ordered_string` gives it.
    ///
    /// # Errors
    ///
    /// `Write` if the sink has failed: it has a beginning of the text. No memory is taken.
    pub fn write_ordered<K: Sink>(&self, sink: &mut K) -> Result<(), OrderedError>
        ensures written { OnOk result (IsSent (has_float self.now) (ordered_text self.now)
            (K.bytes sink.old) (K.bytes sink.new) (K.has_failed sink.new)) }
        ensures beginning { result ≡ Err OrderedError.Write → IsSentInPart (has_float self.now)
            (ordered_text self.now) (K.bytes sink.old) (K.bytes sink.new) }
        ensures failed { result ≡ Err OrderedError.Write → IsTrue (K.has_failed sink.new) }
        ensures memory { result ≢ Err OrderedError.OutOfMemory }
    {
        schemars_text::write_ordered(self.as_value(), sink)
    }
}
