//! A store of definitions.
ghost use Rattle.std.specs.Prelude.{◌≡◌, IfOk, IfErr, IfSome, OnOk, OnErr, is_some, not, true, false, string_bytes};
ghost use Rattle.schemars_definitions.specs.Words.{Data, Members, boolean, put, get_member, ordered_text, replaced, without, made_by, needs_of, IsWholeTextOf};

use schemars_schema::Schema;
use schemars_transform::{GenTransform, Needs, NoTransform};
use std::alloc::{AllocError, Global};

/// A store of definitions by name. A definition is `false` from when it is begun until it is
/// finished.
pub trait Definitions {
    /// The definitions that it keeps.
    ghost kept: { Self → Members };

    /// What is made of a definition before it is written.
    ghost changed: { Data → Data };

    /// Returns whether there is a definition of this name.
    fn contains_key(&self, name: &str) -> bool
        ensures { result ≡ is_some (get_member name.now (kept self.now)) };

    /// Begins a definition unless there is one of this name, and returns whether it did.
    fn begin(&mut self, alloc: Global, name: &str) -> Result<bool, AllocError>
        ensures is_new { IfOk result (λ b. b
            ≡ not (is_some (get_member name.now (kept self.old)))) }
        ensures begun { IfOk result (λ b. b ≡ true
            → kept self.new ≡ put name.now (boolean false) (kept self.old)) }
        ensures same { IfOk result (λ b. b ≡ false → kept self.new ≡ kept self.old) }
        ensures err { OnErr result (kept self.new ≡ kept self.old) };

    /// Puts a schema in the place of the definition of this name, if there is one.
    fn finish(&mut self, alloc: Global, name: &str, schema: Schema) -> Result<(), AllocError>
        ensures ok { OnOk result (kept self.new ≡ replaced name.now schema (kept self.old)) }
        ensures err { OnErr result (kept self.new ≡ kept self.old) };

    /// Returns whether definitions are kept as text.
    fn keeps_texts(&self) -> bool;

    /// Returns whether every definition is written as it is kept. If not, `finish_text` can tell
    /// that only from what a definition needs.
    fn changes_nothing(&self) -> bool;

    /// Puts the schema whose ordered text this is, and whose needs these are, in the place of the
    /// definition of this name, if there is one.
    ///
    /// # Errors
    ///
    /// The text, if definitions are not kept as text, or if the needs do not tell that the schema
    /// is written as it is kept.
    fn finish_text(&mut self, name: &str, text: String, needs: Option<Needs>) -> Result<(), String>
        requires { (d : Data) × IsWholeTextOf (string_bytes text) d
            × IfSome needs (λ known. known ≡ needs_of d) }
        ensures ok { OnOk result ((d : Data) → IsWholeTextOf (string_bytes text) d
            → kept self.new ≡ replaced name.now d (kept self.old)) }
        ensures err { OnErr result (kept self.new ≡ kept self.old) }
        ensures text { IfErr result (λ unkept. unkept ≡ text) };

    /// Returns the built-in transforms by which definitions are changed before they are written, in
    /// order.
    ///
    /// # Errors
    ///
    /// `AllocError` if memory runs out.
    fn transforms(&self, alloc: Global) -> Result<Vec<GenTransform<NoTransform>>, AllocError>
        ensures { IfOk result (λ ts. (d : Data) → changed d ≡ made_by ts.items d) };

    /// Puts the schema whose ordered text is `before`, and which is written as `after`, in the place
    /// of the definition of this name, if there is one. Returns `false` and does nothing if
    /// definitions are not kept as text.
    fn finish_changed(&mut self, name: &str, before: String, after: String) -> bool
        requires { (d : Data) × IsWholeTextOf (string_bytes before) d
            × (string_bytes after ≡ ordered_text (changed d)) }
        ensures done { result ≡ true → (d : Data) → IsWholeTextOf (string_bytes before) d
            → kept self.new ≡ replaced name.now d (kept self.old) }
        ensures same { result ≡ false → kept self.new ≡ kept self.old };

    /// Removes the definition of this name, if there is one.
    fn remove(&mut self, name: &str)
        ensures { kept self.new ≡ without name.now (kept self.old) };
}
