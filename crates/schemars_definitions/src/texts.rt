//! Definitions as text.
ghost use Rattle.std.specs.Prelude.{◌≡◌, ◌↔◌, true, false, string_bytes, IfOk, IfSome, IsTrue};
ghost use Rattle.schemars_definitions.specs.Words.{Data, no_members, has_float, members_have_float, ordered_text, definitions_text, needs_of, HasNoDefinitions, HasPlaceAt, HasKeysOnce, each_made, with_names};

use crate::by_name;
use crate::change::Change;
use crate::joined::{definitions_text, joined};
use crate::kept::Kept;
use crate::store::Definitions;
use indexmap::IndexMap;
use schemars_schema::Schema;
use schemars_transform::{GenTransform, Needs, NoTransform};
use std::alloc::{AllocError, Global};
use std::marker::Model;

/// Definitions as ordered text, which takes an eighth of the memory of JSON values. The text that
/// is written is that of what a change makes of each definition. A definition with a number that is
/// no 64-bit whole number is kept as a JSON value.
#[derive(Drop)]
pub struct Texts<C: Change> {
    definitions: IndexMap<String, Kept>,
    change: C,
}

impl<C: Change> Model for Texts<C> {
    ghost use Rattle.serde_json.specs.Data.{Members};
    ghost use Rattle.schemars_schema.specs.DataCode.{members_code};
    ghost use Rattle.schemars_definitions.specs.Kept.{definitions_by_name, AreOrdered};

    ghost Value = { Members };

    ghost coded = { members_code };

    ghost view = { λ t. definitions_by_name t.definitions.entries };

    ghost invariant = { λ t. AreOrdered C.made t.definitions.entries };
}

impl<C: Change> Texts<C> {
    /// Returns no definitions. Each that is added is written as the change makes it.
    pub fn new(alloc: Global, change: C) -> Texts<C>
        ensures { result ≡ no_members }
    {
        Texts {
            definitions: IndexMap::new(alloc),
            change,
        }
    }

    /// Returns whether there are no definitions.
    pub fn is_empty(&self) -> bool
        ensures { IsTrue result ↔ (self.now ≡ no_members) }
    {
        self.definitions.is_empty()
    }
}

impl<C: Change + Drop> Texts<C> {
    /// Returns the ordered text of an object that has an empty object at a key, `$defs` or
    /// `definitions`, with what is made of these definitions in the place of that.
    ///
    /// A number with a fraction or beyond 64 bits has the digits that `serde_json` gives it.
    ///
    /// # Errors
    ///
    /// `AllocError` if memory runs out.
    pub fn into_text(self, alloc: Global, own: &Schema, key: &str) -> Result<String, AllocError>
        requires { HasPlaceAt key.now own.now }
        ensures text { IfOk result (λ s.
            has_float (with_names key.now (each_made C.made self) own.now) ≡ false
            → string_bytes s ≡ ordered_text (with_names key.now (each_made C.made self) own.now)) }
        ensures once { HasKeysOnce self }
    {
        let Texts {
            mut definitions,
            mut change,
        } = self;
        by_name::sort(&mut definitions)?;
        joined(alloc, own, key, definitions, &mut change)
    }

    /// Returns the ordered text of what is made of these definitions, as an object of schemas by
    /// name.
    ///
    /// A number with a fraction or beyond 64 bits has the digits that `serde_json` gives it.
    ///
    /// # Errors
    ///
    /// `AllocError` if memory runs out.
    pub fn into_definitions_text(self, alloc: Global) -> Result<String, AllocError>
        ensures text { IfOk result (λ s. members_have_float (each_made C.made self) ≡ false
            → string_bytes s ≡ definitions_text (each_made C.made self)) }
        ensures once { HasKeysOnce self }
    {
        let Texts {
            mut definitions,
            mut change,
        } = self;
        by_name::sort(&mut definitions)?;
        definitions_text(alloc, definitions, &mut change)
    }
}

impl<C: Change> Definitions for Texts<C> {
    ghost kept = { λ ms. ms };

    ghost changed = { C.made };

    fn contains_key(&self, name: &str) -> bool {
        by_name::has_name(&self.definitions, name)
    }

    fn begin(&mut self, alloc: Global, name: &str) -> Result<bool, AllocError> {
        by_name::begin(&mut self.definitions, alloc, name)
    }

    fn finish(&mut self, alloc: Global, name: &str, schema: Schema) -> Result<(), AllocError> {
        let kept = Kept::new(alloc, schema, &mut self.change)?;
        by_name::replace(&mut self.definitions, name, kept);
        Ok(())
    }

    fn keeps_texts(&self) -> bool {
        true
    }

    fn changes_nothing(&self) -> bool {
        self.change.changes_nothing()
    }

    fn finish_text(
        &mut self,
        name: &str,
        text: String,
        needs: Option<Needs>,
    ) -> Result<(), String> {
        if !leaves(&self.change, needs) {
            return Err(text);
        }
        by_name::replace(&mut self.definitions, name, Kept::Text(text));
        Ok(())
    }

    fn transforms(&self, alloc: Global) -> Result<Vec<GenTransform<NoTransform>>, AllocError> {
        self.change.transforms(alloc)
    }

    fn finish_changed(&mut self, name: &str, before: String, after: String) -> bool {
        by_name::replace(&mut self.definitions, name, Kept::Changed { before, after });
        true
    }

    fn remove(&mut self, name: &str) {
        by_name::remove(&mut self.definitions, name);
    }
}

// Whether a change leaves each schema as it is that has these needs, if they are known.
fn leaves<C: Change>(change: &C, needs: Option<Needs>) -> bool
    ensures { result ≡ true → (d : Data) → IfSome needs (λ known. known ≡ needs_of d)
        → C.made d ≡ d }
{
    change.changes_nothing()
        || match needs {
            Some(needs) => change.leaves(needs),
            None => false,
        }
}

/// Returns whether a document is an object with neither `$defs` nor `definitions`.
pub fn has_no_definitions(document: &Schema) -> bool
    ensures { IsTrue result → HasNoDefinitions document.now }
{
    document.as_object().is_some()
        && document.get("$defs").is_none()
        && document.get("definitions").is_none()
}
