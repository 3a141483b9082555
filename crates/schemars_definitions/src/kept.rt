//! A definition, as it is kept.
ghost use Rattle.std.specs.Prelude.{◌≡◌, false, string_bytes, IfOk};
ghost use Rattle.schemars_definitions.specs.Words.{has_float, ordered_text, needs_of, IsOrdered, definition_in, IsWholeTextOf};

use crate::change::Change;
use crate::plain::is_json;
use schemars_schema::Schema;
use schemars_transform::{Needs, needs_of};
use std::alloc::{AllocError, Global};

#[derive(Drop)]
pub(crate) enum Kept {
    // it is not finished, and stands for `false`
    Begun,
    // the ordered text of a definition that stays as it is
    Text(String),
    // the ordered text of the definition, and that of what is made of it
    Changed { before: String, after: String },
    // it has a number that is no 64-bit whole number
    Value(Schema),
}

impl Kept {
    // Keeps a definition as text, unless it has a number that is no 64-bit whole number.
    pub(crate) fn new<C: Change>(
        alloc: Global,
        schema: Schema,
        change: &mut C,
    ) -> Result<Kept, AllocError>
        ensures definition { IfOk result (λ kept. definition_in kept ≡ schema) }
        ensures ordered { IfOk result (λ kept. IsOrdered C.made kept) }
    {
        if !is_json(schema.as_value()) {
            return Ok(Kept::Value(schema));
        }
        let text = schema.to_ordered_string(alloc)?;
        if change.changes_nothing() {
            return Ok(Kept::Text(text));
        }
        let needs = needs_of(&schema);
        if change.leaves(needs) {
            return Ok(Kept::Text(text));
        }
        Kept::changed(alloc, text, schema, needs, change)
    }

    // Keeps a definition as its text and that of what is made of it.
    pub(crate) fn changed<C: Change>(
        alloc: Global,
        before: String,
        schema: Schema,
        needs: Needs,
        change: &mut C,
    ) -> Result<Kept, AllocError>
        requires text { IsWholeTextOf (string_bytes before) schema }
        requires needs { needs ≡ needs_of schema }
        ensures definition { IfOk result (λ kept. definition_in kept ≡ schema) }
        ensures ordered { IfOk result (λ kept. IsOrdered C.made kept) }
    {
        let mut schema = schema;
        change.change(alloc, &mut schema, needs)?;
        let after = schema.to_ordered_string(alloc)?;
        Ok(Kept::Changed { before, after })
    }
}
