//! The text of definitions, and that of an object that has a place for them.
ghost use Rattle.std.specs.Prelude.{◌≡◌, ◌++◌, ◌∷◌, false, string_bytes, IfOk, OnOk};
ghost use Rattle.schemars_definitions.specs.Words.{quoted, comma_if, has_float, members_have_float, NamedSchemas, ordered_text, definitions_text, texts, with_commas, member_texts, HasPlaceAt, IsOrdered, AreOrdered, definition_in, definitions_in, each_made, with_names};

use crate::change::Change;
use crate::kept::Kept;
use indexmap::IndexMap;
use schemars_schema::Schema;
use schemars_transform::needs_of;
use std::alloc::{AllocError, Global};

// The ordered text of an object with what is made of these definitions in its place at this key.
pub(crate) fn joined<C: Change>(
    alloc: Global,
    own: &Schema,
    key: &str,
    definitions: IndexMap<String, Kept>,
    change: &mut C,
) -> Result<String, AllocError>
    requires place { HasPlaceAt key.now own.now }
    requires ordered { AreOrdered C.made definitions.entries }
    ensures { IfOk result (λ s.
        has_float (with_names key.now (each_made C.made (definitions_in definitions.entries)) own.now) ≡ false
        → string_bytes s
        ≡ ordered_text (with_names key.now (each_made C.made (definitions_in definitions.entries)) own.now)) }
{
    let room = room_for(&definitions);
    let mut out = own.to_ordered_string(alloc)?;
    // the place comes last: the definitions go between its braces
    let _end_of_object = out.pop();
    let _end_of_place = out.pop();
    out.reserve_exact(room.saturating_add("}}".len()))?;
    push_definitions(&mut out, alloc, definitions, change)?;
    out.push_str("}}")?;
    Ok(out)
}

// The text of what is made of these definitions.
pub(crate) fn definitions_text<C: Change>(
    alloc: Global,
    definitions: IndexMap<String, Kept>,
    change: &mut C,
) -> Result<String, AllocError>
    requires { AreOrdered C.made definitions.entries }
    ensures { IfOk result (λ s.
        members_have_float (each_made C.made (definitions_in definitions.entries)) ≡ false
        → string_bytes s ≡ definitions_text (each_made C.made (definitions_in definitions.entries))) }
{
    let room = room_for(&definitions).saturating_add("{}".len());
    let mut out = String::with_capacity(alloc, room)?;
    out.push('{')?;
    push_definitions(&mut out, alloc, definitions, change)?;
    out.push('}')?;
    Ok(out)
}

// How many bytes these definitions take, but for those that are not kept as text.
fn room_for(definitions: &IndexMap<String, Kept>) -> usize {
    // two quotes, a colon and a comma each
    let mut room = definitions.len().saturating_mul(4);
    for (name, kept) in definitions {
        room = room
            .saturating_add(name.len())
            .saturating_add(text_len(kept));
    }
    room
}

// How long the text is that is written for a definition, if it is kept.
fn text_len(kept: &Kept) -> usize {
    match kept {
        Kept::Text(text) => text.len(),
        Kept::Changed { after, .. } => after.len(),
        Kept::Begun | Kept::Value(_) => 0,
    }
}

// Adds what is made of the definitions, with commas between them.
fn push_definitions<C: Change>(
    out: &mut String,
    alloc: Global,
    definitions: IndexMap<String, Kept>,
    change: &mut C,
) -> Result<(), AllocError>
    requires { AreOrdered C.made definitions.entries }
    ensures { OnOk result
        (members_have_float (each_made C.made (definitions_in definitions.entries)) ≡ false
        → string_bytes out.new ≡ string_bytes out.old ++ with_commas false
        (texts (member_texts NamedSchemas (each_made C.made (definitions_in definitions.entries))))) }
{
    let mut later = false;
    for (name, kept) in definitions {
        push_comma_if(out, later)?;
        push_definition(out, alloc, name, kept, change)?;
        later = true;
    }
    Ok(())
}

// A comma, if something stands before.
fn push_comma_if(out: &mut String, later: bool) -> Result<(), AllocError>
    ensures { OnOk result (string_bytes out.new ≡ string_bytes out.old ++ comma_if later) }
{
    if later {
        out.push(',')?;
    }
    Ok(())
}

// Adds a name and what is made of its definition.
fn push_definition<C: Change>(
    out: &mut String,
    alloc: Global,
    name: String,
    kept: Kept,
    change: &mut C,
) -> Result<(), AllocError>
    requires { IsOrdered C.made kept }
    ensures { OnOk result (has_float (C.made (definition_in kept)) ≡ false
        → string_bytes out.new ≡ string_bytes out.old
        ++ (quoted (string_bytes name) ++ 58 ∷ ordered_text (C.made (definition_in kept)))) }
{
    schemars_text::push_quoted(out, alloc, name.as_str())?;
    out.push(':')?;
    push_kept(out, alloc, kept, change)
}

// Adds what is made of a definition: a text as it is.
fn push_kept<C: Change>(
    out: &mut String,
    alloc: Global,
    kept: Kept,
    change: &mut C,
) -> Result<(), AllocError>
    requires { IsOrdered C.made kept }
    ensures { OnOk result (has_float (C.made (definition_in kept)) ≡ false
        → string_bytes out.new ≡ string_bytes out.old
        ++ ordered_text (C.made (definition_in kept))) }
{
    match kept {
        Kept::Text(text) => out.push_str(text.as_str()),
        Kept::Changed { after, .. } => out.push_str(after.as_str()),
        Kept::Begun => push_changed(out, alloc, Schema::from(false), change),
        Kept::Value(schema) => push_changed(out, alloc, schema, change),
    }
}

// Adds what is made of a schema.
fn push_changed<C: Change>(
    out: &mut String,
    alloc: Global,
    schema: Schema,
    change: &mut C,
) -> Result<(), AllocError>
    ensures { OnOk result (has_float (C.made schema) ≡ false
        → string_bytes out.new ≡ string_bytes out.old ++ ordered_text (C.made schema)) }
{
    let text = changed_text(alloc, schema, change)?;
    out.push_str(text.as_str())
}

// The ordered text of what is made of a schema.
fn changed_text<C: Change>(
    alloc: Global,
    schema: Schema,
    change: &mut C,
) -> Result<String, AllocError>
    ensures { IfOk result (λ s. has_float (C.made schema) ≡ false
        → string_bytes s ≡ ordered_text (C.made schema)) }
{
    if change.changes_nothing() {
        return schema.to_ordered_string(alloc);
    }
    let mut schema = schema;
    let needs = needs_of(&schema);
    change.change(alloc, &mut schema, needs)?;
    schema.to_ordered_string(alloc)
}
