//! The shapes of types, as JSON.
use crate::content::{Choice, Choices, Content, Form, Member, Members, Part, Payload, Required};
use schemaderive_options::{Notes, push_quoted};
use std::alloc::{AllocError, Global};

/// The shape of a type.
pub fn shape_json(alloc: Global, content: &Content) -> Result<String, AllocError> {
    let mut shape = String::new(alloc);
    push_content(alloc, &mut shape, content)?;
    Ok(shape)
}

fn push_content(alloc: Global, out: &mut String, content: &Content) -> Result<(), AllocError> {
    match content {
        Content::Null => out.push_str("\"null\""),
        Content::Newtype(part) => push_newtype(alloc, out, part),
        Content::Tuple(parts) => push_tuple(alloc, out, parts),
        Content::Struct(members) => push_struct(alloc, out, members),
        Content::Enum(choices) => push_choices(alloc, out, choices),
    }
}

fn push_newtype(alloc: Global, out: &mut String, part: &Part) -> Result<(), AllocError> {
    out.push_str("{\"newtype\":")?;
    push_number(alloc, out, part.row)?;
    out.push('}')
}

fn push_number(alloc: Global, out: &mut String, number: usize) -> Result<(), AllocError> {
    let digits = format!(in alloc; "{number}")?;
    out.push_str(digits.as_str())
}

fn push_tuple(alloc: Global, out: &mut String, parts: &[Part]) -> Result<(), AllocError> {
    out.push_str("{\"tuple\":[")?;
    let mut is_first = true;
    for part in parts {
        begin(out, &mut is_first)?;
        push_number(alloc, out, part.row)?;
    }
    out.push_str("]}")
}

// Writes what goes before an item of a list.
fn begin(out: &mut String, is_first: &mut bool) -> Result<(), AllocError> {
    if *is_first {
        *is_first = false;
        return Ok(());
    }
    out.push(',')
}

fn push_struct(alloc: Global, out: &mut String, members: &Members) -> Result<(), AllocError> {
    out.push_str("{\"struct\":{\"fields\":[")?;
    let mut is_first = true;
    for member in &members.list {
        if let Some(name) = &member.name {
            begin(out, &mut is_first)?;
            push_field(alloc, out, name.as_str(), member)?;
        }
    }
    out.push(']')?;
    push_flattened(alloc, out, members)?;
    if members.is_closed {
        out.push_str(",\"closed\":true")?;
    }
    out.push_str("}}")
}

fn push_field(
    alloc: Global,
    out: &mut String,
    name: &str,
    member: &Member,
) -> Result<(), AllocError> {
    out.push_str("{\"name\":")?;
    push_quoted(alloc, out, name)?;
    out.push_str(",\"type\":")?;
    push_number(alloc, out, member.part.row)?;
    push_required(out, member.required)?;
    let notes = member.part.unsaid(alloc)?;
    push_end(alloc, out, &notes)
}

// Writes the keywords of an item, if there are any, and its end.
fn push_end(alloc: Global, out: &mut String, notes: &Notes) -> Result<(), AllocError> {
    if !notes.is_empty() {
        out.push_str(",\"notes\":")?;
        notes.push_object(alloc, out)?;
    }
    out.push('}')
}

fn push_required(out: &mut String, required: Required) -> Result<(), AllocError> {
    match (required.deserialize, required.serialize) {
        (true, true) => Ok(()),
        (false, false) => out.push_str(",\"required\":false"),
        (true, false) => out.push_str(",\"required\":{\"deserialize\":true,\"serialize\":false}"),
        (false, true) => out.push_str(",\"required\":{\"deserialize\":false,\"serialize\":true}"),
    }
}

// Writes the types whose members are in the object, if there are any.
fn push_flattened(alloc: Global, out: &mut String, members: &Members) -> Result<(), AllocError> {
    let mut is_first = true;
    for member in &members.list {
        if member.name.is_none() {
            out.push_str(if is_first { ",\"flatten\":[" } else { "," })?;
            is_first = false;
            out.push_str("{\"type\":")?;
            push_number(alloc, out, member.part.row)?;
            push_required(out, member.required)?;
            out.push('}')?;
        }
    }
    out.push_str(if is_first { "" } else { "]" })
}

fn push_choices(alloc: Global, out: &mut String, choices: &Choices) -> Result<(), AllocError> {
    out.push_str(match choices.form {
        Form::External => "{\"external\":{",
        Form::Untagged => "{\"untagged\":{",
        Form::Internal => "{\"internal\":{",
        Form::Adjacent => "{\"adjacent\":{",
    })?;
    push_key(alloc, out, "tag", &choices.tag)?;
    push_key(alloc, out, "content", &choices.content)?;
    if choices.is_closed && (choices.form == Form::Internal || choices.form == Form::Adjacent) {
        out.push_str("\"closed\":true,")?;
    }
    out.push_str("\"variants\":[")?;
    let mut is_first = true;
    for choice in &choices.list {
        begin(out, &mut is_first)?;
        push_choice(alloc, out, choice)?;
    }
    out.push_str("]}}")
}

fn push_key(
    alloc: Global,
    out: &mut String,
    key: &str,
    value: &Option<String>,
) -> Result<(), AllocError> {
    if let Some(text) = value {
        push_quoted(alloc, out, key)?;
        out.push(':')?;
        push_quoted(alloc, out, text.as_str())?;
        out.push(',')?;
    }
    Ok(())
}

fn push_choice(alloc: Global, out: &mut String, choice: &Choice) -> Result<(), AllocError> {
    out.push_str("{\"name\":")?;
    push_quoted(alloc, out, choice.name.as_str())?;
    push_payload(alloc, out, &choice.payload)?;
    push_end(alloc, out, &choice.notes)
}

fn push_payload(alloc: Global, out: &mut String, payload: &Payload) -> Result<(), AllocError> {
    out.push_str(match payload {
        Payload::Unit => "",
        _ => ",\"payload\":",
    })?;
    match payload {
        Payload::Unit => Ok(()),
        Payload::Newtype(part) => push_newtype(alloc, out, part),
        Payload::Tuple(parts) => push_tuple(alloc, out, parts),
        Payload::Struct(members) => push_struct(alloc, out, members),
    }
}
