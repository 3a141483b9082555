//! The walk over a schema in parts that writes its text, with keywords in a fixed order.
ghost use Rattle.std.specs.Prelude.{◌≡◌, false, map, length, option_map, string_bytes, IfOk, OnOk};
ghost use Rattle.schemars_parts.specs.Words.{Members, get_member, has_float, items_have_float, SchemaLayout, each_written_at, others, arranged, item_texts, layout_under, member_texts, ordered_text, text_in, with_values, layout_meant, assembled_view, items_assembled, members_assembled, reference_to, IsWritten, IsMember, AreWritten};
ghost use Rattle.schemars_text.specs.OrderedText as ordered;

use crate::assembled::Assembled;
use crate::places::find_fixed;
use json::Token;
use schemars_text::places::{FIRST_KEYWORDS, LAST_KEYWORDS, has_fixed_place};
use schemars_text::{Layout, Output};
use serde_json::Value;
use std::alloc::{AllocError, Global};

/// Returns the ordered text of a schema that has no floats.
///
/// # Errors
///
/// `AllocError` if memory runs out.
pub fn text_of(alloc: Global, schema: &Assembled<'_>) -> Result<String, AllocError>
    ensures { IfOk result (λ s. has_float (assembled_view schema.now) ≡ false
        → string_bytes s ≡ ordered_text (assembled_view schema.now)) }
{
    let mut out = Output::with_capacity(alloc, 256)?;
    write_part(schema, Layout::Schema, &mut out)?;
    Ok(out.into_string())
}

#[cycle(write)]
#[tactic(auto, unfolding(schemars_text::specs::OrderedText::text_in))]
fn write_part(part: &Assembled<'_>, layout: Layout, out: &mut Output) -> Result<(), AllocError>
    ensures { OnOk result (IsWritten out.old out.new (layout_meant layout) (assembled_view part.now)) }
{
    match part {
        Assembled::Value(value) => out.value(value, layout),
        Assembled::Null => out.token(Token::Null),
        Assembled::Bool(b) => out.token(Token::Bool(*b)),
        Assembled::Integer(number) => out.value(&Value::from(*number), layout),
        Assembled::Text(text) => out.token(Token::String(text)),
        Assembled::Reference(target) => write_reference(target, out),
        Assembled::List(parts) => {
            out.token(Token::BeginArray)?;
            write_items(parts, layout.inside(), out)?;
            out.token(Token::EndArray)
        }
        Assembled::Object(members) => {
            out.token(Token::BeginObject)?;
            write_members(members, layout, out)?;
            out.token(Token::EndObject)
        }
    }
}

// In every layout it is the same.
fn write_reference(target: &str, out: &mut Output) -> Result<(), AllocError>
    ensures { OnOk result ((layout : ordered.Layout) → IsWritten out.old out.new layout (reference_to target.now)) }
{
    out.token(Token::BeginObject)?;
    out.token(Token::Key("$ref"))?;
    out.token(Token::String(target))?;
    out.token(Token::EndObject)
}

#[cycle(write)]
#[tactic(auto, unfolding(schemars_text::specs::OrderedText::item_texts))]
fn write_items(
    parts: &Vec<Assembled<'_>>,
    layout: Layout,
    out: &mut Output,
) -> Result<(), AllocError>
    ensures { OnOk result (items_have_float (items_assembled parts.now.items) ≡ false
        → out.new ≡ with_values out.old
        (item_texts (layout_meant layout) (items_assembled parts.now.items))) }
{
    for part in parts {
        write_part(part, layout, out)?;
    }
    Ok(())
}

#[cycle(write)]
fn write_members<'t>(
    members: &Vec<(&'t str, Assembled<'t>)>,
    layout: Layout,
    out: &mut Output,
) -> Result<(), AllocError>
    ensures { OnOk result (AreWritten out.old out.new (members_assembled members.now.items)
        (arranged (layout_meant layout)
        (member_texts (layout_meant layout) (members_assembled members.now.items)))) }
{
    match layout {
        Layout::Schema => write_keywords(members, out),
        Layout::PlainJson | Layout::NamedSchemas => write_in_map_order(members, layout, out),
    }
}

#[cycle(write)]
#[inline(never)]
#[tactic(auto, unfolding(schemars_text::specs::OrderedText::member_texts))]
fn write_in_map_order<'t>(
    members: &Vec<(&'t str, Assembled<'t>)>,
    layout: Layout,
    out: &mut Output,
) -> Result<(), AllocError>
    ensures { OnOk result (AreWritten out.old out.new (members_assembled members.now.items)
        (member_texts (layout_meant layout) (members_assembled members.now.items))) }
{
    for (key, part) in members {
        write_member(key, part, layout, out)?;
    }
    Ok(())
}

// Writes the members of a schema, with its keywords in their places.
#[cycle(write)]
#[inline(never)]
fn write_keywords<'t>(
    members: &Vec<(&'t str, Assembled<'t>)>,
    out: &mut Output,
) -> Result<(), AllocError>
    ensures { OnOk result (AreWritten out.old out.new (members_assembled members.now.items)
        (arranged SchemaLayout (member_texts SchemaLayout (members_assembled members.now.items)))) }
{
    let mut found = [None; 9];
    find_fixed(members, &mut found);
    write_found(&FIRST_KEYWORDS, &found[..7], out)?;
    write_others(members, out)?;
    write_found(&LAST_KEYWORDS, &found[7..], out)
}

// Writes what was found under these keys, in the order of the keys.
#[cycle(write)]
fn write_found(
    keywords: &[&str],
    found: &[Option<&Assembled<'_>>],
    out: &mut Output,
) -> Result<(), AllocError>
    requires { length found.now ≡ length keywords.now }
    ensures { OnOk result ((ms : Members)
        → map (λ s. option_map (λ v. assembled_view v.now) s) found.now
        ≡ map (λ k. get_member k.now ms) keywords.now
        → AreWritten out.old out.new ms
        (each_written_at (map (λ k. k.now) keywords.now) (member_texts SchemaLayout ms))) }
{
    for (place, keyword) in keywords.iter().enumerate() {
        if let Some(part) = found[place] {
            write_member(keyword, part, Layout::Schema, out)?;
        }
    }
    Ok(())
}

// Writes those members of a schema that have no place of their own, in map order.
#[cycle(write)]
#[inline(never)]
#[tactic(auto, unfolding(schemars_text::specs::OrderedText::member_texts))]
fn write_others<'t>(
    members: &Vec<(&'t str, Assembled<'t>)>,
    out: &mut Output,
) -> Result<(), AllocError>
    ensures { OnOk result (AreWritten out.old out.new (members_assembled members.now.items)
        (others (member_texts SchemaLayout (members_assembled members.now.items)))) }
{
    for (key, part) in members {
        if !has_fixed_place(key) {
            write_member(key, part, Layout::Schema, out)?;
        }
    }
    Ok(())
}

#[cycle(write)]
fn write_member(
    key: &str,
    part: &Assembled<'_>,
    layout: Layout,
    out: &mut Output,
) -> Result<(), AllocError>
    ensures { OnOk result (IsMember out.old out.new (layout_meant layout) key.now
        (assembled_view part.now)) }
{
    out.token(Token::Key(key))?;
    write_part(part, layout_under(layout, key, part), out)
}

// How the part is written under this key. A scalar and a reference are the same in every layout, so
// their keys need no look.
#[tactic(auto, using(crate::proofs::Written::same_reference), unfolding(schemars_text::specs::OrderedText::text_in))]
fn layout_under(layout: Layout, key: &str, part: &Assembled<'_>) -> Layout
    ensures { text_in (layout_meant result) (assembled_view part.now)
        ≡ text_in (layout_under (layout_meant layout) key.now) (assembled_view part.now) }
{
    match part {
        Assembled::Null
        | Assembled::Bool(_)
        | Assembled::Integer(_)
        | Assembled::Text(_)
        | Assembled::Reference(_) => layout,
        Assembled::Value(_) | Assembled::List(_) | Assembled::Object(_) => layout.under(key),
    }
}
