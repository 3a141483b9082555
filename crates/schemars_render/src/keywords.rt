//! Notes on schemas in parts.
ghost use Rattle.std.specs.Prelude.{◌≡◌, IfOk};
ghost use Rattle.schemars_render.specs.Words.{members_view, annotated, title_alone, assembled_view};

use schemars_parts::{Assembled, Stop, members_in};
use serde_json::{Map, Value};
use std::alloc::Global;

// How many notes are put into a list of members. Each is looked for in the list, so that many take
// less in a map.
const MOST_NOTES: usize = 32;

// The schema with these notes, which take the place of members of their names. More than
// `MOST_NOTES` are not covered.
pub(crate) fn annotate<'t>(
    alloc: Global,
    schema: Assembled<'t>,
    notes: &'t Map<String, Value>,
) -> Result<Assembled<'t>, Stop>
    ensures { IfOk result (λ p. assembled_view p
        ≡ annotated (members_view notes.now.entries) (assembled_view schema.entry)) }
{
    if notes.is_empty() {
        return Ok(schema);
    }
    if notes.len() > MOST_NOTES {
        return Err(Stop::NotCovered);
    }
    let mut members = members_in(alloc, schema)?;
    members.put_values(notes)?;
    Ok(members.into_object())
}

// The schema with this title.
pub(crate) fn titled<'t>(
    alloc: Global,
    schema: Assembled<'t>,
    title: &'t str,
) -> Result<Assembled<'t>, Stop>
    ensures { IfOk result (λ p. assembled_view p
        ≡ annotated (title_alone title.now) (assembled_view schema.entry)) }
{
    let mut members = members_in(alloc, schema)?;
    members.put("title", Assembled::Text(title))?;
    Ok(members.into_object())
}
