//! The text of a template that is filled with answers.
ghost use Rattle.std.specs.Prelude.{◌≡◌, map, IfOk, IfSome};
ghost use Rattle.schemars_render.specs.Words.{IsWholeJson, filled, template_view, needs_of, assembled_view, IsRendered};

use crate::answer::Answer;
use crate::assembling::assemble_schema;
use schemars_parts::{Assembled, Parts, Stop, is_whole, needs_of, text_of};
use schemars_templates::template::SchemaTemplate;
use schemars_transform::Needs;
use std::alloc::{AllocError, Global};
use std::collections::VecDeque;

/// A schema as text.
#[derive(Drop)]
pub struct Rendered<'t> {
    /// Its ordered text.
    pub text: String,
    /// What it has that built-in transforms change, if that was asked.
    pub needs: Option<Needs>,
    /// The schema itself.
    pub schema: Parts<'t>,
}

/// Returns the ordered text of the schema that the template is with these answers in the places of
/// the rows, if it is JSON of 64-bit whole numbers, and what it needs, if `asks_needs`.
///
/// There is no text where the schema has to be made first: where an answer is missing, where the
/// members of another schema are added, as in a struct with flattened rows, where a schema has more
/// than 32 notes of its own, and in a few rare cases where null or a tag is added, as null to a
/// schema that has an `anyOf`.
///
/// # Errors
///
/// `AllocError` if memory runs out.
pub fn render<'a>(
    alloc: Global,
    template: &'a SchemaTemplate<'_>,
    answers: &'a [Answer<'_>],
    asks_needs: bool,
) -> Result<Option<Rendered<'a>>, AllocError>
    ensures { IfOk result (λ o. IfSome o
        (IsRendered (filled (template_view template.now) answers.now))) }
{
    match assemble(alloc, template, answers) {
        Ok(schema) if is_whole(&schema) => {
            let rendered = written(alloc, schema, asks_needs)?;
            Ok(Some(rendered))
        }
        Ok(_) | Err(Stop::NotCovered) => Ok(None),
        Err(Stop::OutOfMemory(error)) => Err(error),
    }
}

// The text of a schema, and what it needs, if that is asked.
fn written<'t>(
    alloc: Global,
    schema: Assembled<'t>,
    asks_needs: bool,
) -> Result<Rendered<'t>, AllocError>
    requires { IsWholeJson (assembled_view schema) }
    ensures { IfOk result (IsRendered (assembled_view schema.entry)) }
{
    let needs = needs_if_asked(&schema, asks_needs);
    let text = text_of(alloc, &schema)?;
    Ok(Rendered {
        text,
        needs,
        schema: Parts::of(schema),
    })
}

fn needs_if_asked(schema: &Assembled<'_>, asks_needs: bool) -> Option<Needs>
    ensures { IfSome result (λ known. known ≡ needs_of (assembled_view schema.now)) }
{
    if asks_needs {
        Some(needs_of(schema))
    } else {
        None
    }
}

// The schema in parts, which borrow the template and the answers.
fn assemble<'a>(
    alloc: Global,
    template: &'a SchemaTemplate<'_>,
    answers: &'a [Answer<'_>],
) -> Result<Assembled<'a>, Stop>
    ensures { IfOk result (λ p. assembled_view p
        ≡ filled (template_view template.now) answers.now) }
{
    let mut parts = assemble_answers(alloc, answers)?;
    assemble_schema(alloc, template, &mut parts)
}

// Each of the answers in parts.
fn assemble_answers<'a>(
    alloc: Global,
    answers: &'a [Answer<'_>],
) -> Result<VecDeque<Assembled<'a>>, Stop>
    ensures { IfOk result (λ v. map assembled_view v.items ≡ answers.now) }
{
    let mut parts = VecDeque::with_capacity(alloc, answers.len())?;
    for answer in answers {
        parts.push_back(answer.assemble(alloc)?)?;
    }
    Ok(parts)
}
