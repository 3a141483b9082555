//! A template that is filled with answers, as a schema.
ghost use Rattle.std.specs.Prelude.{◌≡◌, IfOk};
ghost use Rattle.schemars_templates.specs.Template.{filled};
ghost use Rattle.schemars_templates.specs.View.{template_view};

use crate::answer::Answer;
use schemars_schema::Schema;
use schemars_templates::template::SchemaTemplate;
use std::alloc::{AllocError, Global};
use std::collections::VecDeque;

/// The schema with these answers in the places of the rows: the first answer for the first row, and
/// so on. A missing answer is `true`.
pub fn fill(
    alloc: Global,
    template: SchemaTemplate<'_>,
    answers: Vec<Answer<'_>>,
) -> Result<Schema, AllocError>
    ensures { IfOk result (λ s. s ≡ filled (template_view template.entry) answers.entry.items) }
{
    let schemas = into_schemas(alloc, answers)?;
    schemars_templates::template::fill(alloc, template, schemas)
}

fn into_schemas(alloc: Global, answers: Vec<Answer<'_>>) -> Result<VecDeque<Schema>, AllocError>
    ensures { IfOk result (λ v. v.items ≡ answers.entry.items) }
{
    let mut schemas = VecDeque::with_capacity(alloc, answers.len())?;
    for answer in answers {
        schemas.push_back(answer.into_schema(alloc)?)?;
    }
    Ok(schemas)
}
