//! What a row answers to a template.
ghost use Rattle.std.specs.Prelude.{◌≡◌, map, string_bytes, IfOk};
ghost use Rattle.schemars_render.specs.Words.{reference, filled, template_view, leaf_view, assembled_view};

use crate::assembling::assemble_schema;
use schemars_parts::{Assembled, Stop};
use schemars_schema::Schema;
use schemars_templates::template::SchemaTemplate;
use std::alloc::{AllocError, Global};
use std::collections::VecDeque;
use std::marker::Model;

/// The schema of a row, which may be a reference, or a template that is filled where a schema is
/// needed.
#[derive(Drop)]
pub struct Answer<'t> {
    form: Form<'t>,
}

#[derive(Drop)]
enum Form<'t> {
    Leaf(Leaf<'t>),
    // a template with these answers in the places of its rows
    Filled(SchemaTemplate<'t>, Vec<Leaf<'t>>),
}

// An answer that no other answers are in.
#[derive(Drop)]
pub(crate) enum Leaf<'t> {
    // the schema that is a reference to this target
    Reference(String),
    Schema(Schema),
    // a template without answers
    Template(SchemaTemplate<'t>),
}

impl<'t> Model for Answer<'t> {
    ghost use Rattle.serde_json.specs.Data.{Data};
    ghost use Rattle.schemars_schema.specs.DataCode.{data_code};
    ghost use Rattle.schemars_render.specs.Answer.{schema_in};

    ghost Value = { Data };

    ghost coded = { data_code };

    ghost view = { λ a. schema_in a.form };
}

impl<'t> Answer<'t> {
    /// A reference to this target, which is made a schema only where one is needed.
    pub fn reference(target: String) -> Answer<'t>
        ensures { result ≡ reference (string_bytes target) }
    {
        Answer {
            form: Form::Leaf(Leaf::Reference(target)),
        }
    }

    /// This schema.
    pub fn schema(schema: Schema) -> Answer<'t>
        ensures { result ≡ schema }
    {
        Answer {
            form: Form::Leaf(Leaf::Schema(schema)),
        }
    }

    /// The schema with these answers in the places of the rows: the first answer for the first row,
    /// and so on. A missing answer is `true`.
    ///
    /// # Errors
    ///
    /// `AllocError` if memory runs out.
    pub fn filled(
        alloc: Global,
        template: SchemaTemplate<'t>,
        answers: Vec<Answer<'t>>,
    ) -> Result<Answer<'t>, AllocError>
        ensures { IfOk result (λ a. a ≡ filled (template_view template.entry) answers.entry.items) }
    {
        if answers.is_empty() {
            return Ok(Answer {
                form: Form::Leaf(Leaf::Template(template)),
            });
        }
        let leaves = into_leaves(alloc, answers)?;
        Ok(Answer {
            form: Form::Filled(template, leaves),
        })
    }

    /// Converts the answer into its schema.
    ///
    /// # Errors
    ///
    /// `AllocError` if memory runs out.
    pub fn into_schema(self, alloc: Global) -> Result<Schema, AllocError>
        ensures { IfOk result (λ s. s ≡ self.entry) }
    {
        match self.form {
            Form::Leaf(leaf) => leaf.into_schema(alloc),
            Form::Filled(template, leaves) => {
                let schemas = into_schemas(alloc, leaves)?;
                schemars_templates::template::fill(alloc, template, schemas)
            }
        }
    }

    // Converts the answer into one that no other answers are in.
    fn into_leaf(self, alloc: Global) -> Result<Leaf<'t>, AllocError>
        ensures { IfOk result (λ l. leaf_view l ≡ self.entry) }
    {
        match self.form {
            Form::Leaf(leaf) => Ok(leaf),
            Form::Filled(template, leaves) => {
                let schemas = into_schemas(alloc, leaves)?;
                let schema = schemars_templates::template::fill(alloc, template, schemas)?;
                Ok(Leaf::Schema(schema))
            }
        }
    }

    // The schema in parts, which borrow it.
    pub(crate) fn assemble(&self, alloc: Global) -> Result<Assembled<'_>, Stop>
        ensures { IfOk result (λ p. assembled_view p ≡ self.now) }
    {
        match &self.form {
            Form::Leaf(leaf) => leaf.assemble(alloc),
            Form::Filled(template, leaves) => {
                let mut parts = assemble_leaves(alloc, leaves)?;
                assemble_schema(alloc, template, &mut parts)
            }
        }
    }
}

impl<'t> Leaf<'t> {
    fn into_schema(self, alloc: Global) -> Result<Schema, AllocError>
        ensures { IfOk result (λ s. s ≡ leaf_view self.entry) }
    {
        match self {
            Leaf::Reference(target) => Schema::new_ref(alloc, target),
            Leaf::Schema(schema) => Ok(schema),
            Leaf::Template(template) => {
                schemars_templates::template::fill(alloc, template, VecDeque::new(alloc))
            }
        }
    }

    // The schema in parts, which borrow it.
    fn assemble(&self, alloc: Global) -> Result<Assembled<'_>, Stop>
        ensures { IfOk result (λ p. assembled_view p ≡ leaf_view self.now) }
    {
        match self {
            Leaf::Reference(target) => Ok(Assembled::Reference(target.as_str())),
            Leaf::Schema(schema) => Ok(Assembled::Value(schema.as_value())),
            Leaf::Template(template) => {
                assemble_schema(alloc, template, &mut VecDeque::new(alloc))
            }
        }
    }
}

fn into_leaves<'t>(alloc: Global, answers: Vec<Answer<'t>>) -> Result<Vec<Leaf<'t>>, AllocError>
    ensures { IfOk result (λ v. map leaf_view v.items ≡ answers.entry.items) }
{
    let mut leaves = Vec::with_capacity(alloc, answers.len())?;
    for answer in answers {
        leaves.push(answer.into_leaf(alloc)?)?;
    }
    Ok(leaves)
}

fn into_schemas(alloc: Global, leaves: Vec<Leaf<'_>>) -> Result<VecDeque<Schema>, AllocError>
    ensures { IfOk result (λ v. v.items ≡ map leaf_view leaves.entry.items) }
{
    let mut schemas = VecDeque::with_capacity(alloc, leaves.len())?;
    for leaf in leaves {
        schemas.push_back(leaf.into_schema(alloc)?)?;
    }
    Ok(schemas)
}

// Each of the schemas in parts.
fn assemble_leaves<'a>(
    alloc: Global,
    leaves: &'a Vec<Leaf<'_>>,
) -> Result<VecDeque<Assembled<'a>>, Stop>
    ensures { IfOk result (λ v. map assembled_view v.items ≡ map leaf_view leaves.now.items) }
{
    let mut parts = VecDeque::with_capacity(alloc, leaves.len())?;
    for leaf in leaves {
        parts.push_back(leaf.assemble(alloc)?)?;
    }
    Ok(parts)
}
