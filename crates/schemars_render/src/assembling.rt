//! A template that is filled with answers, in parts.
ghost use Rattle.std.specs.Prelude.{◌≡◌, map, IfOk, OnOk};
ghost use Rattle.schemars_render.specs.Words.{array, object_of, text_items, type_alone, list, filled, left, first, behind, object_with, templates_of, template_view, node_view, value_view, keyword_view, property_view, scalar_view, scalar_keyword, assembled_view};

use crate::keywords::{annotate, titled};
use crate::nulls::with_null;
use crate::tagging::with_tag;
use schemars_parts::{Assembled, Stop, object_of};
use schemars_templates::template::{Scalar, SchemaNode, SchemaTemplate, ValueTemplate};
use std::alloc::Global;
use std::collections::VecDeque;

// The schema with these answers in the places of the rows. The answers for what follows are left.
// The notes come after the rest, of which they take the place.
#[cycle(assemble)]
pub(crate) fn assemble_schema<'a>(
    alloc: Global,
    template: &'a SchemaTemplate<'_>,
    answers: &mut VecDeque<Assembled<'a>>,
) -> Result<Assembled<'a>, Stop>
    ensures value { IfOk result (λ p. assembled_view p
        ≡ filled (template_view template.now) (map assembled_view answers.old.items)) }
    ensures left { OnOk result (map assembled_view answers.new.items
        ≡ left (template_view template.now) (map assembled_view answers.old.items)) }
{
    let schema = assemble_node(alloc, &template.node, answers)?;
    match template.notes {
        Some(notes) => annotate(alloc, schema, notes),
        None => Ok(schema),
    }
}

#[cycle(assemble)]
#[tactic(auto, using(schemars_templates::proofs::Templates::seen_object))]
fn assemble_node<'a>(
    alloc: Global,
    node: &'a SchemaNode<'_>,
    answers: &mut VecDeque<Assembled<'a>>,
) -> Result<Assembled<'a>, Stop>
    ensures value { IfOk result (λ p. assembled_view p
        ≡ filled (node_view node.now) (map assembled_view answers.old.items)) }
    ensures left { OnOk result (map assembled_view answers.new.items
        ≡ left (node_view node.now) (map assembled_view answers.old.items)) }
{
    match node {
        SchemaNode::Finished(schema) => Ok(Assembled::Value(schema.as_value())),
        SchemaNode::Keywords(keywords) => assemble_keywords(alloc, keywords),
        SchemaNode::OfType(name) => assemble_type(alloc, &**name),
        SchemaNode::Asked(_) => next_answer(answers),
        SchemaNode::Object(keywords) => assemble_object(alloc, keywords, answers),
        SchemaNode::Nullable(inner) => {
            let schema = assemble_schema(alloc, inner, answers)?;
            with_null(alloc, schema)
        }
        SchemaNode::Titled(title, inner) => {
            let schema = assemble_schema(alloc, inner, answers)?;
            titled(alloc, schema, &**title)
        }
        // as a JSON value it takes less, since its answers are schemas
        SchemaNode::WithMembers(..) => Err(Stop::NotCovered),
        SchemaNode::Tagged(tag, inner) => {
            let schema = assemble_schema(alloc, inner, answers)?;
            with_tag(alloc, schema, tag)
        }
    }
}

#[cycle(assemble)]
fn assemble_object<'a>(
    alloc: Global,
    keywords: &'a Vec<(&str, ValueTemplate<'_>)>,
    answers: &mut VecDeque<Assembled<'a>>,
) -> Result<Assembled<'a>, Stop>
    ensures value { IfOk result (λ p. assembled_view p
        ≡ filled (object_with (map keyword_view keywords.now.items)) (map assembled_view answers.old.items)) }
    ensures left { OnOk result (map assembled_view answers.new.items
        ≡ left (object_with (map keyword_view keywords.now.items)) (map assembled_view answers.old.items)) }
{
    let mut members = Vec::with_capacity(alloc, keywords.len())?;
    for keyword in keywords {
        let part = assemble_value(alloc, &keyword.1, answers)?;
        members.push((&*keyword.0, part))?;
    }
    object_of(members)
}

#[cycle(assemble)]
#[tactic(auto, using(schemars_templates::proofs::Templates::seen_named))]
fn assemble_value<'a>(
    alloc: Global,
    template: &'a ValueTemplate<'_>,
    answers: &mut VecDeque<Assembled<'a>>,
) -> Result<Assembled<'a>, Stop>
    ensures value { IfOk result (λ p. assembled_view p
        ≡ filled (value_view template.now) (map assembled_view answers.old.items)) }
    ensures left { OnOk result (map assembled_view answers.new.items
        ≡ left (value_view template.now) (map assembled_view answers.old.items)) }
{
    match template {
        ValueTemplate::Value(value) => Ok(Assembled::Value(value)),
        ValueTemplate::Text(text) => Ok(Assembled::Text(&**text)),
        ValueTemplate::Texts(texts) => assemble_texts(alloc, texts),
        ValueTemplate::Schema(schema) => assemble_schema(alloc, schema, answers),
        ValueTemplate::Schemas(schemas) => assemble_schemas(alloc, schemas, answers),
        ValueTemplate::Named(schemas) => assemble_named(alloc, schemas, answers),
    }
}

#[cycle(assemble)]
fn assemble_schemas<'a>(
    alloc: Global,
    schemas: &'a Vec<SchemaTemplate<'_>>,
    answers: &mut VecDeque<Assembled<'a>>,
) -> Result<Assembled<'a>, Stop>
    ensures value { IfOk result (λ p. assembled_view p ≡ filled (list (templates_of
        (map template_view schemas.now.items))) (map assembled_view answers.old.items)) }
    ensures left { OnOk result (map assembled_view answers.new.items ≡ left (list (templates_of
        (map template_view schemas.now.items))) (map assembled_view answers.old.items)) }
{
    let mut parts = Vec::with_capacity(alloc, schemas.len())?;
    for schema in schemas {
        let part = assemble_schema(alloc, schema, answers)?;
        parts.push(part)?;
    }
    Ok(Assembled::List(parts))
}

#[cycle(assemble)]
fn assemble_named<'a>(
    alloc: Global,
    schemas: &'a Vec<(&str, SchemaTemplate<'_>)>,
    answers: &mut VecDeque<Assembled<'a>>,
) -> Result<Assembled<'a>, Stop>
    ensures value { IfOk result (λ p. assembled_view p
        ≡ filled (object_with (map property_view schemas.now.items)) (map assembled_view answers.old.items)) }
    ensures left { OnOk result (map assembled_view answers.new.items
        ≡ left (object_with (map property_view schemas.now.items)) (map assembled_view answers.old.items)) }
{
    let mut members = Vec::with_capacity(alloc, schemas.len())?;
    for named in schemas {
        let part = assemble_schema(alloc, &named.1, answers)?;
        members.push((&*named.0, part))?;
    }
    object_of(members)
}

fn next_answer<'a>(answers: &mut VecDeque<Assembled<'a>>) -> Result<Assembled<'a>, Stop>
    ensures value { IfOk result (λ p. assembled_view p ≡ first (map assembled_view answers.old.items)) }
    ensures left { OnOk result (map assembled_view answers.new.items ≡ behind (map assembled_view answers.old.items)) }
{
    match answers.pop_front() {
        Some(answer) => Ok(answer),
        None => Err(Stop::NotCovered),
    }
}

// The schema of all values of one JSON type.
fn assemble_type<'a>(alloc: Global, name: &'a str) -> Result<Assembled<'a>, Stop>
    ensures { IfOk result (λ p. assembled_view p ≡ type_alone name.now) }
{
    let members = vec![in alloc; ("type", Assembled::Text(name))]?;
    object_of(members)
}

// A finished schema of these keywords.
fn assemble_keywords<'a>(
    alloc: Global,
    keywords: &'a Vec<(&str, Scalar<'_>)>,
) -> Result<Assembled<'a>, Stop>
    ensures { IfOk result (λ p. assembled_view p
        ≡ object_of (map scalar_keyword keywords.now.items)) }
{
    let mut members = Vec::with_capacity(alloc, keywords.len())?;
    for keyword in keywords {
        members.push((&*keyword.0, scalar_part(&keyword.1)))?;
    }
    object_of(members)
}

fn scalar_part<'a>(scalar: &'a Scalar<'_>) -> Assembled<'a>
    ensures { assembled_view result ≡ scalar_view scalar.now }
{
    match scalar {
        Scalar::Text(text) => Assembled::Text(&**text),
        Scalar::Integer(number) => Assembled::Integer(*number),
    }
}

fn assemble_texts<'a>(alloc: Global, texts: &'a Vec<&str>) -> Result<Assembled<'a>, Stop>
    ensures { IfOk result (λ p. assembled_view p
        ≡ array (text_items (map (λ t. t.now) texts.now.items))) }
{
    let mut parts = Vec::with_capacity(alloc, texts.len())?;
    for text in texts {
        parts.push(Assembled::Text(&**text))?;
    }
    Ok(Assembled::List(parts))
}
