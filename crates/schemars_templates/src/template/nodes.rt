//! Templates of one node.
ghost use Rattle.std.specs.Prelude.{◌≡◌, ◌∷◌, [], map, IfOk};
ghost use Rattle.schemars_templates.specs.Words.{string, number, unsigned, boolean, members_view, object_of, unit_variant, type_alone, row, finished, noted, list, template_view, node_view, value_view, keyword_view, property_view, scalar_keyword, object_with, templates_of, one_of_template, any_of_template};

use crate::template::{Ask, Scalar, SchemaNode, SchemaTemplate, ValueTemplate};
use schemars_shapes::TypeNo;
use serde_json::{Map, Value};
use std::alloc::{AllocError, Global};

/// The schema of this node, without notes.
pub fn bare<'t>(node: SchemaNode<'t>) -> SchemaTemplate<'t>
    ensures { template_view result ≡ node_view node.entry }
{
    SchemaTemplate { notes: None, node }
}

/// The schema of this node, with these notes.
pub fn noted<'t>(notes: &'t Map<String, Value>, node: SchemaNode<'t>) -> SchemaTemplate<'t>
    ensures { template_view result ≡ noted (members_view notes.now.entries) (node_view node.entry) }
{
    SchemaTemplate {
        notes: Some(notes),
        node,
    }
}

/// A finished schema of these keywords.
#[tactic(auto, using(crate::proofs::Templates::seen_keywords))]
pub fn keywords<'t>(keywords: Vec<(&'t str, Scalar<'t>)>) -> SchemaNode<'t>
    ensures { node_view result
        ≡ finished (object_of (map scalar_keyword keywords.entry.items)) }
{
    SchemaNode::Keywords(keywords)
}

/// The schema of all values of one JSON type.
pub fn type_alone<'t>(name: &'t str) -> SchemaNode<'t>
    ensures { node_view result ≡ finished (type_alone name.now) }
{
    SchemaNode::OfType(name)
}

/// A unit by its name.
pub fn unit<'t>(alloc: Global, name: &'t str) -> Result<SchemaNode<'t>, AllocError>
    ensures { IfOk result (λ t. node_view t ≡ finished (unit_variant name.now)) }
{
    let both = vec![in alloc;
        ("type", Scalar::Text("string")),
        ("const", Scalar::Text(name)),
    ]?;
    Ok(keywords(both))
}

/// This text.
pub fn text<'t>(text: &'t str) -> ValueTemplate<'t>
    ensures { value_view result ≡ finished (string text.now) }
{
    ValueTemplate::Text(text)
}

/// This number.
pub fn count<'t>(n: u64) -> ValueTemplate<'t>
    ensures { value_view result ≡ finished (number (unsigned n)) }
{
    ValueTemplate::Value(Value::from(n))
}

/// This truth value.
pub fn truth<'t>(is_true: bool) -> ValueTemplate<'t>
    ensures { value_view result ≡ finished (boolean is_true) }
{
    ValueTemplate::Value(Value::Bool(is_true))
}

/// The schema of a row.
pub fn row<'t>(n: TypeNo) -> SchemaNode<'t>
    ensures { node_view result ≡ row n }
{
    SchemaNode::Asked(Ask::Part(n))
}

/// The schema of a row, as the value of a keyword.
pub fn row_value<'t>(n: TypeNo) -> ValueTemplate<'t>
    ensures { value_view result ≡ row n }
{
    ValueTemplate::Schema(bare(row(n)))
}

/// An object with these keywords.
#[tactic(auto, using(crate::proofs::Templates::seen_object))]
pub fn object_with<'t>(keywords: Vec<(&'t str, ValueTemplate<'t>)>) -> SchemaNode<'t>
    ensures { node_view result ≡ object_with (map keyword_view keywords.entry.items) }
{
    SchemaNode::Object(keywords)
}

/// An object with a schema under each of these names.
#[tactic(auto, using(crate::proofs::Templates::seen_named))]
pub fn named<'t>(schemas: Vec<(&'t str, SchemaTemplate<'t>)>) -> ValueTemplate<'t>
    ensures { value_view result ≡ object_with (map property_view schemas.entry.items) }
{
    ValueTemplate::Named(schemas)
}

/// Exactly one of these.
pub fn one_of<'t>(
    alloc: Global,
    choices: Vec<SchemaTemplate<'t>>,
) -> Result<SchemaNode<'t>, AllocError>
    ensures { IfOk result (λ t. node_view t
        ≡ one_of_template (map template_view choices.entry.items)) }
{
    choice(alloc, "oneOf", choices)
}

/// At least one of these.
pub fn any_of<'t>(
    alloc: Global,
    choices: Vec<SchemaTemplate<'t>>,
) -> Result<SchemaNode<'t>, AllocError>
    ensures { IfOk result (λ t. node_view t
        ≡ any_of_template (map template_view choices.entry.items)) }
{
    choice(alloc, "anyOf", choices)
}

// These choices under a keyword.
fn choice<'t>(
    alloc: Global,
    keyword: &'t str,
    choices: Vec<SchemaTemplate<'t>>,
) -> Result<SchemaNode<'t>, AllocError>
    ensures { IfOk result (λ t. node_view t ≡ object_with ((
      keyword.now,
      list (templates_of (map template_view choices.entry.items)),
    ) ∷ [])) }
{
    let keywords = vec![in alloc; (keyword, ValueTemplate::Schemas(choices))]?;
    Ok(object_with(keywords))
}
