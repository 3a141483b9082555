//! Documents whose parts are not known yet.
ghost use Rattle.std.specs.Prelude.{◌≡◌, ◌++◌, map, IfOk, OnOk};
ghost use Rattle.schemars_templates.specs.Words.{string, view, finished, nullable, noted, tagged, list, asks_of, filled, left, first, behind, object_with, templates_of, title_alone, ask_of, template_view, node_view, value_view, keyword_view, property_view, with_answers};

pub mod maps;
pub mod nodes;
pub mod scalars;

use crate::finished::{annotate, set, type_alone};
use crate::template::scalars::{schema_of, texts_value};
use schemars_builders::{allow_null, apply_internal_enum_variant_tag};
use schemars_flatten::flatten;
use schemars_schema::Schema;
use schemars_shapes::TypeNo;
use serde_json::{Map, Value};
use std::alloc::{AllocError, Global};
use std::collections::VecDeque;

/// What a document asks of a row.
#[derive(Clone, Copy)]
pub enum Ask {
    /// Its schema.
    Part(TypeNo),
    /// A schema of its members as a part of another map, and whether they are required.
    MembersOf(TypeNo, bool),
    /// A schema of the content beside a tag.
    Content(TypeNo),
}

/// The value of a keyword of a finished schema.
#[derive(Clone, Copy)]
pub enum Scalar<'t> {
    /// A text.
    Text(&'t str),
    /// A whole number.
    Integer(i64),
}

/// The variant of an internally tagged enum that an object has to name.
#[derive(Clone, Copy)]
pub struct Tag<'t> {
    /// The member that names the variant.
    pub tag: &'t str,
    /// The name of the variant.
    pub name: &'t str,
    /// Whether all other keys are forbidden where the variant is a unit.
    pub closed: bool,
}

/// A schema in which rows are asked; their answers are filled in later.
#[cycle(template)]
#[derive(Drop)]
pub struct SchemaTemplate<'t> {
    /// Its notes, where there are some.
    pub notes: Option<&'t Map<String, Value>>,
    /// What it is without them.
    pub node: SchemaNode<'t>,
}

/// A schema without notes of its own.
#[cycle(template)]
#[derive(Drop)]
pub enum SchemaNode<'t> {
    /// A finished schema.
    Finished(Schema),
    /// A finished schema of these keywords; of equal keywords the last one counts.
    Keywords(Vec<(&'t str, Scalar<'t>)>),
    /// The schema of all values of one JSON type.
    OfType(&'t str),
    /// The answer of a row.
    Asked(Ask),
    /// An object of these keywords; of equal keywords the last one counts.
    Object(Vec<(&'t str, ValueTemplate<'t>)>),
    /// A schema that accepts null too.
    Nullable(Box<SchemaTemplate<'t>>),
    /// A schema with this title.
    Titled(&'t str, Box<SchemaTemplate<'t>>),
    /// A schema into which the keywords of these answers are put, one after another.
    WithMembers(Box<SchemaTemplate<'t>>, Vec<Ask>),
    /// The schema of a variant's content, with the variant's name as a required member.
    Tagged(Box<Tag<'t>>, Box<SchemaTemplate<'t>>),
}

/// The value of a keyword, in which rows are asked.
#[cycle(template)]
#[derive(Drop)]
pub enum ValueTemplate<'t> {
    /// A finished value.
    Value(Value),
    /// A text.
    Text(&'t str),
    /// A list of texts.
    Texts(Vec<&'t str>),
    /// A schema.
    Schema(SchemaTemplate<'t>),
    /// A list of schemas.
    Schemas(Vec<SchemaTemplate<'t>>),
    /// An object with a schema under each name; of equal names the last one counts.
    Named(Vec<(&'t str, SchemaTemplate<'t>)>),
}

impl<'t> SchemaTemplate<'t> {
    /// What is asked, in the order of the text.
    pub fn asks(&self, alloc: Global) -> Result<Vec<Ask>, AllocError>
        ensures { IfOk result (λ v. map ask_of v.items ≡ asks_of (template_view self.now)) }
    {
        let mut asks = Vec::new(alloc);
        add_asks(self, &mut asks)?;
        Ok(asks)
    }
}

#[cycle(add_asks)]
fn add_asks(template: &SchemaTemplate<'_>, asks: &mut Vec<Ask>) -> Result<(), AllocError>
    ensures { OnOk result (map ask_of asks.new.items
        ≡ map ask_of asks.old.items ++ asks_of (template_view template.now)) }
{
    add_node_asks(&template.node, asks)
}

#[cycle(add_asks)]
fn add_node_asks(node: &SchemaNode<'_>, asks: &mut Vec<Ask>) -> Result<(), AllocError>
    ensures { OnOk result (map ask_of asks.new.items
        ≡ map ask_of asks.old.items ++ asks_of (node_view node.now)) }
{
    match node {
        SchemaNode::Finished(_) => Ok(()),
        SchemaNode::Keywords(_) => Ok(()),
        SchemaNode::OfType(_) => Ok(()),
        SchemaNode::Asked(ask) => Ok(asks.push(*ask)?),
        SchemaNode::Object(keywords) => {
            for keyword in keywords {
                add_value_asks(&keyword.1, asks)?;
            }
            Ok(())
        }
        SchemaNode::Nullable(inner) => add_asks(inner, asks),
        SchemaNode::Titled(_, inner) => add_asks(inner, asks),
        SchemaNode::WithMembers(inner, members) => {
            add_asks(inner, asks)?;
            asks.extend_from_slice(members)?;
            Ok(())
        }
        SchemaNode::Tagged(_, inner) => add_asks(inner, asks),
    }
}

#[cycle(add_asks)]
fn add_value_asks(template: &ValueTemplate<'_>, asks: &mut Vec<Ask>) -> Result<(), AllocError>
    ensures { OnOk result (map ask_of asks.new.items
        ≡ map ask_of asks.old.items ++ asks_of (value_view template.now)) }
{
    match template {
        ValueTemplate::Value(_) => Ok(()),
        ValueTemplate::Text(_) => Ok(()),
        ValueTemplate::Texts(_) => Ok(()),
        ValueTemplate::Schema(schema) => add_asks(schema, asks),
        ValueTemplate::Schemas(schemas) => {
            for schema in schemas {
                add_asks(schema, asks)?;
            }
            Ok(())
        }
        ValueTemplate::Named(schemas) => {
            for named in schemas {
                add_asks(&named.1, asks)?;
            }
            Ok(())
        }
    }
}

/// The schema with these parts in the places of the rows: the first part for the first row, and
/// so on. A missing part is `true`.
pub fn fill(
    alloc: Global,
    template: SchemaTemplate<'_>,
    parts: VecDeque<Schema>,
) -> Result<Schema, AllocError>
    ensures { IfOk result (λ s. s ≡ filled (template_view template.entry) parts.items) }
{
    let mut rest = parts;
    let schema = fill_schema(alloc, template, &mut rest)?;
    Ok(schema)
}

// The notes come after the rest, of which they take the place.
#[cycle(fill)]
fn fill_schema(
    alloc: Global,
    template: SchemaTemplate<'_>,
    parts: &mut VecDeque<Schema>,
) -> Result<Schema, AllocError>
    ensures value { IfOk result (λ s. s ≡ filled (template_view template.entry) parts.old.items) }
    ensures left { OnOk result (parts.new.items
        ≡ left (template_view template.entry) parts.old.items) }
{
    let SchemaTemplate { notes, node } = template;
    let mut schema = fill_node(alloc, node, parts)?;
    if let Some(notes) = notes {
        annotate(alloc, &mut schema, notes)?;
    }
    Ok(schema)
}

// What a schema with others in it needs is in functions of its own, so that a call of this one
// has few locals.
#[cycle(fill)]
#[tactic(auto, using(crate::proofs::Templates::seen_object))]
fn fill_node(
    alloc: Global,
    node: SchemaNode<'_>,
    parts: &mut VecDeque<Schema>,
) -> Result<Schema, AllocError>
    ensures value { IfOk result (λ s. s ≡ filled (node_view node.entry) parts.old.items) }
    ensures left { OnOk result (parts.new.items ≡ left (node_view node.entry) parts.old.items) }
{
    match node {
        SchemaNode::Finished(schema) => Ok(schema),
        SchemaNode::Keywords(keywords) => schema_of(alloc, &keywords),
        SchemaNode::OfType(name) => type_alone(alloc, name),
        SchemaNode::Asked(_) => Ok(next_part(parts)),
        SchemaNode::Object(keywords) => fill_object(alloc, keywords, parts),
        SchemaNode::Nullable(inner) => fill_nullable(alloc, inner, parts),
        SchemaNode::Titled(title, inner) => fill_titled(alloc, inner, title, parts),
        SchemaNode::WithMembers(inner, members) => fill_with_members(alloc, inner, members, parts),
        SchemaNode::Tagged(tag, inner) => fill_tagged(alloc, inner, &tag, parts),
    }
}

#[cycle(fill)]
#[inline(never)]
fn fill_object<'t>(
    alloc: Global,
    keywords: Vec<(&'t str, ValueTemplate<'t>)>,
    parts: &mut VecDeque<Schema>,
) -> Result<Schema, AllocError>
    ensures value { IfOk result (λ s. s
        ≡ filled (object_with (map keyword_view keywords.entry.items)) parts.old.items) }
    ensures left { OnOk result (parts.new.items
        ≡ left (object_with (map keyword_view keywords.entry.items)) parts.old.items) }
{
    let mut members = Map::new(alloc);
    for (key, template) in keywords {
        let value = fill_value(alloc, template, parts)?;
        serde_json::put(&mut members, alloc, key, value)?;
    }
    Ok(Schema::from(members))
}

#[cycle(fill)]
#[inline(never)]
fn fill_nullable(
    alloc: Global,
    inner: Box<SchemaTemplate<'_>>,
    parts: &mut VecDeque<Schema>,
) -> Result<Schema, AllocError>
    ensures value { IfOk result (λ s. s
        ≡ filled (nullable (template_view inner.entry.value)) parts.old.items) }
    ensures left { OnOk result (parts.new.items
        ≡ left (template_view inner.entry.value) parts.old.items) }
{
    let mut schema = fill_schema(alloc, Box::into_inner(inner), parts)?;
    allow_null(alloc, &mut schema)?;
    Ok(schema)
}

#[cycle(fill)]
#[inline(never)]
fn fill_titled(
    alloc: Global,
    inner: Box<SchemaTemplate<'_>>,
    title: &str,
    parts: &mut VecDeque<Schema>,
) -> Result<Schema, AllocError>
    ensures value { IfOk result (λ s. s ≡ filled (noted (title_alone title.now)
        (template_view inner.entry.value)) parts.old.items) }
    ensures left { OnOk result (parts.new.items
        ≡ left (template_view inner.entry.value) parts.old.items) }
{
    let mut schema = fill_schema(alloc, Box::into_inner(inner), parts)?;
    set(alloc, &mut schema, "title", title)?;
    Ok(schema)
}

#[cycle(fill)]
#[inline(never)]
fn fill_with_members(
    alloc: Global,
    inner: Box<SchemaTemplate<'_>>,
    members: Vec<Ask>,
    parts: &mut VecDeque<Schema>,
) -> Result<Schema, AllocError>
    ensures value { IfOk result (λ s. s ≡ filled (with_answers
        (template_view inner.entry.value) (map ask_of members.items)) parts.old.items) }
    ensures left { OnOk result (parts.new.items ≡ left (with_answers
        (template_view inner.entry.value) (map ask_of members.items)) parts.old.items) }
{
    let mut schema = fill_schema(alloc, Box::into_inner(inner), parts)?;
    add_members(alloc, &mut schema, &members, parts)?;
    Ok(schema)
}

#[cycle(fill)]
#[inline(never)]
fn fill_tagged(
    alloc: Global,
    inner: Box<SchemaTemplate<'_>>,
    tag: &Tag<'_>,
    parts: &mut VecDeque<Schema>,
) -> Result<Schema, AllocError>
    ensures value { IfOk result (λ s. s ≡ filled (tagged tag.now.tag.now tag.now.name.now
        tag.now.closed (template_view inner.entry.value)) parts.old.items) }
    ensures left { OnOk result (parts.new.items
        ≡ left (template_view inner.entry.value) parts.old.items) }
{
    let mut schema = fill_schema(alloc, Box::into_inner(inner), parts)?;
    apply_internal_enum_variant_tag(alloc, &mut schema, tag.tag, tag.name, tag.closed)?;
    Ok(schema)
}

#[cycle(fill)]
#[tactic(auto, using(crate::proofs::Templates::seen_named))]
fn fill_value(
    alloc: Global,
    template: ValueTemplate<'_>,
    parts: &mut VecDeque<Schema>,
) -> Result<Value, AllocError>
    ensures value { IfOk result (λ v. view v
        ≡ filled (value_view template.entry) parts.old.items) }
    ensures left { OnOk result (parts.new.items
        ≡ left (value_view template.entry) parts.old.items) }
{
    match template {
        ValueTemplate::Value(value) => Ok(value),
        ValueTemplate::Text(text) => Value::try_from_str(alloc, text),
        ValueTemplate::Texts(texts) => texts_value(alloc, &texts),
        ValueTemplate::Schema(schema) => {
            let schema = fill_schema(alloc, schema, parts)?;
            Ok(schema.to_value())
        }
        ValueTemplate::Schemas(schemas) => fill_schemas(alloc, schemas, parts),
        ValueTemplate::Named(schemas) => fill_named(alloc, schemas, parts),
    }
}

#[cycle(fill)]
#[inline(never)]
fn fill_schemas(
    alloc: Global,
    schemas: Vec<SchemaTemplate<'_>>,
    parts: &mut VecDeque<Schema>,
) -> Result<Value, AllocError>
    ensures value { IfOk result (λ v. view v ≡ filled (list (templates_of
        (map template_view schemas.entry.items))) parts.old.items) }
    ensures left { OnOk result (parts.new.items ≡ left (list (templates_of
        (map template_view schemas.entry.items))) parts.old.items) }
{
    let mut values = Vec::with_capacity(alloc, schemas.len())?;
    for template in schemas {
        let schema = fill_schema(alloc, template, parts)?;
        serde_json::push(&mut values, schema.to_value())?;
    }
    Ok(Value::Array(values))
}

#[cycle(fill)]
#[inline(never)]
fn fill_named<'t>(
    alloc: Global,
    schemas: Vec<(&'t str, SchemaTemplate<'t>)>,
    parts: &mut VecDeque<Schema>,
) -> Result<Value, AllocError>
    ensures value { IfOk result (λ v. view v
        ≡ filled (object_with (map property_view schemas.entry.items)) parts.old.items) }
    ensures left { OnOk result (parts.new.items
        ≡ left (object_with (map property_view schemas.entry.items)) parts.old.items) }
{
    let mut members = Map::new(alloc);
    for (name, template) in schemas {
        let schema = fill_schema(alloc, template, parts)?;
        serde_json::put(&mut members, alloc, name, schema.to_value())?;
    }
    Ok(Value::Object(members))
}

fn next_part(parts: &mut VecDeque<Schema>) -> Schema
    ensures value { result ≡ first parts.old.items }
    ensures left { parts.new.items ≡ behind parts.old.items }
{
    match parts.pop_front() {
        Some(part) => part,
        None => Schema::from(true),
    }
}

// Puts the keywords of as many parts into the schema as members are asked for.
fn add_members(
    alloc: Global,
    schema: &mut Schema,
    members: &[Ask],
    parts: &mut VecDeque<Schema>,
) -> Result<(), AllocError>
    ensures value { OnOk result (schema.new
        ≡ filled (with_answers (finished schema.old) (map ask_of members.now)) parts.old.items) }
    ensures left { OnOk result (parts.new.items
        ≡ left (with_answers (finished schema.old) (map ask_of members.now)) parts.old.items) }
{
    for _member in members {
        let part = next_part(parts);
        flatten(alloc, schema, part)?;
    }
    Ok(())
}
