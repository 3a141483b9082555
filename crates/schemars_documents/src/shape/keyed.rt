//! The templates of maps by their keys.
ghost use Rattle.std.specs.Prelude.{◌≡◌, ◌∷◌, ◌++◌, None, map, filter, not, bytes_eq, IfOk, OnOk};
ghost use Rattle.schemars_documents.specs.Words.{IsChecked, key_options, keys, options_of, row, node_view, value_view, keyword_view, property_view, pattern_properties_at, other_values, values_template, values_of};

use schemars_templates::template::maps::{add_properties, typed};
use schemars_templates::template::nodes::{bare, named, object_with, row, row_value, truth};
use schemars_templates::template::{SchemaNode, SchemaTemplate, ValueTemplate};
use schemars_types::{KeyOptions, TypeNo, Types, key_options};
use std::alloc::{AllocError, Global};

/// A map with the keys that row `key` allows, and values of row `value`.
pub fn values_template<'t>(
    alloc: Global,
    types: &'t Types,
    key: TypeNo,
    value: TypeNo,
) -> Result<SchemaNode<'t>, AllocError>
    requires { IsChecked types.now }
    ensures { IfOk result (λ t. node_view t
        ≡ values_template (key_options types.now key) value) }
{
    let options = key_options(alloc, types, key)?;
    options_template(alloc, &options, value)
}

// A map with these keys. The pattern of integers comes before the others.
fn options_template<'t>(
    alloc: Global,
    options: &KeyOptions<'t>,
    value: TypeNo,
) -> Result<SchemaNode<'t>, AllocError>
    ensures { IfOk result (λ t. node_view t ≡ values_template (options_of options.now) value) }
{
    let others = options.others;
    let texts = options.texts.as_slice();
    let patterns = options.patterns.as_slice();
    let Some(integers) = options.integers else {
        return keyed_template(alloc, others, texts, patterns, value);
    };
    let patterns = with_first(alloc, integers.pattern(), patterns)?;
    keyed_template(alloc, others, texts, &patterns, value)
}

// This pattern, and the others of these.
fn with_first<'t>(
    alloc: Global,
    first: &'t str,
    patterns: &[&'t str],
) -> Result<Vec<&'t str>, AllocError>
    ensures { IfOk result (λ v. map (λ t. t.now) v.items
        ≡ first.now ∷ filter (λ p. not (bytes_eq p first.now)) (map (λ t. t.now) patterns.now)) }
{
    let mut all = Vec::new(alloc);
    all.push(first)?;
    for pattern in patterns {
        if *pattern != first {
            all.push(*pattern)?;
        }
    }
    Ok(all)
}

// A map whose keys are these texts, or match one of the patterns, or are any others.
fn keyed_template<'t>(
    alloc: Global,
    others: bool,
    texts: &[&'t str],
    patterns: &[&'t str],
    value: TypeNo,
) -> Result<SchemaNode<'t>, AllocError>
    ensures { IfOk result (λ t. node_view t
        ≡ values_template (keys others (map (λ t. t.now) texts.now) None
        (map (λ t. t.now) patterns.now)) value) }
{
    let mut keywords: Vec<(&'t str, ValueTemplate<'t>)> = typed(alloc, "object", 4)?;
    keywords.push(("additionalProperties", other_values(others, value)))?;
    add_pattern_properties(alloc, &mut keywords, patterns, value)?;
    let properties = values_at(alloc, texts, value)?;
    add_properties(&mut keywords, properties)?;
    Ok(object_with(keywords))
}

// What is said of keys that are not listed and match no pattern.
fn other_values<'t>(others: bool, value: TypeNo) -> ValueTemplate<'t>
    ensures { value_view result ≡ other_values others value }
{
    if others {
        row_value(value)
    } else {
        truth(false)
    }
}

fn add_pattern_properties<'t>(
    alloc: Global,
    keywords: &mut Vec<(&'t str, ValueTemplate<'t>)>,
    patterns: &[&'t str],
    value: TypeNo,
) -> Result<(), AllocError>
    ensures { OnOk result (map keyword_view keywords.new.items ≡ map keyword_view keywords.old.items
        ++ pattern_properties_at (values_of value (map (λ t. t.now) patterns.now))) }
{
    if patterns.is_empty() {
        return Ok(());
    }
    let values = values_at(alloc, patterns, value)?;
    keywords.push(("patternProperties", named(values)))?;
    Ok(())
}

// The value's schema under each of these keys.
fn values_at<'t>(
    alloc: Global,
    keys: &[&'t str],
    value: TypeNo,
) -> Result<Vec<(&'t str, SchemaTemplate<'t>)>, AllocError>
    ensures { IfOk result (λ v. map property_view v.items
        ≡ values_of value (map (λ t. t.now) keys.now)) }
{
    let mut values = Vec::with_capacity(alloc, keys.len())?;
    for key in keys {
        values.push((*key, bare(row(value))))?;
    }
    Ok(values)
}
