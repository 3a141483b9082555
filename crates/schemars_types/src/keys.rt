//! Which keys the type of a row allows.
ghost use Rattle.std.specs.Prelude.{◌≡◌, ℕ, [], None, IfOk, OnOk, Contains, map, option_map, option_and_then, false, is_none, is_some};
ghost use Rattle.schemars_types.specs.Words.{variant_of, payload_of, newtype_payload, payload_same, of_variants, texts_in, SameValueEdge, IsChecked, keys, are_names, external_options, untagged_options, all_options, member_options, key_options, or_any_text, typed_options, literal_texts, texts_options, literal_integers, as_str, get, items_view, options_of, options_at, adding, some_takes_all, HoldsRows};

pub(crate) mod options;

use crate::keys::options::KeyOptions;
use crate::table::Types;
use indexmap::IndexSet;
use schemars_schema::Schema;
use schemars_shapes::{IntegerKeys, Payload, Shape, TypeNo, Variant, is_bare_unit};
use serde_json::Value;
use std::alloc::{AllocError, Global};

/// The keys that a map may have whose keys are of row `key`, in a table without faults.
pub fn key_options<'t>(
    alloc: Global,
    types: &'t Types,
    key: TypeNo,
) -> Result<KeyOptions<'t>, AllocError>
    requires { IsChecked types.now }
    ensures { IfOk result (λ o. options_of o ≡ key_options types.now key) }
{
    let mut found = Found {
        options: KeyOptions::none(alloc),
        rows: IndexSet::new(alloc),
    };
    add_row(types, key, &mut found)?;
    Ok(found.options)
}

/// What the search has found.
#[derive(Drop)]
struct Found<'t> {
    options: KeyOptions<'t>,
    /// the rows whose options are among these
    rows: IndexSet<TypeNo>,
}

// Adds what row `n` allows.
#[cycle(keys)]
fn add_row<'t>(types: &'t Types, n: TypeNo, found: &mut Found<'t>) -> Result<(), AllocError>
    requires checked { IsChecked types.now }
    requires holds { HoldsRows types.now found.old.rows.keys (options_of found.old.options) }
    ensures added { OnOk result (options_of found.new.options
        ≡ adding (options_of found.old.options) (options_at types.now n)) }
    ensures holds { OnOk result (HoldsRows types.now found.new.rows.keys
        (options_of found.new.options)) }
{
    if found.rows.contains(&n) {
        return Ok(());
    }
    add_own(types, n, found)?;
    found.rows.insert(n)?;
    Ok(())
}

// The same for a row that was not met.
#[cycle(keys)]
fn add_own<'t>(types: &'t Types, n: TypeNo, found: &mut Found<'t>) -> Result<(), AllocError>
    requires checked { IsChecked types.now }
    requires holds { HoldsRows types.now found.old.rows.keys (options_of found.old.options) }
    ensures added { OnOk result (options_of found.new.options
        ≡ adding (options_of found.old.options) (options_at types.now n)) }
    ensures holds { OnOk result (HoldsRows types.now found.new.rows.keys
        (options_of found.new.options)) }
{
    let Some(entry) = types.entry(n) else {
        found.options.allow_others();
        return Ok(());
    };
    match &entry.shape {
        Shape::Int(kind) => found.options.add_integers(IntegerKeys::of_kind(*kind)),
        Shape::NonZero(_) => found.options.add_integers(IntegerKeys::Signed),
        Shape::Newtype(m) => add_row(types, *m, found)?,
        Shape::External(variants) => add_external(variants, &mut found.options)?,
        Shape::Untagged(variants) => add_untagged(types, n, variants, found)?,
        Shape::Literal(schema) => add_literal(schema, &mut found.options)?,
        _ => found.options.allow_others(),
    }
    Ok(())
}

// Adds what the members of row `n`, an untagged enum, allow together.
#[cycle(keys)]
fn add_untagged<'t>(
    types: &'t Types,
    n: TypeNo,
    variants: &'t [Variant],
    found: &mut Found<'t>,
) -> Result<(), AllocError>
    requires checked { IsChecked types.now }
    requires edges { (m : ℕ) → Contains (of_variants payload_same (map variant_of variants.now)) m
        → SameValueEdge types.now n m }
    requires holds { HoldsRows types.now found.old.rows.keys (options_of found.old.options) }
    ensures added { OnOk result (options_of found.new.options
        ≡ adding (options_of found.old.options)
        (or_any_text (untagged_options (all_options types.now) (map variant_of variants.now)))) }
    ensures holds { OnOk result (HoldsRows types.now found.new.rows.keys
        (options_of found.new.options)) }
{
    if variants.is_empty() || some_takes_all(types, variants) {
        found.options.allow_others();
        return Ok(());
    }
    for variant in variants {
        add_member(types, n, &variant.payload, found)?;
    }
    Ok(())
}

// Adds what one of these members allows.
#[cycle(keys)]
fn add_member<'t>(
    types: &'t Types,
    n: TypeNo,
    payload: &'t Payload,
    found: &mut Found<'t>,
) -> Result<(), AllocError>
    requires checked { IsChecked types.now }
    requires edge { (m : ℕ) → payload_of payload.now ≡ newtype_payload m
        → SameValueEdge types.now n m }
    requires holds { HoldsRows types.now found.old.rows.keys (options_of found.old.options) }
    ensures added { OnOk result (options_of found.new.options
        ≡ adding (options_of found.old.options)
        (or_any_text (member_options (all_options types.now) (payload_of payload.now)))) }
    ensures holds { OnOk result (HoldsRows types.now found.new.rows.keys
        (options_of found.new.options)) }
{
    let _ = n;
    match payload {
        Payload::Newtype(m) => add_row(types, *m, found)?,
        Payload::Unit => found.options.allow_others(),
        Payload::Tuple(_) => found.options.allow_others(),
        Payload::Struct(_) => found.options.allow_others(),
    }
    Ok(())
}

// Whether one of the members of an untagged enum takes all texts.
fn some_takes_all(types: &Types, variants: &[Variant]) -> bool
    requires { IsChecked types.now }
    ensures { result ≡ some_takes_all (all_options types.now) (map variant_of variants.now) }
{
    for variant in variants {
        if member_takes_all(types, &variant.payload) {
            return true;
        }
    }
    false
}

fn member_takes_all(types: &Types, payload: &Payload) -> bool
    requires { IsChecked types.now }
    ensures { result ≡ is_none (member_options (all_options types.now) (payload_of payload.now)) }
{
    match payload {
        Payload::Newtype(m) => takes_all(types, *m),
        Payload::Unit => false,
        Payload::Tuple(_) => false,
        Payload::Struct(_) => false,
    }
}

// Whether row `n` takes all texts, so that nothing else is said of keys beside it.
fn takes_all(types: &Types, n: TypeNo) -> bool
    requires { IsChecked types.now }
    ensures { result ≡ is_none (all_options types.now n) }
{
    let Some(entry) = types.entry(n) else {
        return false;
    };
    match &entry.shape {
        Shape::Any => true,
        Shape::Newtype(m) => takes_all(types, *m),
        Shape::External(variants) => variants.is_empty(),
        Shape::Internal(internal) => internal.variants.is_empty(),
        Shape::Adjacent(adjacent) => adjacent.variants.is_empty(),
        Shape::Untagged(variants) => variants.is_empty(),
        Shape::Literal(schema) => schema.as_bool().is_some(),
        _ => false,
    }
}

// Adds what an externally tagged enum allows.
fn add_external<'t>(variants: &'t [Variant], options: &mut KeyOptions<'t>) -> Result<(), AllocError>
    ensures { OnOk result (options_of options.new
        ≡ adding (options_of options.old)
        (or_any_text (external_options (map variant_of variants.now)))) }
{
    if !are_names(variants) {
        options.allow_others();
        return Ok(());
    }
    add_names(variants, options)
}

fn add_names<'t>(variants: &'t [Variant], options: &mut KeyOptions<'t>) -> Result<(), AllocError>
    ensures { OnOk result (options_of options.new
        ≡ adding (options_of options.old)
        (keys false (map (λ x. x.name) (map variant_of variants.now)) None [])) }
{
    for variant in variants {
        options.add_text(variant.name.as_str())?;
    }
    Ok(())
}

// Adds what a literal allows, by its type.
fn add_literal<'t>(schema: &'t Schema, options: &mut KeyOptions<'t>) -> Result<(), AllocError>
    ensures { OnOk result (options_of options.new
        ≡ adding (options_of options.old) (typed_options schema.now)) }
{
    let Some(name) = text_at(schema, "type") else {
        options.allow_others();
        return Ok(());
    };
    if name == "string" {
        return add_literal_texts(schema, options);
    }
    if name == "integer" {
        options.add_integers(literal_integers(schema));
        return Ok(());
    }
    options.allow_others();
    Ok(())
}

// The text under a keyword.
fn text_at<'t>(schema: &'t Schema, key: &str) -> Option<&'t str>
    ensures { option_map (λ t. t.now) result ≡ option_and_then as_str (get key.now schema.now) }
{
    match schema.get(key) {
        Some(value) => value.as_str(),
        None => None,
    }
}

// Those of its pattern, or else those in its list.
fn add_literal_texts<'t>(schema: &'t Schema, options: &mut KeyOptions<'t>) -> Result<(), AllocError>
    ensures { OnOk result (options_of options.new
        ≡ adding (options_of options.old) (literal_texts schema.now)) }
{
    if let Some(pattern) = text_at(schema, "pattern") {
        return options.add_pattern(pattern);
    }
    match schema.get("enum") {
        Some(Value::Array(values)) => add_texts(values, options),
        _ => {
            options.allow_others();
            Ok(())
        }
    }
}

// Adds these texts, or any text if one of the values is not a text.
fn add_texts<'t>(values: &'t [Value], options: &mut KeyOptions<'t>) -> Result<(), AllocError>
    ensures { OnOk result (options_of options.new
        ≡ adding (options_of options.old) (texts_options (items_view values.now))) }
{
    if !are_texts(values) {
        options.allow_others();
        return Ok(());
    }
    for value in values {
        if let Some(text) = value.as_str() {
            options.add_text(text)?;
        }
    }
    Ok(())
}

fn are_texts(values: &[Value]) -> bool
    ensures { result ≡ is_some (texts_in (items_view values.now)) }
{
    for value in values {
        if value.as_str().is_none() {
            return false;
        }
    }
    true
}

fn literal_integers(schema: &Schema) -> IntegerKeys
    ensures { result ≡ literal_integers schema.now }
{
    let Some(least) = schema.get("minimum") else {
        return IntegerKeys::Signed;
    };
    match least.as_u64() {
        Some(0) => IntegerKeys::Unsigned,
        _ => IntegerKeys::Signed,
    }
}

// Whether there are variants, and each is written as its name.
fn are_names(variants: &[Variant]) -> bool
    ensures { result ≡ are_names (map variant_of variants.now) }
{
    if variants.is_empty() {
        return false;
    }
    for variant in variants {
        if !is_bare_unit(variant) {
            return false;
        }
    }
    true
}
