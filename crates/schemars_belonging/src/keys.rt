//! Which keys a map may have, by the row of its keys.
ghost use Rattle.std.specs.Prelude.{◌≡◌, None, Some, if◌then◌else◌, map, option_map};
ghost use Rattle.schemars_belonging.specs.Words.{list_all, is_listed, shape_of, variant_of, payload_of, is_bare_unit, is_key_allowed, key_options, options_within, shape_options, external_options, untagged_options, members_options, member_options, said_of, said_by, any_said, allowed};
ghost use Rattle.schemars_schema.specs.Judges as accepting;

use schemars_assertions::Patterns;
use schemars_literals::{Said, any_said, either_said, found_said, integers_said, literal_says};
use schemars_shapes::is_bare_unit;
use schemars_types::{IntegerKeys, Payload, Shape, TypeNo, Types, Variant};

/// Whether a map may have a key whose keys are of row `n`.
#[tactic(auto, using(crate::proofs::KeyOptions::any_key))]
pub fn is_key_allowed<P: Patterns>(types: &Types, patterns: &P, n: TypeNo, key: &str) -> bool
    ensures { result ≡ is_key_allowed (P.reading patterns.now) (key_options types.now n) key.now }
{
    match row_says(types, patterns, types.len(), n, key) {
        Some(says) => is_allowed(patterns, says, key),
        None => true,
    }
}

fn is_allowed<P: Patterns>(patterns: &P, says: Said, key: &str) -> bool
    ensures { result ≡ allowed (P.reading patterns.now) key.now (said_of says) }
{
    if says.found {
        return true;
    }
    match says.integers {
        Some(keys) => patterns.matches(keys.pattern(), key),
        None => false,
    }
}

// What row `n` says of a key, where rows are asked at most `steps` deep: nothing where any text is one.
#[cycle(keys)]
fn row_says<P: Patterns>(
    types: &Types,
    patterns: &P,
    steps: usize,
    n: TypeNo,
    key: &str,
) -> Option<Said>
    ensures { option_map said_of result
        ≡ said_by (P.reading patterns.now) key.now (options_within types.now steps n) }
{
    if steps == 0 {
        return Some(any_said());
    }
    match types.entry(n) {
        Some(entry) => shape_says(types, patterns, steps - 1, &entry.shape, key),
        None => Some(any_said()),
    }
}

#[cycle(keys)]
fn shape_says<P: Patterns>(
    types: &Types,
    patterns: &P,
    steps: usize,
    shape: &Shape,
    key: &str,
) -> Option<Said>
    ensures { option_map said_of result ≡ said_by (P.reading patterns.now) key.now
        (shape_options (options_within types.now steps) (shape_of shape.now)) }
{
    match shape {
        Shape::Any => None,
        Shape::Int(kind) => Some(integers_said(IntegerKeys::of_kind(*kind))),
        Shape::NonZero(_) => Some(integers_said(IntegerKeys::Signed)),
        Shape::Newtype(m) => row_says(types, patterns, steps, *m, key),
        Shape::External(variants) => external_says(variants, key),
        Shape::Internal(internal) => tagged_says(internal.variants.is_empty()),
        Shape::Adjacent(adjacent) => tagged_says(adjacent.variants.is_empty()),
        Shape::Untagged(variants) => untagged_says(types, patterns, steps, variants, key),
        Shape::Literal(schema) => literal_says(patterns, schema, key),
        Shape::Null | Shape::Bool | Shape::Number | Shape::Text | Shape::Char => Some(any_said()),
        Shape::Formatted(_) | Shape::Bytes | Shape::SchemaItself => Some(any_said()),
        Shape::Option(_) | Shape::Seq(_) | Shape::Set(_) | Shape::Array(..) => Some(any_said()),
        Shape::UpTo(..) | Shape::Tuple(_) | Shape::Struct(_) => Some(any_said()),
        Shape::Result(..) | Shape::Either(..) | Shape::Bound(_) => Some(any_said()),
        Shape::Range(_) | Shape::Map(..) => Some(any_said()),
    }
}

// The values of variants are maps.
fn tagged_says(is_empty: bool) -> Option<Said>
    ensures { option_map said_of result ≡ (if is_empty then None else Some any_said) }
{
    if is_empty { None } else { Some(any_said()) }
}

#[cycle(keys)]
fn untagged_says<P: Patterns>(
    types: &Types,
    patterns: &P,
    steps: usize,
    variants: &[Variant],
    key: &str,
) -> Option<Said>
    ensures { option_map said_of result ≡ said_by (P.reading patterns.now) key.now
        (untagged_options (options_within types.now steps) (map variant_of variants.now)) }
{
    if variants.is_empty() {
        return None;
    }
    match members_say(types, patterns, steps, variants, key) {
        Some(says) => Some(says),
        None => Some(any_said()),
    }
}

// What the members of an untagged enum say together.
#[cycle(keys)]
fn members_say<P: Patterns>(
    types: &Types,
    patterns: &P,
    steps: usize,
    variants: &[Variant],
    key: &str,
) -> Option<Said>
    ensures { option_map said_of result ≡ said_by (P.reading patterns.now) key.now
        (members_options (options_within types.now steps) (map variant_of variants.now)) }
{
    let mut says = found_said(false);
    for variant in variants {
        match member_says(types, patterns, steps, &variant.payload, key) {
            Some(more) => says = either_said(says, more),
            None => return None,
        }
    }
    Some(says)
}

#[cycle(keys)]
fn member_says<P: Patterns>(
    types: &Types,
    patterns: &P,
    steps: usize,
    payload: &Payload,
    key: &str,
) -> Option<Said>
    ensures { option_map said_of result ≡ said_by (P.reading patterns.now) key.now
        (member_options (options_within types.now steps) (payload_of payload.now)) }
{
    match payload {
        Payload::Newtype(m) => row_says(types, patterns, steps, *m, key),
        Payload::Unit | Payload::Tuple(_) | Payload::Struct(_) => Some(any_said()),
    }
}

fn external_says(variants: &[Variant], key: &str) -> Option<Said>
    ensures { (patterns : accepting.Patterns) → option_map said_of result
        ≡ said_by patterns key.now (external_options (map variant_of variants.now)) }
{
    if variants.is_empty() {
        return None;
    }
    if are_bare_units(variants) {
        Some(found_said(is_name(variants, key)))
    } else {
        Some(any_said())
    }
}

fn are_bare_units(variants: &[Variant]) -> bool
    ensures { result ≡ list_all is_bare_unit (map variant_of variants.now) }
{
    for variant in variants {
        if !is_bare_unit(variant) {
            return false;
        }
    }
    true
}

fn is_name(variants: &[Variant], key: &str) -> bool
    ensures { result ≡ is_listed key.now (map (λ x. x.name) (map variant_of variants.now)) }
{
    for variant in variants {
        if key == variant.name.as_str() {
            return true;
        }
    }
    false
}
