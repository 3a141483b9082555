//! Values of shapes that have no rows inside.
ghost use Rattle.std.specs.Prelude.{◌≡◌, ◌&&◌, ◌||◌, ◌==◌, not};
ghost use Rattle.schemars_literals.specs.Words.{unsigned, as_str, as_array, view, number_view, items_view, code_points, is_null, whole_number, holds, every_item, is_byte, is_byte_text, is_of_kind, is_text, is_zero, least_of, greatest_of, number_eq, within, is_number_of_kind};
ghost use Rattle.schemars_literals.specs.Kinds.{is_from, is_up_to};

use schemars_assertions::{are_distinct, code_points, is_whole, numbers_le};
use schemars_schema::numbers_eq;
use schemars_types::{Contract, IntKind};
use serde_json::{Number, Value};

/// Whether a value is null.
pub fn is_null(value: &Value) -> bool
    ensures { result ≡ is_null (view value.now) }
{
    value.is_null()
}

/// Whether a value is a whole number of a kind.
#[tactic(auto, using(crate::proofs::OfKind::of_kind))]
pub fn is_int(kind: IntKind, value: &Value) -> bool
    ensures { result ≡ holds (whole_number (view value.now)) (is_of_kind kind) }
{
    match value.as_number() {
        Some(number) => is_number_of_kind(kind, *number),
        None => false,
    }
}

/// Whether a value is a whole number of a kind, and not 0.
#[tactic(auto, using(crate::proofs::OfKind::not_zero))]
pub fn is_non_zero(kind: IntKind, value: &Value) -> bool
    ensures { result ≡ holds (whole_number (view value.now))
        (λ z. is_of_kind kind z && not (is_zero z)) }
{
    match value.as_number() {
        Some(number) => is_number_not_zero(kind, *number),
        None => false,
    }
}

fn is_number_not_zero(kind: IntKind, number: Number) -> bool
    ensures { result ≡ (is_number_of_kind kind (number_view number)
        && not (number_eq (unsigned 0) (number_view number))) }
{
    is_number_of_kind(kind, number) && !is_zero(number)
}

fn is_number_of_kind(kind: IntKind, number: Number) -> bool
    ensures { result ≡ is_number_of_kind kind (number_view number) }
{
    is_whole(number) && (is_from(least(kind), number) && is_up_to(greatest(kind), number))
}

fn is_zero(number: Number) -> bool
    ensures { result ≡ number_eq (unsigned 0) (number_view number) }
{
    numbers_eq(Number::from(0u64), number)
}

fn is_from(least: Option<i64>, number: Number) -> bool
    ensures { result ≡ is_from least (number_view number) }
{
    match least {
        Some(bound) => numbers_le(Number::from(bound), number),
        None => true,
    }
}

fn is_up_to(greatest: Option<i64>, number: Number) -> bool
    ensures { result ≡ is_up_to greatest (number_view number) }
{
    match greatest {
        Some(bound) => numbers_le(number, Number::from(bound)),
        None => true,
    }
}

fn least(kind: IntKind) -> Option<i64>
    ensures { result ≡ least_of kind }
{
    match kind {
        IntKind::I8 => Some(-128),
        IntKind::I16 => Some(-32768),
        IntKind::I32 => None,
        IntKind::I64 => None,
        IntKind::I128 => None,
        IntKind::Isize => None,
        IntKind::U8 => Some(0),
        IntKind::U16 => Some(0),
        IntKind::U32 => Some(0),
        IntKind::U64 => Some(0),
        IntKind::U128 => Some(0),
        IntKind::Usize => Some(0),
    }
}

fn greatest(kind: IntKind) -> Option<i64>
    ensures { result ≡ greatest_of kind }
{
    match kind {
        IntKind::I8 => Some(127),
        IntKind::I16 => Some(32767),
        IntKind::U8 => Some(255),
        IntKind::U16 => Some(65535),
        IntKind::I32 => None,
        IntKind::I64 => None,
        IntKind::I128 => None,
        IntKind::Isize => None,
        IntKind::U32 => None,
        IntKind::U64 => None,
        IntKind::U128 => None,
        IntKind::Usize => None,
    }
}

/// Whether a value is a text of one code point.
pub fn is_char(value: &Value) -> bool
    ensures { result ≡ holds (as_str (view value.now)) (λ s. code_points s == 1) }
{
    match value.as_str() {
        Some(text) => code_points(text) == 1,
        None => false,
    }
}

/// Whether a value is a list of bytes, or a text where values are read.
pub fn is_bytes(contract: Contract, value: &Value) -> bool
    ensures { result ≡ (holds (as_array (view value.now)) (every_item is_byte)
        || is_byte_text contract (view value.now)) }
{
    is_list_of_bytes(value) || is_byte_text(contract, value)
}

fn is_byte_text(contract: Contract, value: &Value) -> bool
    ensures { result ≡ is_byte_text contract (view value.now) }
{
    match contract {
        Contract::Deserialize => value.is_string(),
        Contract::Serialize => false,
    }
}

fn is_list_of_bytes(value: &Value) -> bool
    ensures { result ≡ holds (as_array (view value.now)) (every_item is_byte) }
{
    match value.as_array() {
        Some(items) => are_bytes(items),
        None => false,
    }
}

fn are_bytes(items: &[Value]) -> bool
    ensures { result ≡ every_item is_byte (items_view items.now) }
{
    for item in items {
        if !is_int(IntKind::U8, item) {
            return false;
        }
    }
    true
}

/// How many items a list may have, and which.
#[derive(Clone, Copy)]
pub enum Limit {
    /// any items
    Nothing,
    /// no two that are equal
    Distinct,
    /// so many
    Exactly(u64),
    /// so many or less
    AtMost(u64),
}

/// Whether items are within a limit.
#[tactic(auto, using(schemars_assertions::proofs::Lists::items_counted))]
pub fn is_within(limit: Limit, items: &[Value]) -> bool
    ensures { result ≡ within limit (items_view items.now) }
{
    match limit {
        Limit::Nothing => true,
        Limit::Distinct => are_distinct(items),
        Limit::Exactly(len) => items.len() as u64 == len,
        Limit::AtMost(cap) => items.len() as u64 <= cap,
    }
}

/// Whether a value is this text.
pub fn is_text(text: &str, value: &Value) -> bool
    ensures { result ≡ is_text text.now (view value.now) }
{
    match value.as_str() {
        Some(found) => text == found,
        None => false,
    }
}
