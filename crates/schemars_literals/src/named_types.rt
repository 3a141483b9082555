//! The types that a literal names.
ghost use Rattle.std.specs.Prelude.{◌≡◌, option_map};
ghost use Rattle.schemars_literals.specs.Words.{string, array, view, items_view, where_given, is_of_types};

use schemars_assertions::{are_texts, are_type_names, is_of_some_type, is_of_type, is_type_name};
use serde_json::Value;

/// Whether a value is of one of the types that are named, where types are named.
pub fn is_of_types(types: Option<&Value>, value: &Value) -> bool
    ensures { result ≡ where_given (option_map (λ v. view v.now) types.entry)
        (λ types. is_of_types types (view value.now)) }
{
    match types {
        Some(Value::String(name)) => is_of_named(name.as_str(), value),
        Some(Value::Array(names)) => is_of_listed(names, value),
        _ => true,
    }
}

fn is_of_named(name: &str, value: &Value) -> bool
    ensures { result ≡ is_of_types (string name.now) (view value.now) }
{
    !is_type_name(name) || is_of_type(name, value)
}

#[tactic(auto, using(crate::proofs::Types::no_texts, crate::proofs::Types::no_types, crate::proofs::Types::types_there))]
fn is_of_listed(names: &[Value], value: &Value) -> bool
    ensures { result ≡ is_of_types (array (items_view names.now)) (view value.now) }
{
    if !are_texts(names) {
        return true;
    }
    if !are_type_names(names) {
        return true;
    }
    is_of_some_type(names, value)
}
