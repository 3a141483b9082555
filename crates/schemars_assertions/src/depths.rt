//! How deep a value is.
ghost use Rattle.std.specs.Prelude.{◌≡◌, IfSome};
ghost use Rattle.schemars_assertions.specs.Words.{depth, items_depth, members_depth, view, items_view, members_view};

use serde_json::{Map, Value};

/// The height of a value: 0 for scalars, else one more than the greatest height inside.
#[cycle(depth)]
pub fn depth(value: &Value) -> Option<u64>
    ensures { IfSome result (λ n. n ≡ depth (view value.now)) }
{
    match value {
        Value::Null => Some(0),
        Value::Bool(_) => Some(0),
        Value::Number(_) => Some(0),
        Value::String(_) => Some(0),
        Value::Array(items) => items_depth(items)?.checked_add(1),
        Value::Object(members) => members_depth(members)?.checked_add(1),
    }
}

#[cycle(depth)]
fn items_depth(items: &Vec<Value>) -> Option<u64>
    ensures { IfSome result (λ n. n ≡ items_depth (items_view items.now.items)) }
{
    let mut deepest = 0;
    for item in items {
        deepest = deepest.max(depth(item)?);
    }
    Some(deepest)
}

#[cycle(depth)]
fn members_depth(members: &Map<String, Value>) -> Option<u64>
    ensures { IfSome result (λ n. n ≡ members_depth (members_view members.now.entries)) }
{
    let mut deepest = 0;
    for (_, value) in members.iter() {
        deepest = deepest.max(depth(value)?);
    }
    Some(deepest)
}
