//! What is so of each value that `serde_json` holds.
ghost use Rattle.serde_json.specs.View.{view, number_view, items_view, members_view};
ghost use Rattle.schemars_schema.specs.Numbers.{IsNumber};
ghost use Rattle.schemars_schema.specs.Json.{IsJson, AreJson, AreJsonMembers};

use serde_json::{Map, Number, Value};

/// Does nothing. A value is JSON: its texts are UTF-8, its keys ascend, and its numbers are finite.
#[cycle(look)]
pub fn look(value: &Value)
    ensures { IsJson (view value.now) }
{
    match value {
        Value::Null | Value::Bool(_) => {}
        Value::String(_) => {}
        Value::Number(number) => look_at_number(*number),
        Value::Array(items) => look_at_items(items),
        Value::Object(members) => look_at_members(members),
    }
}

fn look_at_number(number: Number)
    ensures { IsNumber (number_view number) }
{
    let _number = number;
}

#[cycle(look)]
fn look_at_items(items: &Vec<Value>)
    ensures { AreJson (items_view items.now.items) }
{
    for item in items {
        look(item);
    }
}

#[cycle(look)]
fn look_at_members(members: &Map<String, Value>)
    ensures { AreJsonMembers (members_view members.now.entries) }
{
    for value in members.values() {
        look(value);
    }
}
