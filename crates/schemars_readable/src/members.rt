//! What stands under a keyword.
ghost use Rattle.std.specs.Prelude.{◌≡◌, option_map, option_and_then};
ghost use Rattle.serde_json.specs.Find.{get_member, as_str, as_object};
ghost use Rattle.serde_json.specs.View.{view, members_view};

use serde_json::{Map, Value};

/// The text at a key.
pub fn text_in<'k>(keywords: &'k Map<String, Value>, key: &str) -> Option<&'k str>
    ensures { option_map (λ s. s.now) result
        ≡ option_and_then as_str (get_member key.now (members_view keywords.now.entries)) }
{
    match member(keywords, key) {
        Some(value) => value.as_str(),
        None => None,
    }
}

/// The object at a key.
pub fn object_in<'k>(keywords: &'k Map<String, Value>, key: &str) -> Option<&'k Map<String, Value>>
    ensures { option_map (λ ms. members_view ms.now.entries) result
        ≡ option_and_then as_object (get_member key.now (members_view keywords.now.entries)) }
{
    match member(keywords, key) {
        Some(value) => value.as_object(),
        None => None,
    }
}

fn member<'k>(keywords: &'k Map<String, Value>, key: &str) -> Option<&'k Value>
    ensures { option_map (λ v. view v.now) result
        ≡ get_member key.now (members_view keywords.now.entries) }
{
    keywords.get(key)
}
