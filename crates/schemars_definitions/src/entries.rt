//! Values by name.
ghost use Rattle.std.specs.Prelude.{◌≡◌, true, false, not, is_some, string_bytes, string_cmp, IfOk, OnErr};
ghost use Rattle.schemars_definitions.specs.Words.{get_by_text, insert_entry, set_value, has_name};

use std::alloc::AllocError;
use std::collections::BTreeMap;
use std::collections::btree_map::Entry;

// Adds a value, unless there is one of this name, and returns whether it did.
pub(crate) fn insert_new<V: Drop>(
    values: &mut BTreeMap<String, V>,
    name: String,
    value: V,
) -> Result<bool, AllocError>
    ensures is_new { IfOk result (λ b. b
        ≡ not (is_some (get_by_text values.old (string_bytes name)))) }
    ensures added { IfOk result (λ b. b ≡ true
        → values.new.entries ≡ insert_entry string_cmp values.old.entries name value) }
    ensures same { IfOk result (λ b. b ≡ false → values.new.entries ≡ values.old.entries) }
    ensures err { OnErr result (values.new.entries ≡ values.old.entries) }
{
    match values.entry(name)? {
        Entry::Vacant(place) => {
            place.insert(value);
            Ok(true)
        }
        Entry::Occupied(_) => Ok(false),
    }
}

// Puts a value in the place of the one of this name, if there is one.
pub(crate) fn replace<V: Drop>(values: &mut BTreeMap<String, V>, name: &str, value: V)
    ensures { values.new.entries ≡ set_value (has_name name.now) values.old.entries value }
{
    if let Some(place) = values.get_mut(name) {
        *place = value;
    }
}
