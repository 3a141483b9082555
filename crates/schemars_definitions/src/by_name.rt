//! Definitions by name, in the order in which they were begun.
ghost use Rattle.std.specs.Prelude.{◌≡◌, true, false, not, is_some, IfOk, OnOk, OnErr};
ghost use Rattle.schemars_definitions.specs.Words.{Data, boolean, put, get_member, replaced, without, IsOrdered, AreOrdered, definition_in, definitions_in, definitions_by_name};

use crate::kept::Kept;
use indexmap::IndexMap;
use std::alloc::{AllocError, Global};

// Returns whether there is a definition of this name.
pub(crate) fn has_name(definitions: &IndexMap<String, Kept>, name: &str) -> bool
    ensures { result
        ≡ is_some (get_member name.now (definitions_by_name definitions.now.entries)) }
{
    definitions.contains_key(name)
}

// Begins a definition unless there is one of this name, and returns whether it did.
pub(crate) fn begin(
    definitions: &mut IndexMap<String, Kept>,
    alloc: Global,
    name: &str,
) -> Result<bool, AllocError>
    ensures is_new { IfOk result (λ b. b
        ≡ not (is_some (get_member name.now (definitions_by_name definitions.old.entries)))) }
    ensures begun { IfOk result (λ b. b ≡ true → definitions_by_name definitions.new.entries
        ≡ put name.now (boolean false) (definitions_by_name definitions.old.entries)) }
    ensures same { IfOk result (λ b. b ≡ false
        → definitions.new.entries ≡ definitions.old.entries) }
    ensures err { OnErr result (definitions.new.entries ≡ definitions.old.entries) }
    ensures ordered { (made : Data → Data) → AreOrdered made definitions.old.entries
        → AreOrdered made definitions.new.entries }
{
    if has_name(definitions, name) {
        return Ok(false);
    }
    let key = String::from_str(alloc, name)?;
    definitions.insert(key, Kept::Begun)?;
    Ok(true)
}

// Keeps this in the place of the definition of this name, if there is one.
pub(crate) fn replace(definitions: &mut IndexMap<String, Kept>, name: &str, kept: Kept)
    ensures value { definitions_by_name definitions.new.entries
        ≡ replaced name.now (definition_in kept) (definitions_by_name definitions.old.entries) }
    ensures ordered { (made : Data → Data) → IsOrdered made kept
        → AreOrdered made definitions.old.entries → AreOrdered made definitions.new.entries }
{
    if let Some(place) = definitions.get_mut(name) {
        *place = kept;
    }
}

// Removes the definition of this name, if there is one. That of the last takes no search.
pub(crate) fn remove(definitions: &mut IndexMap<String, Kept>, name: &str)
    ensures value { definitions_by_name definitions.new.entries
        ≡ without name.now (definitions_by_name definitions.old.entries) }
    ensures ordered { (made : Data → Data) → AreOrdered made definitions.old.entries
        → AreOrdered made definitions.new.entries }
{
    let _ = definitions.shift_remove(name);
}

// Sorts the definitions by name.
pub(crate) fn sort(definitions: &mut IndexMap<String, Kept>) -> Result<(), AllocError>
    ensures sorted { OnOk result (definitions_in definitions.new.entries
        ≡ definitions_by_name definitions.old.entries) }
    ensures ordered { (made : Data → Data) → AreOrdered made definitions.old.entries
        → AreOrdered made definitions.new.entries }
{
    definitions.sort_keys()
}
