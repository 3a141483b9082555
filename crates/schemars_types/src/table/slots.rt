//! What a table holds under each id.
ghost use Rattle.std.specs.Prelude.{◌≡◌, ◌&&◌, map, bytes_eq, string_bytes, None, Some, option_map, IfOk, OnOk, OnErr, IfErr};
ghost use Rattle.schemars_types.specs.Words.{string_eq, option_eq, insert_entry, entry_of, entry_eq, entry_at, begins_with, row_of};
ghost use Rattle.schemars_types.specs.declared.table.slots.Slot as declared;

use crate::error::TypesError;
use indexmap::IndexMap;
use schemars_shapes::{TypeEntry, TypeNo};
use std::alloc::{AllocError, Global};

/// A row without its id. It has memory of its own, so that a block of slots is small.
#[derive(Drop)]
pub struct Slot {
    row: Box<NamedEntry>,
}

/// A name, and an entry once there is one.
#[derive(Drop)]
pub struct NamedEntry {
    name: String,
    entry: Option<TypeEntry>,
}

impl Slot {
    // A row of this name that is not defined.
    fn new(alloc: Global, name: String) -> Result<Slot, AllocError>
        ensures { IfOk result (λ s. s.row.value ≡ record { name = name; entry = None }) }
    {
        let row = Box::new(alloc, NamedEntry { name, entry: None })?;
        Ok(Slot { row })
    }

    /// Gives the row this entry.
    pub fn define(&mut self, entry: TypeEntry)
        ensures { self.new.row.value ≡ record self.old.row.value { entry = Some entry } }
    {
        self.row.entry = Some(entry);
    }

    /// The name of the row.
    pub fn name(&self) -> &str
        ensures { result.now ≡ string_bytes self.now.row.value.name }
    {
        self.row.name.as_str()
    }

    /// The entry of the row, once it is defined.
    pub fn entry(&self) -> Option<&TypeEntry>
        ensures { option_map (λ e. entry_of e.now) result
            ≡ option_map entry_of self.now.row.value.entry }
    {
        self.row.entry.as_ref()
    }
}

impl NamedEntry {
    fn is_equal(&self, other: &NamedEntry) -> bool
        ensures { result ≡ (bytes_eq (string_bytes self.now.name) (string_bytes other.now.name)
            && option_eq entry_eq (option_map entry_of self.now.entry)
            (option_map entry_of other.now.entry)) }
    {
        self.name == other.name
            && match (&self.entry, &other.entry) {
                (Some(entry), Some(other)) => entry.is_equal(other),
                (None, None) => true,
                _ => false,
            }
    }
}

impl Clone for Slot {
    ghost use Rattle.std.specs.Prelude.{◌≡◌, option_map, string_bytes};
    ghost use Rattle.schemars_types.specs.Slots.{SameSlot};

    ghost is_clone = { SameSlot };

    fn clone(&self) -> Result<Slot, AllocError> {
        let row = NamedEntry {
            name: self.row.name.clone()?,
            entry: self.row.entry.clone()?,
        };
        let alloc = *Box::allocator(&self.row);
        Ok(Slot {
            row: Box::new(alloc, row)?,
        })
    }
}

// For how many rows the first makes room: their block is just small enough for `malloc` to keep it
// ready for the next table.
const FIRST_ROOM: usize = 15;

/// Adds a row that is not defined, whose id is new, at the end.
pub fn add_slot(
    slots: &mut IndexMap<String, Slot>,
    id: String,
    name: String,
) -> Result<(), TypesError>
    ensures ok { OnOk result ((slot : declared.Slot)
        × (slots.new.entries ≡ insert_entry string_eq slots.old.entries id slot)
        × (slot.row.value ≡ record { name = name; entry = None })) }
    ensures err { OnErr result (slots.new.entries ≡ slots.old.entries) }
    ensures memory { IfErr result (λ e. e ≡ TypesError.OutOfMemory) }
{
    let slot = Slot::new(*slots.allocator(), name)?;
    if slots.is_empty() {
        slots.reserve(FIRST_ROOM)?;
    }
    slots.insert(id, slot)?;
    Ok(())
}

/// The entry of row `n`, once it is defined.
pub fn entry(slots: &IndexMap<String, Slot>, n: TypeNo) -> Option<&TypeEntry>
    ensures { option_map (λ e. entry_of e.now) result ≡ entry_at (map row_of slots.now.entries) n }
{
    let (_id, slot) = slots.get_index(n)?;
    slot.entry()
}

/// Whether the first rows are these, in this order.
pub fn slots_begin_with(slots: &IndexMap<String, Slot>, first: &IndexMap<String, Slot>) -> bool
    ensures { result ≡ begins_with (map row_of slots.now.entries) (map row_of first.now.entries) }
{
    let mut rest = slots.iter();
    for (id, slot) in first.iter() {
        let Some((own_id, own)) = rest.next() else {
            return false;
        };
        if own_id != id || !own.row.is_equal(&slot.row) {
            return false;
        }
    }
    true
}
