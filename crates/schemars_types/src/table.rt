ghost use Rattle.std.specs.Prelude.{◌≡◌, ◌≢◌, ◌<◌, ◌↔◌, [], length, take, map, false, None, Some, IsTrue, IfOk, OnOk, OnErr, IfErr, Err, option_map, string_bytes, slice_get};
ghost use Rattle.schemars_types.specs.Words.{entry_of, shape_of, place_of, entry_at, unknown_in, reserved, defined, HasDistinctIds, RefersWithin, first_unknown, refusal_of, begins_with, rows_have_float, row_of, result_err};

pub(crate) mod slots;
pub(crate) mod texts;

use crate::error::TypesError;
use crate::table::slots::{Slot, add_slot, entry, slots_begin_with};
use indexmap::IndexMap;
use schemars_shapes::{Shape, TypeEntry, TypeNo, first_unknown};
use std::alloc::{AllocError, Global};
use std::marker::Model;

/// A table of types, by number and by id.
///
/// A row has an id, a name and, once it is defined, an entry. Rows are numbered from 0 in the order
/// in which their ids were reserved. Entries refer to rows by number, so a type can be reserved
/// first and then refer to itself:
///
/// ```
/// let node = types.reserve(id, name)?;
/// let next = types.option(alloc, node)?;
/// types.define(node, TypeEntry::without_notes(alloc, false, Shape::Newtype(next)))?;
/// ```
#[derive(Drop)]
pub struct Types {
    pub(crate) slots: IndexMap<String, Slot>,
}

impl Model for Types {
    ghost use Rattle.std.specs.Prelude.{List, map};
    ghost use Rattle.schemars_types.specs.Rows.{Row};
    ghost use Rattle.std.specs.Coded.{codes};
    ghost use Rattle.schemars_schema.specs.DataCode.{data_code, members_code};

    ghost Value = { List Row };

    ghost coded = { Prim.hlevel (codes, data_code, members_code) };

    ghost use Rattle.schemars_types.specs.Slots.{row_of};
    ghost use Rattle.schemars_types.specs.Edges.{RefersWithin};

    ghost view = { λ t. map row_of t.slots.entries };

    ghost invariant = { λ t. RefersWithin (map row_of t.slots.entries) };
}

/// The same rows under the same numbers.
impl Clone for Types {
    ghost use Rattle.std.specs.Prelude.{◌≡◌};

    ghost is_clone = { λ t u. u ≡ t };

    fn clone(&self) -> Result<Types, AllocError> {
        Ok(Types {
            slots: self.slots.clone()?,
        })
    }
}

impl Types {
    /// Returns a table without rows.
    pub fn new(alloc: Global) -> Types
        ensures { result ≡ [] }
    {
        Types {
            slots: IndexMap::new(alloc),
        }
    }

    /// Returns the number of rows. Each row number in an entry is less than it, and no two rows
    /// have one id.
    pub fn len(&self) -> usize
        ensures len { result ≡ length self.now }
        ensures above { RefersWithin self.now }
        ensures ids { HasDistinctIds self.now }
    {
        self.slots.len()
    }

    /// Returns whether the table has no rows.
    pub fn is_empty(&self) -> bool
        ensures { IsTrue result ↔ (self.now ≡ []) }
    {
        self.slots.is_empty()
    }

    /// Returns the number of the row with this id, if there is one.
    pub fn find(&self, id: &str) -> Option<TypeNo>
        ensures { result ≡ place_of id.now self.now }
    {
        self.slots.get_index_of(id)
    }

    /// Returns the id of row `n`, if there is such a row.
    pub fn id(&self, n: TypeNo) -> Option<&str>
        ensures { option_map (λ s. s.now) result ≡ option_map (λ r. r.id) (slice_get self.now n) }
    {
        let (id, _slot) = self.slots.get_index(n)?;
        Some(id.as_str())
    }

    /// Returns the name of row `n`, if there is such a row.
    pub fn name(&self, n: TypeNo) -> Option<&str>
        ensures { option_map (λ s. s.now) result ≡ option_map (λ r. r.name) (slice_get self.now n) }
    {
        let (_id, slot) = self.slots.get_index(n)?;
        Some(slot.name())
    }

    /// Returns the entry of row `n`, if there is such a row and it is defined.
    pub fn entry(&self, n: TypeNo) -> Option<&TypeEntry>
        ensures { option_map (λ e. entry_of e.now) result ≡ entry_at self.now n }
    {
        entry(&self.slots, n)
    }

    /// Returns the number of the row with this id. If there is none, a row with this id and name is
    /// added first; a row that exists keeps its name.
    ///
    /// # Errors
    ///
    /// `OutOfMemory`; the table is then unchanged.
    pub fn reserve(&mut self, id: String, name: String) -> Result<TypeNo, TypesError>
        ensures ok { OnOk result (self.new
            ≡ reserved (string_bytes id) (string_bytes name) self.old) }
        ensures number { IfOk result (λ n. place_of (string_bytes id) self.new ≡ Some n) }

        // Only a new id needs memory.
        ensures err { OnErr result (self.new ≡ self.old) }
        ensures memory { IfErr result (λ e. e ≡ TypesError.OutOfMemory) }
        ensures absent { OnErr result (place_of (string_bytes id) self.old ≡ None) }
    {
        if let Some(n) = self.find(id.as_str()) {
            return Ok(n);
        }
        self.add_row(id, name)
    }

    // Adds a row with this id, which no row has.
    pub(crate) fn add_row(&mut self, id: String, name: String) -> Result<TypeNo, TypesError>
        requires { place_of (string_bytes id) self.old ≡ None }
        ensures ok { OnOk result (self.new
            ≡ reserved (string_bytes id) (string_bytes name) self.old) }
        ensures number { IfOk result (λ n. place_of (string_bytes id) self.new ≡ Some n) }
        ensures err { OnErr result (self.new ≡ self.old) }
        ensures memory { IfErr result (λ e. e ≡ TypesError.OutOfMemory) }
    {
        let n = self.len();
        add_slot(&mut self.slots, id, name)?;
        Ok(n)
    }

    /// Defines row `n`. A row that has an equal entry already is unchanged.
    ///
    /// # Errors
    ///
    /// `UnknownType` with `n`, or else with the first number in the entry, that is not the number
    /// of a row; `AlreadyDefined(n)` if the row has a different entry. The table is then unchanged.
    pub fn define(&mut self, n: TypeNo, entry: TypeEntry) -> Result<(), TypesError>
        ensures ok { OnOk result (self.new ≡ defined n (entry_of entry) self.old) }
        ensures err { OnErr result (self.new ≡ self.old) }
        ensures refused { result_err result ≡ refusal_of self.old n (entry_of entry) }
        ensures takes_no_memory { result ≢ Err TypesError.OutOfMemory }
    {
        if let Some(unknown) = self.first_unknown(n, &entry.shape) {
            return Err(TypesError::UnknownType(unknown));
        }
        match self.entry(n) {
            None => {
                self.set_entry(n, entry);
                Ok(())
            }
            Some(present) if present.is_equal(&entry) => Ok(()),
            Some(_) => Err(TypesError::AlreadyDefined(n)),
        }
    }

    /// Returns whether the table begins with the rows of `first`: the same ids, names and entries
    /// under the same numbers.
    ///
    /// Entries are compared as by `define`, so an entry with a decimal in its notes equals none.
    pub fn begins_with(&self, first: &Types) -> bool
        ensures value { result ≡ begins_with self.now first.now }
        ensures same { IsTrue result → take (length first.now) self.now ≡ first.now }
        ensures begins { rows_have_float first.now ≡ false
            → take (length first.now) self.now ≡ first.now → IsTrue result }
    {
        slots_begin_with(&self.slots, &first.slots)
    }

    /// Removes the rows from `len` on, to which no row before them refers.
    pub fn truncate(&mut self, len: usize)
        requires { RefersWithin (take len self.old) }
        ensures { self.new ≡ take len self.old }
    {
        self.slots.truncate(len);
    }

    fn first_unknown(&self, n: TypeNo, shape: &Shape) -> Option<TypeNo>
        ensures { result ≡ first_unknown self.now n (shape_of shape.now) }
    {
        let len = self.len();
        if len <= n {
            return Some(n);
        }
        first_unknown(shape, len)
    }

    fn set_entry(&mut self, n: TypeNo, entry: TypeEntry)
        requires within { n < length self.old }
        requires known { unknown_in self.old (shape_of entry.shape) ≡ None }
        ensures { self.new ≡ defined n (entry_of entry) self.old }
    {
        self.slots[n].define(entry);
    }
}
