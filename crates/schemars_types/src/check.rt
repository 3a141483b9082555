//! The faults of a table.
ghost use Rattle.std.specs.Prelude.{◌≡◌, ◌⊎◌, take, OnOk, IfErr};
ghost use Rattle.schemars_types.specs.Faults.{IsAccepted, IsChecked, Refusal};

pub(crate) mod faults;

use crate::check::faults::{EdgeKind, first_on_cycle, first_repeated, first_undefined};
use crate::error::TypesError;
use crate::table::Types;
use std::alloc::Global;

impl Types {
    /// Checks that every row has a document and a meaning.
    ///
    /// # Errors
    ///
    /// The first of these that applies, with the lowest row: `UndefinedType` for a row that was
    /// never defined, `RepeatedName` for a list of fields or variants with a name twice,
    /// `DirectCycle` for a cycle of rows that are written in place, `EmptyCycle` for a cycle of
    /// rows that have each other's values. `OutOfMemory` if memory runs out.
    pub fn check(&self, alloc: Global) -> Result<(), TypesError>
        ensures accepted { OnOk result (IsAccepted self.now) }
        ensures checked { OnOk result (IsChecked self.now) }
        ensures refused { IfErr result (λ e. (e ≡ TypesError.OutOfMemory) ⊎ Refusal self.now e) }
        ensures only_memory { IsAccepted self.now → IfErr result (λ e. e ≡ TypesError.OutOfMemory) }
    {
        self.check_from(alloc, 0)
    }

    /// Checks a table whose first `checked` rows are by themselves a table that `check` accepts.
    /// The result is that of `check`, but only the rows after them are checked: however many rows
    /// there are before, this takes no longer.
    ///
    /// # Errors
    ///
    /// Those of `check`.
    pub fn check_from(&self, alloc: Global, checked: usize) -> Result<(), TypesError>
        requires { IsChecked (take checked self.now) }
        ensures accepted { OnOk result (IsAccepted self.now) }
        ensures checked { OnOk result (IsChecked self.now) }
        ensures refused { IfErr result (λ e. (e ≡ TypesError.OutOfMemory) ⊎ Refusal self.now e) }
        ensures only_memory { IsAccepted self.now → IfErr result (λ e. e ≡ TypesError.OutOfMemory) }
    {
        if let Some(n) = first_undefined(self, checked) {
            return Err(TypesError::UndefinedType(n));
        }
        if let Some((n, name)) = first_repeated(alloc, self, checked)? {
            return Err(TypesError::RepeatedName(n, name));
        }
        if let Some(n) = first_on_cycle(alloc, self, EdgeKind::Direct, checked)? {
            return Err(TypesError::DirectCycle(n));
        }
        if let Some(n) = first_on_cycle(alloc, self, EdgeKind::SameValue, checked)? {
            return Err(TypesError::EmptyCycle(n));
        }
        Ok(())
    }
}
