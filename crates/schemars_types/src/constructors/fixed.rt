//! Rows of the enums and structs of the standard library.
ghost use Rattle.std.specs.Prelude.{◌≡◌, codes, false, IfOk, OnErr, IfErr};
ghost use Rattle.schemars_types.specs.Words.{in_place, without_notes, result_id, result_name, bound_id, bound_name, range_id, range_name, either_id, either_name, Registers, Refuses, id_at, name_at, RegistersTime, RefusesTime};
ghost use Rattle.schemars_shapes.specs.Shape.{Shape as shape};

use crate::error::TypesError;
use crate::table::Types;
use schemars_shapes::{Shape, TypeNo};
use std::alloc::Global;

/// Rows of enums and structs that many programs have.
///
/// Each call returns the number of the type's row, which has no notes, and adds the row if it does
/// not exist. Only the rows of `either` are written in place. `AlreadyDefined` is returned if the
/// id has another entry, and `UnknownType` with the first number that is not the number of a row.
/// On an error the table is unchanged, except that the rows of the numbers of a time stay.
impl Types {
    /// The type of maps with `Ok` of row `value`, or with `Err` of row `error`, and not both.
    pub fn result(
        &mut self,
        alloc: Global,
        value: TypeNo,
        error: TypeNo,
    ) -> Result<TypeNo, TypesError>
        ensures ok { IfOk result (Registers
            (result_id (id_at self.old value) (id_at self.old error))
            (result_name (name_at self.old value) (name_at self.old error))
            (without_notes false (shape.result value error)) self.old self.new) }
        ensures err { OnErr result (self.new ≡ self.old) }
        ensures refused { IfErr result
            (Refuses (result_id (id_at self.old value) (id_at self.old error))
            (without_notes false (shape.result value error)) self.old) }
    {
        self.register_pair(
            alloc,
            value,
            error,
            "Result",
            "Result_of_",
            "_or_",
            false,
            Shape::Result(value, error),
        )
    }

    /// The type of bounds: maps with `Included` or with `Excluded` of row `n`, and not both, and
    /// the text `Unbounded`.
    pub fn bound(&mut self, alloc: Global, n: TypeNo) -> Result<TypeNo, TypesError>
        ensures ok { IfOk result (Registers (bound_id (id_at self.old n))
            (bound_name (name_at self.old n))
            (without_notes false (shape.bound n)) self.old self.new) }
        ensures err { OnErr result (self.new ≡ self.old) }
        ensures refused { IfErr result
            (Refuses (bound_id (id_at self.old n)) (without_notes false (shape.bound n)) self.old) }
    {
        self.register_around(alloc, n, "Bound<", ">", "Bound_of_", false, Shape::Bound(n))
    }

    /// The type of maps with `start` and `end` of row `n`.
    pub fn range(&mut self, alloc: Global, n: TypeNo) -> Result<TypeNo, TypesError>
        ensures ok { IfOk result (Registers (range_id (id_at self.old n))
            (range_name (name_at self.old n))
            (without_notes false (shape.range n)) self.old self.new) }
        ensures err { OnErr result (self.new ≡ self.old) }
        ensures refused { IfErr result
            (Refuses (range_id (id_at self.old n)) (without_notes false (shape.range n)) self.old) }
    {
        self.register_around(alloc, n, "Range<", ">", "Range_of_", false, Shape::Range(n))
    }

    /// The type of maps with one key: `Left` of row `left`, or `Right` of row `right`.
    pub fn either(
        &mut self,
        alloc: Global,
        left: TypeNo,
        right: TypeNo,
    ) -> Result<TypeNo, TypesError>
        ensures ok { IfOk result (Registers (either_id (id_at self.old left) (id_at self.old right))
            (either_name (name_at self.old left) (name_at self.old right))
            (in_place (shape.either left right)) self.old self.new) }
        ensures err { OnErr result (self.new ≡ self.old) }
        ensures refused { IfErr result
            (Refuses (either_id (id_at self.old left) (id_at self.old right))
            (in_place (shape.either left right)) self.old) }
    {
        self.register_pair(
            alloc,
            left,
            right,
            "either::Either",
            "Either_",
            "_or_",
            true,
            Shape::Either(left, right),
        )
    }

    /// The type of spans of time: maps with `secs`, a 64-bit number, and `nanos`, a 32-bit number.
    /// The rows of these numbers come before it, and stay where it is refused.
    pub fn duration(&mut self, alloc: Global) -> Result<TypeNo, TypesError>
        ensures ok { IfOk result (RegistersTime (codes "std::time::Duration") (codes "Duration")
            (codes "secs") (codes "nanos") self.old self.new) }
        ensures refused { IfErr result (RefusesTime (codes "std::time::Duration")
            (codes "secs") (codes "nanos") self.old self.new) }
    {
        self.register_time(alloc, "std::time::Duration", "Duration", "secs", "nanos")
    }

    /// The type of points in time: maps with `secs_since_epoch`, a 64-bit number, and
    /// `nanos_since_epoch`, a 32-bit number. The rows of these numbers come before it, and stay
    /// where it is refused.
    pub fn system_time(&mut self, alloc: Global) -> Result<TypeNo, TypesError>
        ensures ok { IfOk result (RegistersTime (codes "std::time::SystemTime") (codes "SystemTime")
            (codes "secs_since_epoch") (codes "nanos_since_epoch") self.old self.new) }
        ensures refused { IfErr result (RefusesTime (codes "std::time::SystemTime")
            (codes "secs_since_epoch") (codes "nanos_since_epoch") self.old self.new) }
    {
        self.register_time(
            alloc,
            "std::time::SystemTime",
            "SystemTime",
            "secs_since_epoch",
            "nanos_since_epoch",
        )
    }
}
