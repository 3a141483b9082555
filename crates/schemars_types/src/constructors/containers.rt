//! Rows of optional values, lists, tuples and maps.
ghost use Rattle.std.specs.Prelude.{◌≡◌, codes, IfOk, OnErr, IfErr, map};
ghost use Rattle.schemars_types.specs.Words.{in_place, array_of, option_id, option_name, seq_id, seq_name, set_id, set_name, array_id, array_name, up_to_id, up_to_name, tuple_id, tuple_name, map_id, map_name, Registers, Refuses, id_at, name_at};
ghost use Rattle.schemars_shapes.specs.Shape.{Shape as shape};

use crate::error::TypesError;
use crate::table::Types;
use crate::table::texts::{id_at, tuple_id, tuple_name};
use schemars_shapes::{Shape, TypeNo, first_unknown_among};
use std::alloc::Global;

/// Rows of types that are made of the types of other rows.
///
/// Each call returns the number of the type's row, which has no notes and is written in place, and
/// adds the row if it does not exist. `AlreadyDefined` is returned if the id has another entry, and
/// `UnknownType` with the first number that is not the number of a row. On an error the table is
/// unchanged.
impl Types {
    /// The type of null and the values of row `n`.
    pub fn option(&mut self, alloc: Global, n: TypeNo) -> Result<TypeNo, TypesError>
        ensures ok { IfOk result (Registers (option_id (id_at self.old n))
            (option_name (name_at self.old n))
            (in_place (shape.option n)) self.old self.new) }
        ensures err { OnErr result (self.new ≡ self.old) }
        ensures refused { IfErr result
            (Refuses (option_id (id_at self.old n)) (in_place (shape.option n)) self.old) }
    {
        self.register_around(
            alloc,
            n,
            "Option<",
            ">",
            "Nullable_",
            true,
            Shape::Option(n),
        )
    }

    /// The type of lists of values of row `n`.
    pub fn seq(&mut self, alloc: Global, n: TypeNo) -> Result<TypeNo, TypesError>
        ensures ok { IfOk result (Registers (seq_id (id_at self.old n))
            (seq_name (name_at self.old n))
            (in_place (shape.seq n)) self.old self.new) }
        ensures err { OnErr result (self.new ≡ self.old) }
        ensures refused { IfErr result
            (Refuses (seq_id (id_at self.old n)) (in_place (shape.seq n)) self.old) }
    {
        self.register_around(alloc, n, "[", "]", "Array_of_", true, Shape::Seq(n))
    }

    /// The type of lists of values of row `n`, no two of them equal.
    pub fn set(&mut self, alloc: Global, n: TypeNo) -> Result<TypeNo, TypesError>
        ensures ok { IfOk result (Registers (set_id (id_at self.old n))
            (set_name (name_at self.old n))
            (in_place (shape.set n)) self.old self.new) }
        ensures err { OnErr result (self.new ≡ self.old) }
        ensures refused { IfErr result
            (Refuses (set_id (id_at self.old n)) (in_place (shape.set n)) self.old) }
    {
        self.register_around(alloc, n, "Set<", ">", "Set_of_", true, Shape::Set(n))
    }

    /// The type of lists of exactly `len` values of row `n`. If `len` is 0 it is the type of empty
    /// lists, whatever `n` is.
    pub fn array(&mut self, alloc: Global, n: TypeNo, len: u64) -> Result<TypeNo, TypesError>
        ensures ok { IfOk result (Registers (array_id (id_at self.old n) len)
            (array_name (name_at self.old n) len) (in_place (array_of n len)) self.old self.new) }
        ensures err { OnErr result (self.new ≡ self.old) }
        ensures refused { IfErr result
            (Refuses (array_id (id_at self.old n) len) (in_place (array_of n len)) self.old) }
    {
        if len == 0 {
            let empty = Shape::Tuple(Vec::new(alloc));
            return self.register_named(alloc, "[]", "EmptyArray", true, empty);
        }
        if self.len() <= n {
            return Err(TypesError::UnknownType(n));
        }
        let before = format!(in alloc; "[{len}; ")?;
        let name_before = format!(in alloc; "Array_size_{len}_of_")?;
        self.register_around(
            alloc,
            n,
            before.as_str(),
            "]",
            name_before.as_str(),
            true,
            Shape::Array(n, len),
        )
    }

    /// The type of lists of at most `cap` values of row `n`.
    pub fn up_to(&mut self, alloc: Global, n: TypeNo, cap: u64) -> Result<TypeNo, TypesError>
        ensures ok { IfOk result (Registers (up_to_id (id_at self.old n) cap)
            (up_to_name (name_at self.old n) cap)
            (in_place (shape.up_to n cap)) self.old self.new) }
        ensures err { OnErr result (self.new ≡ self.old) }
        ensures refused { IfErr result
            (Refuses (up_to_id (id_at self.old n) cap) (in_place (shape.up_to n cap)) self.old) }
    {
        if self.len() <= n {
            return Err(TypesError::UnknownType(n));
        }
        let after = format!(in alloc; "; up to {cap}]")?;
        let name_before = format!(in alloc; "Array_up_to_size_{cap}_of_")?;
        self.register_around(
            alloc,
            n,
            "[",
            after.as_str(),
            name_before.as_str(),
            true,
            Shape::UpTo(n, cap),
        )
    }

    /// The type of lists of one value of each of these rows, in their order. Without rows it is
    /// that of empty lists.
    pub fn tuple(&mut self, alloc: Global, parts: Vec<TypeNo>) -> Result<TypeNo, TypesError>
        ensures ok { IfOk result (Registers (tuple_id (map (id_at self.old) parts.items))
            (tuple_name (map (name_at self.old) parts.items))
            (in_place (shape.tuple parts.items)) self.old self.new) }
        ensures err { OnErr result (self.new ≡ self.old) }
        ensures refused { IfErr result (Refuses (tuple_id (map (id_at self.old) parts.items))
            (in_place (shape.tuple parts.items)) self.old) }
    {
        if parts.is_empty() {
            return self.register_named(alloc, "[]", "EmptyArray", true, Shape::Tuple(parts));
        }
        if let Some(n) = first_unknown_among(&parts, self.len()) {
            return Err(TypesError::UnknownType(n));
        }
        let id = tuple_id(alloc, self, &parts)?;
        let name = tuple_name(alloc, self, &parts)?;
        self.register_row(alloc, id, name, true, Shape::Tuple(parts))
    }

    /// The type of maps with keys that row `key` allows, and values of row `value`.
    pub fn map(&mut self, alloc: Global, key: TypeNo, value: TypeNo) -> Result<TypeNo, TypesError>
        ensures ok { IfOk result (Registers (map_id (id_at self.old key) (id_at self.old value))
            (map_name (id_at self.old key) (name_at self.old key) (name_at self.old value))
            (in_place (shape.map_from key value)) self.old self.new) }
        ensures err { OnErr result (self.new ≡ self.old) }
        ensures refused { IfErr result (Refuses (map_id (id_at self.old key) (id_at self.old value))
            (in_place (shape.map_from key value)) self.old) }
    {
        let shape = Shape::Map(key, value);

        // A map with texts for its keys is named by its values alone.
        if id_at(self, key) == "string" {
            return self.register_around(alloc, value, "Map<", ">", "Map_of_", true, shape);
        }
        self.register_pair(alloc, key, value, "Map", "Map_from_", "_to_", true, shape)
    }
}
