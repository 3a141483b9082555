//! How rows of common types are added to a table.
ghost use Rattle.std.specs.Prelude.{◌≡◌, ◌++◌, [], ◌∷◌, Some, codes, IfOk, OnOk, OnErr, IfErr, string_bytes, find, nat_le, length};
ghost use Rattle.schemars_types.specs.Words.{shape_of, without_notes, numbers_of, Registers, Refuses, place_of, id_at, name_at, reserved, unknown_in, RegistersTime, RefusesTime};

use crate::constructors::fields::two_needed;
use crate::error::TypesError;
use crate::table::Types;
use crate::table::texts::{pair_texts, texts_around};
use schemars_shapes::{IntKind, Shape, TypeEntry, TypeNo, first_unknown_among};
use std::alloc::Global;

impl Types {
    // Registers the rows of the numbers, and then that of the time.
    pub(crate) fn register_time(
        &mut self,
        alloc: Global,
        id: &str,
        name: &str,
        seconds: &str,
        nanoseconds: &str,
    ) -> Result<TypeNo, TypesError>
        ensures ok { IfOk result
            (RegistersTime id.now name.now seconds.now nanoseconds.now self.old self.new) }
        ensures refused { IfErr result
            (RefusesTime id.now seconds.now nanoseconds.now self.old self.new) }
    {
        let whole = self.int(alloc, IntKind::U64)?;
        let part = self.int(alloc, IntKind::U32)?;
        let fields = two_needed(alloc, seconds, whole, nanoseconds, part)?;
        self.register_named(alloc, id, name, false, Shape::Struct(fields))
    }

    // Reserves and defines a row. Its shape refers to rows of the table alone, so a new row is
    // never left without its entry.
    pub(crate) fn register_row(
        &mut self,
        alloc: Global,
        id: String,
        name: String,
        inline: bool,
        shape: Shape,
    ) -> Result<TypeNo, TypesError>
        requires { unknown_in self.old (shape_of shape) ≡ None }
        ensures ok { IfOk result (Registers (string_bytes id) (string_bytes name)
            (without_notes inline (shape_of shape)) self.old self.new) }
        ensures err { OnErr result (self.new ≡ self.old) }
        ensures refused { IfErr result
            (Refuses (string_bytes id) (without_notes inline (shape_of shape)) self.old) }
    {
        let n = self.reserve(id, name)?;
        let entry = TypeEntry::without_notes(alloc, inline, shape);
        self.define(n, entry)?;
        Ok(n)
    }

    // Registers a row that is made of row `n`: its id has the id of `n` between these texts, and
    // its name has that of `n` behind this one.
    pub(crate) fn register_around(
        &mut self,
        alloc: Global,
        n: TypeNo,
        before: &str,
        after: &str,
        name_before: &str,
        inline: bool,
        shape: Shape,
    ) -> Result<TypeNo, TypesError>
        requires { unknown_in self.old (shape_of shape)
            ≡ find (λ m. nat_le (length self.old) m) (n ∷ []) }
        ensures ok { IfOk result (Registers (before.now ++ (id_at self.old n ++ after.now))
            (name_before.now ++ name_at self.old n)
            (without_notes inline (shape_of shape)) self.old self.new) }
        ensures err { OnErr result (self.new ≡ self.old) }
        ensures refused { IfErr result (Refuses (before.now ++ (id_at self.old n ++ after.now))
            (without_notes inline (shape_of shape)) self.old) }
    {
        if self.len() <= n {
            return Err(TypesError::UnknownType(n));
        }
        let (id, name) = texts_around(alloc, self, n, before, after, name_before)?;
        self.register_row(alloc, id, name, inline, shape)
    }

    // Registers a row that is made of two others, in their order.
    pub(crate) fn register_pair(
        &mut self,
        alloc: Global,
        first: TypeNo,
        second: TypeNo,
        generic: &str,
        name_before: &str,
        name_between: &str,
        inline: bool,
        shape: Shape,
    ) -> Result<TypeNo, TypesError>
        requires { numbers_of (shape_of shape) ≡ first ∷ second ∷ [] }
        ensures ok { IfOk result (Registers
            (generic.now ++ (codes "<"
            ++ (id_at self.old first ++ (codes ", " ++ (id_at self.old second ++ codes ">")))))
            (name_before.now ++ (name_at self.old first
            ++ (name_between.now ++ name_at self.old second)))
            (without_notes inline (shape_of shape)) self.old self.new) }
        ensures err { OnErr result (self.new ≡ self.old) }
        ensures refused { IfErr result (Refuses
            (generic.now ++ (codes "<"
            ++ (id_at self.old first ++ (codes ", " ++ (id_at self.old second ++ codes ">")))))
            (without_notes inline (shape_of shape)) self.old) }
    {
        if let Some(n) = first_unknown_among(&[first, second], self.len()) {
            return Err(TypesError::UnknownType(n));
        }
        let (id, name) = pair_texts(
            alloc,
            self,
            first,
            second,
            generic,
            name_before,
            name_between,
        )?;
        self.register_row(alloc, id, name, inline, shape)
    }

    // The same with copies of the id and the name, where they are new.
    pub(crate) fn register_named(
        &mut self,
        alloc: Global,
        id: &str,
        name: &str,
        inline: bool,
        shape: Shape,
    ) -> Result<TypeNo, TypesError>
        requires { unknown_in self.old (shape_of shape) ≡ None }
        ensures ok { IfOk result
            (Registers id.now name.now (without_notes inline (shape_of shape)) self.old self.new) }
        ensures err { OnErr result (self.new ≡ self.old) }
        ensures refused { IfErr result
            (Refuses id.now (without_notes inline (shape_of shape)) self.old) }
    {
        let n = self.reserve_named(alloc, id, name)?;
        let entry = TypeEntry::without_notes(alloc, inline, shape);
        self.define(n, entry)?;
        Ok(n)
    }

    // The same as `reserve` with copies of the id and the name, where they are new.
    fn reserve_named(&mut self, alloc: Global, id: &str, name: &str) -> Result<TypeNo, TypesError>
        ensures ok { OnOk result (self.new ≡ reserved id.now name.now self.old) }
        ensures number { IfOk result (λ n. place_of id.now self.new ≡ Some n) }
        ensures err { OnErr result (self.new ≡ self.old) }
        ensures memory { IfErr result (λ e. e ≡ TypesError.OutOfMemory) }
    {
        if let Some(n) = self.find(id) {
            return Ok(n);
        }
        let id = String::from_str(alloc, id)?;
        let name = String::from_str(alloc, name)?;
        self.add_row(id, name)
    }
}
