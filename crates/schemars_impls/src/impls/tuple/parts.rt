//! Types of several parts, and how the parts are added to a table, one after another.
ghost use Rattle.std.specs.Prelude.{◌≡◌, ◌++◌, [], ◌∷◌, Some, IfErr, IfOk, OnErr, OnOk, codes, string_bytes};
ghost use Rattle.schemars_impls.specs.Words.{flat_map, place_of, Adds, AreKnown, Keeps, IsIn, KeepsTo, RefusesAs, NumbersAreKnown, RefusesNumbers, PartRows, and_parts, no_parts};

use crate::law::{JsonSchema, register};
use schemars_types::{TypeNo, Types, TypesError};
use std::alloc::{AllocError, Global};
use std::marker::PhantomData;

/// Registers two types, and returns their numbers.
pub(crate) fn register_two<A: JsonSchema, B: JsonSchema>(
    alloc: Global,
    types: &mut Types,
) -> Result<(TypeNo, TypeNo), TypesError>
    ensures keeps { Keeps types.old types.new }
    ensures first { IfOk result (λ p. place_of A.says.id types.new ≡ Some p.0) }
    ensures second { IfOk result (λ p. place_of B.says.id types.new ≡ Some p.1) }
    ensures follows { OnOk result
        (KeepsTo (λ d. IsIn A.says d × IsIn B.says d) types.old types.new) }
    ensures refused { IfErr result (RefusesAs (λ d. IsIn A.says d × IsIn B.says d) types.old) }
{
    let first = register::<A>(alloc, types)?;
    let second = register::<B>(alloc, types)?;
    Ok((first, second))
}

/// A list of types.
pub(crate) trait Parts {
    ghost parts: { PartRows };

    /// Adds each name to a text, behind `_and_`.
    fn push_names(alloc: Global, text: &mut String) -> Result<(), AllocError>
        ensures { OnOk result (string_bytes text.new
            ≡ string_bytes text.old ++ flat_map (λ name. codes "_and_" ++ name) parts.names) };

    /// Adds each id to a text, behind a comma.
    fn push_ids(alloc: Global, text: &mut String) -> Result<(), AllocError>
        ensures { OnOk result (string_bytes text.new
            ≡ string_bytes text.old ++ flat_map (λ id. codes "," ++ id) parts.ids) };

    /// Registers each type, and adds its number to a list.
    fn add(alloc: Global, types: &mut Types, numbers: &mut Vec<TypeNo>) -> Result<(), TypesError>
        ensures keeps { Keeps types.old types.new }
        ensures adds { OnOk result
            (Adds parts.ids types.old numbers.old.items types.new numbers.new.items) }
        ensures known { OnOk result
            (AreKnown types.old numbers.old.items → AreKnown types.new numbers.new.items) }
        ensures follows { OnOk result (KeepsTo parts.are_in types.old types.new) }
        ensures refused { IfErr result (RefusesAs parts.are_in types.old) };
}

/// No types.
pub(crate) struct Nil;

/// A type, and those of a list behind it.
pub(crate) struct And<A, R>(PhantomData<A>, PhantomData<R>);

impl Parts for Nil {
    ghost parts = { no_parts };

    fn push_names(_alloc: Global, _text: &mut String) -> Result<(), AllocError> {
        Ok(())
    }

    fn push_ids(_alloc: Global, _text: &mut String) -> Result<(), AllocError> {
        Ok(())
    }

    fn add(
        _alloc: Global,
        _types: &mut Types,
        _numbers: &mut Vec<TypeNo>,
    ) -> Result<(), TypesError> {
        Ok(())
    }
}

impl<A: JsonSchema, R: Parts> Parts for And<A, R> {
    ghost parts = { and_parts A.says R.parts };

    fn push_names(alloc: Global, text: &mut String) -> Result<(), AllocError> {
        let name = A::schema_name(alloc)?;
        text.push_str("_and_")?;
        text.push_str(name.as_str())?;
        R::push_names(alloc, text)
    }

    fn push_ids(alloc: Global, text: &mut String) -> Result<(), AllocError> {
        let id = A::schema_id(alloc)?;
        text.push_str(",")?;
        text.push_str(id.as_str())?;
        R::push_ids(alloc, text)
    }

    fn add(alloc: Global, types: &mut Types, numbers: &mut Vec<TypeNo>) -> Result<(), TypesError> {
        add_one::<A>(alloc, types, numbers)?;
        R::add(alloc, types, numbers)
    }
}

/// Registers a type, and adds its number behind the others.
///
/// # Errors
///
/// `OutOfMemory`, or what `register` returns. The numbers may have changed then.
#[tactic(auto, using(crate::proofs::OwnTypes::adding_numbers))]
pub fn add_one<T: JsonSchema>(
    alloc: Global,
    types: &mut Types,
    numbers: &mut Vec<TypeNo>,
) -> Result<(), TypesError>
    ensures keeps { Keeps types.old types.new }
    ensures adds { OnOk result
        (Adds (T.says.id ∷ []) types.old numbers.old.items types.new numbers.new.items) }
    ensures known { OnOk result
        (AreKnown types.old numbers.old.items → AreKnown types.new numbers.new.items) }
    ensures numbers { OnOk result (NumbersAreKnown types.old numbers.old.items
        → NumbersAreKnown types.new numbers.new.items) }
    ensures follows { OnOk result (KeepsTo (IsIn T.says) types.old types.new) }
    ensures refused { IfErr result (RefusesAs (IsIn T.says) types.old) }
{
    let n = register::<T>(alloc, types)?;
    numbers.push(n)?;
    Ok(())
}

/// Adds the number of a row behind the others. A type that is inside itself adds its own number so,
/// or that of an option or a list of it.
///
/// # Errors
///
/// `OutOfMemory`, or `UnknownType` if the table has no such row. The numbers are then unchanged.
#[tactic(auto, using(crate::proofs::OwnTypes::adding_numbers))]
pub fn add_number(
    types: &Types,
    numbers: &mut Vec<TypeNo>,
    number: TypeNo,
) -> Result<(), TypesError>
    ensures adds { OnOk result (numbers.new.items ≡ numbers.old.items ++ number ∷ []) }
    ensures numbers { OnOk result (NumbersAreKnown types.now numbers.old.items
        → NumbersAreKnown types.now numbers.new.items) }
    ensures unchanged { OnErr result (numbers.new.items ≡ numbers.old.items) }
    ensures refused { IfErr result (RefusesNumbers types.now (number ∷ [])) }
{
    if types.len() <= number {
        return Err(TypesError::UnknownType(number));
    }
    numbers.push(number)?;
    Ok(())
}
