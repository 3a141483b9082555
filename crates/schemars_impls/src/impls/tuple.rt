//! Tuples of one part to eight; those of nine to sixteen are in `long`.
ghost use Rattle.std.specs.Prelude.{◌≡◌, ◌∷◌, None, IfErr, IfOk, OnOk};
ghost use Rattle.schemars_impls.specs.Words.{cow_str_bytes, entry_of, shape_of, tuple_id, tuple_name, unknown_in, IsMade, Keeps, KeepsTo, RefusesAs, tuple_row};

mod long;
pub(crate) mod parts;

use crate::impls::tuple::parts::{And, Nil, Parts};
use crate::law::{JsonSchema, entry};
use schemars_types::{Shape, TypeEntry, Types, TypesError};
use std::alloc::{AllocError, Global};
use std::borrow::CowStr;

// Lists of so many types.
type Of1<A> = And<A, Nil>;

type Of2<A, B> = And<A, Of1<B>>;

type Of3<A, B, C> = And<A, Of2<B, C>>;

type Of4<A, B, C, D> = And<A, Of3<B, C, D>>;

type Of5<A, B, C, D, E> = And<A, Of4<B, C, D, E>>;

type Of6<A, B, C, D, E, F> = And<A, Of5<B, C, D, E, F>>;

type Of7<A, B, C, D, E, F, G> = And<A, Of6<B, C, D, E, F, G>>;

type Of8<A, B, C, D, E, F, G, H> = And<A, Of7<B, C, D, E, F, G, H>>;

fn name_of<A: JsonSchema, R: Parts>(alloc: Global) -> Result<CowStr<'static>, AllocError>
    ensures { IfOk result (λ t. cow_str_bytes t ≡ tuple_name (A.says.name ∷ R.parts.names)) }
{
    let first = A::schema_name(alloc)?;
    let mut text = String::from_str(alloc, "Tuple_of_")?;
    text.push_str(first.as_str())?;
    R::push_names(alloc, &mut text)?;
    Ok(CowStr::Owned(text))
}

fn id_of<A: JsonSchema, R: Parts>(alloc: Global) -> Result<CowStr<'static>, AllocError>
    ensures { IfOk result (λ t. cow_str_bytes t ≡ tuple_id (A.says.id ∷ R.parts.ids)) }
{
    let first = A::schema_id(alloc)?;
    let mut text = String::from_str(alloc, "(")?;
    text.push_str(first.as_str())?;
    R::push_ids(alloc, &mut text)?;
    text.push_str(")")?;
    Ok(CowStr::Owned(text))
}

fn entry_of_all<P: Parts>(alloc: Global, types: &mut Types) -> Result<TypeEntry, TypesError>
    ensures keeps { Keeps types.old types.new }
    ensures known { IfOk result (λ e. unknown_in types.new (shape_of e.shape) ≡ None) }
    ensures made { IfOk result
        (λ e. IsMade (tuple_row P.parts).making types.new (entry_of e)) }
    ensures follows { OnOk result (KeepsTo P.parts.are_in types.old types.new) }
    ensures refused { IfErr result (RefusesAs P.parts.are_in types.old) }
{
    let mut numbers = Vec::new(alloc);
    P::add(alloc, types, &mut numbers)?;
    Ok(entry(alloc, true, Shape::Tuple(numbers)))
}

impl<A: JsonSchema> JsonSchema for (A,) {
    ghost says = { tuple_row ⟦<Of1<A> as Parts>⟧.parts };

    fn inline_schema() -> bool {
        true
    }

    fn schema_name(alloc: Global) -> Result<CowStr<'static>, AllocError> {
        name_of::<A, Nil>(alloc)
    }

    fn schema_id(alloc: Global) -> Result<CowStr<'static>, AllocError> {
        id_of::<A, Nil>(alloc)
    }

    fn json_schema(alloc: Global, types: &mut Types) -> Result<TypeEntry, TypesError> {
        entry_of_all::<Of1<A>>(alloc, types)
    }
}

impl<A: JsonSchema, B: JsonSchema> JsonSchema for (A, B) {
    ghost says = { tuple_row ⟦<Of2<A, B> as Parts>⟧.parts };

    fn inline_schema() -> bool {
        true
    }

    fn schema_name(alloc: Global) -> Result<CowStr<'static>, AllocError> {
        name_of::<A, Of1<B>>(alloc)
    }

    fn schema_id(alloc: Global) -> Result<CowStr<'static>, AllocError> {
        id_of::<A, Of1<B>>(alloc)
    }

    fn json_schema(alloc: Global, types: &mut Types) -> Result<TypeEntry, TypesError> {
        entry_of_all::<Of2<A, B>>(alloc, types)
    }
}

impl<A: JsonSchema, B: JsonSchema, C: JsonSchema> JsonSchema for (A, B, C) {
    ghost says = { tuple_row ⟦<Of3<A, B, C> as Parts>⟧.parts };

    fn inline_schema() -> bool {
        true
    }

    fn schema_name(alloc: Global) -> Result<CowStr<'static>, AllocError> {
        name_of::<A, Of2<B, C>>(alloc)
    }

    fn schema_id(alloc: Global) -> Result<CowStr<'static>, AllocError> {
        id_of::<A, Of2<B, C>>(alloc)
    }

    fn json_schema(alloc: Global, types: &mut Types) -> Result<TypeEntry, TypesError> {
        entry_of_all::<Of3<A, B, C>>(alloc, types)
    }
}

impl<A: JsonSchema, B: JsonSchema, C: JsonSchema, D: JsonSchema> JsonSchema for (A, B, C, D) {
    ghost says = { tuple_row ⟦<Of4<A, B, C, D> as Parts>⟧.parts };

    fn inline_schema() -> bool {
        true
    }

    fn schema_name(alloc: Global) -> Result<CowStr<'static>, AllocError> {
        name_of::<A, Of3<B, C, D>>(alloc)
    }

    fn schema_id(alloc: Global) -> Result<CowStr<'static>, AllocError> {
        id_of::<A, Of3<B, C, D>>(alloc)
    }

    fn json_schema(alloc: Global, types: &mut Types) -> Result<TypeEntry, TypesError> {
        entry_of_all::<Of4<A, B, C, D>>(alloc, types)
    }
}

impl<A: JsonSchema, B: JsonSchema, C: JsonSchema, D: JsonSchema, E: JsonSchema> JsonSchema
    for (A, B, C, D, E) {
    ghost says = { tuple_row ⟦<Of5<A, B, C, D, E> as Parts>⟧.parts };

    fn inline_schema() -> bool {
        true
    }

    fn schema_name(alloc: Global) -> Result<CowStr<'static>, AllocError> {
        name_of::<A, Of4<B, C, D, E>>(alloc)
    }

    fn schema_id(alloc: Global) -> Result<CowStr<'static>, AllocError> {
        id_of::<A, Of4<B, C, D, E>>(alloc)
    }

    fn json_schema(alloc: Global, types: &mut Types) -> Result<TypeEntry, TypesError> {
        entry_of_all::<Of5<A, B, C, D, E>>(alloc, types)
    }
}

impl<
    A: JsonSchema,
    B: JsonSchema,
    C: JsonSchema,
    D: JsonSchema,
    E: JsonSchema,
    F: JsonSchema,
> JsonSchema for (A, B, C, D, E, F) {
    ghost says = { tuple_row ⟦<Of6<A, B, C, D, E, F> as Parts>⟧.parts };

    fn inline_schema() -> bool {
        true
    }

    fn schema_name(alloc: Global) -> Result<CowStr<'static>, AllocError> {
        name_of::<A, Of5<B, C, D, E, F>>(alloc)
    }

    fn schema_id(alloc: Global) -> Result<CowStr<'static>, AllocError> {
        id_of::<A, Of5<B, C, D, E, F>>(alloc)
    }

    fn json_schema(alloc: Global, types: &mut Types) -> Result<TypeEntry, TypesError> {
        entry_of_all::<Of6<A, B, C, D, E, F>>(alloc, types)
    }
}

impl<
    A: JsonSchema,
    B: JsonSchema,
    C: JsonSchema,
    D: JsonSchema,
    E: JsonSchema,
    F: JsonSchema,
    G: JsonSchema,
> JsonSchema for (A, B, C, D, E, F, G) {
    ghost says = { tuple_row ⟦<Of7<A, B, C, D, E, F, G> as Parts>⟧.parts };

    fn inline_schema() -> bool {
        true
    }

    fn schema_name(alloc: Global) -> Result<CowStr<'static>, AllocError> {
        name_of::<A, Of6<B, C, D, E, F, G>>(alloc)
    }

    fn schema_id(alloc: Global) -> Result<CowStr<'static>, AllocError> {
        id_of::<A, Of6<B, C, D, E, F, G>>(alloc)
    }

    fn json_schema(alloc: Global, types: &mut Types) -> Result<TypeEntry, TypesError> {
        entry_of_all::<Of7<A, B, C, D, E, F, G>>(alloc, types)
    }
}

impl<
    A: JsonSchema,
    B: JsonSchema,
    C: JsonSchema,
    D: JsonSchema,
    E: JsonSchema,
    F: JsonSchema,
    G: JsonSchema,
    H: JsonSchema,
> JsonSchema for (A, B, C, D, E, F, G, H) {
    ghost says = { tuple_row ⟦<Of8<A, B, C, D, E, F, G, H> as Parts>⟧.parts };

    fn inline_schema() -> bool {
        true
    }

    fn schema_name(alloc: Global) -> Result<CowStr<'static>, AllocError> {
        name_of::<A, Of7<B, C, D, E, F, G, H>>(alloc)
    }

    fn schema_id(alloc: Global) -> Result<CowStr<'static>, AllocError> {
        id_of::<A, Of7<B, C, D, E, F, G, H>>(alloc)
    }

    fn json_schema(alloc: Global, types: &mut Types) -> Result<TypeEntry, TypesError> {
        entry_of_all::<Of8<A, B, C, D, E, F, G, H>>(alloc, types)
    }
}
