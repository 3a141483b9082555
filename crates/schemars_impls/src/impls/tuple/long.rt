//! Tuples of nine parts to sixteen.
ghost use Rattle.schemars_impls.specs.Containers.{tuple_row};

use crate::impls::tuple::parts::{And, Parts};
use crate::impls::tuple::{Of8, entry_of_all, id_of, name_of};
use crate::law::JsonSchema;
use schemars_types::{TypeEntry, Types, TypesError};
use std::alloc::{AllocError, Global};
use std::borrow::CowStr;

// Lists of so many types.
type Of9<A, B, C, D, E, F, G, H, I> = And<A, Of8<B, C, D, E, F, G, H, I>>;

type Of10<A, B, C, D, E, F, G, H, I, J> = And<A, Of9<B, C, D, E, F, G, H, I, J>>;

type Of11<A, B, C, D, E, F, G, H, I, J, K> = And<A, Of10<B, C, D, E, F, G, H, I, J, K>>;

type Of12<A, B, C, D, E, F, G, H, I, J, K, L> = And<A, Of11<B, C, D, E, F, G, H, I, J, K, L>>;

type Of13<A, B, C, D, E, F, G, H, I, J, K, L, M> = And<A, Of12<B, C, D, E, F, G, H, I, J, K, L, M>>;

type Of14<A, B, C, D, E, F, G, H, I, J, K, L, M, N> = And<
    A,
    Of13<B, C, D, E, F, G, H, I, J, K, L, M, N>,
>;

type Of15<A, B, C, D, E, F, G, H, I, J, K, L, M, N, O> = And<
    A,
    Of14<B, C, D, E, F, G, H, I, J, K, L, M, N, O>,
>;

type Of16<A, B, C, D, E, F, G, H, I, J, K, L, M, N, O, P> = And<
    A,
    Of15<B, C, D, E, F, G, H, I, J, K, L, M, N, O, P>,
>;

impl<
    A: JsonSchema,
    B: JsonSchema,
    C: JsonSchema,
    D: JsonSchema,
    E: JsonSchema,
    F: JsonSchema,
    G: JsonSchema,
    H: JsonSchema,
    I: JsonSchema,
> JsonSchema for (A, B, C, D, E, F, G, H, I) {
    ghost says = { tuple_row ⟦<Of9<A, B, C, D, E, F, G, H, I> as Parts>⟧.parts };

    fn inline_schema() -> bool {
        true
    }

    fn schema_name(alloc: Global) -> Result<CowStr<'static>, AllocError> {
        name_of::<A, Of8<B, C, D, E, F, G, H, I>>(alloc)
    }

    fn schema_id(alloc: Global) -> Result<CowStr<'static>, AllocError> {
        id_of::<A, Of8<B, C, D, E, F, G, H, I>>(alloc)
    }

    fn json_schema(alloc: Global, types: &mut Types) -> Result<TypeEntry, TypesError> {
        entry_of_all::<Of9<A, B, C, D, E, F, G, H, I>>(alloc, types)
    }
}

impl<
    A: JsonSchema,
    B: JsonSchema,
    C: JsonSchema,
    D: JsonSchema,
    E: JsonSchema,
    F: JsonSchema,
    G: JsonSchema,
    H: JsonSchema,
    I: JsonSchema,
    J: JsonSchema,
> JsonSchema for (A, B, C, D, E, F, G, H, I, J) {
    ghost says = { tuple_row ⟦<Of10<A, B, C, D, E, F, G, H, I, J> as Parts>⟧.parts };

    fn inline_schema() -> bool {
        true
    }

    fn schema_name(alloc: Global) -> Result<CowStr<'static>, AllocError> {
        name_of::<A, Of9<B, C, D, E, F, G, H, I, J>>(alloc)
    }

    fn schema_id(alloc: Global) -> Result<CowStr<'static>, AllocError> {
        id_of::<A, Of9<B, C, D, E, F, G, H, I, J>>(alloc)
    }

    fn json_schema(alloc: Global, types: &mut Types) -> Result<TypeEntry, TypesError> {
        entry_of_all::<Of10<A, B, C, D, E, F, G, H, I, J>>(alloc, types)
    }
}

impl<
    A: JsonSchema,
    B: JsonSchema,
    C: JsonSchema,
    D: JsonSchema,
    E: JsonSchema,
    F: JsonSchema,
    G: JsonSchema,
    H: JsonSchema,
    I: JsonSchema,
    J: JsonSchema,
    K: JsonSchema,
> JsonSchema for (A, B, C, D, E, F, G, H, I, J, K) {
    ghost says = { tuple_row ⟦<Of11<A, B, C, D, E, F, G, H, I, J, K> as Parts>⟧.parts };

    fn inline_schema() -> bool {
        true
    }

    fn schema_name(alloc: Global) -> Result<CowStr<'static>, AllocError> {
        name_of::<A, Of10<B, C, D, E, F, G, H, I, J, K>>(alloc)
    }

    fn schema_id(alloc: Global) -> Result<CowStr<'static>, AllocError> {
        id_of::<A, Of10<B, C, D, E, F, G, H, I, J, K>>(alloc)
    }

    fn json_schema(alloc: Global, types: &mut Types) -> Result<TypeEntry, TypesError> {
        entry_of_all::<Of11<A, B, C, D, E, F, G, H, I, J, K>>(alloc, types)
    }
}

impl<
    A: JsonSchema,
    B: JsonSchema,
    C: JsonSchema,
    D: JsonSchema,
    E: JsonSchema,
    F: JsonSchema,
    G: JsonSchema,
    H: JsonSchema,
    I: JsonSchema,
    J: JsonSchema,
    K: JsonSchema,
    L: JsonSchema,
> JsonSchema for (A, B, C, D, E, F, G, H, I, J, K, L) {
    ghost says = { tuple_row ⟦<Of12<A, B, C, D, E, F, G, H, I, J, K, L> as Parts>⟧.parts };

    fn inline_schema() -> bool {
        true
    }

    fn schema_name(alloc: Global) -> Result<CowStr<'static>, AllocError> {
        name_of::<A, Of11<B, C, D, E, F, G, H, I, J, K, L>>(alloc)
    }

    fn schema_id(alloc: Global) -> Result<CowStr<'static>, AllocError> {
        id_of::<A, Of11<B, C, D, E, F, G, H, I, J, K, L>>(alloc)
    }

    fn json_schema(alloc: Global, types: &mut Types) -> Result<TypeEntry, TypesError> {
        entry_of_all::<Of12<A, B, C, D, E, F, G, H, I, J, K, L>>(alloc, types)
    }
}

impl<
    A: JsonSchema,
    B: JsonSchema,
    C: JsonSchema,
    D: JsonSchema,
    E: JsonSchema,
    F: JsonSchema,
    G: JsonSchema,
    H: JsonSchema,
    I: JsonSchema,
    J: JsonSchema,
    K: JsonSchema,
    L: JsonSchema,
    M: JsonSchema,
> JsonSchema for (A, B, C, D, E, F, G, H, I, J, K, L, M) {
    ghost says = { tuple_row ⟦<Of13<A, B, C, D, E, F, G, H, I, J, K, L, M> as Parts>⟧.parts };

    fn inline_schema() -> bool {
        true
    }

    fn schema_name(alloc: Global) -> Result<CowStr<'static>, AllocError> {
        name_of::<A, Of12<B, C, D, E, F, G, H, I, J, K, L, M>>(alloc)
    }

    fn schema_id(alloc: Global) -> Result<CowStr<'static>, AllocError> {
        id_of::<A, Of12<B, C, D, E, F, G, H, I, J, K, L, M>>(alloc)
    }

    fn json_schema(alloc: Global, types: &mut Types) -> Result<TypeEntry, TypesError> {
        entry_of_all::<Of13<A, B, C, D, E, F, G, H, I, J, K, L, M>>(alloc, types)
    }
}

impl<
    A: JsonSchema,
    B: JsonSchema,
    C: JsonSchema,
    D: JsonSchema,
    E: JsonSchema,
    F: JsonSchema,
    G: JsonSchema,
    H: JsonSchema,
    I: JsonSchema,
    J: JsonSchema,
    K: JsonSchema,
    L: JsonSchema,
    M: JsonSchema,
    N: JsonSchema,
> JsonSchema for (A, B, C, D, E, F, G, H, I, J, K, L, M, N) {
    ghost says = { tuple_row ⟦<Of14<A, B, C, D, E, F, G, H, I, J, K, L, M, N> as Parts>⟧.parts };

    fn inline_schema() -> bool {
        true
    }

    fn schema_name(alloc: Global) -> Result<CowStr<'static>, AllocError> {
        name_of::<A, Of13<B, C, D, E, F, G, H, I, J, K, L, M, N>>(alloc)
    }

    fn schema_id(alloc: Global) -> Result<CowStr<'static>, AllocError> {
        id_of::<A, Of13<B, C, D, E, F, G, H, I, J, K, L, M, N>>(alloc)
    }

    fn json_schema(alloc: Global, types: &mut Types) -> Result<TypeEntry, TypesError> {
        entry_of_all::<Of14<A, B, C, D, E, F, G, H, I, J, K, L, M, N>>(alloc, types)
    }
}

impl<
    A: JsonSchema,
    B: JsonSchema,
    C: JsonSchema,
    D: JsonSchema,
    E: JsonSchema,
    F: JsonSchema,
    G: JsonSchema,
    H: JsonSchema,
    I: JsonSchema,
    J: JsonSchema,
    K: JsonSchema,
    L: JsonSchema,
    M: JsonSchema,
    N: JsonSchema,
    O: JsonSchema,
> JsonSchema for (A, B, C, D, E, F, G, H, I, J, K, L, M, N, O) {
    ghost says = { tuple_row ⟦<Of15<A, B, C, D, E, F, G, H, I, J, K, L, M, N, O> as Parts>⟧.parts };

    fn inline_schema() -> bool {
        true
    }

    fn schema_name(alloc: Global) -> Result<CowStr<'static>, AllocError> {
        name_of::<A, Of14<B, C, D, E, F, G, H, I, J, K, L, M, N, O>>(alloc)
    }

    fn schema_id(alloc: Global) -> Result<CowStr<'static>, AllocError> {
        id_of::<A, Of14<B, C, D, E, F, G, H, I, J, K, L, M, N, O>>(alloc)
    }

    fn json_schema(alloc: Global, types: &mut Types) -> Result<TypeEntry, TypesError> {
        entry_of_all::<Of15<A, B, C, D, E, F, G, H, I, J, K, L, M, N, O>>(alloc, types)
    }
}

impl<
    A: JsonSchema,
    B: JsonSchema,
    C: JsonSchema,
    D: JsonSchema,
    E: JsonSchema,
    F: JsonSchema,
    G: JsonSchema,
    H: JsonSchema,
    I: JsonSchema,
    J: JsonSchema,
    K: JsonSchema,
    L: JsonSchema,
    M: JsonSchema,
    N: JsonSchema,
    O: JsonSchema,
    P: JsonSchema,
> JsonSchema for (A, B, C, D, E, F, G, H, I, J, K, L, M, N, O, P) {
    ghost says = { tuple_row ⟦<Of16<A, B, C, D, E, F, G, H, I, J, K, L, M, N, O, P> as Parts>⟧.parts };

    fn inline_schema() -> bool {
        true
    }

    fn schema_name(alloc: Global) -> Result<CowStr<'static>, AllocError> {
        name_of::<A, Of15<B, C, D, E, F, G, H, I, J, K, L, M, N, O, P>>(alloc)
    }

    fn schema_id(alloc: Global) -> Result<CowStr<'static>, AllocError> {
        id_of::<A, Of15<B, C, D, E, F, G, H, I, J, K, L, M, N, O, P>>(alloc)
    }

    fn json_schema(alloc: Global, types: &mut Types) -> Result<TypeEntry, TypesError> {
        entry_of_all::<Of16<A, B, C, D, E, F, G, H, I, J, K, L, M, N, O, P>>(alloc, types)
    }
}
