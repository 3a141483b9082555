//! Types without parts.
ghost use Rattle.std.specs.Prelude.{[], ◌∷◌};
ghost use Rattle.schemars_accepted.specs.Told.{Tells, tell};
ghost use Rattle.schemars_accepted.specs.Laws.{alone_in, alone_row};

use crate::law::AgreesAsDescribed;
use schemars_impls::JsonSchema;

impl AgreesAsDescribed for () {
    ghost tells = { tell ⟦<() as JsonSchema>⟧.says ∷ [] };

    ghost is_told = { Tells ⟦<() as JsonSchema>⟧.says };

    ghost is_in = { alone_in _ _ _ _ };

    ghost described = { alone_row _ _ _ _ };
}

impl AgreesAsDescribed for bool {
    ghost tells = { tell ⟦<bool as JsonSchema>⟧.says ∷ [] };

    ghost is_told = { Tells ⟦<bool as JsonSchema>⟧.says };

    ghost is_in = { alone_in _ _ _ _ };

    ghost described = { alone_row _ _ _ _ };
}

impl AgreesAsDescribed for char {
    ghost tells = { tell ⟦<char as JsonSchema>⟧.says ∷ [] };

    ghost is_told = { Tells ⟦<char as JsonSchema>⟧.says };

    ghost is_in = { alone_in _ _ _ _ };

    ghost described = { alone_row _ _ _ _ };
}

impl AgreesAsDescribed for String {
    ghost tells = { tell ⟦<String as JsonSchema>⟧.says ∷ [] };

    ghost is_told = { Tells ⟦<String as JsonSchema>⟧.says };

    ghost is_in = { alone_in _ _ _ _ };

    ghost described = { alone_row _ _ _ _ };
}

impl AgreesAsDescribed for u8 {
    ghost tells = { tell ⟦<u8 as JsonSchema>⟧.says ∷ [] };

    ghost is_told = { Tells ⟦<u8 as JsonSchema>⟧.says };

    ghost is_in = { alone_in _ _ _ _ };

    ghost described = { alone_row _ _ _ _ };
}

impl AgreesAsDescribed for u16 {
    ghost tells = { tell ⟦<u16 as JsonSchema>⟧.says ∷ [] };

    ghost is_told = { Tells ⟦<u16 as JsonSchema>⟧.says };

    ghost is_in = { alone_in _ _ _ _ };

    ghost described = { alone_row _ _ _ _ };
}

impl AgreesAsDescribed for u32 {
    ghost tells = { tell ⟦<u32 as JsonSchema>⟧.says ∷ [] };

    ghost is_told = { Tells ⟦<u32 as JsonSchema>⟧.says };

    ghost is_in = { alone_in _ _ _ _ };

    ghost described = { alone_row _ _ _ _ };
}

impl AgreesAsDescribed for u64 {
    ghost tells = { tell ⟦<u64 as JsonSchema>⟧.says ∷ [] };

    ghost is_told = { Tells ⟦<u64 as JsonSchema>⟧.says };

    ghost is_in = { alone_in _ _ _ _ };

    ghost described = { alone_row _ _ _ _ };
}

impl AgreesAsDescribed for u128 {
    ghost tells = { tell ⟦<u128 as JsonSchema>⟧.says ∷ [] };

    ghost is_told = { Tells ⟦<u128 as JsonSchema>⟧.says };

    ghost is_in = { alone_in _ _ _ _ };

    ghost described = { alone_row _ _ _ _ };
}

impl AgreesAsDescribed for usize {
    ghost tells = { tell ⟦<usize as JsonSchema>⟧.says ∷ [] };

    ghost is_told = { Tells ⟦<usize as JsonSchema>⟧.says };

    ghost is_in = { alone_in _ _ _ _ };

    ghost described = { alone_row _ _ _ _ };
}

impl AgreesAsDescribed for i8 {
    ghost tells = { tell ⟦<i8 as JsonSchema>⟧.says ∷ [] };

    ghost is_told = { Tells ⟦<i8 as JsonSchema>⟧.says };

    ghost is_in = { alone_in _ _ _ _ };

    ghost described = { alone_row _ _ _ _ };
}

impl AgreesAsDescribed for i16 {
    ghost tells = { tell ⟦<i16 as JsonSchema>⟧.says ∷ [] };

    ghost is_told = { Tells ⟦<i16 as JsonSchema>⟧.says };

    ghost is_in = { alone_in _ _ _ _ };

    ghost described = { alone_row _ _ _ _ };
}

impl AgreesAsDescribed for i32 {
    ghost tells = { tell ⟦<i32 as JsonSchema>⟧.says ∷ [] };

    ghost is_told = { Tells ⟦<i32 as JsonSchema>⟧.says };

    ghost is_in = { alone_in _ _ _ _ };

    ghost described = { alone_row _ _ _ _ };
}

impl AgreesAsDescribed for i64 {
    ghost tells = { tell ⟦<i64 as JsonSchema>⟧.says ∷ [] };

    ghost is_told = { Tells ⟦<i64 as JsonSchema>⟧.says };

    ghost is_in = { alone_in _ _ _ _ };

    ghost described = { alone_row _ _ _ _ };
}

impl AgreesAsDescribed for i128 {
    ghost tells = { tell ⟦<i128 as JsonSchema>⟧.says ∷ [] };

    ghost is_told = { Tells ⟦<i128 as JsonSchema>⟧.says };

    ghost is_in = { alone_in _ _ _ _ };

    ghost described = { alone_row _ _ _ _ };
}

impl AgreesAsDescribed for isize {
    ghost tells = { tell ⟦<isize as JsonSchema>⟧.says ∷ [] };

    ghost is_told = { Tells ⟦<isize as JsonSchema>⟧.says };

    ghost is_in = { alone_in _ _ _ _ };

    ghost described = { alone_row _ _ _ _ };
}
