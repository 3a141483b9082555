//! Maps with texts as keys.
ghost use Rattle.std.specs.Prelude.{◌∷◌};
ghost use Rattle.schemars_shapes.specs.Shape.{Shape as shape};
ghost use Rattle.schemars_accepted.specs.Words.{HasShape, map_row, tell, TellsWith, Tells, map_in, map_at, alone_in, alone_row};

use crate::law::AgreesAsDescribed;
use schemars_impls::JsonSchema;
use std::collections::{BTreeMap, HashMap};
use std::hash::BuildHasher;

impl<T: AgreesAsDescribed> AgreesAsDescribed for BTreeMap<String, T> {
    ghost tells = { tell (map_row ⟦<String as JsonSchema>⟧.says T.says)
        ∷ (tell ⟦<String as JsonSchema>⟧.says ∷ T.tells) };

    ghost is_told = { TellsWith (map_row ⟦<String as JsonSchema>⟧.says T.says)
        (λ d. Tells ⟦<String as JsonSchema>⟧.says d × T.is_told d) };

    ghost is_in = { λ d told. map_in ⟦<String as JsonSchema>⟧.says T.says d told.0
        (alone_in _ _ _ _ _ told.1.0) (T.is_in _ told.1.1) };

    ghost described = { λ d rows n told are checked there. map_at
        ⟦<String as JsonSchema>⟧.says T.says
        (λ rows n. HasShape rows n shape.text) T.is_row d rows n told.0 are checked there
        (λ m at. alone_row _ _ _ _ _ rows m told.1.0 are checked at)
        (λ m at. T.described _ rows m told.1.1 are checked at) };
}

impl<T: AgreesAsDescribed, S: BuildHasher> AgreesAsDescribed for HashMap<String, T, S> {
    ghost tells = { tell (map_row ⟦<String as JsonSchema>⟧.says T.says)
        ∷ (tell ⟦<String as JsonSchema>⟧.says ∷ T.tells) };

    ghost is_told = { TellsWith (map_row ⟦<String as JsonSchema>⟧.says T.says)
        (λ d. Tells ⟦<String as JsonSchema>⟧.says d × T.is_told d) };

    ghost is_in = { λ d told. map_in ⟦<String as JsonSchema>⟧.says T.says d told.0
        (alone_in _ _ _ _ _ told.1.0) (T.is_in _ told.1.1) };

    ghost described = { λ d rows n told are checked there. map_at
        ⟦<String as JsonSchema>⟧.says T.says
        (λ rows n. HasShape rows n shape.text) T.is_row d rows n told.0 are checked there
        (λ m at. alone_row _ _ _ _ _ rows m told.1.0 are checked at)
        (λ m at. T.described _ rows m told.1.1 are checked at) };
}
