//! What holds values of one type.
ghost use Rattle.std.specs.Prelude.{◌==◌, if◌then◌else◌, [], ◌∷◌};
ghost use Rattle.schemars_accepted.specs.Words.{option_row, seq_row, set_row, array_row, tell, TellsWith, OfItems, option_in, option_at, seq_in, seq_at, set_in, set_at, array_in, array_at};

use crate::law::AgreesAsDescribed;
use schemars_agreement::TellsApart;
use std::collections::{BTreeSet, HashSet, VecDeque};
use std::hash::{BuildHasher, Hash};

impl<T: AgreesAsDescribed> AgreesAsDescribed for Box<T> {
    ghost tells = { T.tells };

    ghost is_told = { T.is_told };

    ghost is_in = { T.is_in };

    ghost described = { T.described };
}

impl<T: AgreesAsDescribed> AgreesAsDescribed for Option<T> {
    ghost tells = { tell (option_row T.says) ∷ T.tells };

    ghost is_told = { TellsWith (option_row T.says) T.is_told };

    ghost is_in = { λ d told. option_in T.says d told.0 (T.is_in _ told.1) };

    ghost described = { λ d rows n told are checked there. option_at T.says T.is_row
        d rows n told.0 are checked there (λ m at. T.described _ rows m told.1 are checked at) };
}

impl<T: AgreesAsDescribed> AgreesAsDescribed for Vec<T> {
    ghost tells = { tell (seq_row T.says) ∷ T.tells };

    ghost is_told = { TellsWith (seq_row T.says) T.is_told };

    ghost is_in = { λ d told. seq_in T.says d told.0 (T.is_in _ told.1) };

    ghost described = { λ d rows n told are checked there. seq_at T.says T.is_row
        d rows n told.0 are checked there (λ m at. T.described _ rows m told.1 are checked at) };
}

impl<T: AgreesAsDescribed> AgreesAsDescribed for VecDeque<T> {
    ghost tells = { tell (seq_row T.says) ∷ T.tells };

    ghost is_told = { TellsWith (seq_row T.says) T.is_told };

    ghost is_in = { λ d told. seq_in T.says d told.0 (T.is_in _ told.1) };

    ghost described = { λ d rows n told are checked there. seq_at T.says T.is_row
        d rows n told.0 are checked there (λ m at. T.described _ rows m told.1 are checked at) };
}

impl<T: AgreesAsDescribed + TellsApart> AgreesAsDescribed for BTreeSet<T> {
    ghost tells = { tell (set_row T.says) ∷ T.tells };

    ghost is_told = { TellsWith (set_row T.says) T.is_told };

    ghost is_in = { λ d told. set_in T.says d told.0 (T.is_in _ told.1) };

    ghost described = { λ d rows n told are checked there. set_at T.says T.is_row
        d rows n told.0 are checked there (λ m at. T.described _ rows m told.1 are checked at) };
}

impl<T: AgreesAsDescribed + TellsApart + Hash, S: BuildHasher> AgreesAsDescribed for HashSet<T, S> {
    ghost tells = { tell (set_row T.says) ∷ T.tells };

    ghost is_told = { TellsWith (set_row T.says) T.is_told };

    ghost is_in = { λ d told. set_in T.says d told.0 (T.is_in _ told.1) };

    ghost described = { λ d rows n told are checked there. set_at T.says T.is_row
        d rows n told.0 are checked there (λ m at. T.described _ rows m told.1 are checked at) };
}

/// The row of an array of no items does not refer to that of the items.
impl<T: AgreesAsDescribed, const N: usize> AgreesAsDescribed for [T; N] {
    ghost tells = { tell (array_row T.says N) ∷ (if N == 0 then [] else T.tells) };

    ghost is_told = { TellsWith (array_row T.says N) (OfItems (N == 0) T.is_told) };

    ghost is_in = { λ d told. array_in T.says N T.is_told d told.0 T.is_in told.1 };

    ghost described = { λ d rows n told are checked there. array_at T.says N T.is_row
        T.is_told d rows n told.0 told.1 are checked there
        (λ m of at. T.described _ rows m of are checked at) };
}
