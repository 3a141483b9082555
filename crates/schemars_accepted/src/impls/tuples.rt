//! Tuples of one part to four.
ghost use Rattle.std.specs.Prelude.{◌++◌, ◌∷◌};
ghost use Rattle.schemars_accepted.specs.Told.{tell, TellsWith, single_row, pair_row, triple_row, quadruple_row};
ghost use Rattle.schemars_accepted.specs.Laws.{tuple_in, single_at, pair_at, triple_at, quadruple_at};

use crate::law::AgreesAsDescribed;

impl<A: AgreesAsDescribed> AgreesAsDescribed for (A,) {
    ghost tells = { tell (single_row A.says) ∷ A.tells };

    ghost is_told = { TellsWith (single_row A.says) (λ d. A.is_told d) };

    ghost is_in = { λ d told. tuple_in _ d told.0
        (A.is_in _ told.1, tt) };

    ghost described = { λ d rows n told are checked there. single_at A.says
        A.is_row d rows n told.0 are checked there
        (λ m at. A.described _ rows m told.1 are checked at) };
}

impl<A: AgreesAsDescribed, B: AgreesAsDescribed> AgreesAsDescribed for (A, B) {
    ghost tells = { tell (pair_row A.says B.says) ∷ (A.tells ++ B.tells) };

    ghost is_told = { TellsWith (pair_row A.says B.says) (λ d. A.is_told d × B.is_told d) };

    ghost is_in = { λ d told. tuple_in _ d told.0
        (A.is_in _ told.1.0, (B.is_in _ told.1.1, tt)) };

    ghost described = { λ d rows n told are checked there. pair_at A.says B.says
        A.is_row B.is_row d rows n told.0 are checked there
        (λ m at. A.described _ rows m told.1.0 are checked at)
        (λ m at. B.described _ rows m told.1.1 are checked at) };
}

impl<A: AgreesAsDescribed, B: AgreesAsDescribed, C: AgreesAsDescribed> AgreesAsDescribed
    for (A, B, C) {
    ghost tells = { tell (triple_row A.says B.says C.says)
        ∷ (A.tells ++ B.tells ++ C.tells) };

    ghost is_told = { TellsWith (triple_row A.says B.says C.says)
        (λ d. A.is_told d × B.is_told d × C.is_told d) };

    ghost is_in = { λ d told. tuple_in _ d told.0
        (A.is_in _ told.1.0, (B.is_in _ told.1.1, (C.is_in _ told.1.2, tt))) };

    ghost described = { λ d rows n told are checked there. triple_at
        A.says B.says C.says
        A.is_row B.is_row C.is_row d rows n told.0 are checked there
        (λ m at. A.described _ rows m told.1.0 are checked at)
        (λ m at. B.described _ rows m told.1.1 are checked at)
        (λ m at. C.described _ rows m told.1.2 are checked at) };
}

impl<
    A: AgreesAsDescribed,
    B: AgreesAsDescribed,
    C: AgreesAsDescribed,
    D: AgreesAsDescribed,
> AgreesAsDescribed for (A, B, C, D) {
    ghost tells = { tell (quadruple_row A.says B.says C.says D.says)
        ∷ (A.tells ++ B.tells ++ C.tells ++ D.tells) };

    ghost is_told = { TellsWith (quadruple_row A.says B.says C.says D.says)
        (λ d. A.is_told d × B.is_told d × C.is_told d × D.is_told d) };

    ghost is_in = { λ d told. tuple_in _ d told.0
        (A.is_in _ told.1.0, (B.is_in _ told.1.1, (C.is_in _ told.1.2, (D.is_in _ told.1.3, tt)))) };

    ghost described = { λ d rows n told are checked there. quadruple_at
        A.says B.says C.says D.says
        A.is_row B.is_row C.is_row D.is_row d rows n told.0 are checked there
        (λ m at. A.described _ rows m told.1.0 are checked at)
        (λ m at. B.described _ rows m told.1.1 are checked at)
        (λ m at. C.described _ rows m told.1.2 are checked at)
        (λ m at. D.described _ rows m told.1.3 are checked at) };
}
