//! What holds other values.
ghost use Rattle.std.specs.Prelude.{◌≡◌, ◌∷◌, [], ℕ, All, length};
ghost use Rattle.schemars_shapes.specs.Shape.{Shape as shape};
ghost use Rattle.schemars_written.specs.Readings.{inside, of_each, of_some, both};
ghost use Rattle.schemars_written.specs.Fits.{HasShape, IsArrayRow, OfSome};
ghost use Rattle.schemars_written.proofs.Parts.{own_option_law, own_vec_law, own_array_law, own_single_law, own_pair_law, own_triple_law, own_quadruple_law, own_inside};

use crate::law::Agrees;
use crate::row::shape_at;
use schemars_types::{Shape, TypeNo, Types};
use std::collections::VecDeque;

/// What is said of a reference is said of what it refers to.
impl<T: Agrees> Agrees for &T {
    ghost valid = { λ r. T.valid r.now };

    ghost readings = { inside T.readings (λ r. r.now) };

    ghost is_row = { T.is_row };

    ghost agrees = { λ rows n r checked row valid. own_inside T.readings r (λ r. r.now)
        (T.writes r.now) rows n (T.agrees rows n r.now checked row valid) };

    fn has_row(types: &Types, n: TypeNo) -> bool {
        T::has_row(types, n)
    }

    fn is_valid(&self) -> bool {
        (**self).is_valid()
    }
}

impl<T: Agrees> Agrees for Box<T> {
    ghost valid = { λ b. T.valid b.value };

    ghost readings = { inside T.readings (λ b. b.value) };

    ghost is_row = { T.is_row };

    ghost agrees = { λ rows n b checked row valid. own_inside T.readings b (λ b. b.value)
        (T.writes b.value) rows n (T.agrees rows n b.value checked row valid) };

    fn has_row(types: &Types, n: TypeNo) -> bool {
        T::has_row(types, n)
    }

    fn is_valid(&self) -> bool {
        (**self).is_valid()
    }
}

impl<T: Agrees> Agrees for Option<T> {
    ghost valid = { OfSome T.valid };

    ghost readings = { of_some T.readings (λ x. x) };

    ghost is_row = { λ rows n. (m : ℕ) × HasShape rows n (shape.option m) × T.is_row rows m };

    ghost agrees = { λ rows n x checked row valid. own_option_law T.readings x (λ x. x) rows checked n
        T.writes T.valid T.is_row (λ m y r v. T.agrees rows m y checked r v) row valid };

    fn has_row(types: &Types, n: TypeNo) -> bool {
        match shape_at(types, n) {
            Some(Shape::Option(m)) => T::has_row(types, *m),
            _ => false,
        }
    }

    fn is_valid(&self) -> bool {
        match self {
            Some(value) => value.is_valid(),
            None => true,
        }
    }
}

impl<T: Agrees> Agrees for Vec<T> {
    ghost valid = { λ v. All T.valid v.items };

    ghost readings = { of_each T.readings (λ v. v.items) };

    ghost is_row = { λ rows n. (m : ℕ) × HasShape rows n (shape.seq m) × T.is_row rows m };

    ghost agrees = { λ rows n v checked row valid. own_vec_law T.readings v (λ v. v.items) rows checked n
        T.writes T.valid T.is_row (λ m y r v. T.agrees rows m y checked r v) row valid };

    fn has_row(types: &Types, n: TypeNo) -> bool {
        match shape_at(types, n) {
            Some(Shape::Seq(m)) => T::has_row(types, *m),
            _ => false,
        }
    }

    fn is_valid(&self) -> bool {
        for item in self {
            if !item.is_valid() {
                return false;
            }
        }
        true
    }
}

impl<T: Agrees> Agrees for VecDeque<T> {
    ghost valid = { λ v. All T.valid v.items };

    ghost readings = { of_each T.readings (λ v. v.items) };

    ghost is_row = { λ rows n. (m : ℕ) × HasShape rows n (shape.seq m) × T.is_row rows m };

    ghost agrees = { λ rows n v checked row valid. own_vec_law T.readings v (λ v. v.items) rows checked n
        T.writes T.valid T.is_row (λ m y r v. T.agrees rows m y checked r v) row valid };

    fn has_row(types: &Types, n: TypeNo) -> bool {
        match shape_at(types, n) {
            Some(Shape::Seq(m)) => T::has_row(types, *m),
            _ => false,
        }
    }

    fn is_valid(&self) -> bool {
        for item in self {
            if !item.is_valid() {
                return false;
            }
        }
        true
    }
}

/// The row of an array of no items is that of an empty tuple.
impl<T: Agrees, const N: usize> Agrees for [T; N] {
    ghost valid = { λ xs. (length xs ≡ N) × All T.valid xs };

    ghost readings = { of_each T.readings (λ xs. xs) };

    ghost is_row = { λ rows n. IsArrayRow T.is_row N rows n };

    ghost agrees = { λ rows n xs checked row valid. own_array_law T.readings xs (λ xs. xs) rows checked n N
        T.writes T.valid T.is_row (λ m y r v. T.agrees rows m y checked r v) row valid };

    fn has_row(types: &Types, n: TypeNo) -> bool {
        match shape_at(types, n) {
            Some(Shape::Array(m, len)) => *len == N as u64 && T::has_row(types, *m),
            Some(Shape::Tuple(parts)) => N == 0 && parts.is_empty(),
            _ => false,
        }
    }

    fn is_valid(&self) -> bool {
        for item in self.iter() {
            if !item.is_valid() {
                return false;
            }
        }
        true
    }
}

impl<A: Agrees, B: Agrees> Agrees for (A, B) {
    ghost valid = { λ p. A.valid p.0 × B.valid p.1 };

    ghost readings = { both (inside A.readings (λ p. p.0)) (inside B.readings (λ p. p.1)) };

    ghost is_row = { λ rows n. (a b : ℕ) × HasShape rows n (shape.tuple (a ∷ b ∷ []))
        × A.is_row rows a × B.is_row rows b };

    ghost agrees = { λ rows n p checked row valid. own_pair_law A.readings B.readings p rows checked n
        A.writes B.writes A.valid B.valid A.is_row B.is_row (λ m y r v. A.agrees rows m y checked r v)
        (λ m y r v. B.agrees rows m y checked r v) row valid };

    fn has_row(types: &Types, n: TypeNo) -> bool {
        match shape_at(types, n) {
            Some(Shape::Tuple(parts)) => match parts.as_slice() {
                [a, b] => A::has_row(types, *a) && B::has_row(types, *b),
                _ => false,
            },
            _ => false,
        }
    }

    fn is_valid(&self) -> bool {
        self.0.is_valid() && self.1.is_valid()
    }
}

impl<A: Agrees> Agrees for (A,) {
    ghost valid = { λ p. A.valid p.0 };

    ghost readings = { inside A.readings (λ p. p.0) };

    ghost is_row = { λ rows n. (a : ℕ) × HasShape rows n (shape.tuple (a ∷ [])) × A.is_row rows a };

    ghost agrees = { λ rows n p checked row valid. own_single_law A.readings p (λ p. p.0) rows checked n
        A.writes A.valid A.is_row (λ m y r v. A.agrees rows m y checked r v) row valid };

    fn has_row(types: &Types, n: TypeNo) -> bool {
        match shape_at(types, n) {
            Some(Shape::Tuple(parts)) => match parts.as_slice() {
                [a] => A::has_row(types, *a),
                _ => false,
            },
            _ => false,
        }
    }

    fn is_valid(&self) -> bool {
        self.0.is_valid()
    }
}

impl<A: Agrees, B: Agrees, C: Agrees> Agrees for (A, B, C) {
    ghost valid = { λ p. A.valid p.0 × B.valid p.1 × C.valid p.2 };

    ghost readings = { both (inside A.readings (λ p. p.0)) (both (inside B.readings (λ p. p.1)) (inside C.readings (λ p. p.2))) };

    ghost is_row = { λ rows n. (a b c : ℕ) × HasShape rows n (shape.tuple (a ∷ b ∷ c ∷ []))
        × A.is_row rows a × B.is_row rows b × C.is_row rows c };

    ghost agrees = { λ rows n p checked row valid. own_triple_law A.readings B.readings C.readings p rows
        checked n A.writes B.writes C.writes A.valid B.valid C.valid A.is_row B.is_row C.is_row
        (λ m y r v. A.agrees rows m y checked r v) (λ m y r v. B.agrees rows m y checked r v)
        (λ m y r v. C.agrees rows m y checked r v) row valid };

    fn has_row(types: &Types, n: TypeNo) -> bool {
        match shape_at(types, n) {
            Some(Shape::Tuple(parts)) => match parts.as_slice() {
                [a, b, c] => {
                    A::has_row(types, *a) && B::has_row(types, *b) && C::has_row(types, *c)
                }
                _ => false,
            },
            _ => false,
        }
    }

    fn is_valid(&self) -> bool {
        self.0.is_valid() && self.1.is_valid() && self.2.is_valid()
    }
}

impl<A: Agrees, B: Agrees, C: Agrees, D: Agrees> Agrees for (A, B, C, D) {
    ghost valid = { λ p. A.valid p.0 × B.valid p.1 × C.valid p.2 × D.valid p.3 };

    ghost readings = { both (inside A.readings (λ p. p.0)) (both (inside B.readings (λ p. p.1))
        (both (inside C.readings (λ p. p.2)) (inside D.readings (λ p. p.3)))) };

    ghost is_row = { λ rows n. (a b c d : ℕ) × HasShape rows n (shape.tuple (a ∷ b ∷ c ∷ d ∷ []))
        × A.is_row rows a × B.is_row rows b × C.is_row rows c × D.is_row rows d };

    ghost agrees = { λ rows n p checked row valid. own_quadruple_law A.readings B.readings C.readings
        D.readings p rows checked n A.writes B.writes C.writes D.writes A.valid B.valid C.valid D.valid
        A.is_row B.is_row C.is_row D.is_row
        (λ m y r v. A.agrees rows m y checked r v) (λ m y r v. B.agrees rows m y checked r v)
        (λ m y r v. C.agrees rows m y checked r v) (λ m y r v. D.agrees rows m y checked r v) row valid };

    fn has_row(types: &Types, n: TypeNo) -> bool {
        match shape_at(types, n) {
            Some(Shape::Tuple(parts)) => match parts.as_slice() {
                [a, b, c, d] => {
                    A::has_row(types, *a)
                        && B::has_row(types, *b)
                        && C::has_row(types, *c)
                        && D::has_row(types, *d)
                }
                _ => false,
            },
            _ => false,
        }
    }

    fn is_valid(&self) -> bool {
        self.0.is_valid() && self.1.is_valid() && self.2.is_valid() && self.3.is_valid()
    }
}
