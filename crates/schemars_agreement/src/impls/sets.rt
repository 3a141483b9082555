//! Sets, of values that their JSON tells apart.
ghost use Rattle.std.specs.Prelude.{ℕ, All};
ghost use Rattle.std.specs.BTreeSet.{IsOrdered};
ghost use Rattle.std.specs.HashSet.{IsUnique};
ghost use Rattle.schemars_shapes.specs.Shape.{Shape as shape};
ghost use Rattle.schemars_written.specs.Readings.{of_each};
ghost use Rattle.schemars_written.specs.Fits.{HasShape};
ghost use Rattle.schemars_written.proofs.Parts.{own_set_law, own_unordered_set_law};

use crate::law::{Agrees, TellsApart};
use crate::row::shape_at;
use schemars_types::{Shape, TypeNo, Types};
use std::collections::{BTreeSet, HashSet};
use std::hash::{BuildHasher, Hash};

impl<T: TellsApart> Agrees for BTreeSet<T> {
    ghost valid = { λ s. IsOrdered T.cmp s × All T.valid s.keys };

    ghost readings = { of_each T.readings (λ s. s.keys) };

    ghost is_row = { λ rows n. (m : ℕ) × HasShape rows n (shape.set m) × T.is_row rows m };

    ghost agrees = { λ rows n s checked row valid. own_set_law T.readings s (λ s. s.keys)
        rows checked n T.writes T.valid T.is_row
        T.cmp T.shown (λ m x r v. T.shows rows m x checked r v) T.apart row valid };

    fn has_row(types: &Types, n: TypeNo) -> bool {
        match shape_at(types, n) {
            Some(Shape::Set(m)) => T::has_row(types, *m),
            _ => false,
        }
    }

    fn is_valid(&self) -> bool {
        for item in self.iter() {
            if !item.is_valid() {
                return false;
            }
        }
        true
    }
}

impl<T: TellsApart + Hash, S: BuildHasher> Agrees for HashSet<T, S> {
    ghost valid = { λ s. IsUnique T.eq s × All T.valid s.keys };

    ghost readings = { of_each T.readings (λ s. s.keys) };

    ghost is_row = { λ rows n. (m : ℕ) × HasShape rows n (shape.set m) × T.is_row rows m };

    ghost agrees = { λ rows n s checked row valid. own_unordered_set_law T.readings s (λ s. s.keys)
        rows checked n T.writes T.valid
        T.is_row T.eq T.cmp T.total T.matches_eq T.shown (λ m x r v. T.shows rows m x checked r v)
        T.apart row valid };

    fn has_row(types: &Types, n: TypeNo) -> bool {
        match shape_at(types, n) {
            Some(Shape::Set(m)) => T::has_row(types, *m),
            _ => false,
        }
    }

    fn is_valid(&self) -> bool {
        for item in self.iter() {
            if !item.is_valid() {
                return false;
            }
        }
        true
    }
}
