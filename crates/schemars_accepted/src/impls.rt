//! Implementations of `AgreesAsDescribed`.
mod holders;
mod maps;
mod primitives;
mod tuples;
