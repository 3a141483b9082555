//! The constructors of rows.
mod containers;
mod fields;
mod fixed;
mod register;
mod scalars;
