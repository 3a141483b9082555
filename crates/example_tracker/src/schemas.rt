//! The implementations of `JsonSchema`, which `schemaderive` wrote of the declarations.
mod issues;
mod people;
mod settings;
mod tracker;
mod values;
