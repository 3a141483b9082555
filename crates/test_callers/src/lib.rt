//! Callers that are proved from contracts alone: what a table that was empty holds when a type was
//! registered in it, that a generator's document means its type, whatever calls were before, and that it
//! accepts what serde writes.
//!
//! Nothing is above them, so none of them is public.
#![tactic(auto)]

mod alone;
mod arrays;
mod choices;
mod contract;
mod generators;
mod maps;
mod sequences;
mod written;
