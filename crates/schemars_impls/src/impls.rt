//! Implementations of `JsonSchema`.
#![tactic(auto, using(crate::proofs::Composing::keeping), unfolding(crate::specs::Dictionary::alone, crate::specs::Dictionary::of_one, crate::specs::Dictionary::of_two, crate::specs::Containers::option_row, crate::specs::Containers::seq_row, crate::specs::Containers::set_row, crate::specs::Containers::map_row, crate::specs::Containers::array_row, crate::specs::Containers::tuple_row))]

mod array;
mod arrayvec07;
mod bytes1;
mod core_types;
mod either1;
mod indexmap2;
mod jiff02;
mod literals;
pub(crate) mod maps;
mod nonzero;
mod primitives;
mod semver1;
pub(crate) mod sequences;
mod serdejson;
mod smallvec1;
mod std_time;
pub(crate) mod tuple;
mod url2;
mod uuid1;
mod wrapper;
