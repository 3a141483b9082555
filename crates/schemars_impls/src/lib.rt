//! The trait of types that describe themselves in tables of types, and its implementations.
#![tactic(auto)]

mod entries;
mod fields;
mod impls;
mod law;
mod notes;
mod own_fields;
mod rows;
mod variants;

pub use entries::{newtype_entry, newtype_entry_of, tuple_entry};
pub use fields::{
    OPTIONAL, READ_OPTIONAL, REQUIRED, add_field, add_field_of, add_flattened, flat_entry,
    struct_entry,
};
pub use impls::tuple::parts::{add_number, add_one};
pub use law::{JsonSchema, register};
pub use notes::{note_entry, note_field, note_internal_variant, note_variant};
pub use own_fields::{add_array_of, add_map_of, add_option_of, add_own, add_seq_of, add_set_of};
pub use rows::{array_of, map_of, option_of, reserve, seq_of, set_of};
pub use variants::{
    add_flat_struct, add_internal_flat_struct, add_internal_newtype, add_internal_newtype_of,
    add_internal_struct, add_internal_unit, add_newtype, add_newtype_of, add_struct, add_tuple,
    add_unit, adjacent_entry, external_entry, internal_entry, untagged_entry,
};
