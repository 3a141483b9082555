//! Types that describe themselves: the trait `JsonSchema`, its implementations, and `register`; and
//! what an implementation of one's own calls.
pub use schemars_impls::{
    JsonSchema, OPTIONAL, READ_OPTIONAL, REQUIRED, add_array_of, add_field, add_field_of,
    add_flat_struct, add_flattened, add_internal_flat_struct, add_internal_newtype,
    add_internal_newtype_of, add_internal_struct, add_internal_unit, add_map_of, add_newtype,
    add_newtype_of, add_number, add_one, add_option_of, add_own, add_seq_of, add_set_of,
    add_struct, add_tuple, add_unit, adjacent_entry, array_of, external_entry, flat_entry,
    internal_entry, map_of, newtype_entry, newtype_entry_of, note_entry, note_field,
    note_internal_variant, note_variant, option_of, register, reserve, seq_of, set_of,
    struct_entry, tuple_entry, untagged_entry,
};
