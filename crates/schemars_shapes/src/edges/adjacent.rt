//! The names in enums whose values have name and content under keys of their own.
ghost use Rattle.std.specs.Prelude.{List, [], ◌∷◌, string_bytes, IfOk, MatchOption};
ghost use Rattle.schemars_shapes.specs.Shape.{adjacent_view, variant_names};
ghost use Rattle.schemars_shapes.specs.Repeated.{AreDistinctLists, IsFirstRepeated};

use crate::edges::names::first_repeated;
use crate::edges::variant::repeated_in;
use crate::variant::Adjacent;
use std::alloc::{AllocError, Global};

// The first name that is met a second time: the content's key is the tag, or else a name among the
// variants, or else one among the fields of a variant.
pub(crate) fn repeated_name(
    alloc: Global,
    adjacent: &Adjacent,
) -> Result<Option<String>, AllocError>
    ensures { IfOk result (λ r.
        let x = adjacent_view adjacent.now in
        let names = (x.0 ∷ x.1 ∷ []) ∷ variant_names x.3 in
        MatchOption r (AreDistinctLists names) (λ s. IsFirstRepeated names (string_bytes s))) }
{
    let keys = [adjacent.tag.as_str(), adjacent.content.as_str()];
    match first_repeated(alloc, &keys)? {
        Some(name) => Ok(Some(name)),
        None => repeated_in(alloc, &adjacent.variants),
    }
}
