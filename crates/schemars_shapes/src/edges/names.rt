//! Names that occur twice in a list.
ghost use Rattle.std.specs.Prelude.{◌≡◌, map, bytes_eq, string_bytes, IfOk, MatchOption};
ghost use Rattle.std.specs.List.{IsDistinct, list_any};
ghost use Rattle.schemars_shapes.specs.Repeated.{IsRepeated};

use std::alloc::{AllocError, Global};
use std::collections::BTreeSet;

// Up to this many names are compared with one another, which takes less than a set of them.
const FEW: usize = 16;

/// The first name that is met a second time, if one is.
///
/// # Errors
///
/// Memory runs out.
pub fn first_repeated(alloc: Global, names: &[&str]) -> Result<Option<String>, AllocError>
    ensures { IfOk result (λ r. MatchOption r (IsDistinct bytes_eq (map (λ n. n.now) names.now))
        (λ s. IsRepeated (map (λ n. n.now) names.now) (string_bytes s))) }
{
    if names.len() <= FEW {
        first_of_few(alloc, names)
    } else {
        first_of_many(alloc, names)
    }
}

fn first_of_few(alloc: Global, names: &[&str]) -> Result<Option<String>, AllocError>
    ensures { IfOk result (λ r. MatchOption r (IsDistinct bytes_eq (map (λ n. n.now) names.now))
        (λ s. IsRepeated (map (λ n. n.now) names.now) (string_bytes s))) }
{
    for (place, name) in names.iter().enumerate() {
        if is_among(name, &names[..place]) {
            let name = String::from_str(alloc, name)?;
            return Ok(Some(name));
        }
    }
    Ok(None)
}

fn is_among(name: &str, names: &[&str]) -> bool
    ensures { result ≡ list_any (λ n. bytes_eq name.now n.now) names.now }
{
    for other in names {
        if name == *other {
            return true;
        }
    }
    false
}

fn first_of_many(alloc: Global, names: &[&str]) -> Result<Option<String>, AllocError>
    ensures { IfOk result (λ r. MatchOption r (IsDistinct bytes_eq (map (λ n. n.now) names.now))
        (λ s. IsRepeated (map (λ n. n.now) names.now) (string_bytes s))) }
{
    let mut met = BTreeSet::new(alloc);
    for name in names {
        if !met.insert(*name)? {
            let name = String::from_str(alloc, name)?;
            return Ok(Some(name));
        }
    }
    Ok(None)
}
