//! Copies of lists of transforms.
ghost use Rattle.std.specs.Prelude.{◌≡◌, ◌↔◌, false, IsTrue, IfOk, Err};
ghost use Rattle.schemars_transform.specs.Member.{some_own, AreCopies};
ghost use Rattle.schemars_transform.specs.declared.error.CloneError.TheVariants.{OwnTransform};

use crate::error::CloneError;
use crate::gen_transform::GenTransform;
use std::alloc::Global;

/// Copies a list of built-in transforms.
///
/// # Errors
///
/// `OwnTransform` if and only if the list has a user-defined transform; `Memory`.
pub fn try_clone_all<O, P: Drop>(
    alloc: Global,
    transforms: &[GenTransform<O>],
) -> Result<Vec<GenTransform<P>>, CloneError>
    ensures copies { IfOk result (λ cs. AreCopies transforms.now cs.items) }
    ensures none_own { IfOk result (λ cs. some_own cs.items ≡ false) }
    ensures own { (result ≡ Err OwnTransform) ↔ IsTrue (some_own transforms.now) }
{
    if some_own(transforms) {
        return Err(CloneError::OwnTransform);
    }
    let mut copies = Vec::new(alloc);
    for transform in transforms {
        copies.push(transform.try_clone()?)?;
    }
    Ok(copies)
}

fn some_own<O>(transforms: &[GenTransform<O>]) -> bool
    ensures { result ≡ some_own transforms.now }
{
    transforms.iter().any(|t| t.is_own())
}
