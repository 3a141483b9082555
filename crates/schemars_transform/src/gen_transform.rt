//! A built-in transform, or one of one's own.
ghost use Rattle.std.specs.Prelude.{◌≡◌, ◌↔◌, false, IsTrue, IfOk, Err};
ghost use Rattle.schemars_transform.specs.Member.{is_own, IsCopy};
ghost use Rattle.schemars_transform.specs.declared.error.CloneError.TheVariants.{OwnTransform};

use crate::built_in::bool_schemas::ReplaceBoolSchemas;
use crate::built_in::const_value::ReplaceConstValue;
use crate::built_in::formats::RestrictFormats;
use crate::built_in::nullable::AddNullable;
use crate::built_in::prefix_items::ReplacePrefixItems;
use crate::built_in::ref_siblings::RemoveRefSiblings;
use crate::built_in::single_example::SetSingleExample;
use crate::built_in::unevaluated::ReplaceUnevaluatedProperties;
use crate::error::CloneError;
use schemars_schema::Schema;
use schemars_walk::{Transform, TransformError};
use std::alloc::Global;

/// One of the built-in transforms, or a user-defined transform of type `O`.
///
/// By default that is a box, so that one list holds transforms of several types:
///
/// ```
/// let first = GenTransform::Own(Box::new(alloc, first)?);
/// let second = GenTransform::Own(Box::new(alloc, second)?);
/// let settings = settings.with_transform(first)?.with_transform(second)?;
/// ```
#[derive(Drop)]
pub enum GenTransform<O = Box<dyn Transform + Drop>> {
    /// Makes every schema an object.
    ReplaceBoolSchemas(ReplaceBoolSchemas),
    /// Separates `$ref` from other keywords.
    RemoveRefSiblings(RemoveRefSiblings),
    /// Makes the first of the examples the only one.
    SetSingleExample(SetSingleExample),
    /// Makes `const` an `enum`.
    ReplaceConstValue(ReplaceConstValue),
    /// Makes `prefixItems` a list under `items`.
    ReplacePrefixItems(ReplacePrefixItems),
    /// Sets `nullable` where `type` holds null.
    AddNullable(AddNullable),
    /// Makes `unevaluatedProperties` `additionalProperties`.
    ReplaceUnevaluatedProperties(ReplaceUnevaluatedProperties),
    /// Removes formats that the draft does not define.
    RestrictFormats(RestrictFormats),
    /// A user-defined transform.
    Own(O),
}

impl<O: Transform> Transform for GenTransform<O> {
    ghost use Rattle.schemars_transform.specs.Member.{OfMember};

    ghost makes = { λ t s r u v. OfMember O.makes t s r u v };

    fn transform(&mut self, alloc: Global, schema: &mut Schema) -> Result<(), TransformError> {
        match self {
            GenTransform::ReplaceBoolSchemas(t) => t.transform(alloc, schema),
            GenTransform::RemoveRefSiblings(t) => t.transform(alloc, schema),
            GenTransform::SetSingleExample(t) => t.transform(alloc, schema),
            GenTransform::ReplaceConstValue(t) => t.transform(alloc, schema),
            GenTransform::ReplacePrefixItems(t) => t.transform(alloc, schema),
            GenTransform::AddNullable(t) => t.transform(alloc, schema),
            GenTransform::ReplaceUnevaluatedProperties(t) => t.transform(alloc, schema),
            GenTransform::RestrictFormats(t) => t.transform(alloc, schema),
            GenTransform::Own(t) => t.transform(alloc, schema),
        }
    }
}

impl<O> GenTransform<O> {
    /// Returns whether it is a user-defined transform.
    pub fn is_own(&self) -> bool
        ensures { result ≡ is_own self.now }
    {
        match self {
            GenTransform::Own(_) => true,
            _ => false,
        }
    }

    /// Returns a copy of a built-in transform.
    ///
    /// # Errors
    ///
    /// `OwnTransform` if and only if it is user-defined; `Memory`.
    pub fn try_clone<P>(&self) -> Result<GenTransform<P>, CloneError>
        ensures copies { IfOk result (λ c. IsCopy self.now c) }
        ensures none_own { IfOk result (λ c. is_own c ≡ false) }
        ensures own { (result ≡ Err OwnTransform) ↔ IsTrue (is_own self.now) }
    {
        match self {
            GenTransform::ReplaceBoolSchemas(t) => Ok(GenTransform::ReplaceBoolSchemas(*t)),
            GenTransform::RemoveRefSiblings(t) => Ok(GenTransform::RemoveRefSiblings(*t)),
            GenTransform::SetSingleExample(t) => Ok(GenTransform::SetSingleExample(*t)),
            GenTransform::ReplaceConstValue(t) => Ok(GenTransform::ReplaceConstValue(*t)),
            GenTransform::ReplacePrefixItems(t) => Ok(GenTransform::ReplacePrefixItems(*t)),
            GenTransform::AddNullable(t) => Ok(GenTransform::AddNullable(*t)),
            GenTransform::ReplaceUnevaluatedProperties(t) => {
                Ok(GenTransform::ReplaceUnevaluatedProperties(*t))
            }
            GenTransform::RestrictFormats(t) => Ok(GenTransform::RestrictFormats(t.clone()?)),
            GenTransform::Own(_) => Err(CloneError::OwnTransform),
        }
    }
}
