//! A schema in parts, and the text of what transforms make of it.
ghost use Rattle.std.specs.Prelude.{◌≡◌, string_bytes, IfOk, IfSome};
ghost use Rattle.schemars_parts.specs.Words.{ordered_text, made_by, needs_of, assembled_view};

use crate::assembled::Assembled;
use crate::changing::change_by;
use crate::error::Stop;
use crate::whole::is_whole;
use crate::writing::text_of;
use schemars_transform::{GenTransform, Needs, NoTransform};
use std::alloc::{AllocError, Global};
use std::marker::Model;

/// A schema in parts, which borrow a template and its answers.
#[derive(Drop)]
pub struct Parts<'t> {
    schema: Assembled<'t>,
}

impl<'t> Model for Parts<'t> {
    ghost use Rattle.serde_json.specs.Data.{Data};
    ghost use Rattle.schemars_schema.specs.DataCode.{data_code};
    ghost use Rattle.schemars_parts.specs.Assembled.{assembled_view};

    ghost Value = { Data };

    ghost coded = { data_code };

    ghost view = { λ p. assembled_view p.schema };
}

impl<'t> Parts<'t> {
    /// These parts.
    pub fn of(schema: Assembled<'t>) -> Parts<'t>
        ensures { result ≡ assembled_view schema.entry }
    {
        Parts { schema }
    }

    /// Returns the ordered text of what transforms make of the schema with these needs, one after
    /// another.
    ///
    /// There is no text where the schema has to be made first: for transforms that look beyond one
    /// schema, as `ReplaceUnevaluatedProperties` and `RestrictFormats` do, and in a few rare cases
    /// where a keyword is there already that a transform adds.
    ///
    /// # Errors
    ///
    /// `AllocError` if memory runs out.
    pub fn changed_text(
        self,
        alloc: Global,
        transforms: &[GenTransform<NoTransform>],
        needs: Needs,
    ) -> Result<Option<String>, AllocError>
        requires { needs ≡ needs_of self }
        ensures { IfOk result (λ o. IfSome o (λ text. string_bytes text
            ≡ ordered_text (made_by transforms.now self.entry))) }
    {
        match change_by(alloc, transforms, self.schema, needs) {
            Ok(schema) if is_whole(&schema) => {
                let text = text_of(alloc, &schema)?;
                Ok(Some(text))
            }
            Ok(_) | Err(Stop::NotCovered) => Ok(None),
            Err(Stop::OutOfMemory(error)) => Err(error),
        }
    }
}
