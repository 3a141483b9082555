//! The keys that a map may have.
ghost use Rattle.std.specs.Prelude.{◌≡◌, ◌∷◌, [], None, Some, OnOk, true, false};
ghost use Rattle.schemars_types.specs.KeyOptions.{any_text, keys, either_integers};
ghost use Rattle.schemars_types.specs.Found.{options_of, adding};

use indexmap::IndexSet;
use schemars_shapes::IntegerKeys;
use std::alloc::{AllocError, Global};

// The one pattern for both.
fn wider(present: Option<IntegerKeys>, more: IntegerKeys) -> IntegerKeys
    ensures { Some result ≡ either_integers present (Some more) }
{
    match present {
        Some(IntegerKeys::Signed) => IntegerKeys::Signed,
        Some(IntegerKeys::Unsigned) => more,
        None => more,
    }
}

/// The keys that a map may have.
#[derive(Drop)]
pub struct KeyOptions<'t> {
    /// whether any other text is one
    pub others: bool,
    pub texts: IndexSet<&'t str>,
    pub integers: Option<IntegerKeys>,
    /// keys match one of these
    pub patterns: IndexSet<&'t str>,
}

impl<'t> KeyOptions<'t> {
    pub(crate) fn none(alloc: Global) -> KeyOptions<'t>
        ensures { options_of result ≡ keys false [] None [] }
    {
        KeyOptions {
            others: false,
            texts: IndexSet::new(alloc),
            integers: None,
            patterns: IndexSet::new(alloc),
        }
    }

    pub(crate) fn allow_others(&mut self)
        ensures { options_of self.new ≡ adding (options_of self.old) any_text }
    {
        self.others = true;
    }

    pub(crate) fn add_text(&mut self, text: &'t str) -> Result<(), AllocError>
        ensures { OnOk result (options_of self.new
            ≡ adding (options_of self.old) (keys false (text.now ∷ []) None [])) }
    {
        self.texts.insert(text)?;
        Ok(())
    }

    pub(crate) fn add_pattern(&mut self, pattern: &'t str) -> Result<(), AllocError>
        ensures { OnOk result (options_of self.new
            ≡ adding (options_of self.old) (keys false [] None (pattern.now ∷ []))) }
    {
        self.patterns.insert(pattern)?;
        Ok(())
    }

    pub(crate) fn add_integers(&mut self, more: IntegerKeys)
        ensures { options_of self.new
            ≡ adding (options_of self.old) (keys false [] (Some more) []) }
    {
        self.integers = Some(wider(self.integers, more));
    }
}
