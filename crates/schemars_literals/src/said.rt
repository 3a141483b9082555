//! What a type says of one key.
ghost use Rattle.std.specs.Prelude.{◌≡◌, None, Some, false};
ghost use Rattle.schemars_types.specs.KeyOptions.{either_integers};
ghost use Rattle.schemars_literals.specs.Keys.{said_of, any_said, either_said};

use schemars_types::IntegerKeys;

/// What the type of a row says of a key.
#[derive(Clone, Copy)]
pub struct Said {
    /// The key is one of its texts, or matches one of its patterns.
    pub found: bool,
    /// The whole numbers that are keys too.
    pub integers: Option<IntegerKeys>,
}

/// Any text is a key.
pub fn any_said() -> Said
    ensures { said_of result ≡ any_said }
{
    Said {
        found: true,
        integers: None,
    }
}

/// These whole numbers are keys.
pub fn integers_said(integers: IntegerKeys) -> Said
    ensures { said_of result ≡ record { found = false; integers = Some integers } }
{
    Said {
        found: false,
        integers: Some(integers),
    }
}

/// The key is one, or nothing is said of it.
pub fn found_said(found: bool) -> Said
    ensures { said_of result ≡ record { found = found; integers = None } }
{
    Said {
        found,
        integers: None,
    }
}

/// What one of the two says.
pub fn either_said(a: Said, b: Said) -> Said
    ensures { said_of result ≡ either_said (said_of a) (said_of b) }
{
    Said {
        found: a.found || b.found,
        integers: either_integers(a.integers, b.integers),
    }
}

fn either_integers(a: Option<IntegerKeys>, b: Option<IntegerKeys>) -> Option<IntegerKeys>
    ensures { result ≡ either_integers a b }
{
    match a {
        None => b,
        Some(IntegerKeys::Signed) => Some(IntegerKeys::Signed),
        Some(IntegerKeys::Unsigned) => match b {
            None => Some(IntegerKeys::Unsigned),
            Some(keys) => Some(keys),
        },
    }
}
