//! Why a value is refused.
ghost use Rattle.std.specs.Prelude.{◌≡◌};

use serde_json::Value;
use std::error::Error;
use std::fmt;

/// The value is not a schema: it is neither an object nor a truth value. It is handed back.
#[derive(Debug, Drop)]
pub struct NotASchema(pub Value);

impl NotASchema {
    /// The number that callers in other languages know the refusal by.
    pub fn code(&self) -> u32
        ensures { result ≡ 12 }
    {
        12
    }
}

impl fmt::Display for NotASchema {
    fn fmt<W: fmt::Write>(&self, f: &mut fmt::Formatter<W>) -> fmt::Result {
        f.write_str("NotASchema")
    }
}

impl Error for NotASchema {}
