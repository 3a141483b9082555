//! Why a document is not taken.
ghost use Rattle.std.specs.Prelude.{◌≡◌};

use crate::expressions::Expression;
use std::alloc::{AllocError, AllocFailed};
use std::fmt::{self, Display, Formatter, Write};

/// A keyword that judges values and is not read, or whose value has the wrong form, or a reference that
/// is not followed.
#[derive(Debug, Drop)]
pub struct Unread {
    /// The place in the document as a JSON Pointer.
    pub place: String,
    pub keyword: String,
    /// What the keyword takes, for a reader, where its value has another form.
    pub wanted: Option<String>,
}

/// Why a document is not taken.
#[derive(Debug, Drop)]
pub enum Refusal {
    OutOfMemory,
    /// The document is neither an object nor a truth value.
    NotASchema,
    /// Keywords that judge values and are not read, and those whose value has the wrong form.
    Unread(Vec<Unread>),
    /// A pattern that is no regular expression of the `regex` crate, or too large.
    Pattern(Unread),
}

impl From<AllocError> for Refusal {
    ghost use Rattle.schemars_readable.specs.declared.refusal.Refusal.TheVariants.{OutOfMemory};

    ghost from_gives = { λ _ refusal. refusal ≡ OutOfMemory };

    fn from(_: AllocError) -> Refusal {
        Refusal::OutOfMemory
    }
}

impl From<AllocFailed<Expression>> for Refusal {
    ghost use Rattle.schemars_readable.specs.declared.refusal.Refusal.TheVariants.{OutOfMemory};

    ghost from_gives = { λ _ refusal. refusal ≡ OutOfMemory };

    fn from(_: AllocFailed<Expression>) -> Refusal {
        Refusal::OutOfMemory
    }
}

impl Display for Refusal {
    fn fmt<W: Write>(&self, f: &mut Formatter<W>) -> fmt::Result {
        match self {
            Refusal::OutOfMemory => f.write_str("out of memory"),
            Refusal::NotASchema => f.write_str("the document is no schema"),
            Refusal::Unread(unread) => {
                write_malformed(f, unread)?;
                write_unread(f, unread)
            }
            Refusal::Pattern(it) => {
                let (place, pattern) = (it.place.as_str(), it.keyword.as_str());
                write!(f, "{place}: the pattern {pattern:?} is no expression")
            }
        }
    }
}

// A line for each keyword whose value has the wrong form.
fn write_malformed<W: Write>(f: &mut Formatter<W>, unread: &[Unread]) -> fmt::Result {
    let mut begun = false;
    for it in unread {
        if let Some(wanted) = &it.wanted {
            if !begun {
                f.write_str("values of keywords have the wrong form:")?;
                begun = true;
            }
            let (place, wanted) = (it.place.as_str(), wanted.as_str());
            write!(f, "\n  {place}: {wanted}")?;
        }
    }
    if begun && has_unread(unread) {
        f.write_str("\n")?;
    }
    Ok(())
}

fn has_unread(unread: &[Unread]) -> bool {
    for it in unread {
        if it.wanted.is_none() {
            return true;
        }
    }
    false
}

// The places of the keywords that are not read.
fn write_unread<W: Write>(f: &mut Formatter<W>, unread: &[Unread]) -> fmt::Result {
    if !has_unread(unread) {
        return Ok(());
    }
    f.write_str("keywords that are not read:")?;
    for it in unread {
        if it.wanted.is_none() {
            let place = it.place.as_str();
            write!(f, " {place}")?;
        }
    }
    Ok(())
}
