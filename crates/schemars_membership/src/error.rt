//! Why it is not decided whether a value belongs to a type.
ghost use Rattle.std.specs.Prelude.{◌≡◌};

use schemars_generate::GenerateError;
use schemars_validator::Refusal;
use std::alloc::AllocError;
use std::fmt::{self, Display, Formatter, Write};

/// Why it is not decided whether a value belongs to a type.
#[derive(Debug, Drop)]
pub enum MembershipError {
    /// There is no document of the type.
    Generate(GenerateError),
    /// The document has what a validator does not read.
    Document(Refusal),
    OutOfMemory,
}

impl From<GenerateError> for MembershipError {
    ghost use Rattle.schemars_membership.specs.declared.error.MembershipError.TheVariants.{Generate};

    ghost from_gives = { λ given error. error ≡ Generate given };

    fn from(error: GenerateError) -> MembershipError {
        MembershipError::Generate(error)
    }
}

impl From<Refusal> for MembershipError {
    ghost use Rattle.schemars_membership.specs.declared.error.MembershipError.TheVariants.{Document};

    ghost from_gives = { λ given error. error ≡ Document given };

    fn from(refusal: Refusal) -> MembershipError {
        MembershipError::Document(refusal)
    }
}

impl From<AllocError> for MembershipError {
    ghost use Rattle.schemars_membership.specs.declared.error.MembershipError.TheVariants.{OutOfMemory};

    ghost from_gives = { λ _ error. error ≡ OutOfMemory };

    fn from(_: AllocError) -> MembershipError {
        MembershipError::OutOfMemory
    }
}

impl Display for MembershipError {
    fn fmt<W: Write>(&self, f: &mut Formatter<W>) -> fmt::Result {
        match self {
            MembershipError::Generate(error) => write!(f, "{error}"),
            MembershipError::Document(refusal) => write!(f, "{refusal}"),
            MembershipError::OutOfMemory => f.write_str("out of memory"),
        }
    }
}
