use schemars::GenerateError;
use schemars::schema::OrderedError;
use schemars_generate::error::error_name;
pub use schemars_generate::error::{
    ALREADY_DEFINED, DEFINITIONS_PATH, DIRECT_CYCLE, EMPTY_CYCLE, NOT_AN_EXTENSION, OUT_OF_MEMORY,
    OWN_TRANSFORM, REPEATED_NAME, TRANSFORM, UNDEFINED_TYPE, UNKNOWN_TYPE,
};
use std::alloc::AllocError;
use std::fmt;

/// What was read is not JSON.
pub const NOT_JSON: u32 = 20;

/// What was read is not a table with a root.
pub const BAD_TABLE: u32 = 21;

/// A number of an example is not a whole number from -2^63 to 2^64 - 1.
pub const NOT_WHOLE: u32 = 22;

/// The source has failed.
pub const READ: u32 = 23;

/// The sink has failed.
pub const WRITE: u32 = 24;

/// Why a run wrote no document.
#[derive(Clone, Copy, Debug, PartialEq, Eq)]
pub enum Fault {
    /// The words are none that the program knows.
    Usage,
    /// The run was refused, by the number of the refusal.
    Refused(u32),
}

impl Fault {
    ghost use Rattle.std.specs.Prelude.{◌≡◌};
    ghost use Rattle.schemagen_run.specs.Fault.{status_of};

    /// The exit status of the program.
    pub fn status(self) -> u8
        ensures { result ≡ status_of self }
    {
        match self {
            Fault::Usage => 2,
            Fault::Refused(_) => 1,
        }
    }
}

impl From<AllocError> for Fault {
    ghost use Rattle.std.specs.Prelude.{◌≡◌};
    ghost use Rattle.schemagen_run.specs.declared.fault.Fault.TheVariants.{Refused};
    ghost use Rattle.schemars_generate.specs.declared.error.TheConstants.{OUT_OF_MEMORY};

    ghost from_gives = { λ _ e. e ≡ Refused OUT_OF_MEMORY };

    fn from(_e: AllocError) -> Fault {
        Fault::Refused(OUT_OF_MEMORY)
    }
}

impl From<GenerateError> for Fault {
    ghost use Rattle.std.specs.Prelude.{◌≡◌};
    ghost use Rattle.schemagen_run.specs.declared.fault.Fault.TheVariants.{Refused};
    ghost use Rattle.schemars_generate.specs.Refusals.{code_of};

    ghost from_gives = { λ e f. f ≡ Refused (code_of e) };

    fn from(e: GenerateError) -> Fault {
        Fault::Refused(e.code())
    }
}

impl From<OrderedError> for Fault {
    ghost use Rattle.std.specs.Prelude.{◌≡◌};
    ghost use Rattle.schemagen_run.specs.Fault.{fault_of_writing};

    ghost from_gives = { λ e f. f ≡ fault_of_writing e };

    fn from(e: OrderedError) -> Fault {
        match e {
            OrderedError::OutOfMemory => Fault::Refused(OUT_OF_MEMORY),
            OrderedError::Write => Fault::Refused(WRITE),
        }
    }
}

// The name of the refusal of this number.
fn name_of(code: u32) -> &'static str {
    match code {
        NOT_JSON => "NotJson",
        BAD_TABLE => "BadTable",
        NOT_WHOLE => "NotWhole",
        READ => "Read",
        WRITE => "Write",
        _ => error_name(code).unwrap_or("Refused"),
    }
}

impl fmt::Display for Fault {
    fn fmt<W: fmt::Write>(&self, f: &mut fmt::Formatter<W>) -> fmt::Result {
        match self {
            Fault::Usage => write!(
                f,
                "usage: schemagen types DIALECT [--inline] [--serialize] | schemagen sample DIALECT"
            ),
            Fault::Refused(code) => write!(f, "schemagen: {code} {}", name_of(*code)),
        }
    }
}
