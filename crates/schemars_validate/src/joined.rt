//! What several schemas of one value say together.
ghost use Rattle.std.specs.Prelude.{◌≡◌};
ghost use Rattle.schemars_validate.specs.Words.{Yes, No, meant, so_far, with_one, taken_by};

use schemars_assertions::{Verdict, both, opposite};

/// How many of the schemas the value has to fit.
#[derive(Clone, Copy)]
pub enum Join {
    All,
    Any,
    One,
}

/// Whether all of the schemas so far fit, whether none does, and whether exactly one does.
#[derive(Clone, Copy)]
pub struct Joined {
    all: Verdict,
    none: Verdict,
    one: Verdict,
}

impl Joined {
    /// Of no schema.
    pub fn new() -> Joined
        ensures { so_far result ≡ record { all = Yes; none = Yes; one = No } }
    {
        Joined {
            all: Verdict::Yes,
            none: Verdict::Yes,
            one: Verdict::No,
        }
    }

    /// With what one more schema says.
    pub fn with(self, says: Verdict) -> Joined
        ensures { so_far result ≡ with_one (so_far self) (meant says) }
    {
        Joined {
            all: both(self.all, says),
            none: both(self.none, opposite(says)),
            one: match says {
                Verdict::Yes => self.none,
                Verdict::No => self.one,
                Verdict::Open => Verdict::Open,
            },
        }
    }

    pub fn by(self, join: Join) -> Verdict
        ensures { meant result ≡ taken_by join (so_far self) }
    {
        match join {
            Join::All => self.all,
            Join::Any => opposite(self.none),
            Join::One => self.one,
        }
    }
}
