//! What a schema says of a value.
ghost use Rattle.std.specs.Prelude.{◌≡◌, map, is_some, if◌then◌else◌};
ghost use Rattle.schemars_schema.specs.Verdict.{Yes, verdict, both, opposite, all_of};
ghost use Rattle.schemars_assertions.specs.Meant.{meant};

use serde_json::Value;

/// The value fits, it does not, or that hangs on a reference which was not followed.
#[derive(Clone, Copy, Debug, PartialEq, Eq)]
pub enum Verdict {
    Yes,
    No,
    Open,
}

/// Whether a value fits, as a verdict.
pub fn verdict_of(fits: bool) -> Verdict
    ensures { meant result ≡ verdict fits }
{
    if fits { Verdict::Yes } else { Verdict::No }
}

/// A whole that asks an open part is open, whatever its other parts say.
pub fn both(a: Verdict, b: Verdict) -> Verdict
    ensures { meant result ≡ both (meant a) (meant b) }
{
    match (a, b) {
        (Verdict::Yes, _) => b,
        (Verdict::Open, _) | (_, Verdict::Open) => Verdict::Open,
        (Verdict::No, _) => Verdict::No,
    }
}

/// What is said of a value where the schema is denied.
pub fn opposite(a: Verdict) -> Verdict
    ensures { meant result ≡ opposite (meant a) }
{
    match a {
        Verdict::Yes => Verdict::No,
        Verdict::No => Verdict::Yes,
        Verdict::Open => Verdict::Open,
    }
}

/// What all parts say together.
pub fn all_of(parts: &[Verdict]) -> Verdict
    ensures { meant result ≡ all_of (map meant parts.now) }
{
    let mut says = Verdict::Yes;
    for part in parts {
        says = both(says, *part);
    }
    says
}

/// What is said where there is a schema.
pub fn unless_missing(schema: Option<&Value>, says: Verdict) -> Verdict
    ensures { meant result ≡ (if is_some schema.entry then meant says else Yes) }
{
    match schema {
        Some(_) => says,
        None => Verdict::Yes,
    }
}
