//! Where a value is not a table, and why.
ghost use Rattle.std.specs.Prelude.{◌≡◌, None, IfOk, IsSome, MatchOption, string_bytes};
ghost use Rattle.schemagen_json.specs.BorrowedValue.{data_of};
ghost use Rattle.serde_json.specs.Find.{pointer as points_to};
ghost use Rattle.schemagen_input.specs.Input.{table_in};

use crate::rows::check_table;
use crate::stop::Stop;
use schemagen_input::{InputError, read_input};
use schemagen_json::BorrowedValue;
use std::alloc::{AllocError, Global};

/// Where a value is not a table, and why.
#[derive(Debug, Drop)]
pub struct InputFault {
    /// A JSON Pointer (RFC 6901) to what is wrong, or to the object in which a member is missing.
    pub place: String,
    pub reason: String,
}

/// Returns the first place at which a value is no table, and why; none where `read_input` reads a
/// table from it.
///
/// # Errors
///
/// Only where memory runs out.
pub fn find_fault(
    alloc: Global,
    value: &BorrowedValue<'_>,
) -> Result<Option<InputFault>, AllocError>
    ensures { IfOk result (λ r. MatchOption r (IsSome (table_in (data_of value.now)))
        (λ f. (table_in (data_of value.now) ≡ None)
        × IsSome (points_to (string_bytes f.place) (data_of value.now)))) }
{
    match read_input(alloc, value) {
        Ok(_) => Ok(None),
        Err(InputError::OutOfMemory) => Err(AllocError),
        Err(InputError::BadTable) => {
            let fault = locate(alloc, value)?;
            Ok(Some(fault))
        }
    }
}

// The place of the fault in a value that is not a table.
fn locate(alloc: Global, value: &BorrowedValue<'_>) -> Result<InputFault, AllocError>
    ensures { IfOk result (λ f. IsSome (points_to (string_bytes f.place) (data_of value.now))) }
{
    let owned = value.to_value(alloc)?;
    match check_table(alloc, value) {
        Err(Stop::OutOfMemory) => Err(AllocError),
        Err(Stop::Fault(fault)) if owned.pointer(fault.place.as_str()).is_some() => Ok(fault),
        _ => Ok(InputFault {
            place: String::new(alloc),
            reason: String::from_str(alloc, "this is no table")?,
        }),
    }
}
