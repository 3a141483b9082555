//! A list, and the row that its type describes.
#![tactic(auto, unfolding(schemars_impls::specs::Containers::seq_row, schemars_impls::specs::Containers::option_row, schemars_impls::specs::Dictionary::of_one, schemars_impls::specs::Dictionary::alone))]

ghost use Rattle.std.specs.Prelude.{IfOk};
ghost use Rattle.serde_json.specs.View.{view};
ghost use Rattle.schemars_written.specs.Writes.{Belongs};
ghost use Rattle.schemars_accepted.specs.Accepted.{IsAccepted};

use schemars_accepted::{DescribedError, to_accepted_value, to_described_value};
use schemars_types::{TypeNo, Types};
use serde_json::Value;
use std::alloc::Global;

/// Returns a table, the number of the row of such lists, and what serde writes for this one, which
/// belongs to that row.
pub fn written_list(
    alloc: Global,
    list: &Vec<Option<u8>>,
) -> Result<(Types, TypeNo, Value), DescribedError>
    ensures { IfOk result (λ r. Belongs r.0 r.1 (view r.2)) }
{
    to_described_value(alloc, list)
}

/// Returns the same. Each root document of the row for what is written accepts what is written.
pub fn accepted_list(
    alloc: Global,
    list: &Vec<Option<u8>>,
) -> Result<(Types, TypeNo, Value), DescribedError>
    ensures { IfOk result (λ r. IsAccepted r.0 r.1 (view r.2)) }
{
    let (types, n, _) = to_described_value(alloc, list)?;
    match to_accepted_value(alloc, &types, n, list) {
        Ok(written) => Ok((types, n, written)),
        Err(error) => Err(DescribedError::Write(error)),
    }
}
