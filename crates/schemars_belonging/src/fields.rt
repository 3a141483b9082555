//! The members that the fields of a struct are, with those of the rows that are flattened into it.
ghost use Rattle.std.specs.Prelude.{◌≡◌, ◌++◌, true, map, IfOk, OnOk, option_map, option_and_then};
ghost use Rattle.schemars_belonging.specs.Words.{required_of, flattened_of, fields_of, entry_at, fields_within, effective, part_fields, flattened_in, is_required, given_of, field_given, still_needed, struct_of};

use crate::given::{Given, Values};
use schemars_types::{
    Contract, Fields, Flattened, Required, Shape, TypeNo, Types, row_inside, without_options,
};
use std::alloc::{AllocError, Global};

/// The given members, and then those that the fields of a struct are and the fields of rows flattened into it.
pub fn field_members<'t>(
    alloc: Global,
    types: &'t Types,
    contract: Contract,
    tags: &[Given<'t>],
    fields: &'t Fields,
) -> Result<Vec<Given<'t>>, AllocError>
    ensures { IfOk result (λ v. map given_of v.items ≡ map given_of tags.now
        ++ map (field_given true contract) (effective (flattened_in types.now) (fields_of fields.now))) }
{
    let mut found = Vec::new(alloc);
    found.extend_from_slice(tags)?;
    add_fields(types, contract, true, types.len(), fields, &mut found)?;
    Ok(found)
}

// Adds those of a struct whose fields have to be there or not, where rows are asked at most `steps` deep.
#[cycle(fields)]
fn add_fields<'t>(
    types: &'t Types,
    contract: Contract,
    needed: bool,
    steps: usize,
    fields: &'t Fields,
    found: &mut Vec<Given<'t>>,
) -> Result<(), AllocError>
    ensures { OnOk result (map given_of found.new.items ≡ map given_of found.old.items
        ++ map (field_given needed contract)
        (effective (part_fields types.now (fields_within types.now steps)) (fields_of fields.now))) }
{
    add_own(contract, needed, fields, found)?;
    for part in &fields.flatten {
        let still = still_needed(types, contract, needed, part);
        let row = without_options(types, part.ty);
        add_row(types, contract, still, steps, row, found)?;
    }
    Ok(())
}

// Adds those of row `n`, a struct.
#[cycle(fields)]
fn add_row<'t>(
    types: &'t Types,
    contract: Contract,
    needed: bool,
    steps: usize,
    n: TypeNo,
    found: &mut Vec<Given<'t>>,
) -> Result<(), AllocError>
    ensures { OnOk result (map given_of found.new.items ≡ map given_of found.old.items
        ++ map (field_given needed contract) (fields_within types.now steps n)) }
{
    if steps == 0 {
        return Ok(());
    }
    match struct_at(types, n) {
        Some(fields) => add_fields(types, contract, needed, steps - 1, fields, found),
        None => Ok(()),
    }
}

fn add_own<'t>(
    contract: Contract,
    needed: bool,
    fields: &'t Fields,
    found: &mut Vec<Given<'t>>,
) -> Result<(), AllocError>
    ensures { OnOk result (map given_of found.new.items ≡ map given_of found.old.items
        ++ map (field_given needed contract) (fields_of fields.now).list) }
{
    for field in &fields.list {
        found.push(Given {
            name: field.name.as_str(),
            required: needed && is_required(contract, field.required),
            values: Values::Row(field.ty),
        })?;
    }
    Ok(())
}

// Whether the fields of a flattened row have to be there.
fn still_needed(types: &Types, contract: Contract, needed: bool, part: &Flattened) -> bool
    ensures { result ≡ still_needed needed contract types.now (flattened_of part.now) }
{
    match row_inside(types, part.ty) {
        Some(_) => needed && is_required(contract, part.required),
        None => needed,
    }
}

fn is_required(contract: Contract, required: Required) -> bool
    ensures { result ≡ is_required contract (required_of required) }
{
    match contract {
        Contract::Deserialize => required.deserialize,
        Contract::Serialize => required.serialize,
    }
}

fn struct_at(types: &Types, n: TypeNo) -> Option<&Fields>
    ensures { option_map (λ x. fields_of x.now) result
        ≡ option_and_then (λ e. struct_of e.shape) (entry_at types.now n) }
{
    match &types.entry(n)?.shape {
        Shape::Struct(fields) => Some(fields),
        _ => None,
    }
}
