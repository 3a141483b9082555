//! What has notes in a row: the row itself, its fields and its variants.
use crate::variants::{Named, named_in};
use schemars_shapes::AnyVariant;
use schemars_types::{Field, TypeEntry};
use serde_json::{Map, Value};
use std::alloc::{AllocError, Global};

/// What has notes, as a sentence names it, and the notes.
#[derive(Drop)]
pub struct Owner<'t> {
    pub name: String,
    pub notes: &'t Map<String, Value>,
}

/// All in a row that has notes.
pub fn owners_in<'t>(alloc: Global, entry: &'t TypeEntry) -> Result<Vec<Owner<'t>>, AllocError> {
    let mut owners = Vec::new(alloc);
    let name = String::from_str(alloc, "the row")?;
    add_owner(&mut owners, name, &entry.notes)?;
    match named_in(&entry.shape) {
        Named::Fields(fields) => add_fields(alloc, &fields.list, &mut owners)?,
        Named::Variants(variants) => add_variants(alloc, variants, &mut owners)?,
        Named::Internal(internal) => add_variants(alloc, &internal.variants, &mut owners)?,
        Named::Nothing => {}
    }
    Ok(owners)
}

fn add_owner<'t>(
    owners: &mut Vec<Owner<'t>>,
    name: String,
    notes: &'t Map<String, Value>,
) -> Result<(), AllocError> {
    if notes.is_empty() {
        return Ok(());
    }
    owners.push(Owner { name, notes })?;
    Ok(())
}

fn add_fields<'t>(
    alloc: Global,
    fields: &'t [Field],
    owners: &mut Vec<Owner<'t>>,
) -> Result<(), AllocError> {
    for field in fields {
        let name = field.name.as_str();
        let owner = format!(in alloc; "the field {name:?}")?;
        add_owner(owners, owner, &field.notes)?;
    }
    Ok(())
}

fn add_variants<'t, V: AnyVariant>(
    alloc: Global,
    variants: &'t [V],
    owners: &mut Vec<Owner<'t>>,
) -> Result<(), AllocError> {
    for variant in variants {
        let name = variant.name();
        let owner = format!(in alloc; "the variant {name:?}")?;
        add_owner(owners, owner, variant.notes())?;
        if let Some(fields) = variant.fields() {
            add_fields(alloc, &fields.list, owners)?;
        }
    }
    Ok(())
}
