//! The fields of structs.
use crate::content::{Member, Members, Required};
use crate::defaults::add_default;
use crate::rules::part_of;
use schemaderive_known::Kind;
use schemaderive_options::{
    Cases, ContainerOptions, Context, DefaultValue, FieldOptions, field_options, is_present,
    name_of,
};
use schemaderive_rows::{Builder, Scope};
use schemaderive_syntax::{Fault, Field, Place};
use std::collections::BTreeSet;

/// The members of a struct with these fields.
///
/// # Errors
///
/// An attribute or a type is not known.
pub fn struct_members(
    builder: &mut Builder<'_>,
    fields: &[Field<'_>],
    cases: Cases,
    container: Option<&ContainerOptions>,
    is_closed: bool,
    scope: &Scope,
) -> Result<Members, Fault> {
    let mut list = Vec::new(builder.alloc());
    for field in fields {
        let options = field_options(&mut builder.context, &field.attributes)?;
        add_member(builder, &mut list, field, &options, cases, container, scope)?;
    }
    refuse_repeated(&builder.context, &list)?;
    Ok(Members { list, is_closed })
}

// Refuses two members of one name.
fn refuse_repeated(context: &Context, list: &[Member]) -> Result<(), Fault> {
    let mut names = BTreeSet::new(context.alloc);
    for member in list {
        if let Some(name) = &member.name {
            if !names.insert(name.as_str())? {
                let reason = "another field has this name";
                return Err(context.refused_name(member.part.place, name.as_str(), reason));
            }
        }
    }
    Ok(())
}

// Adds the member of a field, if it is in the values of the table.
fn add_member(
    builder: &mut Builder<'_>,
    list: &mut Vec<Member>,
    field: &Field<'_>,
    options: &FieldOptions,
    cases: Cases,
    container: Option<&ContainerOptions>,
    scope: &Scope,
) -> Result<(), Fault> {
    let place = options.skipped.unwrap_or(field.place);
    if is_present(&builder.context, place, options.presence)? {
        let member = member_of(builder, field, options, cases, container, scope)?;
        list.push(member)?;
    }
    Ok(())
}

fn member_of(
    builder: &mut Builder<'_>,
    field: &Field<'_>,
    options: &FieldOptions,
    cases: Cases,
    container: Option<&ContainerOptions>,
    scope: &Scope,
) -> Result<Member, Fault> {
    if let Some(place) = options.flat {
        return flattened(builder, field, options, place, scope);
    }
    let name = name_of(
        &builder.context,
        field.place,
        field.name.as_str(),
        &options.names,
        cases,
        false,
    )?;
    named(builder, name, field, options, container, scope)
}

// A field whose members are in the struct's own object.
fn flattened(
    builder: &mut Builder<'_>,
    field: &Field<'_>,
    options: &FieldOptions,
    place: Place,
    scope: &Scope,
) -> Result<Member, Fault> {
    let part = part_of(builder, field, options, scope)?;
    refuse_bare(builder, part.row, place, "flatten")?;
    let is_there = !is_option(builder, part.row);
    Ok(Member {
        name: None,
        part,
        required: Required {
            deserialize: is_there,
            serialize: is_there,
        },
    })
}

/// Refuses values that are numbers, truth values, texts or lists, where members are wanted.
///
/// # Errors
///
/// The row has such values.
pub fn refuse_bare(
    builder: &Builder<'_>,
    row: usize,
    place: Place,
    name: &str,
) -> Result<(), Fault> {
    match builder.rows.get(row) {
        Some(entry) if entry.kind != Kind::Other || entry.id.as_str() == "boolean" => {
            let reason = "numbers, truth values, texts and lists have no members";
            Err(builder.context.refused_name(place, name, reason))
        }
        _ => Ok(()),
    }
}

fn is_option(builder: &Builder<'_>, row: usize) -> bool {
    match builder.rows.get(row) {
        Some(row) => row.inner.is_some(),
        None => false,
    }
}

// A field with a name.
fn named(
    builder: &mut Builder<'_>,
    name: String,
    field: &Field<'_>,
    options: &FieldOptions,
    container: Option<&ContainerOptions>,
    scope: &Scope,
) -> Result<Member, Fault> {
    let alloc = builder.alloc();
    let mut part = part_of(builder, field, options, scope)?;
    let row = part.row;
    add_default(builder, row, field, options, container, &mut part.notes)?;
    part.notes.put_all(alloc, &options.notes)?;
    let has_default = options.default.is_some() || container_default(container).is_some();
    let required = Required {
        deserialize: !has_default && !is_option(builder, row),
        serialize: options.skip_if.is_none(),
    };
    Ok(Member {
        name: Some(name),
        part,
        required,
    })
}

/// What fields that are missing have, if the struct says so.
pub fn container_default(container: Option<&ContainerOptions>) -> Option<DefaultValue> {
    match container {
        Some(options) => options.default,
        None => None,
    }
}
