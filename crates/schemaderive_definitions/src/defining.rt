//! What declarations declare.
use crate::choices::choices_of;
use crate::content::{Content, Definition, Part};
use crate::fields::struct_members;
use crate::rules::{noted_part, whole_part};
use schemaderive_options::{
    ContainerOptions, DefaultValue, FieldOptions, Notes, container_options, field_options,
    is_present,
};
use schemaderive_rows::{Builder, Scope, one_field};
use schemaderive_syntax::{Body, Declaration, Fault, Field, Fields, Place, TypeExpr};
use std::mem;

// How deep types may nest in a field.
const MAX_DEPTH: usize = 128;

/// What the declaration with this number declares.
///
/// # Errors
///
/// An attribute or a type is not known.
pub fn definition_of(
    builder: &mut Builder<'_>,
    number: usize,
    scope: &Scope,
) -> Result<Definition, Fault> {
    let alloc = builder.alloc();
    let source = builder.source;
    let Some(declaration) = source.declarations.get(number) else {
        return Ok(Definition {
            content: Content::Null,
            notes: Notes::new(alloc),
        });
    };
    let mut options = container_options(&mut builder.context, &declaration.attributes)?;
    let content = content_of(builder, declaration, &options, scope)?;
    let notes = mem::replace(&mut options.notes, Notes::new(alloc));
    Ok(Definition { content, notes })
}

fn content_of(
    builder: &mut Builder<'_>,
    declaration: &Declaration<'_>,
    options: &ContainerOptions,
    scope: &Scope,
) -> Result<Content, Fault> {
    if let Some(ty) = &options.stands_for {
        return Ok(Content::Newtype(bare_part(builder, ty, declaration.place, scope)?));
    }
    match &declaration.body {
        Body::Enum(variants) => Ok(Content::Enum(choices_of(
            builder,
            declaration,
            variants,
            options,
            scope,
        )?)),
        Body::Struct(fields) => {
            refuse_tag(builder, declaration, options)?;
            struct_content(builder, declaration, fields, options, scope)
        }
    }
}

/// The part of a type of which attributes say nothing.
///
/// # Errors
///
/// The type is not known.
pub fn bare_part(
    builder: &mut Builder<'_>,
    ty: &TypeExpr,
    place: Place,
    scope: &Scope,
) -> Result<Part, Fault> {
    let alloc = builder.alloc();
    let row = builder.row_of(ty, scope, place, MAX_DEPTH)?;
    Ok(Part {
        place,
        plain: row,
        row,
        rules: Notes::new(alloc),
        notes: Notes::new(alloc),
    })
}

// The tag of a struct is written, and not read.
fn refuse_tag(
    builder: &Builder<'_>,
    declaration: &Declaration<'_>,
    options: &ContainerOptions,
) -> Result<(), Fault> {
    let place = declaration.place;
    let name = match (&options.tag, &options.content, options.untagged) {
        (Some(_), _, _) => "tag",
        (None, Some(_), _) => "content",
        (None, None, Some(_)) => "untagged",
        (None, None, None) => return Ok(()),
    };
    Err(
        builder
            .context
            .refused_name(place, name, "a table has this of enums alone"),
    )
}

fn struct_content(
    builder: &mut Builder<'_>,
    declaration: &Declaration<'_>,
    fields: &Fields<'_>,
    options: &ContainerOptions,
    scope: &Scope,
) -> Result<Content, Fault> {
    if let Some(place) = options.transparent {
        let Some(field) = one_field(&declaration.body) else {
            let reason = "a struct with one field is wanted";
            return Err(builder.context.refused_name(place, "transparent", reason));
        };
        return Ok(Content::Newtype(newtype_part(builder, field, scope)?));
    }
    match fields {
        Fields::Unit => Ok(Content::Null),
        Fields::Tuple(list) if list.len() == 1 => match list.first() {
            Some(field) => Ok(Content::Newtype(newtype_part(builder, field, scope)?)),
            None => Ok(Content::Null),
        },
        Fields::Tuple(list) => match options.default {
            Some(DefaultValue::OfType(place) | DefaultValue::OfFunction(place)) => {
                Err(builder.context.refused_name(place, "default", IN_PLACE))
            }
            None => Ok(Content::Tuple(tuple_parts(builder, list, scope)?)),
        },
        Fields::Named(list) => Ok(Content::Struct(struct_members(
            builder,
            list,
            options.rename_all,
            Some(options),
            options.is_closed,
            scope,
        )?)),
    }
}

/// The parts of the fields of a tuple that are in the values of the table.
///
/// # Errors
///
/// An attribute or a type is not known.
pub fn tuple_parts(
    builder: &mut Builder<'_>,
    fields: &[Field<'_>],
    scope: &Scope,
) -> Result<Vec<Part>, Fault> {
    let mut parts = Vec::new(builder.alloc());
    for field in fields {
        let options = unnamed_options(builder, field)?;
        add_tuple_part(builder, &mut parts, field, &options, scope)?;
    }
    Ok(parts)
}

// Adds the part of a field, if it is in the values of the table.
fn add_tuple_part(
    builder: &mut Builder<'_>,
    parts: &mut Vec<Part>,
    field: &Field<'_>,
    options: &FieldOptions,
    scope: &Scope,
) -> Result<(), Fault> {
    let place = options.skipped.unwrap_or(field.place);
    if is_present(&builder.context, place, options.presence)? {
        let part = noted_part(builder, field, options, scope)?;
        parts.push(part)?;
    }
    Ok(())
}

// The part of the only field of a tuple struct, whose keywords the struct has.
fn newtype_part(
    builder: &mut Builder<'_>,
    field: &Field<'_>,
    scope: &Scope,
) -> Result<Part, Fault> {
    let options = only_options(builder, field)?;
    whole_part(builder, field, &options, scope)
}

/// The part of the only field of a variant, with its keywords in the row.
///
/// # Errors
///
/// An attribute or a type is not known.
pub fn only_part(
    builder: &mut Builder<'_>,
    field: &Field<'_>,
    scope: &Scope,
) -> Result<Part, Fault> {
    let options = only_options(builder, field)?;
    noted_part(builder, field, &options, scope)
}

const IN_PLACE: &str = "a field without a name has its place in each value";

// What attributes say of a field without a name.
fn unnamed_options(builder: &mut Builder<'_>, field: &Field<'_>) -> Result<FieldOptions, Fault> {
    let options = field_options(&mut builder.context, &field.attributes)?;
    let refused = match (options.flat, options.skip_place, options.default) {
        (Some(place), _, _) => Some((place, "flatten")),
        (None, Some(place), _) => Some((place, "skip_serializing_if")),
        (None, None, Some(DefaultValue::OfType(place) | DefaultValue::OfFunction(place))) => {
            Some((place, "default"))
        }
        (None, None, None) => None,
    };
    match refused {
        Some((place, name)) if options.skipped.is_none() => {
            Err(builder.context.refused_name(place, name, IN_PLACE))
        }
        _ => Ok(options),
    }
}

// What attributes say of an only field, which can't be left out.
fn only_options(builder: &mut Builder<'_>, field: &Field<'_>) -> Result<FieldOptions, Fault> {
    let options = unnamed_options(builder, field)?;
    match options.skipped {
        Some(place) => {
            let reason = "the only field of a tuple can't be left out";
            Err(builder.context.refused_name(place, "skip", reason))
        }
        None => Ok(options),
    }
}
