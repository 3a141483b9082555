//! The variants of enums.
use crate::content::{Choice, Choices, Form, Payload};
use crate::defining::{bare_part, only_part, tuple_parts};
use crate::fields::{refuse_bare, struct_members};
use schemaderive_options::{
    ContainerOptions, Context, DefaultValue, Notes, VariantOptions, is_present, name_of,
    variant_options,
};
use schemaderive_rows::{Builder, Scope};
use schemaderive_syntax::{Declaration, Fault, Field, Fields, Place, Variant};
use std::alloc::{AllocError, Global};
use std::collections::BTreeSet;
use std::mem;

/// The variants of an enum.
///
/// # Errors
///
/// An attribute or a type is not known.
pub fn choices_of(
    builder: &mut Builder<'_>,
    declaration: &Declaration<'_>,
    variants: &[Variant<'_>],
    options: &ContainerOptions,
    scope: &Scope,
) -> Result<Choices, Fault> {
    let alloc = builder.alloc();
    let form = form_of(builder, declaration, options)?;
    let list = choice_list(builder, form, variants, options, scope)?;
    if form != Form::Untagged {
        refuse_repeated(&builder.context, &list)?;
    }
    Ok(Choices {
        form,
        tag: copied(alloc, &options.tag)?,
        content: copied(alloc, &options.content)?,
        is_closed: options.is_closed,
        list,
    })
}

// Refuses two variants of one name.
fn refuse_repeated(context: &Context, list: &[Choice]) -> Result<(), Fault> {
    let mut names = BTreeSet::new(context.alloc);
    for choice in list {
        let name = choice.name.as_str();
        if !names.insert(name)? {
            let reason = "another variant has this name";
            return Err(context.refused_name(choice.place, name, reason));
        }
    }
    Ok(())
}

fn copied(alloc: Global, text: &Option<String>) -> Result<Option<String>, AllocError> {
    match text {
        Some(text) => Ok(Some(String::from_str(alloc, text.as_str())?)),
        None => Ok(None),
    }
}

fn choice_list(
    builder: &mut Builder<'_>,
    form: Form,
    variants: &[Variant<'_>],
    options: &ContainerOptions,
    scope: &Scope,
) -> Result<Vec<Choice>, Fault> {
    let mut list = Vec::new(builder.alloc());
    for variant in variants {
        let mut said = variant_options(&mut builder.context, &variant.attributes)?;
        add_choice(builder, &mut list, form, variant, &mut said, options, scope)?;
    }
    Ok(list)
}

// Adds a variant, if it is in the values of the table.
fn add_choice(
    builder: &mut Builder<'_>,
    list: &mut Vec<Choice>,
    form: Form,
    variant: &Variant<'_>,
    said: &mut VariantOptions,
    options: &ContainerOptions,
    scope: &Scope,
) -> Result<(), Fault> {
    let place = said.skipped.unwrap_or(variant.place);
    if is_present(&builder.context, place, said.presence)? {
        let choice = choice_of(builder, form, variant, said, options, scope)?;
        list.push(choice)?;
    }
    Ok(())
}

fn form_of(
    builder: &Builder<'_>,
    declaration: &Declaration<'_>,
    options: &ContainerOptions,
) -> Result<Form, Fault> {
    let has_tag = options.tag.is_some();
    let has_content = options.content.is_some();
    let refused = match &options.default {
        _ if options.transparent.is_some() => Some((options.transparent, "transparent")),
        Some(DefaultValue::OfType(place) | DefaultValue::OfFunction(place)) => {
            Some((Some(*place), "default"))
        }
        None => None,
    };
    if let Some((Some(place), name)) = refused {
        return Err(
            builder
                .context
                .refused_name(place, name, "an enum has none"),
        );
    }
    if let Some(place) = options.untagged {
        if has_tag || has_content {
            let reason = "there is a `tag` or a `content` too";
            return Err(builder.context.refused_name(place, "untagged", reason));
        }
        return Ok(Form::Untagged);
    }
    if same_text(&options.tag, &options.content) {
        let reason = "the `tag` has the same name";
        let place = declaration.place;
        return Err(builder.context.refused_name(place, "content", reason));
    }
    if has_content && !has_tag {
        let reason = "there is no `tag`";
        let place = declaration.place;
        return Err(builder.context.refused_name(place, "content", reason));
    }
    Ok(if has_content {
        Form::Adjacent
    } else if has_tag {
        Form::Internal
    } else {
        Form::External
    })
}

fn choice_of(
    builder: &mut Builder<'_>,
    form: Form,
    variant: &Variant<'_>,
    said: &mut VariantOptions,
    options: &ContainerOptions,
    scope: &Scope,
) -> Result<Choice, Fault> {
    let alloc = builder.alloc();
    let name = name_of(
        &builder.context,
        variant.place,
        variant.name,
        &said.names,
        options.rename_all,
        true,
    )?;
    let payload = payload_of(builder, form, variant, said, options, scope)?;
    if form == Form::Internal {
        refuse_payload(builder, &payload, variant.place, &options.tag)?;
    }
    Ok(Choice {
        name,
        place: variant.place,
        payload,
        notes: mem::replace(&mut said.notes, Notes::new(alloc)),
    })
}

// Refuses what can't be beside a tag: values without members, and a member with the tag's name.
fn refuse_payload(
    builder: &Builder<'_>,
    payload: &Payload,
    place: Place,
    tag: &Option<String>,
) -> Result<(), Fault> {
    match payload {
        Payload::Newtype(part) => refuse_bare(builder, part.row, place, "tag"),
        Payload::Struct(members) => {
            for member in &members.list {
                if member.name.is_some() && same_text(&member.name, tag) {
                    let place = member.part.place;
                    let reason = "a field has the name of the tag";
                    return Err(builder.context.refused_name(place, "tag", reason));
                }
            }
            Ok(())
        }
        _ => Ok(()),
    }
}

// Whether two texts are there and the same.
fn same_text(first: &Option<String>, second: &Option<String>) -> bool {
    match (first, second) {
        (Some(first), Some(second)) => first.as_str() == second.as_str(),
        _ => false,
    }
}

fn payload_of(
    builder: &mut Builder<'_>,
    form: Form,
    variant: &Variant<'_>,
    said: &VariantOptions,
    options: &ContainerOptions,
    scope: &Scope,
) -> Result<Payload, Fault> {
    if let Some(ty) = &said.stands_for {
        return Ok(Payload::Newtype(bare_part(builder, ty, variant.place, scope)?));
    }
    match &variant.fields {
        Fields::Unit => Ok(Payload::Unit),
        Fields::Tuple(list) => tuple_payload(builder, form, variant, list, scope),
        Fields::Named(list) => {
            let cases = said.rename_all.unwrap_or(options.rename_all_fields);
            let members = struct_members(builder, list, cases, None, options.is_closed, scope)?;
            Ok(Payload::Struct(members))
        }
    }
}

fn tuple_payload(
    builder: &mut Builder<'_>,
    form: Form,
    variant: &Variant<'_>,
    fields: &[Field<'_>],
    scope: &Scope,
) -> Result<Payload, Fault> {
    if fields.len() == 1 {
        if let Some(field) = fields.first() {
            return Ok(Payload::Newtype(only_part(builder, field, scope)?));
        }
    }
    if form == Form::Internal {
        let reason = "a variant of an enum with a tag in its content is no tuple";
        return Err(builder.context.refused_name(variant.place, "tag", reason));
    }
    Ok(Payload::Tuple(tuple_parts(builder, fields, scope)?))
}
