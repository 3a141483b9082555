//! The names of fields, variants and types.
use crate::case::Case;
use crate::context::{Context, Contract};
use crate::values::text_of;
use schemaderive_syntax::{Fault, Meta, MetaValue, Place, read_metas};
use std::alloc::AllocError;

/// The names that an attribute gives for values that are read, and for those that are written.
#[derive(Drop)]
pub struct Names {
    /// in what is read
    pub deserialize: Option<String>,
    /// in what is written
    pub serialize: Option<String>,
}

impl Names {
    /// No names.
    pub fn none() -> Names {
        Names {
            deserialize: None,
            serialize: None,
        }
    }
}

/// The cases of names in values that are read, and in those that are written.
#[derive(Clone, Copy)]
pub struct Cases {
    /// in what is read
    pub deserialize: Case,
    /// in what is written
    pub serialize: Case,
}

impl Cases {
    /// Names are as they are.
    pub fn unchanged() -> Cases {
        Cases {
            deserialize: Case::Unchanged,
            serialize: Case::Unchanged,
        }
    }
}

/// The names that `rename` gives.
///
/// # Errors
///
/// It gives none.
pub fn names_in(context: &Context, meta: &Meta<'_>) -> Result<Names, Fault> {
    let mut names = Names::none();
    match meta.value {
        MetaValue::List(list) => {
            let items = read_metas(context.alloc, list)?;
            for item in &items {
                read_name(context, item, &mut names)?;
            }
        }
        _ => {
            names.deserialize = Some(text_of(context, meta)?);
            names.serialize = Some(text_of(context, meta)?);
        }
    }
    Ok(names)
}

fn read_name(context: &Context, item: &Meta<'_>, names: &mut Names) -> Result<(), Fault> {
    let text = text_of(context, item)?;
    match item.name {
        "deserialize" => names.deserialize = Some(text),
        "serialize" => names.serialize = Some(text),
        _ => {
            let reason = "`serialize` or `deserialize` is wanted here";
            return Err(context.refused_meta(item, reason));
        }
    }
    Ok(())
}

/// The cases that `rename_all` gives.
///
/// # Errors
///
/// It gives none, or one that is none of serde.
pub fn cases_in(context: &Context, meta: &Meta<'_>) -> Result<Cases, Fault> {
    let names = names_in(context, meta)?;
    Ok(Cases {
        deserialize: case_of(context, meta, &names.deserialize)?,
        serialize: case_of(context, meta, &names.serialize)?,
    })
}

fn case_of(context: &Context, meta: &Meta<'_>, name: &Option<String>) -> Result<Case, Fault> {
    let Some(name) = name else {
        return Ok(Case::Unchanged);
    };
    match Case::named(name.as_str()) {
        Some(case) => Ok(case),
        None => Err(context.refused_meta(meta, "this is no case of names")),
    }
}

/// The name of a field or a variant that is written so in the source.
///
/// # Errors
///
/// The table is for both contracts, and they have different names.
pub fn name_of(
    context: &Context,
    place: Place,
    written: &str,
    names: &Names,
    cases: Cases,
    is_variant: bool,
) -> Result<String, Fault> {
    let read = one_name(
        context,
        written,
        &names.deserialize,
        cases.deserialize,
        is_variant,
    )?;
    if context.contract == Contract::Deserialize {
        return Ok(read);
    }
    let sent = one_name(
        context,
        written,
        &names.serialize,
        cases.serialize,
        is_variant,
    )?;
    if context.contract == Contract::Serialize || read.as_str() == sent.as_str() {
        return Ok(sent);
    }
    let reason =
        "the name differs between what is read and what is written: say --deserialize or --serialize";
    Err(context.refused_name(place, "rename", reason))
}

fn one_name(
    context: &Context,
    written: &str,
    name: &Option<String>,
    case: Case,
    is_variant: bool,
) -> Result<String, AllocError> {
    match name {
        Some(name) => String::from_str(context.alloc, name.as_str()),
        None if is_variant => case.of_variant(context.alloc, written),
        None => case.of_field(context.alloc, written),
    }
}
