//! The items of the attributes of serde and schemars, as one list.
use crate::context::Context;
use schemaderive_syntax::{Cursor, Fault, Meta, MetaValue, read_metas};
use std::alloc::Global;

/// Whether attributes derive `JsonSchema`.
///
/// # Errors
///
/// A list of derives is none of Rust, or there is a condition of which it is not known whether it holds.
pub fn derives(context: &Context, attributes: &[Meta<'_>]) -> Result<bool, Fault> {
    let found = derives_name(context.alloc, attributes, "JsonSchema")?;
    for attribute in attributes {
        let decides = match attribute.value {
            MetaValue::List(list) if attribute.name == "cfg_attr" => list.has_word("JsonSchema"),
            _ => found && attribute.name == "cfg",
        };
        if decides {
            return Err(context.refused_meta(attribute, UNDECIDED));
        }
    }
    Ok(found)
}

/// What is said of a condition of which it is not known whether it holds.
pub const UNDECIDED: &str = "whether the condition holds is not known here: say --cfg";

/// Whether attributes derive what has this name.
///
/// # Errors
///
/// A list of derives is none of Rust.
pub fn derives_name(alloc: Global, attributes: &[Meta<'_>], name: &str) -> Result<bool, Fault> {
    for attribute in attributes {
        if let MetaValue::List(list) = attribute.value {
            if attribute.name == "derive" && has_name(alloc, list, name)? {
                return Ok(true);
            }
        }
    }
    Ok(false)
}

fn has_name(alloc: Global, list: Cursor<'_>, name: &str) -> Result<bool, Fault> {
    let metas = read_metas(alloc, list)?;
    Ok(has_item(&metas, name))
}

/// The items of the attributes `schemars`, `serde`, `validate` and `garde`, and `deprecated`. Where
/// `schemars` has an item of a name, or unsets the name by `!`, the others of that name are left out.
///
/// # Errors
///
/// A list is none of attributes, an item stands twice that may stand once, or there is a condition of
/// which it is not known whether it holds.
pub fn read_options<'a>(
    context: &Context,
    attributes: &[Meta<'a>],
) -> Result<Vec<Meta<'a>>, Fault> {
    let own = items_of(context, attributes, "schemars")?;
    let mut items = Vec::new(context.alloc);
    for source in SOURCES {
        add_items(context, attributes, source, &own, &mut items)?;
    }
    for attribute in attributes {
        match attribute.name {
            "deprecated" if !has_item(&own, "deprecated") => items.push(without_value(attribute))?,
            "cfg" | "cfg_attr" => return Err(context.refused_meta(attribute, UNDECIDED)),
            _ => {}
        }
    }
    Ok(items)
}

// The attributes whose items are read, in their order.
const SOURCES: [&str; 4] = ["schemars", "serde", "validate", "garde"];

// Adds the items of one of these attributes, but for those that `schemars` has otherwise.
fn add_items<'a>(
    context: &Context,
    attributes: &[Meta<'a>],
    source: &str,
    own: &[Meta<'_>],
    items: &mut Vec<Meta<'a>>,
) -> Result<(), Fault> {
    let found = items_of(context, attributes, source)?;
    for item in &found {
        let is_read = match source {
            "schemars" => !item.is_unset,
            "serde" => !has_item(own, item.name),
            _ => VALIDATIONS.contains(&item.name) && !has_item(own, item.name),
        };
        if is_read {
            add_item(context, items, item)?;
        }
    }
    Ok(())
}

fn without_value<'a>(attribute: &Meta<'a>) -> Meta<'a> {
    Meta {
        name: attribute.name,
        place: attribute.place,
        is_text: false,
        is_unset: false,
        value: MetaValue::Nothing,
    }
}

// The items in all attributes of this name.
fn items_of<'a>(
    context: &Context,
    attributes: &[Meta<'a>],
    name: &str,
) -> Result<Vec<Meta<'a>>, Fault> {
    let mut items = Vec::new(context.alloc);
    for attribute in attributes {
        if attribute.name == name {
            let mut found = items_in(context, attribute)?;
            items.append(&mut found)?;
        }
    }
    Ok(items)
}

/// The items of an attribute's list.
///
/// # Errors
///
/// It has no list, or one that is none of attributes.
pub fn items_in<'a>(context: &Context, meta: &Meta<'a>) -> Result<Vec<Meta<'a>>, Fault> {
    match meta.value {
        MetaValue::List(list) => read_metas(context.alloc, list),
        _ => Err(context.refused_meta(meta, "a list in parentheses is wanted")),
    }
}

fn has_item(items: &[Meta<'_>], name: &str) -> bool {
    for item in items {
        if item.name == name {
            return true;
        }
    }
    false
}

fn add_item<'a>(
    context: &Context,
    items: &mut Vec<Meta<'a>>,
    item: &Meta<'a>,
) -> Result<(), Fault> {
    if has_item(items, item.name) && !REPEATED.contains(&item.name) {
        return Err(context.refused_meta(item, "this stands twice"));
    }
    items.push(*item)?;
    Ok(())
}

// The items that may stand more than once.
const REPEATED: [&str; 5] = ["alias", "example", "extend", "bound", "transform"];

// The items of `validate` and `garde` that are read.
const VALIDATIONS: [&str; 12] = [
    "range", "length", "regex", "pattern", "contains", "required", "inner", "email", "url", "ip",
    "ipv4", "ipv6",
];
