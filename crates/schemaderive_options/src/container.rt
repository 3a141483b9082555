//! The attributes of a struct or an enum.
use crate::context::{Context, Contract};
use crate::lists::{derives_name, read_options};
use crate::names::{Cases, Names, cases_in, names_in};
use crate::notes::Notes;
use crate::shared::{Common, DefaultValue, default_in, type_of};
use crate::values::text_of;
use schemaderive_syntax::{Fault, Meta, Place, TypeExpr};

/// What the attributes of a struct or an enum say.
#[derive(Drop)]
pub struct ContainerOptions {
    /// the names that it gets
    pub names: Names,
    /// the path of the type that it describes in place of itself
    pub remote: Option<String>,
    /// the cases of its fields or variants
    pub rename_all: Cases,
    /// the cases of the fields of its variants
    pub rename_all_fields: Cases,
    /// the key under which the name of a variant is
    pub tag: Option<String>,
    /// the key under which the content of a variant is
    pub content: Option<String>,
    /// where it says that variants have no names
    pub untagged: Option<Place>,
    /// whether other keys are refused
    pub is_closed: bool,
    /// what fields that are missing have
    pub default: Option<DefaultValue>,
    /// whether its default is made of those of its fields
    pub derives_default: bool,
    /// where it is said that it is its only field
    pub transparent: Option<Place>,
    /// whether it is written in place
    pub is_inline: bool,
    /// the type that it stands for
    pub stands_for: Option<TypeExpr>,
    /// whether the type that it stands for is the one of serde's conversions
    pub is_converted: bool,
    /// the keywords of its document
    pub notes: Notes,
}

impl ContainerOptions {
    fn new(context: &Context) -> ContainerOptions {
        ContainerOptions {
            names: Names::none(),
            remote: None,
            rename_all: Cases::unchanged(),
            rename_all_fields: Cases::unchanged(),
            tag: None,
            content: None,
            untagged: None,
            is_closed: false,
            default: None,
            derives_default: false,
            transparent: None,
            is_inline: false,
            stands_for: None,
            is_converted: false,
            notes: Notes::new(context.alloc),
        }
    }

    fn read(&mut self, context: &mut Context, attributes: &[Meta<'_>]) -> Result<(), Fault> {
        let items = read_options(context, attributes)?;
        let mut common = Common::new(context.alloc);
        for item in &items {
            if !common.read(context, item)? {
                self.read_item(context, item)?;
            }
        }
        self.read_conversions(context, &items)?;
        self.derives_default = derives_name(context.alloc, attributes, "Default")?;
        common.put_into(context, attributes, &mut self.notes)
    }

    fn read_item(&mut self, context: &Context, item: &Meta<'_>) -> Result<(), Fault> {
        match item.name {
            "rename" => self.names = names_in(context, item)?,
            "remote" => self.remote = Some(text_of(context, item)?),
            "rename_all" => self.rename_all = cases_in(context, item)?,
            "rename_all_fields" => self.rename_all_fields = cases_in(context, item)?,
            "tag" => self.tag = Some(text_of(context, item)?),
            "content" => self.content = Some(text_of(context, item)?),
            "untagged" => self.untagged = Some(item.place),
            "deny_unknown_fields" => self.is_closed = true,
            "default" => self.default = Some(default_in(item)),
            "transparent" => self.transparent = Some(item.place),
            "inline" => self.is_inline = true,
            "with" => self.stands_for = Some(type_of(context, item)?),
            "from" | "try_from" | "into" => {}
            _ => return Err(context.refused_meta(item, "this is not known at a type")),
        }
        Ok(())
    }

    // Reads the types that serde converts a value from or to.
    fn read_conversions(&mut self, context: &Context, items: &[Meta<'_>]) -> Result<(), Fault> {
        if let Some(item) = conversion_in(context, items)? {
            self.stands_for = Some(type_of(context, &item)?);
            self.is_converted = true;
        }
        Ok(())
    }
}

/// Reads the attributes of a struct or an enum.
///
/// # Errors
///
/// An attribute is not known, or has a value that is not.
pub fn container_options(
    context: &mut Context,
    attributes: &[Meta<'_>],
) -> Result<ContainerOptions, Fault> {
    let mut options = ContainerOptions::new(context);
    options.read(context, attributes)?;
    Ok(options)
}

// The attribute with the type that the values of the table are converted from or to.
fn conversion_in<'a>(context: &Context, items: &[Meta<'a>]) -> Result<Option<Meta<'a>>, Fault> {
    let mut from = None;
    let mut into = None;
    for item in items {
        match item.name {
            "from" | "try_from" => from = Some(*item),
            "into" => into = Some(*item),
            _ => {}
        }
    }
    match (context.contract, from, into) {
        (Contract::Deserialize, _, _) => Ok(from),
        (Contract::Serialize, _, _) => Ok(into),
        (Contract::Both, None, None) => Ok(None),
        (Contract::Both, Some(item), None) | (Contract::Both, None, Some(item)) => {
            Err(context.refused_meta(&item, DIFFERENT))
        }
        (Contract::Both, Some(from), Some(into)) => {
            refuse_other(context, &from, &into)?;
            Ok(Some(from))
        }
    }
}

const DIFFERENT: &str = "what is read and what is written differ: say --deserialize or --serialize";

// Refuses a value that is read from another type than the one that it is written to.
fn refuse_other(context: &Context, from: &Meta<'_>, into: &Meta<'_>) -> Result<(), Fault> {
    let read = text_of(context, from)?;
    let written = text_of(context, into)?;
    if read.as_str() == written.as_str() {
        return Ok(());
    }
    Err(context.refused_meta(from, DIFFERENT))
}
