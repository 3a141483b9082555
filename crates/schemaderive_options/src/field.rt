//! The attributes of a field.
use crate::context::Context;
use crate::lists::read_options;
use crate::names::{Names, names_in};
use crate::notes::Notes;
use crate::shared::{Common, DefaultValue, Presence, default_in, type_of};
use crate::validation::Validation;
use crate::values::text_of;
use schemaderive_syntax::{Fault, Meta, Place, TypeExpr};
use std::alloc::AllocError;

/// What is said of another name that is read.
pub const OTHER_NAME: &str = "the document has the other name alone, as that of the Rust crate";

/// What the attributes of a field say.
#[derive(Drop)]
pub struct FieldOptions {
    /// the names that it gets
    pub names: Names,
    /// where it is said that its members are in the struct's own object
    pub flat: Option<Place>,
    /// what it is if it is missing
    pub default: Option<DefaultValue>,
    /// in which values it is
    pub presence: Presence,
    /// where it is said that it is in some values alone
    pub skipped: Option<Place>,
    /// the function that decides whether it is written
    pub skip_if: Option<String>,
    /// where that is said
    pub skip_place: Option<Place>,
    /// the type that it stands for
    pub stands_for: Option<TypeExpr>,
    /// which values it may have
    pub validation: Validation,
    /// the keywords of its document
    pub notes: Notes,
}

impl FieldOptions {
    fn new(context: &Context) -> FieldOptions {
        FieldOptions {
            names: Names::none(),
            flat: None,
            default: None,
            presence: Presence::everywhere(),
            skipped: None,
            skip_if: None,
            skip_place: None,
            stands_for: None,
            validation: Validation::new(context.alloc),
            notes: Notes::new(context.alloc),
        }
    }

    fn read(&mut self, context: &mut Context, attributes: &[Meta<'_>]) -> Result<(), Fault> {
        let items = read_options(context, attributes)?;
        let mut common = Common::new(context.alloc);
        for item in &items {
            if !common.read(context, item)? && !self.validation.read(context, item)? {
                self.read_item(context, item)?;
            }
        }
        self.warn_of_functions(context, &items)?;
        common.put_into(context, attributes, &mut self.notes)?;
        self.add_directions(context)
    }

    fn read_item(&mut self, context: &mut Context, item: &Meta<'_>) -> Result<(), Fault> {
        match item.name {
            "rename" => self.names = names_in(context, item)?,
            "flatten" => self.flat = Some(item.place),
            "default" => self.default = Some(default_in(item)),
            "skip" | "skip_serializing" | "skip_deserializing" => {
                self.skipped = Some(item.place);
                self.presence.leave_out(item.name);
            }
            "skip_serializing_if" => {
                self.skip_if = Some(text_of(context, item)?);
                self.skip_place = Some(item.place);
            }
            "with" => self.stands_for = Some(type_of(context, item)?),
            "alias" => context.warn(item.place, item.name, OTHER_NAME)?,
            "serialize_with" | "deserialize_with" => {}
            "inner" => {
                let reason = "rules of what a list contains are not read";
                return Err(context.refused_meta(item, reason));
            }
            _ => return Err(context.refused_meta(item, "this is not known at a field")),
        }
        Ok(())
    }

    // A function that writes or reads the value may give it another type.
    fn warn_of_functions(
        &self,
        context: &mut Context,
        items: &[Meta<'_>],
    ) -> Result<(), AllocError> {
        if self.stands_for.is_some() {
            return Ok(());
        }
        for item in items {
            if item.name == "serialize_with" || item.name == "deserialize_with" {
                let reason = "the document is that of the type, whatever the function does";
                context.warn(item.place, item.name, reason)?;
            }
        }
        Ok(())
    }

    // A field that is only read is `writeOnly`, and one that is only written `readOnly`.
    fn add_directions(&mut self, context: &Context) -> Result<(), Fault> {
        let key = match (self.presence.deserialize, self.presence.serialize) {
            (true, false) => "writeOnly",
            (false, true) => "readOnly",
            (true, true) | (false, false) => return Ok(()),
        };
        self.notes.put_json(context.alloc, key, "true")?;
        Ok(())
    }
}

/// Reads the attributes of a field.
///
/// # Errors
///
/// An attribute is not known, or has a value that is not.
pub fn field_options(
    context: &mut Context,
    attributes: &[Meta<'_>],
) -> Result<FieldOptions, Fault> {
    let mut options = FieldOptions::new(context);
    options.read(context, attributes)?;
    Ok(options)
}
