//! The attributes of a variant.
use crate::context::Context;
use crate::field::OTHER_NAME;
use crate::lists::read_options;
use crate::names::{Cases, Names, cases_in, names_in};
use crate::notes::Notes;
use crate::shared::{Common, Presence, type_of};
use schemaderive_syntax::{Fault, Meta, Place, TypeExpr};

/// What the attributes of a variant say.
#[derive(Drop)]
pub struct VariantOptions {
    /// the names that it gets
    pub names: Names,
    /// the cases of its fields, if it says so
    pub rename_all: Option<Cases>,
    /// in which values it is
    pub presence: Presence,
    /// where it is said that it is in some values alone
    pub skipped: Option<Place>,
    /// the type that its content stands for
    pub stands_for: Option<TypeExpr>,
    /// the keywords of its document
    pub notes: Notes,
}

impl VariantOptions {
    fn new(context: &Context) -> VariantOptions {
        VariantOptions {
            names: Names::none(),
            rename_all: None,
            presence: Presence::everywhere(),
            skipped: None,
            stands_for: None,
            notes: Notes::new(context.alloc),
        }
    }

    fn read(&mut self, context: &mut Context, attributes: &[Meta<'_>]) -> Result<(), Fault> {
        let items = read_options(context, attributes)?;
        let mut common = Common::new(context.alloc);
        for item in &items {
            if !common.read(context, item)? {
                self.read_item(context, item)?;
            }
        }
        common.put_into(context, attributes, &mut self.notes)
    }

    fn read_item(&mut self, context: &mut Context, item: &Meta<'_>) -> Result<(), Fault> {
        match item.name {
            "rename" => self.names = names_in(context, item)?,
            "rename_all" => self.rename_all = Some(cases_in(context, item)?),
            "skip" | "skip_serializing" | "skip_deserializing" => {
                self.skipped = Some(item.place);
                self.presence.leave_out(item.name);
            }
            "with" => self.stands_for = Some(type_of(context, item)?),
            "alias" => context.warn(item.place, item.name, OTHER_NAME)?,
            "other" => {
                let reason =
                    "the document has the name of the variant alone, as that of the Rust crate";
                context.warn(item.place, item.name, reason)?;
            }
            "untagged" => {
                let reason = "a table has no variants without a name among others";
                return Err(context.refused_meta(item, reason));
            }
            _ => return Err(context.refused_meta(item, "this is not known at a variant")),
        }
        Ok(())
    }
}

/// Reads the attributes of a variant.
///
/// # Errors
///
/// An attribute is not known, or has a value that is not.
pub fn variant_options(
    context: &mut Context,
    attributes: &[Meta<'_>],
) -> Result<VariantOptions, Fault> {
    let mut options = VariantOptions::new(context);
    options.read(context, attributes)?;
    Ok(options)
}
