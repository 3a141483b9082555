//! The variants of enums.
use crate::body::Writer;
use crate::groups::{Groups, INTERNAL_VARIANTS, Lists, MANY_VARIANTS, VARIANTS};
use crate::keywords::{INTERNAL_VARIANT, VARIANT};
use crate::members::has_flattened;
use schemaderive_definitions::{Choice, Choices, Form, Members, Part, Payload};
use schemaderive_syntax::Fault;
use schemaderive_text::literal;

// The calls that add a variant with members.
#[derive(Clone, Copy)]
struct StructCalls {
    // the call if all of them are its own
    own: &'static str,
    // the call if those of other types are among them
    flattened: &'static str,
}

const STRUCT: StructCalls = StructCalls {
    own: "add_struct",
    flattened: "add_flat_struct",
};

// The same in an enum with a tag among the members of its variants.
const INTERNAL_STRUCT: StructCalls = StructCalls {
    own: "add_internal_struct",
    flattened: "add_internal_flat_struct",
};

impl<'t> Writer<'t> {
    /// Adds the calls that make the list `variants`. What a variant has is collected right before the
    /// variant is added.
    ///
    /// # Errors
    ///
    /// A type has no implementation, or can't be named.
    pub fn add_choices(&mut self, choices: &Choices) -> Result<(), Fault> {
        self.list("variants", !choices.list.is_empty())?;
        let lists = Lists::one(match choices.form {
            Form::Internal => INTERNAL_VARIANTS,
            _ => VARIANTS,
        });
        let weight = self.choices_weight(&choices.list);
        let mut groups = Groups::new(lists, weight, MANY_VARIANTS);
        for choice in &choices.list {
            self.begin_group(&groups)?;
            self.add_choice(choices.form, choice)?;
            self.count_calls(&mut groups, self.choice_weight(choice))?;
        }
        Ok(self.end_group(&mut groups)?)
    }

    // Adds a variant of an enum of this form, with its keywords.
    fn add_choice(&mut self, form: Form, choice: &Choice) -> Result<(), Fault> {
        let name = literal(self.alloc(), choice.name.as_str())?;
        if form == Form::Internal {
            self.add_internal(name.as_str(), choice)?;
            return Ok(self.add_notes(INTERNAL_VARIANT, &choice.notes)?);
        }
        self.add_variant(name.as_str(), &choice.payload)?;
        Ok(self.add_notes(VARIANT, &choice.notes)?)
    }

    fn add_variant(&mut self, name: &str, payload: &Payload) -> Result<(), Fault> {
        let variants = self.argument(VARIANTS);
        match payload {
            Payload::Unit => Ok(self.call("add_unit", "", &["alloc", variants, name])?),
            Payload::Newtype(part) => self.add_newtype(name, part),
            Payload::Tuple(parts) => {
                self.add_parts(parts)?;
                Ok(self.call("add_tuple", "", &["alloc", variants, name, "numbers"])?)
            }
            Payload::Struct(members) => self.add_struct(STRUCT, name, members),
        }
    }

    fn add_newtype(&mut self, name: &str, part: &Part) -> Result<(), Fault> {
        self.refuse_notes(part)?;
        let variants = self.argument(VARIANTS);
        if self.leads_back(part) {
            self.own_number(part)?;
            let arguments = ["alloc", "types", variants, name, "number"];
            return Ok(self.call("add_newtype_of", "", &arguments)?);
        }
        self.call_registered("add_newtype", part, &["alloc", "types", variants, name])
    }

    // Adds a variant with members by one of these calls.
    fn add_struct(
        &mut self,
        calls: StructCalls,
        name: &str,
        members: &Members,
    ) -> Result<(), Fault> {
        self.add_members(members)?;
        let is_flat = has_flattened(members);
        let call = if is_flat { calls.flattened } else { calls.own };
        let parts = text_if(is_flat, "parts", "");
        let closed = text_if(members.is_closed, "true", "false");
        let variants = self.argument(VARIANTS);
        let arguments = ["alloc", variants, name, "fields", parts, closed];
        Ok(self.call(call, "", &arguments)?)
    }

    fn add_internal(&mut self, name: &str, choice: &Choice) -> Result<(), Fault> {
        let variants = self.argument(VARIANTS);
        match &choice.payload {
            Payload::Unit => { Ok(self.call("add_internal_unit", "", &["alloc", variants, name])?) }
            Payload::Newtype(part) if self.leads_back(part) => {
                Err(self.refused_part(part, "tag"))
            }
            Payload::Newtype(part) => {
                self.refuse_notes(part)?;
                let arguments = ["alloc", "types", variants, name];
                self.call_registered("add_internal_newtype", part, &arguments)
            }
            Payload::Struct(members) => self.add_struct(INTERNAL_STRUCT, name, members),
            Payload::Tuple(_) => {
                let reason = "a variant of an enum with a tag in its content is no tuple";
                let context = self.types.context;
                Err(context.refused_name(choice.place, "tag", reason))
            }
        }
    }
}

fn text_if<'x>(is_so: bool, text: &'x str, other: &'x str) -> &'x str {
    if is_so { text } else { other }
}
