//! The fields of structs, and the parts of tuples.
use crate::body::Writer;
use crate::groups::{FIELDS, Groups, Lists, MANY_FIELDS, PARTS};
use crate::keywords::FIELD;
use schemaderive_definitions::{Member, Members, Part, Required};
use schemaderive_syntax::Fault;
use schemaderive_text::literal;
use std::alloc::AllocError;

// A field that is always read and may be missing where it is written, in the lines of an argument.
const READ_ALWAYS: &str =
    "Required {\n                deserialize: true,\n                serialize: false,\n            }";

/// Whether members of other types are among these.
pub fn has_flattened(members: &Members) -> bool {
    for member in &members.list {
        if member.name.is_none() {
            return true;
        }
    }
    false
}

fn has_named(members: &Members) -> bool {
    for member in &members.list {
        if member.name.is_some() {
            return true;
        }
    }
    false
}

impl<'t> Writer<'t> {
    /// Adds the calls that make the list `fields` of members, and the list `parts` of the types whose
    /// members are among them.
    ///
    /// # Errors
    ///
    /// A type has no implementation, or can't be named.
    pub fn add_members(&mut self, members: &Members) -> Result<(), Fault> {
        self.list("fields", has_named(members))?;
        let mut lists = Lists::one(FIELDS);
        if has_flattened(members) {
            self.list("parts", true)?;
            lists = Lists::two(FIELDS, PARTS);
        }
        let weight = self.members_weight(&members.list);
        let mut groups = Groups::new(lists, weight, MANY_FIELDS);
        for member in &members.list {
            self.begin_group(&groups)?;
            self.add_member(member)?;
            self.count_calls(&mut groups, self.member_weight(member))?;
        }
        Ok(self.end_group(&mut groups)?)
    }

    fn add_member(&mut self, member: &Member) -> Result<(), Fault> {
        let required = self.required_text(member.required)?;
        match &member.name {
            Some(name) => self.add_named(name.as_str(), &member.part, required),
            None => self.add_flattened(&member.part, required),
        }
    }

    fn add_named(&mut self, name: &str, part: &Part, required: &str) -> Result<(), Fault> {
        let name = literal(self.alloc(), name)?;
        self.add_field(name.as_str(), part, required)?;
        let notes = part.all_notes(self.alloc())?;
        Ok(self.add_notes(FIELD, &notes)?)
    }

    fn add_field<'x>(
        &mut self,
        name: &'x str,
        part: &Part,
        required: &'x str,
    ) -> Result<(), Fault> {
        if self.leads_back(part) {
            return self.own_field(part, name, required);
        }
        let fields = self.argument(FIELDS);
        let arguments = ["alloc", "types", fields, name, required];
        self.call_registered("add_field", part, &arguments)
    }

    fn add_flattened(&mut self, part: &Part, required: &str) -> Result<(), Fault> {
        if self.leads_back(part) {
            return Err(self.refused_part(part, "flatten"));
        }
        let parts = self.argument(PARTS);
        let arguments = ["alloc", "types", parts, required];
        self.call_registered("add_flattened", part, &arguments)
    }

    /// The fault of a part whose members would be among its own.
    pub fn refused_part(&self, part: &Part, name: &str) -> Fault {
        let reason = "the members of a type are not among its own";
        self.types.context.refused_name(part.place, name, reason)
    }

    // The constant of the library that says so, or else the value.
    fn required_text(&mut self, required: Required) -> Result<&'static str, AllocError> {
        let text = match (required.deserialize, required.serialize) {
            (true, true) => "REQUIRED",
            (false, true) => "READ_OPTIONAL",
            (false, false) => "OPTIONAL",
            (true, false) => {
                let _ = self.imports.add("schemars::types::Required")?;
                return Ok(READ_ALWAYS);
            }
        };
        self.imports.call(text)?;
        Ok(text)
    }

    /// Adds the calls that make the list `numbers` of the rows of parts.
    ///
    /// # Errors
    ///
    /// A type has no implementation, can't be named, or has keywords.
    pub fn add_parts(&mut self, parts: &[Part]) -> Result<(), Fault> {
        self.list("numbers", !parts.is_empty())?;
        for part in parts {
            self.refuse_notes(part)?;
            self.add_part(part)?;
        }
        Ok(())
    }

    fn add_part(&mut self, part: &Part) -> Result<(), Fault> {
        if self.leads_back(part) {
            self.own_number(part)?;
            return Ok(self.call("add_number", "", &["types", "&mut numbers", "number"])?);
        }
        self.call_registered("add_one", part, &["alloc", "types", "&mut numbers"])
    }
}
