//! The keywords of a type, a field or a variant, which are added by calls.
use crate::body::Writer;
use crate::groups::{FIELDS, List, VARIANTS};
use schemaderive_definitions::Part;
use schemaderive_options::{Note, Notes};
use schemaderive_syntax::Fault;
use schemaderive_text::{json_argument, literal};
use std::alloc::AllocError;

/// The function that adds a keyword, and to what.
#[derive(Clone, Copy)]
pub struct Target {
    // the function
    call: &'static str,
    // the list to whose last item it is added; none if it is the entry
    list: Option<List>,
}

/// The type itself.
pub const ENTRY: Target = Target {
    call: "note_entry",
    list: None,
};

/// The last field.
pub const FIELD: Target = Target {
    call: "note_field",
    list: Some(FIELDS),
};

/// The last variant.
pub const VARIANT: Target = Target {
    call: "note_variant",
    list: Some(VARIANTS),
};

/// The last variant of an enum with a tag among the members.
pub const INTERNAL_VARIANT: Target = Target {
    call: "note_internal_variant",
    list: Some(VARIANTS),
};

// The value that is written without a call.
fn constant_of(json: &str) -> Option<&'static str> {
    match json {
        "true" => Some("Value::Bool(true)"),
        "false" => Some("Value::Bool(false)"),
        "null" => Some("Value::Null"),
        _ => None,
    }
}

// The name of the value of a keyword.
fn variable_of(key: &str) -> &'static str {
    for variable in ["title", "description", "default", "examples"] {
        if variable == key {
            return variable;
        }
    }
    "value"
}

/// How many calls add a keyword.
pub fn weight_of(note: &Note) -> usize {
    if constant_of(note.json.as_str()).is_some() {
        1
    } else {
        2
    }
}

impl<'t> Writer<'t> {
    /// Adds the calls that add keywords.
    pub fn add_notes(&mut self, target: Target, notes: &Notes) -> Result<(), AllocError> {
        for note in &notes.list {
            self.add_note(target, note)?;
        }
        Ok(())
    }

    fn add_note(&mut self, target: Target, note: &Note) -> Result<(), AllocError> {
        let _ = self.imports.add("serde_json::Value")?;
        let value = self.value_of(note)?;
        let to = self.noted(target);
        let key = literal(self.alloc(), note.key.as_str())?;
        self.call(target.call, "", &["alloc", to, key.as_str(), value])
    }

    // What keywords are added to, as an argument.
    fn noted(&self, target: Target) -> &'static str {
        match target.list {
            Some(list) => self.argument(list),
            None => "&mut entry",
        }
    }

    // The value of a keyword as an argument; one that is made has a line in which it gets a name.
    fn value_of(&mut self, note: &Note) -> Result<&'static str, AllocError> {
        if let Some(constant) = constant_of(note.json.as_str()) {
            return Ok(constant);
        }
        let variable = variable_of(note.key.as_str());
        let value = json_argument(self.alloc(), note.json.as_str())?;
        if note.json.starts_with('"') {
            self.add_text(variable, "Value::try_from_str", value.as_str())?;
        } else {
            self.add_json(variable, value.as_str())?;
        }
        Ok(variable)
    }

    /// Adds a line that gives what a function makes of a text a name.
    pub fn add_text(
        &mut self,
        variable: &str,
        function: &str,
        text: &str,
    ) -> Result<(), AllocError> {
        self.call_head(&["let ", variable, " = ", function], &["alloc", text])
    }

    // Adds a line that gives a value a name.
    fn add_json(&mut self, variable: &str, value: &str) -> Result<(), AllocError> {
        let _ = self.imports.add("serde_json::json")?;
        self.lines
            .set(self.indent, variable, &["json!(in alloc; ", value, ")?"])
    }

    /// Refuses the keywords of a part that has no name.
    ///
    /// # Errors
    ///
    /// It has keywords.
    pub fn refuse_notes(&self, part: &Part) -> Result<(), Fault> {
        let note = match part.rules.list.first() {
            Some(note) => note,
            None => match part.notes.list.first() {
                Some(note) => note,
                None => return Ok(()),
            },
        };
        let reason = "an implementation has no keywords of a value without a name";
        let context = self.types.context;
        Err(context.refused_name(part.place, note.key.as_str(), reason))
    }
}
