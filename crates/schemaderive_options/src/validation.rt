//! Attributes that say which values a field may have.
use crate::context::Context;
use crate::lists::items_in;
use crate::values::{json_of, literal_text, push_quoted, wanted_text};
use schemaderive_syntax::{Fault, Meta, MetaValue, Place};
use std::alloc::{AllocError, Global};

/// What a rule bounds.
#[derive(Clone, Copy, Debug, PartialEq, Eq)]
pub enum RuleKind {
    /// a number, from below
    Minimum,
    /// a number, from above
    Maximum,
    /// the length of a text or a list, from below
    Shortest,
    /// the length of a text or a list, from above
    Longest,
    /// the pattern of a text
    Pattern,
    /// the format of a text
    Format,
}

/// A rule of a field.
#[derive(Drop)]
pub struct Rule {
    /// what it bounds
    pub kind: RuleKind,
    /// its value, as JSON
    pub json: String,
    /// where its attribute is
    pub place: Place,
    /// the name of its attribute
    pub name: String,
}

/// The rules of a field.
#[derive(Drop)]
pub struct Validation {
    /// the rules
    pub rules: Vec<Rule>,
    /// whether an Option has to be there
    pub is_required: bool,
}

impl Validation {
    /// No rules.
    pub fn new(alloc: Global) -> Validation {
        Validation {
            rules: Vec::new(alloc),
            is_required: false,
        }
    }

    /// Whether there are no rules.
    pub fn is_empty(&self) -> bool {
        self.rules.is_empty() && !self.is_required
    }

    /// Reads an attribute; false if it is none of these.
    ///
    /// # Errors
    ///
    /// Its value is computed, or it is of another form.
    pub fn read(&mut self, context: &Context, meta: &Meta<'_>) -> Result<bool, Fault> {
        match meta.name {
            "range" | "length" => self.read_bounds(context, meta)?,
            "regex" | "pattern" | "contains" => self.read_pattern(context, meta)?,
            "email" | "ip" | "ipv4" | "ipv6" => self.add_format(context, meta, meta.name)?,
            "url" => self.add_format(context, meta, "uri")?,
            "required" => self.is_required = true,
            _ => return Ok(false),
        }
        Ok(true)
    }

    fn read_bounds(&mut self, context: &Context, meta: &Meta<'_>) -> Result<(), Fault> {
        let items = items_in(context, meta)?;
        for item in &items {
            match meta.name {
                _ if REPORTED.contains(&item.name) => {}
                "range" => self.read_bound(context, meta, item)?,
                _ => self.read_length(context, meta, item)?,
            }
        }
        Ok(())
    }

    // Reads a bound of a number.
    fn read_bound(
        &mut self,
        context: &Context,
        meta: &Meta<'_>,
        item: &Meta<'_>,
    ) -> Result<(), Fault> {
        let kind = match item.name {
            "min" => RuleKind::Minimum,
            "max" => RuleKind::Maximum,
            _ => return Err(context.refused_meta(item, "`min` or `max` is wanted here")),
        };
        let json = json_of(context, item)?;
        if !json
            .as_str()
            .starts_with(|c: char| c == '-' || c.is_ascii_digit())
        {
            return Err(context.refused_meta(item, "a number is wanted here"));
        }
        self.add(context, meta, kind, json.as_str())
    }

    // Reads a bound of a length.
    fn read_length(
        &mut self,
        context: &Context,
        meta: &Meta<'_>,
        item: &Meta<'_>,
    ) -> Result<(), Fault> {
        let json = json_of(context, item)?;
        let json = json.as_str();
        if json.parse::<u64>().is_err() {
            return Err(context.refused_meta(item, "a whole number of 64 bits is wanted here"));
        }
        match item.name {
            "min" => self.add(context, meta, RuleKind::Shortest, json),
            "max" => self.add(context, meta, RuleKind::Longest, json),
            "equal" => {
                self.add(context, meta, RuleKind::Shortest, json)?;
                self.add(context, meta, RuleKind::Longest, json)
            }
            _ => Err(context.refused_meta(item, "`min`, `max` or `equal` is wanted here")),
        }
    }

    fn read_pattern(&mut self, context: &Context, meta: &Meta<'_>) -> Result<(), Fault> {
        let text = pattern_of(context, meta)?;
        let mut json = String::new(context.alloc);
        if meta.name == "contains" {
            let pattern = escaped(context.alloc, text.as_str())?;
            push_quoted(context.alloc, &mut json, pattern.as_str())?;
        } else {
            push_quoted(context.alloc, &mut json, text.as_str())?;
        }
        self.add(context, meta, RuleKind::Pattern, json.as_str())
    }

    fn add_format(
        &mut self,
        context: &Context,
        meta: &Meta<'_>,
        format: &str,
    ) -> Result<(), Fault> {
        let mut json = String::new(context.alloc);
        push_quoted(context.alloc, &mut json, format)?;
        self.add(context, meta, RuleKind::Format, json.as_str())
    }

    fn add(
        &mut self,
        context: &Context,
        meta: &Meta<'_>,
        kind: RuleKind,
        json: &str,
    ) -> Result<(), Fault> {
        let rule = Rule {
            kind,
            json: String::from_str(context.alloc, json)?,
            place: meta.place,
            name: String::from_str(context.alloc, meta.name)?,
        };
        self.rules.push(rule)?;
        Ok(())
    }
}

// The text behind `=` or in parentheses, by itself or under the name `pattern`.
fn pattern_of(context: &Context, meta: &Meta<'_>) -> Result<String, Fault> {
    let found = match meta.value {
        MetaValue::Equals(cursor) => literal_text(context, cursor)?,
        MetaValue::List(list) => match literal_text(context, list)? {
            Some(text) => Some(text),
            None => named_pattern(context, meta)?,
        },
        _ => None,
    };
    wanted_text(context, meta, found)
}

fn named_pattern(context: &Context, meta: &Meta<'_>) -> Result<Option<String>, Fault> {
    let items = items_in(context, meta)?;
    for item in &items {
        match item.value {
            MetaValue::Equals(cursor) if item.name == "pattern" => {
                return literal_text(context, cursor);
            }
            _ if REPORTED.contains(&item.name) => {}
            _ => return Err(context.refused_meta(item, "a literal text is wanted here")),
        }
    }
    Ok(None)
}

// What rules have beside them, for those that report a value.
const REPORTED: [&str; 2] = ["message", "code"];

// The characters that mean something else in a pattern.
const SPECIAL: &str = "\\.+*?()|[]{}^$#&-~";

// A pattern that matches where this text stands.
fn escaped(alloc: Global, text: &str) -> Result<String, AllocError> {
    let mut pattern = String::new(alloc);
    for c in text.chars() {
        if SPECIAL.contains(c) {
            pattern.push('\\')?;
        }
        pattern.push(c)?;
    }
    Ok(pattern)
}
