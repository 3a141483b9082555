//! Functions that add a group of fields or of variants each, so that the check proves a long body
//! group by group.
use crate::body::{Writer, applied};
use crate::keywords::weight_of;
use schemaderive_definitions::{Choice, Member, Part, Payload};
use schemaderive_text::{Lines, joined};
use std::alloc::AllocError;
use std::mem;

/// A list to which a body adds what it makes.
#[derive(Clone, Copy)]
pub struct List {
    /// its name, as an argument where it is lent
    pub name: &'static str,
    // itself as an argument elsewhere
    reference: &'static str,
    // the type of what it has, with its path
    ty: &'static str,
    // the clause that says of it that its numbers are those of rows
    clause: &'static str,
    // what is said so
    word: &'static str,
    // what each of its elements is
    view: &'static str,
}

/// The fields of a struct.
pub const FIELDS: List = List {
    name: "fields",
    reference: "&mut fields",
    ty: "schemars::types::Field",
    clause: "known",
    word: "FieldsAreKnown",
    view: "field_of",
};

/// The types whose members are among those of a struct.
pub const PARTS: List = List {
    name: "parts",
    reference: "&mut parts",
    ty: "schemars::types::Flattened",
    clause: "parts",
    word: "PartsAreKnown",
    view: "flattened_of",
};

/// The variants of an enum.
pub const VARIANTS: List = List {
    name: "variants",
    reference: "&mut variants",
    ty: "schemars::types::Variant",
    clause: "known",
    word: "VariantsAreKnown",
    view: "variant_of",
};

/// The variants of an enum with a tag among their members.
pub const INTERNAL_VARIANTS: List = List {
    name: "variants",
    reference: "&mut variants",
    ty: "schemars::types::InternalVariant",
    clause: "known",
    word: "VariantsAreKnown",
    view: "internal_variant_of",
};

/// The lists that the function of a group has as parameters.
#[derive(Clone, Copy)]
pub struct Lists {
    first: List,
    second: Option<List>,
}

impl Lists {
    /// One list.
    pub const fn one(list: List) -> Lists {
        Lists {
            first: list,
            second: None,
        }
    }

    /// Two lists.
    pub const fn two(first: List, second: List) -> Lists {
        Lists {
            first,
            second: Some(second),
        }
    }

    // Whether a list is among them.
    fn has(self, list: List) -> bool {
        match self.second {
            Some(second) if second.name == list.name => true,
            _ => self.first.name == list.name,
        }
    }
}

/// How many calls the fields of a body have at most that are in no groups.
pub const MANY_FIELDS: usize = 12;

/// The same of the variants of a body.
pub const MANY_VARIANTS: usize = 8;

// How many calls make a group.
const GROUP: usize = 8;

/// The groups of what a body adds.
#[derive(Clone, Copy)]
pub struct Groups {
    lists: Lists,
    // whether there are any
    are_made: bool,
    // how many calls the one has that is begun
    calls: usize,
}

impl Groups {
    /// The groups of what needs so many calls, which are made if there are more than so many.
    pub fn new(lists: Lists, weight: usize, most: usize) -> Groups {
        Groups {
            lists,
            are_made: weight > most,
            calls: 0,
        }
    }
}

/// The allocator as a parameter.
pub const ALLOC: &str = "alloc: Global";

/// The dictionary as a parameter.
pub const TYPES: &str = "types: &mut Types";

const DONE: &[&str] = &[" -> Result<(), TypesError>"];

/// The clause of a function that keeps the rows of the dictionary.
pub const KEEPS: &str = "    ensures keeps { KeepsRows types.old types.new }
";

const KNOWN: &str =
    "    ensures $clause$ { OnOk result ($word$ types.old (map $view$ $name$.old.items)
        → $word$ types.new (map $view$ $name$.new.items)) }
";

// Clauses, around the type.
const FOLLOWS: [&str; 2] = [
    "    ensures follows { OnOk result (Describes ⟦<",
    " as JsonSchema>⟧.says types.old types.new) }\n",
];

const REFUSED: [&str; 2] = [
    "    ensures refused { IfErr result (RefusesPart ⟦<",
    " as JsonSchema>⟧.says types.old) }\n",
];

/// The body that a group interrupts.
#[derive(Drop)]
pub struct Outer {
    lines: Lines,
    indent: usize,
    lent: Option<Lists>,
}

impl<'t> Writer<'t> {
    // How many calls a part needs by which the type leads to itself: as many as make a group, if its row
    // is named by what parameters have.
    fn own_weight(&self, part: &Part) -> usize {
        if !self.parameters.is_empty() && self.leads_back(part) {
            return GROUP;
        }
        0
    }

    /// How many calls a member needs.
    pub fn member_weight(&self, member: &Member) -> usize {
        let part = &member.part;
        let mut weight = self.own_weight(part).saturating_add(1);
        for note in &part.rules.list {
            if part.notes.get(note.key.as_str()).is_none() {
                weight = weight.saturating_add(weight_of(note));
            }
        }
        for note in &part.notes.list {
            weight = weight.saturating_add(weight_of(note));
        }
        weight
    }

    /// How many calls these members need.
    pub fn members_weight(&self, members: &[Member]) -> usize {
        let mut weight = 0usize;
        for member in members {
            weight = weight.saturating_add(self.member_weight(member));
        }
        weight
    }

    /// How many calls these variants need.
    pub fn choices_weight(&self, choices: &[Choice]) -> usize {
        let mut weight = 0usize;
        for choice in choices {
            weight = weight.saturating_add(self.choice_weight(choice));
        }
        weight
    }

    /// How many calls a variant needs.
    pub fn choice_weight(&self, choice: &Choice) -> usize {
        let mut weight = match &choice.payload {
            Payload::Unit => 1,
            Payload::Newtype(part) => self.own_weight(part).saturating_add(1),
            Payload::Tuple(parts) => self.tuple_weight(parts).saturating_add(1),
            Payload::Struct(members) => self.members_weight(&members.list).saturating_add(1),
        };
        for note in &choice.notes.list {
            weight = weight.saturating_add(weight_of(note));
        }
        weight
    }

    fn tuple_weight(&self, parts: &[Part]) -> usize {
        let mut weight = parts.len();
        for part in parts {
            weight = weight.saturating_add(self.own_weight(part));
        }
        weight
    }

    /// A list as an argument: itself if it is a parameter, or else a reference to it.
    pub fn argument<'x>(&self, list: List) -> &'x str {
        match self.lent {
            Some(lists) if lists.has(list) => list.name,
            _ => list.reference,
        }
    }

    /// Begins a group, unless one is begun.
    pub fn begin_group(&mut self, groups: &Groups) -> Result<(), AllocError> {
        if !groups.are_made || groups.calls > 0 {
            return Ok(());
        }
        let lines = Lines::new(self.alloc());
        let outer = Outer {
            lines: mem::replace(&mut self.lines, lines),
            indent: mem::replace(&mut self.indent, 4),
            lent: mem::replace(&mut self.lent, Some(groups.lists)),
        };
        Ok(self.outer.push(outer)?)
    }

    /// Counts calls that are added to a group, and ends it if these are enough.
    pub fn count_calls(&mut self, groups: &mut Groups, calls: usize) -> Result<(), AllocError> {
        groups.calls = groups.calls.saturating_add(calls);
        if groups.calls < GROUP {
            return Ok(());
        }
        self.end_group(groups)
    }

    /// Ends the function of a group that is begun, and calls it.
    pub fn end_group(&mut self, groups: &mut Groups) -> Result<(), AllocError> {
        if !groups.are_made || groups.calls == 0 {
            return Ok(());
        }
        groups.calls = 0;
        let Some(outer) = self.outer.pop() else {
            return Ok(());
        };
        let body = mem::replace(&mut self.lines, outer.lines);
        self.indent = outer.indent;
        self.lent = outer.lent;
        self.add_group(groups.lists, body.text.as_str())
    }

    fn add_group(&mut self, lists: Lists, body: &str) -> Result<(), AllocError> {
        let name = self.imports.function_name(self.ty.as_str(), "part")?;
        self.push_group(lists, name.as_str(), body)?;
        self.call_group(lists, name.as_str())
    }

    fn call_group(&mut self, lists: Lists, name: &str) -> Result<(), AllocError> {
        let head = applied(name, self.parameters);
        let first = self.argument(lists.first);
        match lists.second {
            Some(second) => {
                let second = self.argument(second);
                self.call_head(&head, &["alloc", "types", first, second])
            }
            None => self.call_head(&head, &["alloc", "types", first]),
        }
    }

    // Adds the function of a group.
    fn push_group(&mut self, lists: Lists, name: &str, body: &str) -> Result<(), AllocError> {
        self.imports.words(&[
            "Describes",
            "IfErr",
            "KeepsRows",
            "OnOk",
            "RefusesPart",
            "map",
        ])?;
        let members = lists.first.name;
        self.groups.push(&["\n// Adds some of the ", members])?;
        self.push_with_type(" of `", "`.\n")?;
        self.push_group_head(lists, name)?;
        self.groups.text.push_str(KEEPS)?;
        self.push_known(lists.first)?;
        if let Some(second) = lists.second {
            self.push_known(second)?;
        }
        self.push_with_type(FOLLOWS[0], FOLLOWS[1])?;
        self.push_with_type(REFUSED[0], REFUSED[1])?;
        self.groups.push(&["{\n", body, "    Ok(())\n}\n"])
    }

    // Adds the type to the functions of the file, between these texts.
    fn push_with_type(&mut self, before: &str, behind: &str) -> Result<(), AllocError> {
        self.groups.text.push_str(before)?;
        self.groups.text.push_str(self.ty.as_str())?;
        self.groups.text.push_str(behind)
    }

    fn push_group_head(&mut self, lists: Lists, name: &str) -> Result<(), AllocError> {
        let first = self.parameter(lists.first)?;
        let first = first.as_str();
        match lists.second {
            Some(second) => {
                let second = self.parameter(second)?;
                self.push_head(name, &[ALLOC, TYPES, first, second.as_str()], DONE)
            }
            None => self.push_head(name, &[ALLOC, TYPES, first], DONE),
        }
    }

    /// Adds the head of a function with the parameters of the type.
    pub fn push_head(
        &mut self,
        name: &str,
        parameters: &[&str],
        tail: &[&str],
    ) -> Result<(), AllocError> {
        let mut head = joined(self.alloc(), &["fn ", name])?;
        head.push_str(self.generics.as_str())?;
        self.groups.head(&[head.as_str()], parameters, tail)
    }

    // A list as a parameter.
    fn parameter(&mut self, list: List) -> Result<String, AllocError> {
        let element = self.imports.short(list.ty)?;
        let texts = [list.name, ": &mut Vec<", element.as_str(), ">"];
        joined(self.alloc(), &texts)
    }

    // Adds the clause that says of a list that its numbers are those of rows.
    fn push_known(&mut self, list: List) -> Result<(), AllocError> {
        self.imports.words(&[list.word, list.view])?;
        self.groups.block(
            KNOWN,
            &[
                ("clause", list.clause),
                ("word", list.word),
                ("view", list.view),
                ("name", list.name),
            ],
        )
    }
}
