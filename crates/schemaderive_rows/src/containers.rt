//! Rows that are made of others.
use crate::builder::{Builder, Value};
use schemaderive_known::{Kind, Made, Makeup, Row};
use schemaderive_options::Notes;
use std::alloc::{AllocError, Global};

/// How the row of a type is written that is made of others. In its texts `1` and `2` are its parts,
/// and `#` is the length or the path that the type has beside them.
#[derive(Clone, Copy)]
pub struct Form {
    id: &'static str,
    name: &'static str,
    shape: &'static str,
    ty: &'static str,
    // the default, if it has one
    default: &'static str,
    kind: Kind,
    makeup: Makeup,
    is_inline: bool,
}

const OPTION: Form = Form {
    id: "Option<1>",
    name: "Nullable_1",
    shape: "{\"option\":1}",
    ty: "Option<1>",
    default: "null",
    kind: Kind::Other,
    makeup: Makeup::Optional,
    is_inline: true,
};

const LIST: Form = Form {
    id: "[1]",
    name: "Array_of_1",
    shape: "{\"seq\":1}",
    ty: "Vec<1>",
    default: "[]",
    kind: Kind::List,
    makeup: Makeup::List,
    is_inline: true,
};

const SET: Form = Form {
    id: "Set<1>",
    name: "Set_of_1",
    shape: "{\"set\":1}",
    ty: "#<1>",
    default: "[]",
    kind: Kind::List,
    makeup: Makeup::Set,
    is_inline: true,
};

const UP_TO: Form = Form {
    id: "[1; up to #]",
    name: "Array_up_to_size_#_of_1",
    shape: "{\"up_to\":{\"of\":1,\"cap\":#}}",
    ty: "arrayvec::ArrayVec<1, #>",
    default: "[]",
    kind: Kind::List,
    makeup: Makeup::Other,
    is_inline: true,
};

const ARRAY: Form = Form {
    id: "[#; 1]",
    name: "Array_size_#_of_1",
    shape: "{\"array\":{\"of\":1,\"len\":#}}",
    ty: "[1; #]",
    default: "",
    kind: Kind::List,
    makeup: Makeup::Array,
    is_inline: true,
};

const EMPTY_ARRAY: Form = Form {
    id: "[]",
    name: "EmptyArray",
    shape: "{\"tuple\":[]}",
    ty: "[(); 0]",
    default: "[]",
    kind: Kind::List,
    makeup: Makeup::Plain,
    is_inline: true,
};

const RANGE: Form = Form {
    id: "Range<1>",
    name: "Range_of_1",
    shape: "{\"range\":1}",
    ty: "std::ops::Range<1>",
    default: "",
    kind: Kind::Other,
    makeup: Makeup::Other,
    is_inline: false,
};

const BOUND: Form = Form {
    id: "Bound<1>",
    name: "Bound_of_1",
    shape: "{\"bound\":1}",
    ty: "std::ops::Bound<1>",
    default: "",
    kind: Kind::Other,
    makeup: Makeup::Other,
    is_inline: false,
};

const OUTCOME: Form = Form {
    id: "Result<1, 2>",
    name: "Result_of_1_or_2",
    shape: "{\"result\":{\"ok\":1,\"err\":2}}",
    ty: "Result<1, 2>",
    default: "",
    kind: Kind::Other,
    makeup: Makeup::Other,
    is_inline: false,
};

const EITHER: Form = Form {
    id: "either::Either<1, 2>",
    name: "Either_1_or_2",
    shape: "{\"either\":{\"left\":1,\"right\":2}}",
    ty: "either::Either<1, 2>",
    default: "",
    kind: Kind::Other,
    makeup: Makeup::Other,
    is_inline: true,
};

const MAP: Form = Form {
    id: "Map<1, 2>",
    name: "Map_from_1_to_2",
    shape: "{\"map\":{\"key\":1,\"value\":2}}",
    ty: "#<1, 2>",
    default: "{}",
    kind: Kind::Other,
    makeup: Makeup::Map,
    is_inline: true,
};

// Keys that are texts are not in the id and the name.
const MAP_OF_TEXTS: Form = Form {
    id: "Map<2>",
    name: "Map_of_2",
    shape: "{\"map\":{\"key\":1,\"value\":2}}",
    ty: "#<1, 2>",
    default: "{}",
    kind: Kind::Other,
    makeup: Makeup::Map,
    is_inline: true,
};

/// The form of a time that passes.
pub const DURATION: Form = Form {
    id: "std::time::Duration",
    name: "Duration",
    shape: "{\"struct\":{\"fields\":[{\"name\":\"secs\",\"type\":1},{\"name\":\"nanos\",\"type\":2}]}}",
    ty: "std::time::Duration",
    default: "",
    kind: Kind::Other,
    makeup: Makeup::Plain,
    is_inline: false,
};

/// The form of a point in time.
pub const SYSTEM_TIME: Form = Form {
    id: "std::time::SystemTime",
    name: "SystemTime",
    shape: "{\"struct\":{\"fields\":[{\"name\":\"secs_since_epoch\",\"type\":1},{\"name\":\"nanos_since_epoch\",\"type\":2}]}}",
    ty: "std::time::SystemTime",
    default: "",
    kind: Kind::Other,
    makeup: Makeup::Plain,
    is_inline: false,
};

/// What of a row is written for a part.
#[derive(Clone, Copy)]
pub enum Text {
    /// its id
    Id,
    /// its name
    Name,
    /// its type
    Type,
    /// its default
    Default,
    /// its number
    Number,
}

/// What is written before, between and behind parts.
#[derive(Clone, Copy)]
pub struct Marks {
    /// before the first
    pub before: &'static str,
    /// between two
    pub between: &'static str,
    /// behind the last
    pub behind: &'static str,
}

impl<'a> Builder<'a> {
    /// The row of what the type with this path is made of its arguments; none if there are too few.
    pub fn made_row(
        &mut self,
        made: Made,
        path: &str,
        arguments: &[usize],
        length: &str,
    ) -> Result<Option<usize>, AllocError> {
        if arguments.len() < made.arity() {
            return Ok(None);
        }
        let first = arguments.first().copied().unwrap_or(0);
        let form = match made {
            Made::Same => return Ok(Some(first)),
            Made::NonZero => return Ok(None),
            Made::Optional => &OPTION,
            Made::List | Made::Small => &LIST,
            Made::Set => &SET,
            Made::Range => &RANGE,
            Made::Bound => &BOUND,
            Made::UpTo => &UP_TO,
            Made::Outcome => &OUTCOME,
            Made::Either => &EITHER,
            Made::Map if self.id(first) == "string" => &MAP_OF_TEXTS,
            Made::Map => &MAP,
        };
        let beside = match made {
            Made::UpTo if length.is_empty() => return Ok(None),
            Made::UpTo => length,
            _ => path,
        };
        Ok(Some(self.formed_row(form, arguments, beside)?))
    }

    /// The row of a list.
    pub fn list_row(&mut self, item: usize) -> Result<usize, AllocError> {
        self.formed_row(&LIST, &[item], "")
    }

    /// The row of an array.
    pub fn array_row(&mut self, item: usize, length: &str) -> Result<usize, AllocError> {
        self.formed_row(&ARRAY, &[item], length)
    }

    /// The row of an array without items.
    pub fn empty_array_row(&mut self) -> Result<usize, AllocError> {
        self.formed_row(&EMPTY_ARRAY, &[], "")
    }

    /// The row of a form.
    pub fn formed_row(
        &mut self,
        form: &Form,
        parts: &[usize],
        beside: &str,
    ) -> Result<usize, AllocError> {
        let mut row = Row::empty(self.alloc());
        self.fill(&mut row, form, parts, beside)?;
        self.add(row)
    }

    // Gives a row what its form says.
    fn fill(
        &self,
        row: &mut Row,
        form: &Form,
        parts: &[usize],
        beside: &str,
    ) -> Result<(), AllocError> {
        self.push_filled(&mut row.id, form.id, Text::Id, parts, beside)?;
        self.push_filled(&mut row.name, form.name, Text::Name, parts, beside)?;
        self.push_filled(&mut row.shape, form.shape, Text::Number, parts, beside)?;
        self.push_filled(&mut row.ty, form.ty, Text::Type, parts, beside)?;
        row.set_default(self.alloc(), form.default)?;
        row.parts.extend_from_slice(parts)?;
        row.kind = form.kind;
        row.makeup = form.makeup;
        row.is_inline = form.is_inline;
        match form.makeup {
            Makeup::Optional => self.fill_optional(row, parts),
            Makeup::Array => {
                row.item = parts.first().copied();
                row.length.push_str(beside)
            }
            _ if form.kind == Kind::List => {
                row.item = parts.first().copied();
                Ok(())
            }
            _ => Ok(()),
        }
    }

    // Gives the row of an Option what that of its part has.
    fn fill_optional(&self, row: &mut Row, parts: &[usize]) -> Result<(), AllocError> {
        row.inner = parts.first().copied();
        match row.inner.and_then(|number| self.row(number)) {
            Some(inner) if inner.is_inline => {
                row.kind = inner.kind;
                put_nullable(self.alloc(), &mut row.keywords, &inner.keywords)
            }
            _ => Ok(()),
        }
    }

    // Adds a text of a form.
    fn push_filled(
        &self,
        out: &mut String,
        form: &str,
        text: Text,
        parts: &[usize],
        beside: &str,
    ) -> Result<(), AllocError> {
        for c in form.chars() {
            match c {
                '1' => self.push_part(out, text, parts.first())?,
                '2' => self.push_part(out, text, parts.get(1))?,
                '#' => out.push_str(beside)?,
                c => out.push(c)?,
            }
        }
        Ok(())
    }

    // Adds what is written for a part.
    fn push_part(
        &self,
        out: &mut String,
        text: Text,
        part: Option<&usize>,
    ) -> Result<(), AllocError> {
        let Some(part) = part else {
            return Ok(());
        };
        match text {
            Text::Id => out.push_str(self.id(*part)),
            Text::Name => out.push_str(self.name(*part)),
            Text::Type => out.push_str(self.ty(*part)),
            Text::Default => out.push_str(self.default_of(*part).unwrap_or("")),
            Text::Number => write!(out, "{part}"),
        }
    }

    /// Adds what is written for what a parameter stands for.
    pub fn push_value(
        &self,
        out: &mut String,
        text: Text,
        value: &Value,
    ) -> Result<(), AllocError> {
        match value {
            Value::Row(row) => self.push_part(out, text, Some(row)),
            Value::Constant(constant) => out.push_str(constant.as_str()),
        }
    }

    /// Adds what is written for parts, between marks.
    pub fn push_parts(
        &self,
        out: &mut String,
        marks: Marks,
        text: Text,
        parts: &[usize],
    ) -> Result<(), AllocError> {
        let mut mark = marks.before;
        for part in parts {
            out.push_str(mark)?;
            self.push_part(out, text, Some(part))?;
            mark = marks.between;
        }
        out.push_str(marks.behind)
    }

    /// The row of a tuple, which has parts.
    pub fn tuple_row(&mut self, parts: &[usize]) -> Result<usize, AllocError> {
        let mut row = Row::empty(self.alloc());
        self.fill_tuple(&mut row, parts)?;
        self.add(row)
    }

    fn fill_tuple(&self, row: &mut Row, parts: &[usize]) -> Result<(), AllocError> {
        self.push_parts(&mut row.id, TUPLE_ID, Text::Id, parts)?;
        self.push_parts(&mut row.name, TUPLE_NAME, Text::Name, parts)?;
        self.push_parts(&mut row.shape, TUPLE_SHAPE, Text::Number, parts)?;
        let marks = if parts.len() == 1 {
            TUPLE_OF_ONE
        } else {
            TUPLE
        };
        self.push_parts(&mut row.ty, marks, Text::Type, parts)?;
        row.parts.extend_from_slice(parts)?;
        row.kind = Kind::List;
        row.makeup = Makeup::Other;
        if self.have_defaults(parts) {
            row.default = Some(self.tuple_default(parts)?);
        }
        Ok(())
    }

    fn tuple_default(&self, parts: &[usize]) -> Result<String, AllocError> {
        let mut default = String::new(self.alloc());
        self.push_parts(&mut default, TUPLE_DEFAULT, Text::Default, parts)?;
        Ok(default)
    }

    // Whether the types of these rows all have a default.
    fn have_defaults(&self, rows: &[usize]) -> bool {
        for row in rows {
            if self.default_of(*row).is_none() {
                return false;
            }
        }
        true
    }

    /// The default of the type of a row, as JSON.
    pub fn default_of(&self, n: usize) -> Option<&str> {
        match &self.rows.get(n)?.default {
            Some(json) => Some(json.as_str()),
            None => None,
        }
    }
}

/// Arguments in angle brackets.
pub const ARGUMENTS: Marks = Marks {
    before: "<",
    between: ", ",
    behind: ">",
};

const TUPLE: Marks = Marks {
    before: "(",
    between: ", ",
    behind: ")",
};

const TUPLE_OF_ONE: Marks = Marks {
    before: "(",
    between: ", ",
    behind: ",)",
};

const TUPLE_ID: Marks = Marks {
    before: "(",
    between: ",",
    behind: ")",
};

const TUPLE_NAME: Marks = Marks {
    before: "Tuple_of_",
    between: "_and_",
    behind: "",
};

const TUPLE_SHAPE: Marks = Marks {
    before: "{\"tuple\":[",
    between: ",",
    behind: "]}",
};

const TUPLE_DEFAULT: Marks = Marks {
    before: "[",
    between: ",",
    behind: "]",
};

// Adds the keywords of a document that accepts null too.
fn put_nullable(alloc: Global, all: &mut Notes, keywords: &Notes) -> Result<(), AllocError> {
    for note in &keywords.list {
        let json = note.json.as_str();
        if note.key.as_str() == "type" && !json.starts_with('[') {
            let json = format!(in alloc; "[{json},\"null\"]")?;
            all.put(alloc, "type", json)?;
        } else {
            all.put_json(alloc, note.key.as_str(), json)?;
        }
    }
    Ok(())
}
