//! The rows of the types of other crates, and of constants.
use crate::builder::{Builder, Item, Scope, Value};
use crate::containers::{ARGUMENTS, DURATION, Form, SYSTEM_TIME, Text};
use crate::resolving::Resolved;
use schemaderive_known::{Kind, Made, Makeup, Row, Texts, known_row, nonzero_name, path_of};
use schemaderive_options::Contract;
use schemaderive_syntax::{Fault, Place, TypeExpr, read_length};
use std::alloc::AllocError;

impl<'a> Builder<'a> {
    /// The row of a parameter, or of `Self`.
    ///
    /// # Errors
    ///
    /// It is a type of a trait.
    pub fn bound_row(
        &self,
        segments: &[String],
        scope: &Scope,
        place: Place,
    ) -> Result<Option<usize>, Fault> {
        let Some(first) = segments.first() else {
            return Ok(None);
        };
        let first = first.as_str();
        let found = match scope.get(first) {
            Some(Value::Row(row)) => Some(*row),
            _ if first == "Self" => scope.this,
            _ => return Ok(None),
        };
        if segments.len() > 1 {
            let reason = "the types that a trait has are not known here";
            return Err(self.context.refused(place, reason));
        }
        Ok(found)
    }

    /// Whether a length is 0.
    ///
    /// # Errors
    ///
    /// The length is not known.
    pub fn is_empty_length(
        &self,
        length: &str,
        scope: &Scope,
        place: Place,
    ) -> Result<bool, Fault> {
        Ok(self.length_of(length, scope, place)?.as_str() == "0")
    }

    /// The row of an array with items of this row.
    ///
    /// # Errors
    ///
    /// The length is not known.
    pub fn row_of_length(
        &mut self,
        item: usize,
        length: &str,
        scope: &Scope,
        place: Place,
    ) -> Result<usize, Fault> {
        let length = self.length_of(length, scope, place)?;
        Ok(self.array_row(item, length.as_str())?)
    }

    /// The row of what a type is made of arguments with these rows.
    ///
    /// # Errors
    ///
    /// An argument is missing.
    pub fn row_of_parts(
        &mut self,
        made: Made,
        name: &str,
        rows: &[usize],
        arguments: &[TypeExpr],
        scope: &Scope,
        place: Place,
    ) -> Result<usize, Fault> {
        if made == Made::Small {
            return self.row_of_small(rows, place);
        }
        let length = match arguments.get(1) {
            Some(argument) if made == Made::UpTo => self.constant_in(argument, scope, place)?,
            _ => String::new(self.alloc()),
        };
        match self.made_row(made, path_of(name), rows, length.as_str())? {
            Some(row) => Ok(row),
            None => Err(self.context.refused(place, "an argument is missing here")),
        }
    }

    /// The row of a type of another crate that is not made of others.
    ///
    /// # Errors
    ///
    /// The type is not known.
    pub fn row_of_known(
        &mut self,
        name: &str,
        origin: &str,
        arguments: &[TypeExpr],
        place: Place,
    ) -> Result<usize, Fault> {
        let most = if WITH_ONE.contains(&name) { 1 } else { 0 };
        if arguments.len() > most && self.is_known(name, origin, true)? {
            return Err(self.context.refused_name(place, name, TOO_MANY));
        }
        match special_named(name, origin) {
            Some(Special::Decimal) => self.wide_row(&DECIMAL, place),
            Some(Special::CString) => self.wide_row(&C_STRING, place),
            Some(Special::Duration) => Ok(self.time_row(&DURATION)?),
            Some(Special::SystemTime) => Ok(self.time_row(&SYSTEM_TIME)?),
            Some(Special::TimeDelta) => self.plain_known("TimeDelta", origin, arguments, place),
            None => self.plain_known(name, origin, arguments, place),
        }
    }

    // The row of a type that is listed.
    fn plain_known(
        &mut self,
        name: &str,
        origin: &str,
        arguments: &[TypeExpr],
        place: Place,
    ) -> Result<usize, Fault> {
        match known_row(self.alloc(), name, origin, !arguments.is_empty())? {
            Some(row) => Ok(self.add(row)?),
            None => Err(self.context.refused_name(place, name, UNKNOWN)),
        }
    }

    /// Whether this is the name of a type of another crate that has a row here.
    ///
    /// # Errors
    ///
    /// Memory runs out.
    pub fn is_known(&self, name: &str, origin: &str, has_arguments: bool) -> Result<bool, Fault> {
        if special_named(name, origin).is_some() {
            return Ok(true);
        }
        Ok(known_row(self.alloc(), name, origin, has_arguments)?.is_some())
    }

    /// The row of the type with this path in a module that is declared elsewhere, with these arguments.
    ///
    /// # Errors
    ///
    /// It has no path, by which it could be named elsewhere.
    pub fn row_elsewhere(
        &mut self,
        segments: &[String],
        parts: &[usize],
        scope: &Scope,
        place: Place,
    ) -> Result<usize, Fault> {
        let path = self.path_elsewhere(scope.module.as_str(), segments)?;
        self.row_of_elsewhere(path.as_str(), parts, place)
    }

    /// The fault of a path that leads to no type, since the source has no module of this name.
    ///
    /// # Errors
    ///
    /// Memory runs out.
    pub fn lost(&self, path: &str, module: &str, place: Place) -> Result<Fault, AllocError> {
        if module.is_empty() {
            return Ok(self.context.refused_name(place, path, UNKNOWN));
        }
        let reason = format!(in self.alloc(); "there is no module `{module}` in this file")?;
        Ok(self.context.refused_name(place, path, reason.as_str()))
    }

    /// The row of a type that is declared elsewhere, with these arguments. What it is made of is not
    /// known.
    ///
    /// # Errors
    ///
    /// It has no path, by which it could be named elsewhere.
    pub fn row_of_elsewhere(
        &mut self,
        path: &str,
        rows: &[usize],
        place: Place,
    ) -> Result<usize, Fault> {
        if self.home.is_none() || !path.contains("::") {
            return Err(self.context.refused_name(place, path, UNKNOWN));
        }
        let mut row = Row::empty(self.alloc());
        self.fill_elsewhere(&mut row, path, rows)?;
        Ok(self.add(row)?)
    }

    fn fill_elsewhere(&self, row: &mut Row, path: &str, parts: &[usize]) -> Result<(), AllocError> {
        row.is_inline = false;
        row.makeup = Makeup::Other;
        row.name.push_str(path)?;
        row.ty.push_str(path)?;
        if !parts.is_empty() {
            self.push_parts(&mut row.ty, ARGUMENTS, Text::Type, parts)?;
        }
        row.id.push_str(row.ty.as_str())?;
        row.parts.extend_from_slice(parts)
    }

    // The row of a time of seconds and nanoseconds.
    fn time_row(&mut self, form: &Form) -> Result<usize, AllocError> {
        let seconds = self.number_row("u64")?;
        let nanoseconds = self.number_row("u32")?;
        self.formed_row(form, &[seconds, nanoseconds], "")
    }

    // The row of these numbers.
    fn number_row(&mut self, kind: &str) -> Result<usize, AllocError> {
        match known_row(self.alloc(), kind, "", false)? {
            Some(row) => self.add(row),
            None => Ok(0),
        }
    }

    // The row of a type that is read from more than what is written.
    fn wide_row(&mut self, wide: &Wide, place: Place) -> Result<usize, Fault> {
        let shape = match self.context.contract {
            Contract::Deserialize => wide.read,
            Contract::Serialize => wide.written,
            Contract::Both => {
                let reason =
                    "what is read and what is written differ: say --deserialize or --serialize";
                return Err(self.context.refused_name(place, wide.name, reason));
            }
        };
        let texts = Texts {
            id: wide.id,
            name: wide.name,
            shape,
            ty: "",
            default: "",
            kind: wide.kind,
            is_inline: wide.is_inline,
            type_name: "",
            format: "",
            length: "",
        };
        let row = Row::of_texts(self.alloc(), &texts)?;
        Ok(self.add(row)?)
    }

    // The number that a length is.
    fn length_of(&self, length: &str, scope: &Scope, place: Place) -> Result<String, Fault> {
        match self.sum_of(length, scope, place)? {
            Some(number) => Ok(format!(in self.alloc(); "{number}")?),
            None => Err(self.unknown_length(length, place)?),
        }
    }

    // The sum of numbers and constants; none if one of them is not known.
    fn sum_of(&self, length: &str, scope: &Scope, place: Place) -> Result<Option<u64>, Fault> {
        let mut terms = Vec::new(self.alloc());
        for part in length.split('+') {
            let text = scope.constant(part).unwrap_or(part);
            self.push_term(&mut terms, scope.module.as_str(), text)?;
        }
        let mut sum = 0u64;
        for _ in 0..MAX_TERMS {
            let Some((module, text)) = terms.pop() else {
                return Ok(Some(sum));
            };
            let number = match text.parse::<u64>() {
                Ok(number) => Some(number),
                Err(_) if self.push_constant(&mut terms, module.as_str(), text.as_str(), place)? =>
                    { Some(0) }
                Err(_) => None,
            };
            match number.and_then(|number| sum.checked_add(number)) {
                Some(more) => sum = more,
                None => return Ok(None),
            }
        }
        Ok(None)
    }

    // Adds what a constant is the sum of; false if this is the path of none.
    fn push_constant(
        &self,
        terms: &mut Vec<(String, String)>,
        module: &str,
        path: &str,
        place: Place,
    ) -> Result<bool, Fault> {
        let Resolved::Own(Item::Constant(number)) = self.resolve(module, path, place)? else {
            return Ok(false);
        };
        let source = self.source;
        let Some(constant) = source.constants.get(number) else {
            return Ok(false);
        };
        self.require_known(constant.condition)?;
        let text = read_length(self.alloc(), constant.value)?;
        for part in text.as_str().split('+') {
            self.push_term(terms, constant.module.as_str(), part)?;
        }
        Ok(true)
    }

    fn push_term(
        &self,
        terms: &mut Vec<(String, String)>,
        module: &str,
        text: &str,
    ) -> Result<(), AllocError> {
        let module = String::from_str(self.alloc(), module)?;
        let text = String::from_str(self.alloc(), text)?;
        terms.push((module, text))?;
        Ok(())
    }

    fn unknown_length(&self, length: &str, place: Place) -> Result<Fault, AllocError> {
        let reason = format!(in self.alloc(); "the length `{length}` is not known here")?;
        Ok(self.context.refused(place, reason.as_str()))
    }

    /// The row of whole numbers without 0.
    ///
    /// # Errors
    ///
    /// The argument is no kind of whole numbers.
    pub fn row_of_nonzero(&mut self, arguments: &[TypeExpr], place: Place) -> Result<usize, Fault> {
        let kind = match arguments.first() {
            Some(TypeExpr::Path { segments, .. }) => segments.last(),
            _ => None,
        };
        match kind.and_then(|kind| nonzero_name(kind.as_str())) {
            Some(name) => self.row_of_known(name, "", &[], place),
            None => Err(
                self.context
                    .refused(place, "`NonZero`: whole numbers are wanted"),
            ),
        }
    }

    // The row of a list with the items of an array.
    fn row_of_small(&mut self, rows: &[usize], place: Place) -> Result<usize, Fault> {
        let item = match rows.first() {
            Some(row) => self.row(*row).and_then(|row| row.item),
            None => None,
        };
        match item {
            Some(item) => Ok(self.list_row(item)?),
            None => Err(
                self.context
                    .refused(place, "`SmallVec`: an array is wanted"),
            ),
        }
    }

    /// The constant that an argument is.
    ///
    /// # Errors
    ///
    /// It is none.
    pub fn constant_in(
        &self,
        argument: &TypeExpr,
        scope: &Scope,
        place: Place,
    ) -> Result<String, Fault> {
        let text = match argument {
            TypeExpr::Constant(number) => String::from_str(self.alloc(), number.as_str())?,
            TypeExpr::Path { segments, .. } => self.path_text(segments)?,
            _ => return Err(self.context.refused(place, "a constant is wanted here")),
        };
        match argument {
            TypeExpr::Constant(_) if !text.starts_with(|c: char| c.is_ascii_digit()) => Ok(text),
            _ if ["true", "false"].contains(&text.as_str()) => Ok(text),
            _ => self.length_of(text.as_str(), scope, place),
        }
    }
}

// How many numbers and constants a length may be the sum of.
const MAX_TERMS: usize = 64;

// The types that are not made of others and have an argument.
const WITH_ONE: [&str; 3] = ["DateTime", "PhantomData", "ArrayString"];

/// What is said of a type with more arguments than it has parameters.
pub const TOO_MANY: &str = "there are too many arguments";

const UNKNOWN: &str = "no type of this name is declared here, and none is known";

// A type that is read from more than what is written.
struct Wide {
    id: &'static str,
    name: &'static str,
    read: &'static str,
    written: &'static str,
    kind: Kind,
    is_inline: bool,
}

const DECIMAL: Wide = Wide {
    id: "Decimal",
    name: "Decimal",
    read: "{\"literal\":{\"type\":[\"string\",\"number\"],\"pattern\":\"^-?\\\\d+(\\\\.\\\\d+)?([eE]\\\\d+)?$\"}}",
    written: "{\"literal\":{\"type\":\"string\",\"pattern\":\"^-?\\\\d+(\\\\.\\\\d+)?$\"}}",
    kind: Kind::Other,
    is_inline: true,
};

const C_STRING: Wide = Wide {
    id: "std::ffi::CString",
    name: "CString",
    read: "{\"literal\":{\"type\":[\"array\",\"string\"],\"items\":{\"type\":\"integer\",\"minimum\":1,\"maximum\":255}}}",
    written: "{\"literal\":{\"type\":\"array\",\"items\":{\"type\":\"integer\",\"minimum\":1,\"maximum\":255}}}",
    kind: Kind::List,
    is_inline: false,
};

// A type with a row of its own kind, beside those that are listed.
#[derive(Clone, Copy)]
enum Special {
    Decimal,
    CString,
    Duration,
    SystemTime,
    TimeDelta,
}

/// Whether this is a type with a row of its own kind of the crate with this name.
pub fn is_special(name: &str, origin: &str) -> bool {
    !origin.is_empty() && special_named(name, origin).is_some()
}

fn special_named(name: &str, origin: &str) -> Option<Special> {
    match name {
        "Decimal" if ["", "rust_decimal"].contains(&origin) => Some(Special::Decimal),
        "BigDecimal" if ["", "bigdecimal"].contains(&origin) => Some(Special::Decimal),
        "CString" | "CStr" if ["", "std", "core", "alloc"].contains(&origin) => Some(
            Special::CString,
        ),
        "Duration" if origin == "chrono" => Some(Special::TimeDelta),
        "Duration" if ["", "std", "core"].contains(&origin) => Some(Special::Duration),
        "SystemTime" if ["", "std"].contains(&origin) => Some(Special::SystemTime),
        _ => None,
    }
}
