//! A file of implementations that is being written, and the body of the method that makes an entry.
use crate::groups::{Lists, Outer};
use crate::headers::Header;
use crate::names::plain;
use schemaderive_definitions::Part;
use schemaderive_known::Row;
use schemaderive_options::Context;
use schemaderive_syntax::{Fault, Place};
use schemaderive_text::{Imports, Lines, joined};
use std::alloc::{AllocError, Global};
use std::collections::BTreeMap;

// How far the lines of a method are indented.
const INDENT: usize = 8;

/// The types of a source.
#[derive(Clone, Copy)]
pub struct Types<'t> {
    /// what attributes are read for
    pub context: &'t Context,
    /// the rows
    pub rows: &'t [Row],
    /// the declarations that each row leads to
    pub mentions: &'t [Vec<usize>],
}

/// A file of implementations that is being written, and what the one that is written now has.
#[derive(Drop)]
pub struct Writer<'t> {
    /// the types of the source
    pub types: Types<'t>,
    /// the names that the file brings in
    pub imports: Imports,
    /// the implementations
    pub items: Lines,
    /// the row of the type
    pub own: usize,
    /// the declarations that it names by their ids
    pub ancestors: &'t [usize],
    /// the names of its parameters, with a comma between them
    pub parameters: &'t str,
    /// the type
    pub ty: String,
    /// its parameters in angle brackets with what they have to be, or nothing
    pub generics: String,
    /// the lines of the body
    pub lines: Lines,
    /// how far they are indented
    pub indent: usize,
    /// the lists that are parameters of the function whose body it is
    pub lent: Option<Lists>,
    /// the bodies that groups interrupt
    pub outer: Vec<Outer>,
    /// what is said of the types that are registered, in their order
    pub says: Vec<String>,
    /// the functions of the file that the body calls
    pub groups: Lines,
    /// those that name a row or make a text, by what is said of it
    pub functions: BTreeMap<String, String>,
}

impl<'t> Writer<'t> {
    /// A file without implementations.
    pub fn new(types: Types<'t>) -> Result<Writer<'t>, AllocError> {
        let alloc = types.context.alloc;
        Ok(Writer {
            types,
            imports: Imports::new(alloc)?,
            items: Lines::new(alloc),
            own: 0,
            ancestors: &[],
            parameters: "",
            ty: String::new(alloc),
            generics: String::new(alloc),
            lines: Lines::new(alloc),
            indent: INDENT,
            lent: None,
            outer: Vec::new(alloc),
            says: Vec::new(alloc),
            groups: Lines::new(alloc),
            functions: BTreeMap::new(alloc),
        })
    }

    /// Begins the implementation of a type with this row, which names these declarations.
    pub fn begin(
        &mut self,
        row: usize,
        header: &'t Header,
        ancestors: &'t [usize],
    ) -> Result<(), AllocError> {
        self.own = row;
        self.ancestors = ancestors;
        self.parameters = header.parameters.as_str();
        self.ty = self.imports.short(header.ty.as_str())?;
        self.generics = self.imports.short(header.generics.as_str())?;
        self.lines.text.clear();
        self.says.clear();
        self.groups.text.clear();
        self.functions.clear();
        Ok(())
    }

    /// The allocator.
    pub fn alloc(&self) -> Global {
        self.types.context.alloc
    }

    /// Adds a call of a function for implementations, which may fail, with a type as its argument if
    /// there is one.
    pub fn call(&mut self, function: &str, ty: &str, arguments: &[&str]) -> Result<(), AllocError> {
        self.imports.call(function)?;
        self.call_head(&applied(function, ty), arguments)
    }

    /// Adds a call that may fail, whose head has these texts.
    pub fn call_head(&mut self, head: &[&str], arguments: &[&str]) -> Result<(), AllocError> {
        self.lines.call(self.indent, head, arguments, &["?;"])
    }

    /// Adds a line that makes an empty list with this name, which may grow.
    pub fn list(&mut self, name: &str, grows: bool) -> Result<(), AllocError> {
        let mark = if grows { "mut " } else { "" };
        self.lines
            .line(self.indent, &["let ", mark, name, " = Vec::new(alloc);"])
    }

    /// Adds a call with the type of a part, and says that the type is in the dictionary.
    ///
    /// # Errors
    ///
    /// The type has no implementation.
    pub fn call_registered(
        &mut self,
        function: &str,
        part: &Part,
        arguments: &[&str],
    ) -> Result<(), Fault> {
        let ty = self.registered(part)?;
        Ok(self.call(function, ty.as_str(), arguments)?)
    }

    /// Says that the type of a part is in the dictionary, and returns the type with its short name.
    ///
    /// # Errors
    ///
    /// The type has no implementation.
    pub fn registered(&mut self, part: &Part) -> Result<String, Fault> {
        let ty = self.short(part.plain, part.place)?;
        self.say_registered(ty.as_str())?;
        Ok(ty)
    }

    /// Says that a type is in the dictionary.
    pub fn say_registered(&mut self, ty: &str) -> Result<(), AllocError> {
        self.imports.words(&["IsIn"])?;
        let texts = ["IsIn ⟦<", ty, " as JsonSchema>⟧.says d"];
        let clause = joined(self.alloc(), &texts)?;
        Ok(self.says.push(clause)?)
    }

    /// The type of a row, with its short name.
    ///
    /// # Errors
    ///
    /// The type has no implementation.
    pub fn short(&mut self, row: usize, place: Place) -> Result<String, Fault> {
        match self.types.rows.get(row) {
            Some(row) if !row.ty.is_empty() => Ok(self.imports.short(row.ty.as_str())?),
            Some(row) => {
                let reason = "the library has no implementation for this type";
                Err(self.types.refused_row(row, place, reason))
            }
            None => Err(self.types.context.refused(place, "this type has no row")),
        }
    }

    /// Whether the type leads to itself by a part.
    pub fn leads_back(&self, part: &Part) -> bool {
        self.types.leads_to(part.plain, self.ancestors)
    }
}

/// A function with a type as its argument, or without.
pub fn applied<'a>(function: &'a str, ty: &'a str) -> [&'a str; 4] {
    if ty.is_empty() {
        return [function, "", "", ""];
    }
    [function, "::<", ty, ">"]
}

impl<'t> Types<'t> {
    /// Whether a row leads to one of these declarations.
    pub fn leads_to(&self, row: usize, declarations: &[usize]) -> bool {
        let Some(mentioned) = self.mentions.get(row) else {
            return false;
        };
        for number in mentioned {
            if declarations.contains(number) {
                return true;
            }
        }
        false
    }

    /// The fault of a row.
    pub fn refused_row(&self, row: &Row, place: Place, reason: &str) -> Fault {
        match plain(self.context.alloc, row.name.as_str()) {
            Ok(name) => self.context.refused_name(place, name.as_str(), reason),
            Err(_) => Fault::OutOfMemory,
        }
    }
}
