//! Types that lead back to the type that is described, which are named by their ids.
use crate::body::{Writer, applied};
use crate::groups::FIELDS;
use crate::names::{ID, NAME, has_parameters};
use schemaderive_definitions::Part;
use schemaderive_known::{Makeup, Row};
use schemaderive_syntax::{Fault, Place};
use schemaderive_text::{joined, literal, push_all};
use std::alloc::AllocError;

/// Which functions name a row, and what is said of it.
#[derive(Clone, Copy)]
pub struct Functions {
    /// the function that returns its number
    pub call: &'static str,
    // the function that adds a field of it
    field_call: &'static str,
    // what is said of it
    word: &'static str,
}

const DECLARED: Functions = Functions {
    call: "reserve",
    field_call: "add_own",
    word: "IsReserved",
};

const OPTION: Functions = Functions {
    call: "option_of",
    field_call: "add_option_of",
    word: "IsOptionOf",
};

const LIST: Functions = Functions {
    call: "seq_of",
    field_call: "add_seq_of",
    word: "IsSeqOf",
};

const SET: Functions = Functions {
    call: "set_of",
    field_call: "add_set_of",
    word: "IsSetOf",
};

const ARRAY: Functions = Functions {
    call: "array_of",
    field_call: "add_array_of",
    word: "IsArrayOf",
};

const MAP: Functions = Functions {
    call: "map_of",
    field_call: "add_map_of",
    word: "IsMapOf",
};

/// A row that is named by the id of what it is made of.
#[derive(Clone, Copy)]
pub struct Step<'t> {
    /// what names it
    pub functions: Functions,
    /// the type of its keys, with whole paths; empty if it is no map
    pub key: &'t str,
    /// its length; empty if it is no array
    pub length: &'t str,
    /// the id of what it is made of
    pub id: &'t str,
    /// its name
    pub name: &'t str,
}

const UNSAID: &str = "what contains itself is named in Options, lists, sets, arrays and maps alone";

impl<'t> Step<'t> {
    // Whether parameters of the type are in the id or the name.
    fn has_parameters(&self) -> bool {
        has_parameters(self.id) || has_parameters(self.name)
    }
}

impl<'t> Writer<'t> {
    // How a part is named by which the type leads to itself: itself, and then the rows that it is made
    // of but that of the declaration, which they name by its id.
    fn steps_of(&mut self, part: &Part) -> Result<Vec<Step<'t>>, Fault> {
        let mut steps = Vec::new(self.alloc());
        let mut at = part.plain;
        for _ in 0..self.types.rows.len() {
            let (step, inner) = self.step_at(at, part.place)?;
            if inner.is_some() || steps.is_empty() {
                steps.push(step)?;
            }
            match inner {
                Some(inner) => at = inner,
                None => break,
            }
        }
        Ok(steps)
    }

    // The step of a row, and the row that it is made of unless it is that of a declaration.
    fn step_at(&mut self, row: usize, place: Place) -> Result<(Step<'t>, Option<usize>), Fault> {
        let types = self.types;
        let Some(entry) = types.rows.get(row) else {
            return Err(types.context.refused(place, UNSAID));
        };
        let Some(functions) = self.functions_of(row, entry) else {
            return Err(types.refused_row(entry, place, UNSAID));
        };
        let key = match entry.makeup {
            Makeup::Map => self.key_of(key_row(row, entry), place)?,
            _ => "",
        };
        let inner = match entry.makeup {
            Makeup::Declared(_) => None,
            _ => entry.parts.last().copied(),
        };
        let made_of = types.rows.get(inner.unwrap_or(row)).unwrap_or(entry);
        let step = Step {
            functions,
            key,
            length: entry.length.as_str(),
            id: made_of.id.as_str(),
            name: made_of.name.as_str(),
        };
        Ok((step, inner))
    }

    // Which functions name a row; none if it is made of the type in another way. With arguments the
    // row of the type itself alone is named.
    fn functions_of(&self, row: usize, entry: &Row) -> Option<Functions> {
        match entry.makeup {
            Makeup::Declared(_) if !entry.parts.is_empty() && row != self.own => None,
            Makeup::Map if self.types.leads_to(key_row(row, entry), self.ancestors) => None,
            Makeup::Declared(_) => Some(DECLARED),
            Makeup::Optional => Some(OPTION),
            Makeup::List => Some(LIST),
            Makeup::Set => Some(SET),
            Makeup::Array => Some(ARRAY),
            Makeup::Map => Some(MAP),
            Makeup::Plain | Makeup::Other => None,
        }
    }

    // The type of keys, with whole paths.
    fn key_of(&mut self, row: usize, place: Place) -> Result<&'t str, Fault> {
        let rows = self.types.rows;
        let _short = self.short(row, place)?;
        match rows.get(row) {
            Some(entry) => Ok(entry.ty.as_str()),
            None => Ok(""),
        }
    }

    /// What is said of the row of a step.
    pub fn step_clause(&mut self, step: &Step<'_>) -> Result<String, AllocError> {
        let mut clause = String::new(self.alloc());
        self.push_step(&mut clause, step)?;
        Ok(clause)
    }

    fn push_step(&mut self, clause: &mut String, step: &Step<'_>) -> Result<(), AllocError> {
        clause.push_str(step.functions.word)?;
        self.push_first(clause, step)?;
        clause.push_str(" (")?;
        self.push_clause(clause, step.id, ID)?;
        clause.push_str(") (")?;
        self.push_clause(clause, step.name, NAME)?;
        clause.push_str(") d")
    }

    // Adds what is said of the keys of a map or the length of an array.
    fn push_first(&mut self, clause: &mut String, step: &Step<'_>) -> Result<(), AllocError> {
        if !step.key.is_empty() {
            let key = self.imports.short(step.key)?;
            return push_all(clause, &[" ⟦<", key.as_str(), " as JsonSchema>⟧.says"]);
        }
        let space = if step.length.is_empty() { "" } else { " " };
        push_all(clause, &[space, step.length])
    }

    // Says of rows what their steps say, and adds the calls of all steps but the first, from the
    // innermost on.
    fn inner_steps(&mut self, steps: &[Step<'_>]) -> Result<(), AllocError> {
        for step in steps.iter().rev() {
            self.imports.words(&[step.functions.word])?;
            let clause = self.step_clause(step)?;
            self.says.push(clause)?;
        }
        for step in steps.iter().skip(1).rev() {
            self.step_call("", step)?;
        }
        Ok(())
    }

    // Adds the call that returns the number of the row of a step, behind this beginning of a line.
    fn step_call(&mut self, begin: &str, step: &Step<'_>) -> Result<(), AllocError> {
        self.imports.call(step.functions.call)?;
        if !step.has_parameters() {
            return self.named_call(begin, step.functions.call, ["", "", ""], step);
        }
        let function = self.row_function(step)?;
        self.call_head(&[begin, function.as_str()], &["alloc", "types"])
    }

    // Adds a call of a function with the id and the name of a step among its arguments: behind two
    // that a field has, and before one.
    fn named_call(
        &mut self,
        begin: &str,
        function: &str,
        field: [&str; 3],
        step: &Step<'_>,
    ) -> Result<(), AllocError> {
        let id = literal(self.alloc(), step.id)?;
        let called = literal(self.alloc(), step.name)?;
        let key = self.imports.short(step.key)?;
        let head = joined(self.alloc(), &applied(function, key.as_str()))?;
        let [fields, field, required] = field;
        let (id, called) = (id.as_str(), called.as_str());
        self.call_head(
            &[begin, head.as_str()],
            &[
                "alloc",
                "types",
                fields,
                field,
                id,
                called,
                step.length,
                required,
            ],
        )
    }

    /// Adds a field by which the type leads to itself.
    ///
    /// # Errors
    ///
    /// Its type can't be named.
    pub fn own_field<'x>(
        &mut self,
        part: &Part,
        name: &'x str,
        required: &'x str,
    ) -> Result<(), Fault> {
        let steps = self.steps_of(part)?;
        self.inner_steps(&steps)?;
        match steps.first() {
            Some(step) => Ok(self.step_field(step, name, required)?),
            None => Ok(()),
        }
    }

    fn step_field<'x>(
        &mut self,
        step: &Step<'_>,
        name: &'x str,
        required: &'x str,
    ) -> Result<(), AllocError> {
        let fields = self.argument(FIELDS);
        if step.has_parameters() {
            self.step_call("let number = ", step)?;
            let arguments = ["alloc", "types", fields, name, "number", required];
            return self.call("add_field_of", "", &arguments);
        }
        let function = step.functions.field_call;
        self.imports.call(function)?;
        self.named_call("", function, [fields, name, required], step)
    }

    /// Adds a line that gives the number of the row of a part by which the type leads to itself the name
    /// `number`.
    ///
    /// # Errors
    ///
    /// Its type can't be named.
    pub fn own_number(&mut self, part: &Part) -> Result<(), Fault> {
        let steps = self.steps_of(part)?;
        self.inner_steps(&steps)?;
        match steps.first() {
            Some(step) => Ok(self.step_call("let number = ", step)?),
            None => Ok(()),
        }
    }
}

// The row of the keys of a map.
fn key_row(row: usize, entry: &Row) -> usize {
    entry.parts.first().copied().unwrap_or(row)
}
