//! Functions that name a row by an id or a name that the parameters of a type have parts of, so that
//! the check finds what each of them says by itself.
use crate::body::{Writer, applied};
use crate::groups::{ALLOC, KEEPS, TYPES};
use crate::names::{ID, Member, NAME, has_parameters, push_made};
use crate::own_rows::Step;
use schemaderive_text::{joined, literal};
use std::alloc::AllocError;

const ROW: &str = "
// The number of a row that names the type by its id.
";

const ROW_CLAUSES: &str = "    ensures known { IfOk result (IsNumber types.new) }
    ensures follows { OnOk result (KeepsTo (λ d. $clause$) types.old types.new) }
    ensures refused { IfErr result (RefusesAs (λ d. $clause$) types.old) }
{
";

const TEXT: &str = "(alloc: Global) -> Result<String, AllocError>
    ensures { IfOk result (λ t. string_bytes t ≡ $clause$) }
{
";

impl<'t> Writer<'t> {
    /// The function that returns the number of the row of a step, with the parameters of the type. It
    /// is added unless there is one.
    pub fn row_function(&mut self, step: &Step<'_>) -> Result<String, AllocError> {
        let clause = self.step_clause(step)?;
        if !self.functions.contains_key(clause.as_str()) {
            self.new_row_function(step, clause.as_str())?;
        }
        self.function_of(clause.as_str())
    }

    // The function of which this is said.
    fn function_of(&self, clause: &str) -> Result<String, AllocError> {
        let function = match self.functions.get(clause) {
            Some(function) => function.as_str(),
            None => "",
        };
        String::from_str(self.alloc(), function)
    }

    // Names a function of which this is said.
    fn new_function(&mut self, clause: &str, what: &str) -> Result<String, AllocError> {
        let name = self.imports.function_name(self.ty.as_str(), what)?;
        let function = joined(self.alloc(), &applied(name.as_str(), self.parameters))?;
        let clause = String::from_str(self.alloc(), clause)?;
        self.functions.insert(clause, function)?;
        Ok(name)
    }

    fn new_row_function(&mut self, step: &Step<'_>, clause: &str) -> Result<(), AllocError> {
        let id = self.text_function(step.id, ID)?;
        let called = self.text_function(step.name, NAME)?;
        self.push_row_head(clause)?;
        self.push_row_body(step, id.as_str(), called.as_str())
    }

    fn push_row_head(&mut self, clause: &str) -> Result<(), AllocError> {
        let name = self.new_function(clause, "row")?;
        self.imports.words(&[
            "IfErr",
            "IfOk",
            "IsNumber",
            "KeepsRows",
            "KeepsTo",
            "OnOk",
            "RefusesAs",
        ])?;
        self.groups.text.push_str(ROW)?;
        let number = self.imports.short("schemars::types::TypeNo")?;
        let tail = [" -> Result<", number.as_str(), ", TypesError>"];
        self.push_head(name.as_str(), &[ALLOC, TYPES], &tail)?;
        self.groups.text.push_str(KEEPS)?;
        self.groups.block(ROW_CLAUSES, &[("clause", clause)])
    }

    // Adds the body of a function that names a row whose id and name are made by these functions.
    fn push_row_body(&mut self, step: &Step<'_>, id: &str, called: &str) -> Result<(), AllocError> {
        self.push_text_line(id, ID)?;
        self.push_text_line(called, NAME)?;
        self.push_row_call(step)?;
        self.groups.text.push_str("}\n")
    }

    // Adds the line that gives an id or a name that a function makes its name.
    fn push_text_line(&mut self, function: &str, member: Member) -> Result<(), AllocError> {
        if function.is_empty() {
            return Ok(());
        }
        self.groups.set(4, member.variable, &[function, "(alloc)?"])
    }

    // Adds the call that returns the number of the row.
    fn push_row_call(&mut self, step: &Step<'_>) -> Result<(), AllocError> {
        let id = self.text_argument(step.id, ID)?;
        let name = self.text_argument(step.name, NAME)?;
        let key = self.imports.short(step.key)?;
        let head = applied(step.functions.call, key.as_str());
        let (id, name) = (id.as_str(), name.as_str());
        self.groups
            .call(4, &head, &["alloc", "types", id, name, step.length], &[])
    }

    // An id or a name as an argument. One with parameters is made in a line of its own.
    fn text_argument(&self, text: &str, member: Member) -> Result<String, AllocError> {
        if has_parameters(text) {
            return String::from_str(self.alloc(), member.argument);
        }
        literal(self.alloc(), text)
    }

    // The function that makes an id or a name with parameters; nothing if it has none. It is added
    // unless there is one.
    fn text_function(&mut self, text: &str, member: Member) -> Result<String, AllocError> {
        let mut clause = String::new(self.alloc());
        if has_parameters(text) {
            self.push_clause(&mut clause, text, member)?;
            self.add_text_function(text, member, clause.as_str())?;
        }
        self.function_of(clause.as_str())
    }

    fn add_text_function(
        &mut self,
        text: &str,
        member: Member,
        clause: &str,
    ) -> Result<(), AllocError> {
        if self.functions.contains_key(clause) {
            return Ok(());
        }
        self.imports.words(&["IfOk", "string_bytes", "◌≡◌"])?;
        self.push_text_head(member.variable, clause)?;
        push_made(self.alloc(), &mut self.groups, 4, text, member, ["", ""])?;
        self.groups.text.push_str("}\n")
    }

    fn push_text_head(&mut self, what: &'static str, clause: &str) -> Result<(), AllocError> {
        let name = self.new_function(clause, what)?;
        self.groups
            .push(&["\n// The ", what, " of what a row is made of.\n"])?;
        self.groups.push(&["fn ", name.as_str()])?;
        self.groups.text.push_str(self.generics.as_str())?;
        self.groups.block(TEXT, &[("clause", clause)])
    }
}
