//! The rows of declarations with arguments, which are reserved and defined later.
use crate::builder::{Builder, Instance, Scope, Value, push_segment};
use crate::containers::{ARGUMENTS, Marks, Text};
use crate::parameters::one_field;
use schemaderive_known::{Makeup, Row};
use schemaderive_options::{
    Cases, ContainerOptions, container_options, derives, field_options, name_of,
};
use schemaderive_syntax::{Declaration, Fault, Field, Place, TypeExpr};
use std::alloc::AllocError;

/// Whose row a declaration has.
#[derive(Drop)]
pub enum Standing {
    /// its own
    Itself,
    /// that of this type
    Type(TypeExpr),
    /// that of its only field
    Field,
}

impl<'a> Builder<'a> {
    /// Whose row a declaration has: what is transparent, or stands for another type, has that of the
    /// other, unless its document is to have more.
    ///
    /// # Errors
    ///
    /// An attribute is not known.
    pub fn standing(&mut self, declaration: &Declaration<'_>) -> Result<Standing, Fault> {
        let mut options = container_options(&mut self.context, &declaration.attributes)?;
        match standing_of(&mut options) {
            Some(standing) => Ok(standing),
            None => match one_field(&declaration.body) {
                Some(field) => self.field_standing(field),
                None => Ok(Standing::Itself),
            },
        }
    }

    // Whose row a transparent declaration with this field has.
    fn field_standing(&mut self, field: &Field<'_>) -> Result<Standing, Fault> {
        let mut options = field_options(&mut self.context, &field.attributes)?;
        if !options.notes.is_empty() || !options.validation.is_empty() {
            return Ok(Standing::Itself);
        }
        Ok(match options.stands_for.take() {
            Some(ty) => Standing::Type(ty),
            None => Standing::Field,
        })
    }

    /// Refuses a type that does not derive `JsonSchema`.
    ///
    /// # Errors
    ///
    /// It does not.
    pub fn require_derive(&self, declaration: &Declaration<'_>, place: Place) -> Result<(), Fault> {
        if derives(&self.context, &declaration.attributes)? {
            return Ok(());
        }
        let reason = "this type does not derive JsonSchema";
        Err(self.context.refused_name(place, declaration.name, reason))
    }

    /// The row of a declaration with what its parameters stand for, which is defined later.
    ///
    /// # Errors
    ///
    /// An attribute is not known.
    pub fn reserve(
        &mut self,
        number: usize,
        declaration: &Declaration<'_>,
        scope: Scope,
    ) -> Result<usize, Fault> {
        let mut row = Row::empty(self.alloc());
        row.makeup = Makeup::Declared(number);
        if let Some(known) = self.fill_new(&mut row, declaration, &scope)? {
            return Ok(known);
        }
        let row = self.add(row)?;
        let mut scope = scope;
        scope.this = Some(row);
        self.instances.push(Instance {
            row,
            declaration: number,
            scope,
        })?;
        Ok(row)
    }

    // Gives the row of a declaration what it has, unless there is one already, whose number it returns.
    fn fill_new(
        &mut self,
        row: &mut Row,
        declaration: &Declaration<'_>,
        scope: &Scope,
    ) -> Result<Option<usize>, Fault> {
        self.fill_declared(row, declaration, scope)?;
        if row.id.len() > MAX_LENGTH {
            let reason =
                "the arguments of this type are too long: does it contain itself with larger ones?";
            return Err(
                self.context
                    .refused_name(declaration.place, declaration.name, reason),
            );
        }
        let known = self.row_by_id(row.id.as_str(), row.ty.as_str());
        if known.is_none() {
            self.fill_named(row, declaration, scope)?;
        }
        Ok(known)
    }

    // Gives the row of a declaration its id, its type and its parts.
    fn fill_declared(
        &self,
        row: &mut Row,
        declaration: &Declaration<'_>,
        scope: &Scope,
    ) -> Result<(), AllocError> {
        row.id.push_str(declaration.module.as_str())?;
        push_segment(&mut row.id, declaration.name)?;
        self.push_used(&mut row.id, ARGUMENTS, Text::Id, scope)?;
        self.push_type(&mut row.ty, declaration, scope)?;
        for binding in &scope.bindings {
            match &binding.value {
                Value::Row(part) if binding.is_used => row.parts.push(*part)?,
                _ => {}
            }
        }
        Ok(())
    }

    // Gives the row of a declaration what its attributes say.
    fn fill_named(
        &mut self,
        row: &mut Row,
        declaration: &Declaration<'_>,
        scope: &Scope,
    ) -> Result<(), Fault> {
        let options = container_options(&mut self.context, &declaration.attributes)?;
        row.is_inline = options.is_inline;
        self.push_name(&mut row.name, declaration, &options, scope)
    }

    /// The whole path of a declaration.
    ///
    /// # Errors
    ///
    /// Memory runs out.
    pub fn path_to(&self, declaration: &Declaration<'_>) -> Result<String, AllocError> {
        let mut path = self.path_of_module(declaration.module.as_str())?;
        push_segment(&mut path, declaration.name)?;
        Ok(path)
    }

    // Adds the type of a declaration with these arguments; nothing if one of them has none.
    fn push_type(
        &self,
        ty: &mut String,
        declaration: &Declaration<'_>,
        scope: &Scope,
    ) -> Result<(), AllocError> {
        if declaration.parameters.len() != scope.bindings.len() || self.lacks_type(scope) {
            return Ok(());
        }
        let path = self.path_to(declaration)?;
        ty.push_str(path.as_str())?;
        let mut mark = ARGUMENTS.before;
        for _ in &declaration.lifetimes {
            ty.push_str(mark)?;
            ty.push_str("'static")?;
            mark = ARGUMENTS.between;
        }
        for binding in &scope.bindings {
            ty.push_str(mark)?;
            self.push_value(ty, Text::Type, &binding.value)?;
            mark = ARGUMENTS.between;
        }
        if mark == ARGUMENTS.between {
            ty.push_str(ARGUMENTS.behind)?;
        }
        Ok(())
    }

    // Whether a parameter stands for what has no type.
    fn lacks_type(&self, scope: &Scope) -> bool {
        for binding in &scope.bindings {
            match &binding.value {
                Value::Row(row) if self.ty(*row).is_empty() => return true,
                _ => {}
            }
        }
        false
    }

    // Adds what is written for the parameters that the values of a type have, unless there are none.
    fn push_used(
        &self,
        out: &mut String,
        marks: Marks,
        text: Text,
        scope: &Scope,
    ) -> Result<(), AllocError> {
        if !scope.has_used() {
            return Ok(());
        }
        let mut mark = marks.before;
        for binding in &scope.bindings {
            if binding.is_used {
                out.push_str(mark)?;
                self.push_value(out, text, &binding.value)?;
                mark = marks.between;
            }
        }
        out.push_str(marks.behind)
    }

    // Adds the name of a declaration with what its parameters stand for.
    fn push_name(
        &self,
        out: &mut String,
        declaration: &Declaration<'_>,
        options: &ContainerOptions,
        scope: &Scope,
    ) -> Result<(), Fault> {
        let cases = Cases::unchanged();
        let written = match &options.remote {
            Some(path) => last_segment(path.as_str()),
            None => declaration.name,
        };
        let place = declaration.place;
        let name = name_of(&self.context, place, written, &options.names, cases, true)?;
        let name = name.as_str();
        self.refuse_other_letters(declaration, name)?;
        if is_renamed(options) && scope.has_used() {
            return self.push_filled_name(out, name, place, scope);
        }
        out.push_str(name)?;
        Ok(self.push_used(out, NAMED_FOR, Text::Name, scope)?)
    }

    // Clauses cite the letters of a name one by one, and know those of ASCII alone.
    fn refuse_other_letters(&self, declaration: &Declaration<'_>, name: &str) -> Result<(), Fault> {
        let is_known = name.is_ascii() && declaration.name.is_ascii();
        if self.home.is_none() || (is_known && declaration.module.as_str().is_ascii()) {
            return Ok(());
        }
        let reason = "the name of a type has other letters than those of ASCII";
        Err(self.context.refused_name(declaration.place, name, reason))
    }

    // Adds a name with what its parameters in braces stand for.
    fn push_filled_name(
        &self,
        out: &mut String,
        pattern: &str,
        place: Place,
        scope: &Scope,
    ) -> Result<(), Fault> {
        let mut parameter = String::new(self.alloc());
        let mut is_inside = false;
        let mut last = ' ';
        for c in pattern.chars() {
            match (c, is_inside) {
                ('{', false) => {
                    is_inside = true;
                    parameter.clear();
                }
                ('{', true) if parameter.is_empty() => {
                    is_inside = false;
                    out.push('{')?;
                }
                ('}', true) => {
                    is_inside = false;
                    self.push_parameter(out, parameter.as_str(), place, scope)?;
                }
                ('}', false) if last == '}' => last = ' ',
                ('}', false) => {
                    out.push('}')?;
                    last = '}';
                    continue;
                }
                (c, true) => parameter.push(c)?,
                (c, false) => out.push(c)?,
            }
            last = ' ';
        }
        Ok(())
    }

    // Adds what the parameter with this name stands for.
    fn push_parameter(
        &self,
        out: &mut String,
        name: &str,
        place: Place,
        scope: &Scope,
    ) -> Result<(), Fault> {
        match scope.used(name) {
            Some(value) => Ok(self.push_value(out, Text::Name, value)?),
            None => {
                let reason = "this name has a parameter that the type has not";
                Err(self.context.refused_name(place, "rename", reason))
            }
        }
    }
}

// How long the id of a type with arguments may be.
const MAX_LENGTH: usize = 2_000;

// What stands around the parameters in a name.
const NAMED_FOR: Marks = Marks {
    before: "_for_",
    between: "_and_",
    behind: "",
};

// Whose row a declaration with these attributes has; none if its field decides.
fn standing_of(options: &mut ContainerOptions) -> Option<Standing> {
    if !options.notes.is_empty() || is_renamed(options) || options.is_converted {
        return Some(Standing::Itself);
    }
    if options.transparent.is_some() {
        return None;
    }
    Some(match options.stands_for.take() {
        Some(ty) => Standing::Type(ty),
        None => Standing::Itself,
    })
}

fn is_renamed(options: &ContainerOptions) -> bool {
    options.names.deserialize.is_some() || options.names.serialize.is_some()
}

// The last segment of a path.
fn last_segment(path: &str) -> &str {
    let (path, _) = path.split_once('<').unwrap_or((path, ""));
    let (_, last) = path.rsplit_once("::").unwrap_or(("", path));
    last
}
