//! The rows of types as they are written.
use crate::builder::{Binding, Builder, Item, Scope, Value};
use crate::foreign::TOO_MANY;
use crate::instances::Standing;
use crate::parameters::{is_used_in, one_field};
use crate::resolving::Resolved;
use schemaderive_known::{Made, made_named, null_row};
use schemaderive_options::derives;
use schemaderive_syntax::{Body, Fault, Parameter, Place, TypeExpr};

impl<'a> Builder<'a> {
    /// The row of a type.
    ///
    /// # Errors
    ///
    /// The type is not known, or nests too deeply.
    #[cycle(rows)]
    pub fn row_of(
        &mut self,
        ty: &TypeExpr,
        scope: &Scope,
        place: Place,
        depth: usize,
    ) -> Result<usize, Fault> {
        if depth == 0 {
            return Err(self.context.refused(place, "this nests too deeply"));
        }
        match ty {
            TypeExpr::Path {
                segments,
                arguments,
                place,
            } => self.row_of_path(segments, arguments, scope, *place, depth - 1),
            TypeExpr::Tuple(parts) => self.row_of_tuple(parts, scope, place, depth - 1),
            TypeExpr::Array(item, length) => {
                self.row_of_array(item, length.as_str(), scope, place, depth - 1)
            }
            TypeExpr::Slice(item) => {
                let item = self.row_of(item, scope, place, depth - 1)?;
                Ok(self.list_row(item)?)
            }
            TypeExpr::Reference(inner) => self.row_of(inner, scope, place, depth - 1),
            TypeExpr::Constant(_) => Err(self.context.refused(place, "a constant is no type")),
            TypeExpr::Other(place) => {
                let reason = "a type of this form has no schema";
                Err(self.context.refused(*place, reason))
            }
        }
    }

    // The row of a tuple.
    #[cycle(rows)]
    fn row_of_tuple(
        &mut self,
        parts: &[TypeExpr],
        scope: &Scope,
        place: Place,
        depth: usize,
    ) -> Result<usize, Fault> {
        if parts.is_empty() {
            let row = null_row(self.alloc())?;
            return Ok(self.add(row)?);
        }
        if depth == 0 {
            return Err(self.context.refused(place, "this nests too deeply"));
        }
        let rows = self.rows_of(parts, parts.len(), scope, place, depth - 1)?;
        Ok(self.tuple_row(&rows)?)
    }

    // The row of an array. One without items has no row of them.
    #[cycle(rows)]
    fn row_of_array(
        &mut self,
        item: &TypeExpr,
        length: &str,
        scope: &Scope,
        place: Place,
        depth: usize,
    ) -> Result<usize, Fault> {
        if depth == 0 {
            return Err(self.context.refused(place, "this nests too deeply"));
        }
        if self.is_empty_length(length, scope, place)? {
            return Ok(self.empty_array_row()?);
        }
        let item = self.row_of(item, scope, place, depth - 1)?;
        self.row_of_length(item, length, scope, place)
    }

    // The rows of the first types, as many.
    #[cycle(rows)]
    fn rows_of(
        &mut self,
        types: &[TypeExpr],
        count: usize,
        scope: &Scope,
        place: Place,
        depth: usize,
    ) -> Result<Vec<usize>, Fault> {
        let mut rows = Vec::new(self.alloc());
        if depth == 0 {
            return Err(self.context.refused(place, "this nests too deeply"));
        }
        for ty in types.iter().take(count) {
            let row = self.row_of(ty, scope, place, depth - 1)?;
            rows.push(row)?;
        }
        Ok(rows)
    }

    // The row of what a path stands for.
    #[cycle(rows)]
    fn row_of_path(
        &mut self,
        segments: &[String],
        arguments: &[TypeExpr],
        scope: &Scope,
        place: Place,
        depth: usize,
    ) -> Result<usize, Fault> {
        if let Some(row) = self.bound_row(segments, scope, place)? {
            return Ok(row);
        }
        if depth == 0 {
            return Err(self.context.refused(place, "this nests too deeply"));
        }
        let path = self.path_text(segments)?;
        match self.resolve(scope.module.as_str(), path.as_str(), place)? {
            Resolved::Own(Item::Declaration(number)) => {
                self.row_of_declaration(number, arguments, scope, place, depth - 1)
            }
            Resolved::Own(Item::Alias(number)) => {
                self.row_of_alias(number, arguments, scope, place, depth - 1)
            }
            Resolved::Lost(name) if self.home.is_none() => {
                Err(self.lost(path.as_str(), name.as_str(), place)?)
            }
            Resolved::Own(Item::Constant(_) | Item::Module) | Resolved::Lost(_) => {
                let parts = self.rows_of(arguments, arguments.len(), scope, place, depth - 1)?;
                self.row_elsewhere(segments, &parts, scope, place)
            }
            Resolved::Foreign(name, origin) => {
                let name = name.as_str();
                let origin = origin.as_str();
                match made_named(name, origin) {
                    Some(made) => {
                        self.row_of_made(made, name, arguments, scope, place, depth - 1)
                    }
                    None if self.is_known(name, origin, !arguments.is_empty())? => {
                        self.row_of_known(name, origin, arguments, place)
                    }
                    None if self.home.is_none() => Err(self.lost(path.as_str(), "", place)?),
                    None => {
                        let count = arguments.len();
                        let parts = self.rows_of(arguments, count, scope, place, depth - 1)?;
                        self.row_elsewhere(segments, &parts, scope, place)
                    }
                }
            }
        }
    }

    // The row of a type of another crate that is made of its arguments.
    #[cycle(rows)]
    fn row_of_made(
        &mut self,
        made: Made,
        name: &str,
        arguments: &[TypeExpr],
        scope: &Scope,
        place: Place,
        depth: usize,
    ) -> Result<usize, Fault> {
        if depth == 0 {
            return Err(self.context.refused(place, "this nests too deeply"));
        }
        if arguments.len() > made.most() {
            return Err(self.context.refused_name(place, name, TOO_MANY));
        }
        if made == Made::NonZero {
            return self.row_of_nonzero(arguments, place);
        }
        let rows = self.rows_of(arguments, made.arity(), scope, place, depth - 1)?;
        self.row_of_parts(made, name, &rows, arguments, scope, place)
    }

    // The row of what an alias stands for.
    #[cycle(rows)]
    fn row_of_alias(
        &mut self,
        number: usize,
        arguments: &[TypeExpr],
        scope: &Scope,
        place: Place,
        depth: usize,
    ) -> Result<usize, Fault> {
        let source = self.source;
        let Some(alias) = source.aliases.get(number) else {
            return Err(self.context.refused(place, "this alias is not there"));
        };
        self.require_known(alias.condition)?;
        if depth == 0 {
            return Err(self.context.refused(place, "this nests too deeply"));
        }
        let mut inner = Scope::new(self.alloc(), alias.module.as_str())?;
        let parameters = &alias.parameters;
        self.bind(
            &mut inner,
            parameters,
            None,
            arguments,
            scope,
            place,
            depth - 1,
        )?;
        self.row_of(&alias.ty, &inner, place, depth - 1)
    }

    // The row of a declaration. That of one that stands for another type is the row of that.
    #[cycle(rows)]
    fn row_of_declaration(
        &mut self,
        number: usize,
        arguments: &[TypeExpr],
        scope: &Scope,
        place: Place,
        depth: usize,
    ) -> Result<usize, Fault> {
        let source = self.source;
        let Some(declaration) = source.declarations.get(number) else {
            return Err(self.context.refused(place, "this type is not there"));
        };
        if depth == 0 {
            return Err(self.context.refused(place, "this nests too deeply"));
        }
        if self.home.is_some() && !derives(&self.context, &declaration.attributes)? {
            let rows = self.rows_of(arguments, arguments.len(), scope, place, depth - 1)?;
            let path = self.path_to(declaration)?;
            return self.row_of_elsewhere(path.as_str(), &rows, place);
        }
        self.require_derive(declaration, place)?;
        let mut inner = Scope::new(self.alloc(), declaration.module.as_str())?;
        let parameters = &declaration.parameters;
        let body = Some(&declaration.body);
        self.bind(
            &mut inner,
            parameters,
            body,
            arguments,
            scope,
            place,
            depth - 1,
        )?;
        match self.standing(declaration)? {
            Standing::Type(ty) => self.row_of(&ty, &inner, place, depth - 1),
            Standing::Field => match one_field(&declaration.body) {
                Some(field) => self.row_of(&field.ty, &inner, field.place, depth - 1),
                None => Err(self.context.refused(place, "a field is wanted")),
            },
            Standing::Itself => self.reserve(number, declaration, inner),
        }
    }

    // Adds what parameters stand for to a scope. In a table those that the body has not are left out.
    #[cycle(rows)]
    fn bind(
        &mut self,
        inner: &mut Scope,
        parameters: &[Parameter<'_>],
        body: Option<&Body<'_>>,
        arguments: &[TypeExpr],
        scope: &Scope,
        place: Place,
        depth: usize,
    ) -> Result<(), Fault> {
        if depth == 0 {
            return Err(self.context.refused(place, "this nests too deeply"));
        }
        if arguments.len() > parameters.len() {
            return Err(self.context.refused(place, TOO_MANY));
        }
        for (number, parameter) in parameters.iter().enumerate() {
            let is_used = match body {
                Some(body) => is_used_in(parameter, body),
                None => true,
            };
            if !is_used && self.home.is_none() {
                continue;
            }
            let mut binding = match (arguments.get(number), parameter.default()) {
                (Some(argument), _) => self.binding(parameter, argument, scope, place, depth - 1)?,
                (None, Some(argument)) => {
                    self.binding(parameter, argument, inner, place, depth - 1)?
                }
                (None, None) => {
                    return Err(self.context.refused(place, "an argument is missing here"));
                }
            };
            binding.is_used = is_used;
            inner.bindings.push(binding)?;
        }
        Ok(())
    }

    // What a parameter stands for.
    #[cycle(rows)]
    fn binding(
        &mut self,
        parameter: &Parameter<'_>,
        argument: &TypeExpr,
        scope: &Scope,
        place: Place,
        depth: usize,
    ) -> Result<Binding, Fault> {
        let alloc = self.alloc();
        if depth == 0 {
            return Err(self.context.refused(place, "this nests too deeply"));
        }
        match parameter {
            Parameter::Type(name, _, _) => {
                let row = self.row_of(argument, scope, place, depth - 1)?;
                Ok(Binding {
                    name: String::from_str(alloc, name)?,
                    value: Value::Row(row),
                    is_used: true,
                })
            }
            Parameter::Constant(name, _) => {
                let text = self.constant_in(argument, scope, place)?;
                Ok(Binding {
                    name: String::from_str(alloc, name)?,
                    value: Value::Constant(text),
                    is_used: true,
                })
            }
        }
    }
}
