//! For which type an implementation is: the type, and its parameters with what they have to be.
use schemaderive_rows::{Builder, used_parameters};
use schemaderive_syntax::{Declaration, Fault, Parameter, Place, TypeExpr};
use schemaderive_text::push_all;
use std::alloc::AllocError;

/// For which type an implementation is.
#[derive(Drop)]
pub struct Header {
    /// the type, with its whole path and its parameters
    pub ty: String,
    /// its parameters but the lifetimes in angle brackets, with whole paths; nothing if there are none
    pub generics: String,
    /// their names, with a comma between them
    pub parameters: String,
}

/// For which type the implementation of a declaration is.
///
/// # Errors
///
/// The declaration has conditions that are not written.
pub fn header_of(builder: &Builder<'_>, declaration: &Declaration<'_>) -> Result<Header, Fault> {
    if let Some(place) = declaration.conditions {
        let reason = "an implementation for a type with conditions is not written";
        return Err(builder.context.refused_name(place, "where", reason));
    }
    let alloc = builder.alloc();
    let mut header = Header {
        ty: builder.path_to(declaration)?,
        generics: String::new(alloc),
        parameters: String::new(alloc),
    };
    header.add_arguments(declaration)?;
    header.add_parameters(builder, declaration)?;
    Ok(header)
}

impl Header {
    // Adds the arguments of the type.
    fn add_arguments(&mut self, declaration: &Declaration<'_>) -> Result<(), AllocError> {
        let mut is_first = true;
        for _ in &declaration.lifetimes {
            push_item(&mut self.ty, is_first, "'static")?;
            is_first = false;
        }
        for parameter in &declaration.parameters {
            if let Parameter::Type(name, _, _) = parameter {
                push_item(&mut self.ty, is_first, name)?;
                is_first = false;
            }
        }
        end_list(&mut self.ty, is_first)
    }

    // Adds the parameters, with what they have to be.
    fn add_parameters(
        &mut self,
        builder: &Builder<'_>,
        declaration: &Declaration<'_>,
    ) -> Result<(), Fault> {
        let used = used_parameters(builder.alloc(), declaration)?;
        let mut is_first = true;
        for (number, parameter) in declaration.parameters.iter().enumerate() {
            if let Parameter::Type(name, bounds, _) = parameter {
                self.add_name(is_first, name)?;
                let is_used = used.get(number) != Some(&false);
                self.add_bounds(builder, declaration, bounds, is_used)?;
                is_first = false;
            }
        }
        Ok(end_list(&mut self.generics, is_first)?)
    }

    fn add_name(&mut self, is_first: bool, name: &str) -> Result<(), AllocError> {
        push_all(
            &mut self.parameters,
            &[if is_first { "" } else { ", " }, name],
        )?;
        push_item(&mut self.generics, is_first, name)
    }

    // Adds what a parameter has to be: what is declared, and describable if the values of the type
    // have it.
    fn add_bounds(
        &mut self,
        builder: &Builder<'_>,
        declaration: &Declaration<'_>,
        bounds: &[TypeExpr],
        is_used: bool,
    ) -> Result<(), Fault> {
        let mut is_first = true;
        for bound in bounds {
            let Some(segments) = trait_in(bound) else {
                let place = place_of(bound, declaration.place);
                let reason = "a bound that is not the path of a trait is not written";
                return Err(builder.context.refused(place, reason));
            };
            let path = builder.path_elsewhere(declaration.module.as_str(), segments)?;
            self.add_bound(is_first, path.as_str())?;
            is_first = false;
        }
        if is_used {
            self.add_bound(is_first, "JsonSchema")?;
        }
        Ok(())
    }

    fn add_bound(&mut self, is_first: bool, bound: &str) -> Result<(), AllocError> {
        push_all(
            &mut self.generics,
            &[if is_first { ": " } else { " + " }, bound],
        )
    }
}

// Adds an item to a list in angle brackets.
fn push_item(list: &mut String, is_first: bool, item: &str) -> Result<(), AllocError> {
    push_all(list, &[if is_first { "<" } else { ", " }, item])
}

// Ends such a list, if it has an item.
fn end_list(list: &mut String, is_empty: bool) -> Result<(), AllocError> {
    list.push_str(if is_empty { "" } else { ">" })
}

// The path of a trait without arguments.
fn trait_in(bound: &TypeExpr) -> Option<&[String]> {
    match bound {
        TypeExpr::Path {
            segments,
            arguments,
            place: _,
        } if arguments.is_empty() => Some(segments.as_slice()),
        _ => None,
    }
}

// Where a bound begins; of some forms that of the declaration is known alone.
fn place_of(bound: &TypeExpr, declared: Place) -> Place {
    match bound {
        TypeExpr::Path {
            segments: _,
            arguments: _,
            place,
        } => *place,
        TypeExpr::Other(place) => *place,
        _ => declared,
    }
}
