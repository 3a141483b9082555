//! The parameters of a declaration, and which of them occur in its fields.
use crate::builder::{Binding, Builder, Scope, Value};
use schemaderive_known::{Kind, Row, Texts};
use schemaderive_syntax::{
    Body, Declaration, Fault, Field, Fields, MetaValue, Parameter, TypeExpr,
};
use std::alloc::{AllocError, Global};

/// What is before the name of a parameter in the id and the name of a row.
pub const OPENING: char = '⟨';

/// What is behind it.
pub const CLOSING: char = '⟩';

impl<'a> Builder<'a> {
    /// The scope of a declaration in which each parameter stands for itself: a row whose id and name
    /// are the name of the parameter, in brackets that no other name has.
    ///
    /// # Errors
    ///
    /// A parameter is a constant.
    pub fn parameter_scope(&mut self, declaration: &Declaration<'_>) -> Result<Scope, Fault> {
        let mut scope = Scope::new(self.alloc(), declaration.module.as_str())?;
        for parameter in &declaration.parameters {
            let Parameter::Type(name, _, _) = parameter else {
                let place = declaration.place;
                let reason = "an implementation for a type with a constant is not written";
                return Err(self.context.refused_name(place, declaration.name, reason));
            };
            let binding = self.own_binding(name, occurs(&declaration.body, name))?;
            scope.bindings.push(binding)?;
        }
        Ok(scope)
    }

    // A parameter that stands for itself.
    fn own_binding(&mut self, name: &str, is_used: bool) -> Result<Binding, AllocError> {
        let row = self.parameter_row(name)?;
        Ok(Binding {
            name: String::from_str(self.alloc(), name)?,
            value: Value::Row(row),
            is_used,
        })
    }

    // The row of a parameter.
    fn parameter_row(&mut self, name: &str) -> Result<usize, AllocError> {
        let alloc = self.alloc();
        let id = format!(in alloc; "{}{name}{}", OPENING, CLOSING)?;
        let texts = Texts {
            id: id.as_str(),
            name: id.as_str(),
            shape: "",
            ty: name,
            default: "",
            kind: Kind::Other,
            is_inline: true,
            type_name: "",
            format: "",
            length: "",
        };
        self.add(Row::of_texts(alloc, &texts)?)
    }
}

/// The only field of a struct that is in its values.
pub fn one_field<'a, 'b>(body: &'b Body<'a>) -> Option<&'b Field<'a>> {
    let Body::Struct(Fields::Tuple(fields) | Fields::Named(fields)) = body else {
        return None;
    };
    let mut found = None;
    for field in fields {
        if !is_skipped(field) && !is_marker(&field.ty) {
            if found.is_some() {
                return None;
            }
            found = Some(field);
        }
    }
    found
}

fn is_marker(ty: &TypeExpr) -> bool {
    match ty {
        TypeExpr::Path { segments, .. } => is_phantom(segments),
        _ => false,
    }
}

/// Which parameters of a declaration occur in its fields, other than in skipped ones and in
/// `PhantomData`. Constants always do.
pub fn used_parameters(
    alloc: Global,
    declaration: &Declaration<'_>,
) -> Result<Vec<bool>, AllocError> {
    let mut used = Vec::new(alloc);
    for parameter in &declaration.parameters {
        used.push(is_used_in(parameter, &declaration.body))?;
    }
    Ok(used)
}

/// Whether a parameter occurs in a body, other than in skipped fields and in `PhantomData`. A
/// constant always does.
pub fn is_used_in(parameter: &Parameter<'_>, body: &Body<'_>) -> bool {
    match parameter {
        Parameter::Constant(_, _) => true,
        Parameter::Type(name, _, _) => occurs(body, name),
    }
}

fn occurs(body: &Body<'_>, name: &str) -> bool {
    match body {
        Body::Struct(fields) => occurs_in_fields(fields, name),
        Body::Enum(variants) => {
            for variant in variants {
                if occurs_in_fields(&variant.fields, name) {
                    return true;
                }
            }
            false
        }
    }
}

fn occurs_in_fields(fields: &Fields<'_>, name: &str) -> bool {
    match fields {
        Fields::Unit => false,
        Fields::Tuple(list) | Fields::Named(list) => {
            for field in list {
                if !is_skipped(field) && occurs_in_type(&field.ty, name) {
                    return true;
                }
            }
            false
        }
    }
}

// Whether a field is in no value.
fn is_skipped(field: &Field<'_>) -> bool {
    for attribute in &field.attributes {
        if let MetaValue::List(list) = attribute.value {
            if ["serde", "schemars"].contains(&attribute.name) && list.has_word("skip") {
                return true;
            }
        }
    }
    false
}

fn occurs_in_type(ty: &TypeExpr, name: &str) -> bool {
    match ty {
        TypeExpr::Path {
            segments,
            arguments,
            place: _,
        } => {
            if is_phantom(segments) {
                return false;
            }
            match segments.first() {
                Some(first) if first.as_str() == name => return true,
                _ => {}
            }
            for argument in arguments {
                if occurs_in_type(argument, name) {
                    return true;
                }
            }
            false
        }
        TypeExpr::Tuple(parts) => {
            for part in parts {
                if occurs_in_type(part, name) {
                    return true;
                }
            }
            false
        }
        TypeExpr::Array(inner, _) => occurs_in_type(inner, name),
        TypeExpr::Slice(inner) => occurs_in_type(inner, name),
        TypeExpr::Reference(inner) => occurs_in_type(inner, name),
        TypeExpr::Constant(_) | TypeExpr::Other(_) => false,
    }
}

fn is_phantom(segments: &[String]) -> bool {
    match segments.last() {
        Some(last) => last.as_str() == "PhantomData",
        None => false,
    }
}
