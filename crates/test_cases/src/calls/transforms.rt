//! What transforms make of a schema, as text.
use crate::calls::error::NoAnswer;
use crate::steps::own_transforms::Growth;
use schemars_schema::Schema;
use schemars_transform::{
    AddNullable, RemoveRefSiblings, ReplaceBoolSchemas, ReplaceConstValue, ReplacePrefixItems,
    ReplaceUnevaluatedProperties, RestrictFormats, SetSingleExample, apply_inner_validation,
};
use schemars_walk::{
    FnTransform, RecursiveTransform, Transform, TransformError, on_value, transform_subschemas,
};
use serde_json::Value;
use std::alloc::{AllocError, Global};
use std::collections::BTreeSet;

/// What the call of this name makes of the schema, or the name of its refusal.
pub(crate) fn answer(
    alloc: Global,
    call: &str,
    argument: &str,
    schema: &mut Schema,
) -> Result<String, NoAnswer> {
    let answer = match call {
        "transform_subschemas" => transform_subschemas(alloc, &mut Numbering { next: 0 }, schema),
        "recursive_transform" => {
            RecursiveTransform(Numbering { next: 0 }).transform(alloc, schema)
        }
        "recursive_growth" => RecursiveTransform(Growth).transform(alloc, schema),
        "fn_transform" => by_closure(alloc, schema),
        "apply_inner_validation" => {
            apply_inner_validation(alloc, &mut Numbering { next: 0 }, schema)
        }
        _ => built_in(alloc, call, argument, schema)?,
    };
    told(alloc, answer, schema)
}

/// Whether `{}` inside as many `not` is walked, or the name of the refusal.
pub(crate) fn answer_nested(alloc: Global, depth: &Value) -> Result<String, NoAnswer> {
    let depth = depth.as_u64().ok_or(NoAnswer::BadInput)?;
    let mut schema = Schema::default(alloc);
    for _ in 0..depth {
        let mut outer = Schema::default(alloc);
        let key = String::from_str(alloc, "not")?;
        let _old = outer.insert(alloc, key, schema.to_value())?;
        schema = outer;
    }
    match RecursiveTransform(Nothing).transform(alloc, &mut schema) {
        Ok(()) => Ok(String::from_str(alloc, "walked")?),
        Err(e) => refused(alloc, e),
    }
}

/// Whether a value is a schema, and what a transform makes of it.
pub(crate) fn answer_of_value(alloc: Global, value: &Value) -> Result<String, NoAnswer> {
    let mut value = value.clone()?;
    match on_value(alloc, &mut Numbering { next: 0 }, &mut value) {
        Ok(is_schema) => {
            let text = value.to_string(alloc)?;
            Ok(format!(in alloc; "{is_schema} {text}")?)
        }
        Err(e) => refused(alloc, e),
    }
}

fn told(
    alloc: Global,
    answer: Result<(), TransformError>,
    schema: &Schema,
) -> Result<String, NoAnswer> {
    match answer {
        Ok(()) => Ok(schema.to_ordered_string(alloc)?),
        Err(e) => refused(alloc, e),
    }
}

fn refused(alloc: Global, e: TransformError) -> Result<String, NoAnswer> {
    match e {
        TransformError::Memory => Err(NoAnswer::OutOfMemory),
        TransformError::TooDeep => Ok(String::from_str(alloc, "TooDeep")?),
        TransformError::Own(n) => Ok(format!(in alloc; "Own({n})")?),
    }
}

fn built_in(
    alloc: Global,
    call: &str,
    argument: &str,
    schema: &mut Schema,
) -> Result<Result<(), TransformError>, NoAnswer> {
    Ok(match call {
        "replace_bool_schemas" => ReplaceBoolSchemas {
            skip_additional_properties: argument == "skip",
        }
        .transform(alloc, schema),
        "remove_ref_siblings" => RemoveRefSiblings.transform(alloc, schema),
        "set_single_example" => SetSingleExample.transform(alloc, schema),
        "replace_const_value" => ReplaceConstValue.transform(alloc, schema),
        "replace_prefix_items" => ReplacePrefixItems.transform(alloc, schema),
        "add_nullable" => nullable_by(argument).transform(alloc, schema),
        "replace_unevaluated_properties" => ReplaceUnevaluatedProperties.transform(alloc, schema),
        "restrict_formats" => formats_by(alloc, argument)?.transform(alloc, schema),
        _ => return Err(NoAnswer::NoCall),
    })
}

// With the defaults, but for the flags that the argument unsets.
fn nullable_by(argument: &str) -> AddNullable {
    let mut transform = AddNullable::default();
    for word in argument.split(' ') {
        match word {
            "keep_null_type" => transform.remove_null_type = false,
            "no_const_null" => transform.add_const_null = false,
            _ => {}
        }
    }
    transform
}

// The argument's words are allowed formats, but for the one that unsets inference.
fn formats_by(alloc: Global, argument: &str) -> Result<RestrictFormats, NoAnswer> {
    let mut transform = RestrictFormats::default(alloc);
    for word in argument.split(' ') {
        match word {
            "" => {}
            "no_inference" => transform.infer_from_meta_schema = false,
            _ => allow(alloc, &mut transform.allowed_formats, word)?,
        }
    }
    Ok(transform)
}

fn allow(alloc: Global, formats: &mut BTreeSet<String>, format: &str) -> Result<(), NoAnswer> {
    match formats.insert(String::from_str(alloc, format)?) {
        Ok(_) => Ok(()),
        Err(e) => Err(AllocError::from(e).into()),
    }
}

// A closure that gives objects a title, and refuses truth values.
fn by_closure(alloc: Global, schema: &mut Schema) -> Result<(), TransformError> {
    let titled = move |schema: &mut Schema| -> Result<(), TransformError> {
        if schema.as_bool().is_some() {
            return Err(TransformError::Own(7));
        }
        let key = String::from_str(alloc, "title")?;
        let title = Value::try_from_str(alloc, "by a closure")?;
        let _old = schema.insert(alloc, key, title)?;
        Ok(())
    };
    match Box::new(alloc, titled) {
        Ok(call) => FnTransform::new(call).transform(alloc, schema),
        Err(e) => Err(AllocError::from(e).into()),
    }
}

// Puts the number of its call into each schema.
#[derive(Drop)]
struct Numbering {
    next: u64,
}

impl Transform for Numbering {
    ghost makes = { λ t s r u v. Unit {0} };

    fn transform(&mut self, alloc: Global, schema: &mut Schema) -> Result<(), TransformError> {
        self.next = self.next.wrapping_add(1);
        let key = String::from_str(alloc, "x-n")?;
        let _old = schema.insert(alloc, key, Value::from(self.next))?;
        Ok(())
    }
}

// Leaves each schema as it is.
#[derive(Drop)]
struct Nothing;

impl Transform for Nothing {
    ghost use Rattle.std.specs.Prelude.{◌≡◌};

    ghost makes = { λ t s r u v. v ≡ s };

    fn transform(&mut self, _alloc: Global, _schema: &mut Schema) -> Result<(), TransformError> {
        Ok(())
    }
}
