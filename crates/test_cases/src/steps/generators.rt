//! What calls of a generator answer.
use crate::steps::by_type::{part_of, root_of};
use crate::steps::own_transforms::Own;
use crate::steps::parts::{Steps, call_in, first_wrong, number_in, table_of};
use crate::steps::settings::settings_of;
use schemars::builders::{
    json_schema_for_flatten, json_schema_for_internally_tagged_enum_newtype_variant,
};
use schemars::generate::SchemaGenerator;
use schemars::transform::GenTransform;
use schemars::types::{Shape, TypeEntry, TypeNo, Types};
use schemars::{Contract, GenerateError, Schema};
use serde_json::Value;
use std::alloc::{AllocError, Global};
use std::mem;

/// The first wrong step of calls of a generator.
pub(crate) fn fault_in(
    alloc: Global,
    settings: &str,
    text: &str,
    steps: &[&str],
) -> Result<Option<String>, AllocError> {
    match generator_of(alloc, settings, text) {
        Ok(generator) => fault_of_calls(alloc, generator, steps),
        Err(error) => Ok(Some(refusal(alloc, &error)?)),
    }
}

// A generator over the table of a text, or over none: of settings, or the default one.
fn generator_of(
    alloc: Global,
    words: &str,
    text: &str,
) -> Result<SchemaGenerator<Own>, GenerateError> {
    if words == "default" {
        return Ok(SchemaGenerator::default(alloc));
    }
    let settings = settings_of(alloc, words)?;
    match table_of(alloc, text)? {
        Some(types) => SchemaGenerator::with_types(alloc, settings, types),
        None => Ok(settings.into_generator(alloc)),
    }
}

// The one function that drops a generator: each drop costs many seconds of proof.
fn fault_of_calls(
    alloc: Global,
    generator: SchemaGenerator<Own>,
    steps: &[&str],
) -> Result<Option<String>, AllocError> {
    let mut generator = generator;
    first_wrong(alloc, &mut generator, steps)
}

impl Steps for SchemaGenerator<Own> {
    fn told(&mut self, alloc: Global, call: &str) -> Result<String, AllocError> {
        let generator = self;
        let (word, argument) = call_in(call);
        match word {
            "root" => root(alloc, generator, number_in(argument)),
            "last_definitions_text" => last_definitions_text(alloc, generator, number_in(argument)),
            "copy" => copied(alloc, generator),
            "copy_of_settings" => settings_copied(alloc, generator),
            "path" => String::from_str(alloc, generator.settings().definitions_path.as_str()),
            "rows" => format!(in alloc; "{}", generator.types().len()),
            "contract" => contract(alloc, generator.contract()),
            "part_of" => schema_text(alloc, part_of(alloc, generator, argument)),
            "root_of" => schema_text(alloc, root_of(alloc, generator, argument)),
            _ => schema_text(alloc, answer(alloc, generator, word, number_in(argument))),
        }
    }
}

// What the questions of a contract answer.
fn contract(alloc: Global, contract: Contract) -> Result<String, AllocError> {
    let reads = contract.is_deserialize();
    let writes = contract.is_serialize();
    let is_less = contract < Contract::Serialize;
    format!(in alloc; "reads {reads}, writes {writes}, is less than serialize {is_less}")
}

// A refusal's number and name.
fn refusal(alloc: Global, error: &GenerateError) -> Result<String, AllocError> {
    format!(in alloc; "{} {error}", error.code())
}

fn schema_text(alloc: Global, answer: Result<Schema, GenerateError>) -> Result<String, AllocError> {
    match answer {
        Ok(schema) => schema.to_ordered_string(alloc),
        Err(error) => refusal(alloc, &error),
    }
}

// The root document. The text that a copy of the generator gives has to be the same.
fn root(
    alloc: Global,
    generator: &mut SchemaGenerator<Own>,
    n: TypeNo,
) -> Result<String, AllocError> {
    let text = root_text(alloc, generator, n)?;
    let told = schema_text(alloc, generator.root_schema_for_type(alloc, n))?;
    if told == text {
        return Ok(told);
    }
    format!(in alloc; "{told}, and as text {text}")
}

fn root_text(
    alloc: Global,
    generator: &SchemaGenerator<Own>,
    n: TypeNo,
) -> Result<String, AllocError> {
    let text = match generator.try_clone(alloc) {
        Ok(copy) => copy.into_root_text_for_type(alloc, n),
        Err(error) => Err(error),
    };
    text_or_refusal(alloc, text)
}

// The text of the definitions that row `n` leads to. A default generator is left.
fn last_definitions_text(
    alloc: Global,
    generator: &mut SchemaGenerator<Own>,
    n: TypeNo,
) -> Result<String, AllocError> {
    let last = mem::replace(generator, SchemaGenerator::default(alloc));
    text_or_refusal(alloc, last.into_definitions_text_for_type(alloc, n))
}

fn text_or_refusal(
    alloc: Global,
    text: Result<String, GenerateError>,
) -> Result<String, AllocError> {
    match text {
        Ok(text) => Ok(text),
        Err(error) => refusal(alloc, &error),
    }
}

// How many transforms a copy has.
fn copied(alloc: Global, generator: &SchemaGenerator<Own>) -> Result<String, AllocError> {
    match generator.try_clone(alloc) {
        Ok(copy) => format!(in alloc; "{} transforms", copy.settings().transforms.len()),
        Err(error) => refusal(alloc, &error),
    }
}

fn settings_copied(alloc: Global, generator: &SchemaGenerator<Own>) -> Result<String, AllocError> {
    match generator.settings().try_clone(alloc) {
        Ok(copy) => {
            let path = copy.definitions_path.as_str();
            format!(in alloc; "{} transforms at {path}", copy.transforms.len())
        }
        Err(error) => refusal(alloc, &error),
    }
}

fn answer(
    alloc: Global,
    generator: &mut SchemaGenerator<Own>,
    word: &str,
    n: TypeNo,
) -> Result<Schema, GenerateError> {
    match word {
        "part" => generator.subschema_for_type(alloc, n),
        "document" => generator.root_schema_for_type(alloc, n),
        "members" => json_schema_for_flatten(alloc, generator, n, true),
        "members_if_any" => json_schema_for_flatten(alloc, generator, n, false),
        "content" => json_schema_for_internally_tagged_enum_newtype_variant(alloc, generator, n),
        "take" => Ok(Schema::from(generator.take_definitions(alloc, false)?)),
        "take_transformed" => Ok(Schema::from(generator.take_definitions(alloc, true)?)),
        "last_definitions_of_copy" => last_definitions_of_copy(alloc, generator),
        "part_of_copy" => part_of_copy(alloc, generator, n),
        "definitions" => Ok(Schema::from(generator.definitions().clone()?)),
        _ => {
            change(alloc, generator, word, n)?;
            Ok(Schema::from(true))
        }
    }
}

fn part_of_copy(
    alloc: Global,
    generator: &SchemaGenerator<Own>,
    n: TypeNo,
) -> Result<Schema, GenerateError> {
    let mut copy = generator.try_clone(alloc)?;
    copy.subschema_for_type(alloc, n)
}

fn last_definitions_of_copy(
    alloc: Global,
    generator: &SchemaGenerator<Own>,
) -> Result<Schema, GenerateError> {
    let copy = generator.try_clone(alloc)?;
    Ok(Schema::from(copy.into_definitions(alloc)?))
}

// A call that answers nothing.
fn change(
    alloc: Global,
    generator: &mut SchemaGenerator<Own>,
    word: &str,
    n: TypeNo,
) -> Result<(), GenerateError> {
    match word {
        "add_own_table" => {
            let own = generator.types().clone()?;
            generator.add_types(alloc, own)
        }
        "add_empty_table" => generator.add_types(alloc, Types::new(alloc)),
        "add_newtype" => add_newtype(alloc, generator, n),
        "write_c" => {
            serde_json::put(generator.definitions_mut(), alloc, "C", Value::Bool(true))?;
            Ok(())
        }
        _ => {
            for transform in generator.transforms_mut() {
                *transform = GenTransform::SetSingleExample(Default::default());
            }
            Ok(())
        }
    }
}

// Adds a newtype of row `n`.
fn add_newtype(
    alloc: Global,
    generator: &mut SchemaGenerator<Own>,
    n: TypeNo,
) -> Result<(), GenerateError> {
    let mut types = generator.types().clone()?;
    let id = String::from_str(alloc, "new")?;
    let name = String::from_str(alloc, "New")?;
    let new = types.reserve(id, name)?;
    types.define(
        new,
        TypeEntry::without_notes(alloc, false, Shape::Newtype(n)),
    )?;
    generator.add_types(alloc, types)
}
