//! Calls of generators.
use crate::retry::{again, expect_same, show};
use crate::stop::Stop;
use crate::tables::{example, table_of};
use schemars::Schema;
use schemars::generate::{SchemaGenerator, SchemaSettings};
use schemars::schema::definitions_to_ordered_string;
use schemars::transform::NoTransform;
use schemars::types::TypeNo;
use std::alloc::{Alloc, AllocError, Global};
use std::io::Print;

type Generator = SchemaGenerator<NoTransform>;

// The calls of one generator, in order.
const CALLS: [&str; 9] = [
    "root",
    "part",
    "copy",
    "example",
    "take transformed",
    "part",
    "take",
    "longer table",
    "root",
];

// A generator, and the row whose documents it makes.
#[derive(Drop)]
struct Service {
    generator: Generator,
    root: TypeNo,
}

fn settings_of(alloc: Global, dialect: &str) -> Result<SchemaSettings<NoTransform>, AllocError> {
    match dialect {
        "draft-07" => SchemaSettings::draft07(alloc),
        "openapi3" => SchemaSettings::openapi3(alloc),
        _ => Ok(SchemaSettings::draft2020_12(alloc)),
    }
}

fn service_of(alloc: Global, dialect: &str, table: &str) -> Result<Service, Stop> {
    let (types, root) = table_of(alloc, table)?;
    let settings = settings_of(alloc, dialect)?;
    let generator = SchemaGenerator::with_types(alloc, settings, types)?;
    Ok(Service { generator, root })
}

/// Makes the calls of generators for a table.
pub(crate) fn make_calls<R: Alloc<A = Global> + Print>(
    rt: &R,
    dialect: &str,
    table: &str,
) -> Result<(), Stop> {
    show(rt, &again(|| last_document(rt.alloc(), dialect, table))?)?;
    show(rt, &again(|| last_example(rt.alloc(), dialect, table))?)?;
    let mut service = again(|| service_of(rt.alloc(), dialect, table))?;
    make_each(rt, &mut service)
}

fn last_document(alloc: Global, dialect: &str, table: &str) -> Result<Schema, Stop> {
    let Service { generator, root } = service_of(alloc, dialect, table)?;
    Ok(generator.into_root_schema_for_type(alloc, root)?)
}

fn last_example(alloc: Global, dialect: &str, table: &str) -> Result<Schema, Stop> {
    let example = example(alloc)?;
    let Service { generator, .. } = service_of(alloc, dialect, table)?;
    Ok(generator.into_root_schema_for_value(alloc, &example)?)
}

fn make_each<R: Alloc<A = Global> + Print>(rt: &R, service: &mut Service) -> Result<(), Stop> {
    for call in CALLS {
        show(rt, &answered(rt, service, call)?)?;
    }
    Ok(())
}

// Makes a call. Where it is refused for want of memory, the generator has to be as it was, and the
// call is made again.
fn answered<R: Alloc<A = Global> + Print>(
    rt: &R,
    service: &mut Service,
    call: &str,
) -> Result<Schema, Stop> {
    let before = again(|| state_of(rt.alloc(), &service.generator))?;
    match answer(rt.alloc(), service, call) {
        Err(Stop::Memory) => {
            let after = state_of(rt.alloc(), &service.generator)?;
            expect_same(rt, after == before, call)?;
            answer(rt.alloc(), service, call)
        }
        made => made,
    }
}

fn answer(alloc: Global, service: &mut Service, call: &str) -> Result<Schema, Stop> {
    let root = service.root;
    let generator = &mut service.generator;
    match call {
        "part" => Ok(generator.subschema_for_type(alloc, root)?),
        "root" => Ok(generator.root_schema_for_type(alloc, root)?),
        "take" => Ok(Schema::from(generator.take_definitions(alloc, false)?)),
        "take transformed" => Ok(Schema::from(generator.take_definitions(alloc, true)?)),
        "copy" => root_of_copy(alloc, generator, root),
        "example" => Ok(generator.root_schema_for_value(alloc, &example(alloc)?)?),
        _ => lengthen(alloc, generator, root),
    }
}

fn root_of_copy(alloc: Global, generator: &Generator, root: TypeNo) -> Result<Schema, Stop> {
    let mut copy = generator.try_clone(alloc)?;
    Ok(copy.root_schema_for_type(alloc, root)?)
}

// Adds the row of lists of the root.
fn lengthen(alloc: Global, generator: &mut Generator, root: TypeNo) -> Result<Schema, Stop> {
    let mut types = generator.types().clone()?;
    types.seq(alloc, root)?;
    generator.add_types(alloc, types)?;
    Ok(Schema::from(true))
}

// The definitions, and what a copy answers for each row, the last one first. So a name that was
// given is seen.
fn state_of(alloc: Global, generator: &Generator) -> Result<String, Stop> {
    let mut text = definitions_to_ordered_string(alloc, generator.definitions())?;
    let mut copy = generator.try_clone(alloc)?;
    push_parts(alloc, &mut copy, &mut text)?;
    Ok(text)
}

fn push_parts(alloc: Global, copy: &mut Generator, text: &mut String) -> Result<(), Stop> {
    for n in (0..copy.types().len()).rev() {
        let part = copy.subschema_for_type(alloc, n)?;
        text.push_str(part.to_ordered_string(alloc)?.as_str())?;
    }
    Ok(())
}
