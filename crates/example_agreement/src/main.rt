//! Types that agree, structs and enums of the four forms, and values of them as serde writes them.
//!
//! The rows that some of the types describe, documents of them, and values that these accept are
//! printed first, and then what the lines of the input ask for: documents, and drawn values.
#![tactic(auto)]

mod amount;
mod asked;
mod card;
mod components;
mod document;
mod drawn;
mod enum_schemas;
mod event;
mod event_schema;
mod list;
mod map_schemas;
mod message;
mod note;
mod note_schemas;
mod opening;
mod order;
mod page;
mod page_schema;
mod review;
mod sensor;
mod sensor_schema;
mod station;
mod tree;

use crate::asked::answer;
use crate::components::accepted_components;
use crate::document::{accepted_page, written_page};
use crate::list::{accepted_list, written_list};
use crate::page::Page;
use crate::station::Station;
use anyhow::Result;
use schemars_agreement::Agrees;
use schemars_impls::register;
use schemars_schema::Schema;
use schemars_types::{Types, TypesError};
use std::alloc::{Alloc, AllocError, Global};
use std::io;
use std::io::{Input, Print};

fn main(rt: HostRuntime) -> Result<()> {
    let is_station = is_page_a_station(rt.alloc())?;
    println!(rt; "the row of pages is that of stations: {is_station}")?;
    print_list(&rt)?;
    print_page(&rt, &start(rt.alloc())?)?;
    let text = io::read_to_string(rt.alloc(), rt.reader())?;
    for line in text.lines() {
        answer(&rt, line)?;
    }
    Ok(())
}

// Whether the row of pages describes stations.
fn is_page_a_station(alloc: Global) -> Result<bool, TypesError> {
    let mut types = Types::new(alloc);
    let page = register::<Page>(alloc, &mut types)?;
    Ok(Station::has_row(&types, page))
}

// Prints a list that belongs to the row of lists, and that each document of the row accepts.
fn print_list<R: Alloc<A = Global> + Print>(rt: &R) -> Result<()> {
    let list = vec![in rt.alloc(); Some(7), None]?;
    let (_, _, written) = written_list(rt.alloc(), &list)?;
    println!(rt; "{written}")?;
    let (_, _, accepted) = accepted_list(rt.alloc(), &list)?;
    println!(rt; "{accepted}")?;
    Ok(())
}

fn start(alloc: Global) -> Result<Page, AllocError> {
    let title = String::from_str(alloc, "Start")?;
    Ok(Page { title, note: None })
}

// Prints a page, and a document and definitions that accept it.
fn print_page<R: Alloc<A = Global> + Print>(rt: &R, page: &Page) -> Result<()> {
    let (_, _, written) = written_page(rt.alloc(), page)?;
    println!(rt; "{written}")?;
    let (document, accepted) = accepted_page(rt.alloc(), page)?;
    print_schema(rt, &document)?;
    println!(rt; "{accepted}")?;
    let (reference, definitions, accepted) = accepted_components(rt.alloc(), page)?;
    print_schema(rt, &reference)?;
    print_schema(rt, &Schema::from(definitions))?;
    println!(rt; "{accepted}")?;
    Ok(())
}

fn print_schema<R: Alloc<A = Global> + Print>(rt: &R, schema: &Schema) -> Result<()> {
    let text = schema.to_ordered_string(rt.alloc())?;
    println!(rt; "{text}")?;
    Ok(())
}
