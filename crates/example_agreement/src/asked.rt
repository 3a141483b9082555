//! What lines of the input ask for: documents of types, and values that are drawn.
ghost use Rattle.std.specs.Prelude.{◌<◌, length};
ghost use Rattle.schemars_types.specs.Faults.{IsChecked};

use crate::amount::Amount;
use crate::card::Card;
use crate::drawn::{Draw, Drawn};
use crate::event::Event;
use crate::message::Message;
use crate::note::Note;
use crate::opening::Opening;
use crate::order::Order;
use crate::page::Page;
use crate::review::Review;
use crate::sensor::Sensor;
use crate::station::Station;
use crate::tree::Tree;
use anyhow::Result;
use schemars_accepted::to_accepted_value;
use schemars_agreement::Agrees;
use schemars_generate::{GenerateError, SchemaSettings};
use schemars_impls::{JsonSchema, register};
use schemars_types::{TypeNo, Types};
use std::alloc::{Alloc, Global};
use std::io::Print;

/// Answers a line: the name of a type, a seed, and how many values are printed. With the seed alone
/// the document of the type is printed.
pub fn answer<R: Alloc<A = Global> + Print>(rt: &R, line: &str) -> Result<()> {
    let mut words = line.split(' ');
    let name = words.next().unwrap_or("");
    let seed = number(words.next());
    let count = number(words.next());
    match name {
        "Sensor" => print::<Sensor, R>(rt, seed, count),
        "Station" => print::<Station, R>(rt, seed, count),
        "Page" => print::<Page, R>(rt, seed, count),
        "Event" => print::<Event, R>(rt, seed, count),
        "Amount" => print::<Amount, R>(rt, seed, count),
        "Message" => print::<Message, R>(rt, seed, count),
        "Order" => print::<Order, R>(rt, seed, count),
        "Note" => print::<Note, R>(rt, seed, count),
        "Review" => print::<Review, R>(rt, seed, count),
        "Card" => print::<Card, R>(rt, seed, count),
        "Tree" => print::<Tree, R>(rt, seed, count),
        "Opening" => print::<Opening, R>(rt, seed, count),
        _ => Ok(()),
    }
}

// What a word has, if it is a number.
fn number(word: Option<&str>) -> Option<u64> {
    match word {
        Some(digits) => digits.parse::<u64>().ok(),
        None => None,
    }
}

fn print<T: Agrees + Drawn + Drop + JsonSchema, R: Alloc<A = Global> + Print>(
    rt: &R,
    seed: Option<u64>,
    count: Option<u64>,
) -> Result<()> {
    match (seed, count) {
        (Some(seed), Some(count)) => print_values::<T, R>(rt, seed, count),
        _ => {
            let text = document::<T>(rt.alloc())?;
            println!(rt; "{text}")?;
            Ok(())
        }
    }
}

// The document of a type, for what is written.
fn document<T: JsonSchema>(alloc: Global) -> Result<String, GenerateError> {
    let settings: SchemaSettings = SchemaSettings::draft2020_12(alloc).for_serialize();
    let schema = settings
        .into_generator(alloc)
        .into_root_schema_for::<T>(alloc)?;
    Ok(schema.to_ordered_string(alloc)?)
}

// Prints nothing if the row is another.
fn print_values<T: Agrees + Drawn + Drop + JsonSchema, R: Alloc<A = Global> + Print>(
    rt: &R,
    seed: u64,
    count: u64,
) -> Result<()> {
    let alloc = rt.alloc();
    let mut types = Types::new(alloc);
    let n = register::<T>(alloc, &mut types)?;
    types.check(alloc)?;
    if n < types.len() && T::has_row(&types, n) {
        print_each::<T, R>(rt, &types, n, seed, count)?;
    }
    Ok(())
}

fn print_each<T: Agrees + Drawn + Drop, R: Alloc<A = Global> + Print>(
    rt: &R,
    types: &Types,
    n: TypeNo,
    seed: u64,
    count: u64,
) -> Result<()>
    requires checked { IsChecked types.now }
    requires known { n < length types.now }
    requires row { T.is_row types.now n }
{
    let alloc = rt.alloc();
    for turn in 0..count {
        let mut draw = Draw::new(seed.wrapping_add(turn));
        let value = T::drawn(alloc, &mut draw)?;
        let written = to_accepted_value(alloc, types, n, &value)?;
        println!(rt; "{written}")?;
    }
    Ok(())
}
