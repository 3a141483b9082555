//! What calls of a table answer.
use crate::steps::parts::{Steps, call_in, first_wrong, number_in, refusal, table_of};
use schemars::types::{IntKind, TypeNo, Types, TypesError};
use std::alloc::{AllocError, Global};

/// The first wrong step of calls of an empty table, which may take entries from this one.
pub(crate) fn fault_in(
    alloc: Global,
    text: &str,
    steps: &[&str],
) -> Result<Option<String>, AllocError> {
    let table = table_of(alloc, text)?.unwrap_or(Types::new(alloc));
    let types = Types::new(alloc);
    first_wrong(alloc, &mut Tables { types, table }, steps)
}

// A table that calls change, and one that entries are taken from.
#[derive(Drop)]
struct Tables {
    types: Types,
    table: Types,
}

impl Steps for Tables {
    fn told(&mut self, alloc: Global, call: &str) -> Result<String, AllocError> {
        told(alloc, &mut self.types, &self.table, call)
    }
}

fn told(alloc: Global, types: &mut Types, table: &Types, call: &str) -> Result<String, AllocError> {
    let (word, argument) = call_in(call);
    match word {
        "rows" => format!(in alloc; "{}", types.len()),
        "is_empty" => format!(in alloc; "{}", types.is_empty()),
        "has" => format!(in alloc; "{}", types.find(argument).is_some()),
        "begins_with_itself" => format!(in alloc; "{}", types.begins_with(types)),
        "begins_with_table" => format!(in alloc; "{}", types.begins_with(table)),
        "table_begins" => format!(in alloc; "{}", table.begins_with(types)),
        "check" => done(alloc, types.check(alloc)),
        "check_table" => done(alloc, table.check(alloc)),
        "define" => done(alloc, defined(types, table, argument)),
        "error" => refusal(alloc, &error_of(alloc, argument)),
        "row" => row_text(alloc, types, number_in(argument)),
        _ => row_of(alloc, types, word, argument),
    }
}

// Whether a call was done, or its refusal.
fn done(alloc: Global, answer: Result<(), TypesError>) -> Result<String, AllocError> {
    match answer {
        Ok(()) => String::from_str(alloc, "done"),
        Err(error) => refusal(alloc, &error),
    }
}

// Defines a row as a row of the other table is.
fn defined(types: &mut Types, table: &Types, argument: &str) -> Result<(), TypesError> {
    let (n, row) = call_in(argument);
    match table.entry(number_in(row)) {
        Some(entry) => types.define(number_in(n), entry.clone()?),
        None => Ok(()),
    }
}

fn error_of(alloc: Global, name: &str) -> TypesError {
    match name {
        "OutOfMemory" => TypesError::OutOfMemory,
        "UndefinedType" => TypesError::UndefinedType(1),
        "RepeatedName" => TypesError::RepeatedName(2, String::new(alloc)),
        "DirectCycle" => TypesError::DirectCycle(3),
        "EmptyCycle" => TypesError::EmptyCycle(4),
        "AlreadyDefined" => TypesError::AlreadyDefined(5),
        _ => TypesError::UnknownType(6),
    }
}

// The row that a call makes, or its refusal.
fn row_of(
    alloc: Global,
    types: &mut Types,
    word: &str,
    argument: &str,
) -> Result<String, AllocError> {
    match made(alloc, types, word, argument) {
        Ok(n) => row_text(alloc, types, n),
        Err(error) => refusal(alloc, &error),
    }
}

// The number of a row, its name and its id, by which it is found, and where it stands.
fn row_text(alloc: Global, types: &Types, n: TypeNo) -> Result<String, AllocError> {
    let id = types.id(n).unwrap_or("");
    let name = types.name(n).unwrap_or("");
    let place = match types.entry(n) {
        Some(entry) if entry.inline => "inline",
        Some(_) => "referenced",
        None => "undefined",
    };
    match types.find(id) {
        Some(n) => format!(in alloc; "{n} {name} {place} {id}"),
        None => String::from_str(alloc, "no row"),
    }
}

fn made(
    alloc: Global,
    types: &mut Types,
    word: &str,
    argument: &str,
) -> Result<TypeNo, TypesError> {
    let (first, second) = call_in(argument);
    let n = number_in(first);
    let m = number_in(second);
    match word {
        "option" => types.option(alloc, n),
        "seq" => types.seq(alloc, n),
        "set" => types.set(alloc, n),
        "array" => types.array(alloc, n, u64::try_from(m).unwrap_or(0)),
        "up_to" => types.up_to(alloc, n, u64::try_from(m).unwrap_or(0)),
        "tuple" => types.tuple(alloc, vec![in alloc; n, m]?),
        "unit" => types.tuple(alloc, Vec::new(alloc)),
        "result" => types.result(alloc, n, m),
        "bound" => types.bound(alloc, n),
        "range" => types.range(alloc, n),
        "either" => types.either(alloc, n, m),
        "reserve" => reserved(alloc, types, first, second),
        "formatted" => formatted(alloc, types, first, second),
        _ => made_of_none(alloc, types, word, first),
    }
}

fn reserved(alloc: Global, types: &mut Types, id: &str, name: &str) -> Result<TypeNo, TypesError> {
    let id = String::from_str(alloc, id)?;
    let name = String::from_str(alloc, name)?;
    types.reserve(id, name)
}

// A row of texts, by its id, and its name and format.
fn formatted(alloc: Global, types: &mut Types, id: &str, rest: &str) -> Result<TypeNo, TypesError> {
    let (name, format) = call_in(rest);
    let id = String::from_str(alloc, id)?;
    let name = String::from_str(alloc, name)?;
    let format = String::from_str(alloc, format)?;
    types.formatted(alloc, id, name, format)
}

// A row that leads to no other.
fn made_of_none(
    alloc: Global,
    types: &mut Types,
    word: &str,
    kind: &str,
) -> Result<TypeNo, TypesError> {
    match word {
        "int" => types.int(alloc, kind_of(kind)),
        "non_zero" => types.non_zero(alloc, kind_of(kind)),
        "null" => types.null(alloc),
        "bool" => types.bool(alloc),
        "number" => types.number(alloc),
        "char" => types.char(alloc),
        "any" => types.any(alloc),
        "text" => types.text(alloc),
        "bytes" => types.bytes(alloc),
        "schema" => types.schema(alloc),
        "duration" => types.duration(alloc),
        _ => types.system_time(alloc),
    }
}

fn kind_of(name: &str) -> IntKind {
    match name {
        "i8" => IntKind::I8,
        "i16" => IntKind::I16,
        "i32" => IntKind::I32,
        "i64" => IntKind::I64,
        "i128" => IntKind::I128,
        "isize" => IntKind::Isize,
        "u8" => IntKind::U8,
        "u16" => IntKind::U16,
        "u32" => IntKind::U32,
        "u64" => IntKind::U64,
        "u128" => IntKind::U128,
        _ => IntKind::Usize,
    }
}
