//! Whether values belong to rows of a table, decided from the table.
use crate::steps::parts::{Steps, call_in, first_wrong, table_of};
use schemars::Contract;
use schemars::types::Types;
use schemars_belonging::belongs;
use schemars_validate::PatternList;
use serde_json::Value;
use std::alloc::{AllocError, Global};

/// The first wrong step. A step is the number of a row, and a value.
pub(crate) fn fault_in(
    alloc: Global,
    text: &str,
    steps: &[&str],
) -> Result<Option<String>, AllocError> {
    match table_of(alloc, text)? {
        Some(types) => first_wrong(alloc, &mut Rows { types }, steps),
        None => Ok(Some(String::from_str(alloc, "no table")?)),
    }
}

// The rows that values are held against.
#[derive(Drop)]
struct Rows {
    types: Types,
}

impl Steps for Rows {
    fn told(&mut self, alloc: Global, call: &str) -> Result<String, AllocError> {
        let (row, text) = call_in(call);
        match (row.parse::<usize>(), Value::from_str(alloc, text)) {
            (Ok(n), Ok(value)) => told_of(alloc, &self.types, n, &value),
            _ => String::from_str(alloc, "a row and a value are asked for"),
        }
    }
}

// Tells whether a value belongs to a row, for reading and for writing.
fn told_of(alloc: Global, types: &Types, n: usize, value: &Value) -> Result<String, AllocError> {
    let none = PatternList {
        pairs: Vec::new(alloc),
    };
    let read = belongs(alloc, types, n, Contract::Deserialize, value, &none)?;
    let written = belongs(alloc, types, n, Contract::Serialize, value, &none)?;
    format!(in alloc; "read {read}, written {written}")
}
