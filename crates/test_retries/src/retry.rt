//! Calls that are made again.
use crate::stop::Stop;
use schemars::Schema;
use schemars::schema::SinkOf;
use std::alloc::{Alloc, Global};
use std::io;
use std::io::Print;

/// Makes a call, and makes it again where memory was refused.
pub(crate) fn again<T: Drop, F: Fn() -> Result<T, Stop>>(call: F) -> Result<T, Stop>
    requires { F.IsAlwaysCallable call }
{
    match call() {
        Err(Stop::Memory) => call(),
        answer => answer,
    }
}

/// Stops where a refused call has changed something.
pub(crate) fn expect_same(rt: &impl Print, is_same: bool, call: &str) -> Result<(), Stop> {
    if is_same {
        return Ok(());
    }
    println!(rt; "changed: {call}")?;
    Err(Stop::Changed)
}

/// Writes a schema on a line. Nothing of it is written where memory is refused.
pub(crate) fn show<R: Alloc<A = Global> + Print>(rt: &R, schema: &Schema) -> Result<(), Stop> {
    again(|| write(rt, schema))?;
    println!(rt; "")?;
    Ok(())
}

fn write<R: Alloc<A = Global> + Print>(rt: &R, schema: &Schema) -> Result<(), Stop> {
    Ok(schema.write_ordered(&mut SinkOf::new(io::writer(rt)))?)
}
