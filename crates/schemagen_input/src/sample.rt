//! Example values, as JSON gives them.
ghost use Rattle.std.specs.Prelude.{◌≡◌, Some, None, Err, IfOk, IfErr};
ghost use Rattle.schemagen_input.specs.Words.{float, view, number_view, items_view, members_view, example_of, examples_view, entries_view, sample_json, sample_input, number_input, items_input, members_input, IsAsRead};

use schemars_sample::Sample;
use serde_json::{Map, Number, Value};
use std::alloc::{AllocError, AllocFailed, Global};

/// Why a JSON value is not an example.
#[derive(Clone, Copy, Debug, PartialEq, Eq, Drop)]
pub enum SampleError {
    /// Memory ran out.
    OutOfMemory,
    /// A float is not between -2^63 and 2^64. It may stand for a whole number whose last digits were
    /// lost when it was read.
    NotWhole,
}

impl From<AllocError> for SampleError {
    ghost use Rattle.std.specs.Prelude.{◌≡◌};
    ghost use Rattle.schemagen_input.specs.declared.sample.SampleError.TheVariants.{OutOfMemory};

    ghost from_gives = { λ _ e. e ≡ OutOfMemory };

    fn from(_e: AllocError) -> SampleError {
        SampleError::OutOfMemory
    }
}

impl<T: Drop> From<AllocFailed<T>> for SampleError {
    ghost use Rattle.std.specs.Prelude.{◌≡◌};
    ghost use Rattle.schemagen_input.specs.declared.sample.SampleError.TheVariants.{OutOfMemory};

    ghost from_gives = { λ _ e. e ≡ OutOfMemory };

    fn from(_e: AllocFailed<T>) -> SampleError {
        SampleError::OutOfMemory
    }
}

/// The example that a JSON value is: null is a unit, a list a sequence, an object a map whose
/// entries are given one by one. The JSON of the example of a value that was read from a text is
/// that value again.
///
/// # Errors
///
/// `NotWhole` if a float in it is not between -2^63 and 2^64, and `OutOfMemory`.
#[cycle(sample)]
pub fn read_sample(alloc: Global, value: &Value) -> Result<Sample, SampleError>
    ensures ok { IfOk result (λ x. sample_input (view value.now) ≡ Some (example_of x)) }
    ensures same { IfOk result (λ x. IsAsRead (view value.now)
        → sample_json (example_of x) ≡ Some (view value.now)) }
    ensures not_whole { result ≡ Err SampleError.NotWhole → sample_input (view value.now) ≡ None }
{
    match value {
        Value::Null => Ok(Sample::Unit),
        Value::Bool(b) => Ok(Sample::Bool(*b)),
        Value::Number(n) => read_number(*n),
        Value::String(s) => Ok(Sample::Str(s.clone()?)),
        Value::Array(items) => Ok(Sample::Seq(read_items(alloc, items)?)),
        Value::Object(members) => Ok(Sample::Map(read_members(alloc, members)?)),
    }
}

fn read_number(number: Number) -> Result<Sample, SampleError>
    ensures ok { IfOk result (λ x. number_input (number_view number) ≡ Some (example_of x)) }
    ensures err { IfErr result (λ e. e ≡ SampleError.NotWhole × number_input (number_view number) ≡ None) }
{
    match (number.as_u64(), number.as_i64()) {
        (Some(n), _) => Ok(Sample::UInt(n as u128)),
        (None, Some(n)) => Ok(Sample::Int(n as i128)),
        (None, None) => match number.as_f64() {
            Some(x) => read_float(x),
            None => Err(SampleError::NotWhole),
        },
    }
}

fn read_float(x: f64) -> Result<Sample, SampleError>
    ensures ok { IfOk result (λ s. number_input (float x) ≡ Some (example_of s)) }
    ensures err { IfErr result (λ e. e ≡ SampleError.NotWhole × number_input (float x) ≡ None) }
{
    if -9223372036854775808.0 < x && x < 18446744073709551616.0 {
        Ok(Sample::Float(x))
    } else {
        Err(SampleError::NotWhole)
    }
}

#[cycle(sample)]
#[tactic(auto, using(crate::proofs::Samples::more_examples, crate::proofs::Samples::all_examples))]
fn read_items(alloc: Global, items: &[Value]) -> Result<Vec<Sample>, SampleError>
    ensures ok { IfOk result (λ v. items_input (items_view items.now)
        ≡ Some (examples_view v.items)) }
    ensures not_whole { result ≡ Err SampleError.NotWhole
        → items_input (items_view items.now) ≡ None }
{
    let mut samples = Vec::new(alloc);
    for item in items {
        samples.push(read_sample(alloc, item)?)?;
    }
    Ok(samples)
}

#[cycle(sample)]
#[tactic(auto, using(crate::proofs::Samples::more_entries, crate::proofs::Samples::all_entries))]
fn read_members(
    alloc: Global,
    members: &Map<String, Value>,
) -> Result<Vec<(String, Sample)>, SampleError>
    ensures ok { IfOk result (λ v. members_input (members_view members.now.entries)
        ≡ Some (entries_view v.items)) }
    ensures not_whole { result ≡ Err SampleError.NotWhole
        → members_input (members_view members.now.entries) ≡ None }
{
    let mut entries = Vec::new(alloc);
    for (key, value) in members.iter() {
        entries.push((key.clone()?, read_sample(alloc, value)?))?;
    }
    Ok(entries)
}
