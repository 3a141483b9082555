//! A run of the program over its words, a source and a sink.
ghost use Rattle.std.specs.Prelude.{◌≡◌, ◌≢◌, ◌⊎◌, ◌↔◌, ℕ, List, Some, None, true, Err, IsTrue, IfOk, IfErr, OnOk, [], ◌∷◌, ◌<◌, length};
ghost use Rattle.schemagen_run.specs.Vocabulary.{Consumes, IsAtEnd, view, members_view, some_own, IsAccepted, HasFault, settings_of, state, transforms_of, example_of, sample_json, is_table, sample_input, IsAsRead, GivesAll, IsTextOf, IsNoJson, IsBadTable, IsTableText, IsAcceptedText, IsNotedText, IsFaultyTable, IsRefusal, IsLineRefusal, settings_for, settings_of_dialect, transforms_of_dialect, fresh, IsLineOf, IsTableLine, IsUnplacedText, AreTaken, IsNotWhole, IsSampleText, IsSampleDocument, IsExampleLine, IsSampleLineOf, IsSampleLine, IsLineFor, WritesLine, RefusesWords, RefusesInput, RefusesDocument, WritesLineFor, RefusesOnlyOutside, IsOutputOf, IsFreshFor, IsValueFault, IsReadFault, IsTableFault, IsOutside, IsTypesFault, IsSampleFault, IsFault};
ghost use Rattle.schemagen_run.specs.declared.words.Dialect.TheVariants.{OpenApi3};

use crate::fault::{
    BAD_TABLE, DEFINITIONS_PATH, Fault, NOT_JSON, NOT_WHOLE, OUT_OF_MEMORY, READ, WRITE,
};
use crate::output::{Output, write_output};
use crate::streams::{ReadError, Sink, Source, read_all};
use crate::words::{Asked, Command, Dialect, command_in};
use schemagen_input::{SampleError, TextError, read_sample};
use schemars::generate::{SchemaGenerator, SchemaSettings};
use schemars::sample::Sample;
use schemars::transform::NoTransform;
use schemars::{GenerateError, Schema};
use schemars_types::{TypeNo, Types};
use serde_json::{Map, Value};
use std::alloc::{AllocError, Global};

/// Reads a table of types from the source, and writes the root document of its root to the sink; or
/// reads an example, and writes the root document of a schema that is made from it. The document is
/// in ordered text, with a newline at its end. For a table and OpenAPI it writes the definitions
/// that the root leads to, as one object.
///
/// The words are those after the program's name: `types`, a dialect, and, in either order,
/// `--inline` where rows are to be written in place and `--serialize` where the document is to be
/// for the values that are written; or `sample` and a dialect. The dialects are `2020-12`,
/// `2019-09`, `draft-07` and `openapi3`. Other words are refused first, with nothing read. Then a
/// run is refused where the source fails, where the bytes are not JSON, where the value is not a
/// table with a root, where the table has a fault, where the notes of its rows leave no place for
/// the definitions, where a float of an example is not between -2^63 and 2^64, and where the sink
/// fails, in this order. It may also run out of memory.
///
/// A run that is refused has written nothing, unless the sink has failed: that has taken a
/// beginning of the text. Another run returns what it has made.
pub fn run<S: Source, K: Sink>(
    alloc: Global,
    words: &[String],
    source: &mut S,
    sink: &mut K,
) -> Result<Output, Fault>
    ensures usage { RefusesWords words.now result source.old source.new }
    ensures input { RefusesInput words.now (S.left source.old) (S.left source.new)
        (S.has_failed source.new) result }
    ensures document { RefusesDocument words.now (S.left source.old) (S.left source.new) result }
    ensures output { WritesLineFor K.bytes K.has_failed (IsLineFor words.now) (S.left source.old)
        (S.left source.new) result sink.old sink.new }
    ensures faults { IfErr result IsFault }
    ensures promised { RefusesOnlyOutside words.now (S.left source.old) result }
{
    match command_in(words) {
        Some(Command::Types(asked)) => run_types(alloc, asked, source, sink),
        Some(Command::Sample(dialect)) => run_sample(alloc, dialect, source, sink),
        None => Err(Fault::Usage),
    }
}

// The document of a table's root.
fn run_types<S: Source, K: Sink>(
    alloc: Global,
    asked: Asked,
    source: &mut S,
    sink: &mut K,
) -> Result<Output, Fault>
    ensures read { (result ≡ Err (Fault.Refused READ)) ↔ IsTrue (S.has_failed source.new) }
    ensures not_json { result ≡ Err (Fault.Refused NOT_JSON)
        → GivesAll (S.left source.old) (S.left source.new) IsNoJson }
    ensures bad_table { result ≡ Err (Fault.Refused BAD_TABLE)
        → GivesAll (S.left source.old) (S.left source.new) IsBadTable }
    ensures faulty { IfErr result (λ e. IsTableFault e
        → GivesAll (S.left source.old) (S.left source.new) (IsFaultyTable e)) }
    ensures unplaced { result ≡ Err (Fault.Refused DEFINITIONS_PATH)
        → GivesAll (S.left source.old) (S.left source.new) (IsUnplacedText asked) }
    ensures output { WritesLineFor K.bytes K.has_failed (IsTableLine asked) (S.left source.old)
        (S.left source.new) result sink.old sink.new }
    ensures faults { IfErr result IsTypesFault }
    ensures accepted { (bytes : List ℕ) → S.left source.old ≡ Some bytes
        → IsAcceptedText bytes → IfErr result (λ e. IsOutside e
        ⊎ (e ≡ Fault.Refused DEFINITIONS_PATH)) }
    ensures noted { (bytes : List ℕ) → S.left source.old ≡ Some bytes → IsNotedText bytes
        → IfErr result IsOutside }
{
    let (types, root) = read_table(alloc, source)?;
    write_line(alloc, asked, types, root, sink)
}

// The document of an example.
fn run_sample<S: Source, K: Sink>(
    alloc: Global,
    dialect: Dialect,
    source: &mut S,
    sink: &mut K,
) -> Result<Output, Fault>
    ensures read { (result ≡ Err (Fault.Refused READ)) ↔ IsTrue (S.has_failed source.new) }
    ensures not_json { result ≡ Err (Fault.Refused NOT_JSON)
        → GivesAll (S.left source.old) (S.left source.new) IsNoJson }
    ensures not_whole { result ≡ Err (Fault.Refused NOT_WHOLE)
        → GivesAll (S.left source.old) (S.left source.new) IsNotWhole }
    ensures output { WritesLineFor K.bytes K.has_failed (IsSampleLine dialect) (S.left source.old)
        (S.left source.new) result sink.old sink.new }
    ensures faults { IfErr result IsSampleFault }
    ensures whole { (bytes : List ℕ) → S.left source.old ≡ Some bytes → IsSampleText bytes
        → IfErr result IsOutside }
{
    let value = read_value(alloc, source)?;
    write_sample_line(alloc, dialect, &value, sink)
}

// The table that the source's bytes are, and its root.
fn read_table<S: Source>(alloc: Global, source: &mut S) -> Result<(Types, TypeNo), Fault>
    ensures ok { IfOk result
        (λ t. GivesAll (S.left source.old) (S.left source.new) (IsTableText t.0 t.1)) }
    ensures table { IfOk result (λ t. is_table t.0 t.1 ≡ true) }
    ensures read { (result ≡ Err (Fault.Refused READ)) ↔ IsTrue (S.has_failed source.new) }
    ensures not_json { result ≡ Err (Fault.Refused NOT_JSON)
        → GivesAll (S.left source.old) (S.left source.new) IsNoJson }
    ensures bad_table { result ≡ Err (Fault.Refused BAD_TABLE)
        → GivesAll (S.left source.old) (S.left source.new) IsBadTable }
    ensures faults { IfErr result IsReadFault }
{
    let bytes = read_bytes(alloc, source)?;
    table_of(alloc, &bytes)
}

// The value that the source's bytes are the text of.
fn read_value<S: Source>(alloc: Global, source: &mut S) -> Result<Value, Fault>
    ensures ok { IfOk result
        (λ v. GivesAll (S.left source.old) (S.left source.new) (IsTextOf (view v))) }
    ensures read { (result ≡ Err (Fault.Refused READ)) ↔ IsTrue (S.has_failed source.new) }
    ensures not_json { result ≡ Err (Fault.Refused NOT_JSON)
        → GivesAll (S.left source.old) (S.left source.new) IsNoJson }
    ensures faults { IfErr result IsValueFault }
{
    let bytes = read_bytes(alloc, source)?;
    value_of(alloc, &bytes)
}

// All bytes that the source has left.
fn read_bytes<S: Source>(alloc: Global, source: &mut S) -> Result<Vec<u8>, Fault>
    ensures bytes { IfOk result (λ b. Consumes (S.left source.old) (S.left source.new) b.items) }
    ensures end { OnOk result (IsAtEnd (S.left source.new)) }
    ensures read { (result ≡ Err (Fault.Refused READ)) ↔ IsTrue (S.has_failed source.new) }
    ensures faults { IfErr result
        (λ e. (e ≡ Fault.Refused OUT_OF_MEMORY) ⊎ (e ≡ Fault.Refused READ)) }
{
    match read_all(alloc, source) {
        Ok(bytes) => Ok(bytes),
        Err(ReadError::OutOfMemory) => Err(Fault::Refused(OUT_OF_MEMORY)),
        Err(ReadError::Failed) => Err(Fault::Refused(READ)),
    }
}

// The table that is written in the bytes, and its root.
fn table_of(alloc: Global, bytes: &[u8]) -> Result<(Types, TypeNo), Fault>
    ensures ok { IfOk result (λ t. IsTableText t.0 t.1 bytes.now) }
    ensures table { IfOk result (λ t. is_table t.0 t.1 ≡ true) }
    ensures not_json { result ≡ Err (Fault.Refused NOT_JSON) → IsNoJson bytes.now }
    ensures bad_table { result ≡ Err (Fault.Refused BAD_TABLE) → IsBadTable bytes.now }
    ensures faults { IfErr result (λ e. (e ≡ Fault.Refused OUT_OF_MEMORY)
        ⊎ (e ≡ Fault.Refused NOT_JSON) ⊎ (e ≡ Fault.Refused BAD_TABLE)) }
{
    match schemagen_input::read_table(alloc, bytes) {
        Ok(table) => Ok(table),
        Err(TextError::OutOfMemory) => Err(Fault::Refused(OUT_OF_MEMORY)),
        Err(TextError::NotJson) => Err(Fault::Refused(NOT_JSON)),
        Err(TextError::BadTable) => Err(Fault::Refused(BAD_TABLE)),
    }
}

// The value that is written in the bytes.
fn value_of(alloc: Global, bytes: &[u8]) -> Result<Value, Fault>
    ensures ok { IfOk result (λ v. IsTextOf (view v) bytes.now) }
    ensures not_json { result ≡ Err (Fault.Refused NOT_JSON) → IsNoJson bytes.now }
    ensures faults { IfErr result
        (λ e. (e ≡ Fault.Refused OUT_OF_MEMORY) ⊎ (e ≡ Fault.Refused NOT_JSON)) }
{
    let Ok(text) = std::str::from_utf8(bytes) else {
        return Err(Fault::Refused(NOT_JSON));
    };
    match Value::from_str(alloc, text) {
        Ok(value) => Ok(value),
        Err(error) if error.is_memory() => Err(Fault::Refused(OUT_OF_MEMORY)),
        Err(_) => Err(Fault::Refused(NOT_JSON)),
    }
}

// The settings of a dialect.
fn settings_of_dialect(
    alloc: Global,
    dialect: Dialect,
) -> Result<SchemaSettings<NoTransform>, AllocError>
    ensures settings { IfOk result (λ s. settings_of s ≡ settings_of_dialect dialect) }
    ensures transforms { IfOk result (λ s. s.transforms.items ≡ transforms_of_dialect dialect) }
{
    match dialect {
        Dialect::Draft2020_12 => Ok(SchemaSettings::draft2020_12(alloc)),
        Dialect::Draft2019_09 => SchemaSettings::draft2019_09(alloc),
        Dialect::Draft07 => SchemaSettings::draft07(alloc),
        Dialect::OpenApi3 => SchemaSettings::openapi3(alloc),
    }
}

// The settings that are asked for.
fn settings_for(alloc: Global, asked: Asked) -> Result<SchemaSettings<NoTransform>, AllocError>
    ensures settings { IfOk result (λ s. settings_of s ≡ settings_for asked) }
    ensures transforms { IfOk result (λ s. s.transforms.items
        ≡ transforms_of_dialect asked.dialect) }
{
    let mut settings = settings_of_dialect(alloc, asked.dialect)?;
    settings.contract = asked.contract;
    settings.inline_subschemas = asked.inlines;
    Ok(settings)
}

// Writes the line of this row.
fn write_line<K: Sink>(
    alloc: Global,
    asked: Asked,
    types: Types,
    root: TypeNo,
    sink: &mut K,
) -> Result<Output, Fault>
    requires { is_table types root ≡ true }
    ensures written { WritesLine K.bytes K.has_failed
        (λ line. IsAccepted types × IsLineOf asked types root line) result sink.old sink.new }
    ensures refused { IfErr result
        (λ e. (e ≡ Fault.Refused WRITE) ⊎ IsLineRefusal asked types root e) }
{
    let output = output_of(alloc, asked, types, root)?;
    write_output(output, sink)
}

// A generator with the requested settings, over this table.
fn generator_over(
    alloc: Global,
    asked: Asked,
    types: Types,
) -> Result<SchemaGenerator<NoTransform>, GenerateError>
    ensures fresh { IfOk result (λ g. state g ≡ fresh asked types) }
    ensures transforms { IfOk result (λ g. transforms_of g ≡ transforms_of_dialect asked.dialect) }
    ensures accepted { OnOk result (IsAccepted types) }
    ensures refused { IfErr result (λ e. (e ≡ GenerateError.OutOfMemory) ⊎ HasFault types e) }
    ensures only_memory { IsAccepted types → IfErr result (λ e. e ≡ GenerateError.OutOfMemory) }
{
    let settings = settings_for(alloc, asked)?;
    SchemaGenerator::with_types(alloc, settings, types)
}

// What is to be written for this row.
fn output_of(
    alloc: Global,
    asked: Asked,
    types: Types,
    root: TypeNo,
) -> Result<Output, GenerateError>
    requires { is_table types root ≡ true }
    ensures ok { IfOk result (IsOutputOf asked types root) }
    ensures accepted { OnOk result (IsAccepted types) }
    ensures refused { IfErr result (IsRefusal asked types root) }
{
    let generator = generator_over(alloc, asked, types)?;
    generated(alloc, asked, generator, root)
}

// What the generator makes for this row: for a draft the text of its root document, and for OpenAPI
// that of the definitions that it leads to.
fn generated(
    alloc: Global,
    asked: Asked,
    generator: SchemaGenerator<NoTransform>,
    root: TypeNo,
) -> Result<Output, GenerateError>
    requires { IsFreshFor asked generator root }
    ensures ok { IfOk result (IsOutputOf asked generator.rows root) }
    ensures refused { IfErr result (IsRefusal asked generator.rows root) }
{
    match asked.dialect {
        Dialect::OpenApi3 => definitions_of(alloc, asked, generator, root),
        Dialect::Draft2020_12 => text_of(alloc, asked, generator, root),
        Dialect::Draft2019_09 => text_of(alloc, asked, generator, root),
        Dialect::Draft07 => text_of(alloc, asked, generator, root),
    }
}

// The text of the root document of this row.
fn text_of(
    alloc: Global,
    asked: Asked,
    generator: SchemaGenerator<NoTransform>,
    root: TypeNo,
) -> Result<Output, GenerateError>
    requires draft { asked.dialect ≢ OpenApi3 }
    requires fresh { IsFreshFor asked generator root }
    ensures ok { IfOk result (IsOutputOf asked generator.rows root) }
    ensures refused { IfErr result (IsRefusal asked generator.rows root) }
{
    let text = generator.into_root_text_for_type(alloc, root)?;
    Ok(Output::Text(text))
}

// The text of the definitions that this row leads to, through the transforms.
fn definitions_of(
    alloc: Global,
    asked: Asked,
    generator: SchemaGenerator<NoTransform>,
    root: TypeNo,
) -> Result<Output, GenerateError>
    requires openapi3 { asked.dialect ≡ OpenApi3 }
    requires fresh { IsFreshFor asked generator root }
    ensures ok { IfOk result (IsOutputOf asked generator.rows root) }
    ensures refused { IfErr result (IsRefusal asked generator.rows root) }
{
    let text = generator.into_definitions_text_for_type(alloc, root)?;
    Ok(Output::Text(text))
}

// Writes the line of the document of the example that the value is.
fn write_sample_line<K: Sink>(
    alloc: Global,
    dialect: Dialect,
    value: &Value,
    sink: &mut K,
) -> Result<Output, Fault>
    ensures written { IsAsRead (view value.now) → WritesLine K.bytes K.has_failed
        (IsSampleLineOf dialect (view value.now)) result sink.old sink.new }
    ensures not_whole { result ≡ Err (Fault.Refused NOT_WHOLE)
        → sample_input (view value.now) ≡ None }
    ensures faults { IfErr result (λ e. (e ≡ Fault.Refused WRITE)
        ⊎ (e ≡ Fault.Refused OUT_OF_MEMORY) ⊎ (e ≡ Fault.Refused NOT_WHOLE)) }
{
    let sample = sample_of(alloc, value)?;
    write_example(alloc, dialect, &sample, sink)
}

// Writes the line of the document of the example.
fn write_example<K: Sink>(
    alloc: Global,
    dialect: Dialect,
    sample: &Sample,
    sink: &mut K,
) -> Result<Output, Fault>
    ensures written { WritesLine K.bytes K.has_failed
        (IsExampleLine dialect (example_of sample.now)) result sink.old sink.new }
    ensures faults { IfErr result
        (λ e. (e ≡ Fault.Refused WRITE) ⊎ (e ≡ Fault.Refused OUT_OF_MEMORY)) }
{
    let document = sample_document(alloc, dialect, sample)?;
    write_output(Output::Document(document), sink)
}

// The example that the value is.
fn sample_of(alloc: Global, value: &Value) -> Result<Sample, Fault>
    ensures ok { IfOk result (λ x. sample_input (view value.now) ≡ Some (example_of x)) }
    ensures same { IfOk result (λ x. IsAsRead (view value.now)
        → sample_json (example_of x) ≡ Some (view value.now)) }
    ensures not_whole { result ≡ Err (Fault.Refused NOT_WHOLE)
        → sample_input (view value.now) ≡ None }
    ensures faults { IfErr result (λ e. (e ≡ Fault.Refused OUT_OF_MEMORY)
        ⊎ (e ≡ Fault.Refused NOT_WHOLE)) }
{
    match read_sample(alloc, value) {
        Ok(sample) => Ok(sample),
        Err(SampleError::OutOfMemory) => Err(Fault::Refused(OUT_OF_MEMORY)),
        Err(SampleError::NotWhole) => Err(Fault::Refused(NOT_WHOLE)),
    }
}

// The root document of the example.
fn sample_document(
    alloc: Global,
    dialect: Dialect,
    sample: &Sample,
) -> Result<Schema, GenerateError>
    ensures ok { IfOk result (IsSampleDocument dialect (example_of sample.now)) }
    ensures only_memory { IfErr result (λ e. e ≡ GenerateError.OutOfMemory) }
{
    let settings = settings_of_dialect(alloc, dialect)?;
    let generator = SchemaGenerator::new(alloc, settings);
    generator.into_root_schema_for_value(alloc, sample)
}
