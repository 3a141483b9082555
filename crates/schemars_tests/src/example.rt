use schemars::types::{IntKind, Types};
use schemars::{GenerateError, SchemaGenerator, SchemaSettings};
use std::alloc::Global;
use std::test::Fail;

// The JSON Schema of a byte or null.
fn optional_byte(alloc: Global) -> Result<String, GenerateError> {
    let mut types = Types::new(alloc);
    let byte = types.int(alloc, IntKind::U8)?;
    let option = types.option(alloc, byte)?;
    let settings = SchemaSettings::draft2020_12(alloc);
    let generator = SchemaGenerator::with_types(alloc, settings, types)?;
    let schema = generator.into_root_schema_for_type(alloc, option)?;
    Ok(schema.to_ordered_string(alloc)?)
}

const OPTIONAL_BYTE: &str =
    r#"{"$schema":"https://json-schema.org/draft/2020-12/schema","title":"Nullable_uint8","type":["integer","null"],"format":"uint8","maximum":255,"minimum":0}"#;

#[test]
fn writes_the_schema_of_an_optional_byte(rt: HostRuntime) -> Result<(), Fail> {
    let text = optional_byte(rt.alloc())?;
    assert_eq!(rt; text.as_str(), OPTIONAL_BYTE);
    Ok(())
}
