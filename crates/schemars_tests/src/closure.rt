//! A closure among the transforms of settings.
use schemars::generate::{SchemaGenerator, SchemaSettings};
use schemars::transform::{FnTransform, GenTransform, TransformError};
use schemars::types::Types;
use schemars::{GenerateError, Schema};
use serde_json::Value;
use std::alloc::{AllocError, Global};
use std::test::Fail;

// The document of a row under Draft 7, whose last transform is a closure that puts a comment in.
fn commented_document(alloc: Global) -> Result<String, GenerateError> {
    let comment = move |schema: &mut Schema| -> Result<(), TransformError> {
        let key = String::from_str(alloc, "$comment")?;
        let text = Value::try_from_str(alloc, "by a closure")?;
        let _old = schema.insert(alloc, key, text)?;
        Ok(())
    };
    match Box::new(alloc, comment) {
        Ok(call) => document_by(alloc, FnTransform::new(call)),
        Err(e) => Err(AllocError::from(e).into()),
    }
}

fn document_by(alloc: Global, own: FnTransform) -> Result<String, GenerateError> {
    let settings = SchemaSettings::draft07(alloc)?.with_transform(GenTransform::Own(own))?;
    let mut types = Types::new(alloc);
    let row = types.bool(alloc)?;
    let generator = SchemaGenerator::with_types(alloc, settings, types)?;
    let schema = generator.into_root_schema_for_type(alloc, row)?;
    Ok(schema.to_ordered_string(alloc)?)
}

const COMMENTED: &str =
    r#"{"$schema":"http://json-schema.org/draft-07/schema#","title":"boolean","type":"boolean","$comment":"by a closure"}"#;

#[test]
fn closures_are_transforms_of_settings(rt: HostRuntime) -> Result<(), Fail> {
    let text = commented_document(rt.alloc())?;
    assert_eq!(rt; text.as_str(), COMMENTED);
    Ok(())
}
