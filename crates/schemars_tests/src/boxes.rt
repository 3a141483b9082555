//! User-defined transforms of two types in one list.
use schemars::transform::{GenTransform, Transform, TransformError};
use schemars::types::{TypeNo, Types};
use schemars::{GenerateError, Schema, SchemaGenerator, SchemaSettings};
use serde_json::Value;
use std::alloc::{AllocError, Global};
use std::test::Fail;

// Inserts a comment.
#[derive(Drop)]
struct Commenting {
    text: &'static str,
}

impl Transform for Commenting {
    ghost makes = { λ t s r u v. Unit {0} };

    fn transform(&mut self, alloc: Global, schema: &mut Schema) -> Result<(), TransformError> {
        let key = String::from_str(alloc, "$comment")?;
        let text = Value::try_from_str(alloc, self.text)?;
        schema.insert(alloc, key, text)?;
        Ok(())
    }
}

// Counts its calls, and inserts their number as `x-n`.
#[derive(Drop)]
struct Counting {
    calls: usize,
}

impl Transform for Counting {
    ghost makes = { λ t s r u v. Unit {0} };

    fn transform(&mut self, alloc: Global, schema: &mut Schema) -> Result<(), TransformError> {
        self.calls = self.calls.saturating_add(1);
        let key = String::from_str(alloc, "x-n")?;
        schema.insert(alloc, key, Value::from(self.calls))?;
        Ok(())
    }
}

// Refuses after so many schemas.
#[derive(Drop)]
struct Refusing {
    left: usize,
}

impl Transform for Refusing {
    ghost makes = { λ t s r u v. Unit {0} };

    fn transform(&mut self, _alloc: Global, _schema: &mut Schema) -> Result<(), TransformError> {
        if self.left == 0 {
            return Err(TransformError::Own(3));
        }
        self.left -= 1;
        Ok(())
    }
}

// A generator, and the row whose documents it makes.
#[derive(Drop)]
struct Service {
    generator: SchemaGenerator,
    row: TypeNo,
}

impl Service {
    // Puts a built-in transform in the place of the last.
    fn replace_last(&mut self) {
        if let Some(last) = self.generator.transforms_mut().last_mut() {
            *last = GenTransform::SetSingleExample(Default::default());
        }
    }

    fn text(&mut self, alloc: Global) -> Result<String, AllocError> {
        match self.generator.root_schema_for_type(alloc, self.row) {
            Ok(schema) => schema.to_ordered_string(alloc),
            Err(error) => format!(in alloc; "{} {error}", error.code()),
        }
    }
}

fn service_of(alloc: Global, settings: SchemaSettings) -> Result<Service, GenerateError> {
    let mut types = Types::new(alloc);
    let row = types.bool(alloc)?;
    let generator = SchemaGenerator::with_types(alloc, settings, types)?;
    Ok(Service { generator, row })
}

// The texts of a document, of a refusal, and of a document without the transform that refused.
fn texts(alloc: Global) -> Result<[String; 3], GenerateError> {
    let comment = Commenting { text: "in a box" };
    let counting = Counting { calls: 0 };
    let refusing = Refusing { left: 1 };
    let settings = SchemaSettings::draft07(alloc)?
        .with_transform(GenTransform::Own(Box::new(alloc, comment)?))?
        .with_transform(GenTransform::Own(Box::new(alloc, counting)?))?
        .with_transform(GenTransform::Own(Box::new(alloc, refusing)?))?;
    let mut service = service_of(alloc, settings)?;
    let first = service.text(alloc)?;
    let refused = service.text(alloc)?;
    service.replace_last();
    Ok([first, refused, service.text(alloc)?])
}

#[test]
fn boxes_hold_transforms_of_several_types(rt: HostRuntime) -> Result<(), Fail> {
    let [first, refused, third] = texts(rt.alloc())?;
    assert_eq!(rt; first.as_str(), FIRST);
    assert_eq!(rt; refused.as_str(), "10 Transform");
    assert_eq!(rt; third.as_str(), THIRD);
    Ok(())
}

const FIRST: &str =
    r#"{"$schema":"http://json-schema.org/draft-07/schema#","title":"boolean","type":"boolean","$comment":"in a box","x-n":1}"#;

// The refused call was counted too.
const THIRD: &str =
    r#"{"$schema":"http://json-schema.org/draft-07/schema#","title":"boolean","type":"boolean","$comment":"in a box","x-n":3}"#;
