//! Schemas as data of any format.
use crate::schema::Schema;
use serde::{
    Described, Deserialize, DeserializeOwned, Deserializer, Format, Serialize, Serializer,
};
use serde_json::Value;
use std::alloc::Global;

impl Described for Schema {}

/// The members of each schema object are sent in the order of `to_ordered_string`.
impl Serialize for Schema {
    fn serialize<S: Serializer>(&self, out: &mut S) -> Result<(), S::Error> {
        schemars_text::send_ordered(self.as_value(), out)
    }
}

/// A value that is neither an object nor a truth value is refused.
impl<'de> Deserialize<'de> for Schema {
    fn deserialize<F: Format>(
        alloc: Global,
        from: &mut Deserializer<'de, '_, F>,
    ) -> Result<Schema, F::Error> {
        DeserializeOwned::deserialize_owned(alloc, from)
    }
}

impl DeserializeOwned for Schema {
    fn deserialize_owned<F: Format>(
        alloc: Global,
        from: &mut Deserializer<'_, '_, F>,
    ) -> Result<Schema, F::Error> {
        let value: Value = DeserializeOwned::deserialize_owned(alloc, from)?;
        match Schema::try_from(value) {
            Ok(schema) => Ok(schema),
            Err(_) => Err(from.invalid()),
        }
    }
}
