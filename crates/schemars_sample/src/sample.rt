//! Example values.

/// An example value, in the data model of serde's serializers. Structs, and variants of enums, have
/// their names first.
///
/// ```
/// let sample = Sample::Tuple(vec![in alloc; Sample::Bool(true), Sample::UInt(1)]?);
/// let schema = schema_for_value!(in alloc; sample)?;
/// ```
#[derive(Drop)]
pub enum Sample {
    Bool(bool),
    Int(i128),
    UInt(u128),
    /// a float; one that is not finite has no JSON form
    Float(f64),
    Char(char),
    Str(String),
    Bytes(Vec<u8>),
    /// a text that a value was displayed as
    CollectStr(String),
    None,
    Some(Box<Sample>),
    Unit,
    UnitStruct(String),
    UnitVariant(String),
    NewtypeStruct(String, Box<Sample>),
    NewtypeVariant(String, Box<Sample>),
    Seq(Vec<Sample>),
    Tuple(Vec<Sample>),
    TupleStruct(String, Vec<Sample>),
    TupleVariant(String, Vec<Sample>),
    /// a map whose entries are given one by one
    Map(Vec<(String, Sample)>),
    /// a map that is given as a whole
    CollectMap(Vec<(String, Sample)>),
    Struct(String, Vec<(String, Sample)>),
    StructVariant(String, Vec<(String, Sample)>),
}
