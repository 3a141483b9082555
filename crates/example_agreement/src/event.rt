//! An enum that is tagged by the names of its variants.
ghost use Rattle.example_agreement.specs.Events.{event_writes, IsEvent, IsEventRow, IsText, MovedItems, JoinedFields};
ghost use Rattle.example_agreement.specs.EventLaws.{event_law};
ghost use Rattle.std.specs.Prelude.{◌≡◌, true, codes};
ghost use Rattle.schemars_shapes.specs.Shape.{by_name};
ghost use Rattle.schemars_written.specs.Fits.{HasUnit, HasNewtype, HasTuple, HasStruct};

use schemars_agreement::{Agrees, external_variant, is_field, own_fields};
use schemars_types::{Payload, TypeNo, Types};
use serde::{Case, Described, Serialize, Serializer};

/// What happened to a page.
#[derive(Drop)]
pub enum Event {
    Started,
    Renamed(String),
    Moved(i8, i8),
    Joined { name: String, age: Option<u8> },
}

impl Described for Event {
    ghost writes = { event_writes };
}

impl Serialize for Event {
    fn serialize<S: Serializer>(&self, out: &mut S) -> Result<(), S::Error> {
        match self {
            Event::Started => out.str_cased("started", Case::AsIs),
            Event::Renamed(name) => {
                out.begin_map(Some(1))?;
                out.variant_key("renamed", Case::AsIs)?;
                name.serialize(out)?;
                out.end_map()
            }
            Event::Moved(x, y) => {
                out.begin_map(Some(1))?;
                out.variant_key("moved", Case::AsIs)?;
                (*x, *y).serialize(out)?;
                out.end_map()
            }
            Event::Joined { name, age } => {
                out.begin_map(Some(1))?;
                out.variant_key("joined", Case::AsIs)?;
                out.begin_map(Some(2))?;
                out.key("name")?;
                name.serialize(out)?;
                out.key("age")?;
                age.serialize(out)?;
                out.end_map()?;
                out.end_map()
            }
        }
    }
}

impl Agrees for Event {
    ghost valid = { IsEvent };

    ghost is_row = { IsEventRow };

    ghost agrees = { event_law };

    fn has_row(types: &Types, n: TypeNo) -> bool {
        matches!(external_variant(types, n, "started"), Some(Payload::Unit))
            && has_renamed(types, n)
            && has_moved(types, n)
            && has_joined(types, n)
    }

    fn is_valid(&self) -> bool {
        match self {
            Event::Started => true,
            Event::Renamed(name) => name.is_valid(),
            Event::Moved(x, y) => x.is_valid() && y.is_valid(),
            Event::Joined { name, age } => name.is_valid() && age.is_valid(),
        }
    }
}

fn has_renamed(types: &Types, n: TypeNo) -> bool
    ensures { result ≡ true → HasNewtype types.now n by_name (codes "renamed") (IsText types.now) }
{
    match external_variant(types, n, "renamed") {
        Some(Payload::Newtype(m)) => String::has_row(types, *m),
        _ => false,
    }
}

fn has_moved(types: &Types, n: TypeNo) -> bool
    ensures { result ≡ true → HasTuple types.now n by_name (codes "moved")
        (MovedItems types.now) }
{
    match external_variant(types, n, "moved") {
        Some(Payload::Tuple(parts)) => match parts.as_slice() {
            [x, y] => i8::has_row(types, *x) && i8::has_row(types, *y),
            _ => false,
        },
        _ => false,
    }
}

fn has_joined(types: &Types, n: TypeNo) -> bool
    ensures { result ≡ true → HasStruct types.now n by_name (codes "joined")
        (JoinedFields types.now) }
{
    match external_variant(types, n, "joined") {
        Some(Payload::Struct(fields)) => match own_fields(fields) {
            Some([name, age]) => {
                is_field::<String>(types, name, "name") && is_field::<Option<u8>>(types, age, "age")
            }
            _ => false,
        },
        _ => false,
    }
}
