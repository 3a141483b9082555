//! An enum that is not tagged.
ghost use Rattle.std.specs.Prelude.{◌≡◌, codes, true};
ghost use Rattle.schemars_shapes.specs.Shape.{by_nothing};
ghost use Rattle.schemars_written.specs.Fits.{HasUnit, HasNewtype, HasTuple, HasStruct};
ghost use Rattle.example_agreement.specs.Orders.{amount_writes, IsAmount, IsAmountRow, IsU64, BetweenItems, NameField};
ghost use Rattle.example_agreement.specs.OrderLaws.{amount_law};

use schemars_agreement::{Agrees, is_field, own_fields, untagged_variant};
use schemars_types::{Payload, TypeNo, Types};
use serde::{Described, Serialize, Serializer};

/// How much there is of something.
#[derive(Drop)]
pub enum Amount {
    Unknown,
    Count(u64),
    Between(u64, u64),
    Named { name: String },
}

impl Described for Amount {
    ghost writes = { amount_writes };
}

impl Serialize for Amount {
    fn serialize<S: Serializer>(&self, out: &mut S) -> Result<(), S::Error> {
        match self {
            Amount::Unknown => out.unit(),
            Amount::Count(count) => count.serialize(out),
            Amount::Between(least, most) => (*least, *most).serialize(out),
            Amount::Named { name } => {
                out.begin_map(Some(1))?;
                out.key("name")?;
                name.serialize(out)?;
                out.end_map()
            }
        }
    }
}

impl Agrees for Amount {
    ghost valid = { IsAmount };

    ghost is_row = { IsAmountRow };

    ghost agrees = { amount_law };

    fn has_row(types: &Types, n: TypeNo) -> bool {
        matches!(untagged_variant(types, n, "unknown"), Some(Payload::Unit))
            && has_count(types, n)
            && has_between(types, n)
            && has_named(types, n)
    }

    fn is_valid(&self) -> bool {
        match self {
            Amount::Unknown => true,
            Amount::Count(count) => count.is_valid(),
            Amount::Between(least, most) => least.is_valid() && most.is_valid(),
            Amount::Named { name } => name.is_valid(),
        }
    }
}

fn has_count(types: &Types, n: TypeNo) -> bool
    ensures { result ≡ true → HasNewtype types.now n by_nothing (codes "count") (IsU64 types.now) }
{
    match untagged_variant(types, n, "count") {
        Some(Payload::Newtype(m)) => u64::has_row(types, *m),
        _ => false,
    }
}

fn has_between(types: &Types, n: TypeNo) -> bool
    ensures { result ≡ true → HasTuple types.now n by_nothing (codes "between")
        (BetweenItems types.now) }
{
    match untagged_variant(types, n, "between") {
        Some(Payload::Tuple(parts)) => match parts.as_slice() {
            [least, most] => u64::has_row(types, *least) && u64::has_row(types, *most),
            _ => false,
        },
        _ => false,
    }
}

fn has_named(types: &Types, n: TypeNo) -> bool
    ensures { result ≡ true → HasStruct types.now n by_nothing (codes "named")
        (NameField types.now) }
{
    match untagged_variant(types, n, "named") {
        Some(Payload::Struct(fields)) => match own_fields(fields) {
            Some([name]) => is_field::<String>(types, name, "name"),
            _ => false,
        },
        _ => false,
    }
}
