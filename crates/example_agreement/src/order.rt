//! An enum with the names of its variants under a tag, and what they have under another key.
ghost use Rattle.std.specs.Prelude.{◌≡◌, Bool, codes, true};
ghost use Rattle.schemars_shapes.specs.Shape.{by_tag_and_content};
ghost use Rattle.schemars_written.specs.Fits.{HasUnit, HasNewtype, HasTuple, HasStruct};
ghost use Rattle.example_agreement.specs.Events.{MovedItems};
ghost use Rattle.example_agreement.specs.Orders.{order_writes, IsOrder, IsOrderRow, IsU32, WordsField};
ghost use Rattle.example_agreement.specs.OrderLaws.{order_law};

use schemars_agreement::{Agrees, adjacent_variant, is_field, own_fields};
use schemars_types::{Payload, TypeNo, Types};
use serde::{Case, Described, Serialize, Serializer};

/// What a machine is told to do.
#[derive(Drop)]
pub enum Order {
    Stop,
    Wait(u32),
    Move(i8, i8),
    Say { words: String },
}

impl Described for Order {
    ghost writes = { order_writes };
}

impl Serialize for Order {
    fn serialize<S: Serializer>(&self, out: &mut S) -> Result<(), S::Error> {
        match self {
            Order::Stop => {
                out.begin_map(Some(1))?;
                out.key("kind")?;
                out.str_cased("stop", Case::AsIs)?;
                out.end_map()
            }
            Order::Wait(seconds) => {
                out.begin_map(Some(2))?;
                out.key("kind")?;
                out.str_cased("wait", Case::AsIs)?;
                out.key("with")?;
                seconds.serialize(out)?;
                out.end_map()
            }
            Order::Move(x, y) => {
                out.begin_map(Some(2))?;
                out.key("kind")?;
                out.str_cased("move", Case::AsIs)?;
                out.key("with")?;
                (*x, *y).serialize(out)?;
                out.end_map()
            }
            Order::Say { words } => {
                out.begin_map(Some(2))?;
                out.key("kind")?;
                out.str_cased("say", Case::AsIs)?;
                out.key("with")?;
                out.begin_map(Some(1))?;
                out.key("words")?;
                words.serialize(out)?;
                out.end_map()?;
                out.end_map()
            }
        }
    }
}

impl Agrees for Order {
    ghost valid = { IsOrder };

    ghost is_row = { IsOrderRow };

    ghost agrees = { order_law };

    fn has_row(types: &Types, n: TypeNo) -> bool {
        matches!(
            adjacent_variant(types, n, "kind", "with", "stop"),
            Some(Payload::Unit)
        ) && has_wait(types, n)
            && has_move(types, n)
            && has_say(types, n)
    }

    fn is_valid(&self) -> bool {
        match self {
            Order::Stop => true,
            Order::Wait(seconds) => seconds.is_valid(),
            Order::Move(x, y) => x.is_valid() && y.is_valid(),
            Order::Say { words } => words.is_valid(),
        }
    }
}

fn has_wait(types: &Types, n: TypeNo) -> bool
    ensures { result ≡ true → (closed : Bool) × HasNewtype types.now n
        (by_tag_and_content (codes "kind") (codes "with") closed) (codes "wait") (IsU32 types.now) }
{
    match adjacent_variant(types, n, "kind", "with", "wait") {
        Some(Payload::Newtype(m)) => u32::has_row(types, *m),
        _ => false,
    }
}

fn has_move(types: &Types, n: TypeNo) -> bool
    ensures { result ≡ true → (closed : Bool) × HasTuple types.now n
        (by_tag_and_content (codes "kind") (codes "with") closed) (codes "move")
        (MovedItems types.now) }
{
    match adjacent_variant(types, n, "kind", "with", "move") {
        Some(Payload::Tuple(parts)) => match parts.as_slice() {
            [x, y] => i8::has_row(types, *x) && i8::has_row(types, *y),
            _ => false,
        },
        _ => false,
    }
}

fn has_say(types: &Types, n: TypeNo) -> bool
    ensures { result ≡ true → (closed : Bool) × HasStruct types.now n
        (by_tag_and_content (codes "kind") (codes "with") closed) (codes "say")
        (WordsField types.now) }
{
    match adjacent_variant(types, n, "kind", "with", "say") {
        Some(Payload::Struct(fields)) => match own_fields(fields) {
            Some([words]) => is_field::<String>(types, words, "words"),
            _ => false,
        },
        _ => false,
    }
}
