//! An enum with the names of its variants under a tag, beside their fields.
ghost use Rattle.std.specs.Prelude.{◌≡◌, Bool, codes, is_some, OnOk, string_bytes, true, ⊤};
ghost use Rattle.serde.specs.Event.{Logs, text, WritesOption};
ghost use Rattle.schemars_shapes.specs.Shape.{by_tag};
ghost use Rattle.schemars_written.specs.Gives.{Done, FieldIf};
ghost use Rattle.schemars_written.specs.Fits.{HasUnit, HasStruct};
ghost use Rattle.example_agreement.specs.Orders.{message_writes, IsMessageRow, TextFields};
ghost use Rattle.example_agreement.specs.OrderLaws.{message_law};

use schemars_agreement::{Agrees, internal_variant, is_field, is_optional_field, own_fields};
use schemars_types::{InternalPayload, TypeNo, Types};
use serde::{Case, Described, Serialize, Serializer};

/// What is sent.
#[derive(Drop)]
pub enum Message {
    Ping,
    Text { body: String, to: Option<String> },
}

impl Described for Message {
    ghost writes = { message_writes };
}

impl Serialize for Message {
    fn serialize<S: Serializer>(&self, out: &mut S) -> Result<(), S::Error> {
        match self {
            Message::Ping => {
                out.begin_map(Some(1))?;
                out.key("type")?;
                out.str_cased("ping", Case::AsIs)?;
                out.end_map()
            }
            Message::Text { body, to } => {
                out.begin_map(Some(if to.is_some() { 3 } else { 2 }))?;
                out.key("type")?;
                out.str_cased("text", Case::AsIs)?;
                out.key("body")?;
                body.serialize(out)?;
                write_to(to, out)?;
                out.end_map()
            }
        }
    }
}

fn write_to<S: Serializer>(to: &Option<String>, out: &mut S) -> Result<(), S::Error>
    ensures { OnOk result (FieldIf (is_some to.now) (codes "to")
        (WritesOption (λ s old new. Logs old new (text (string_bytes s))) to.now) Done
        (S.written out.old) (S.written out.new)) }
{
    if to.is_none() {
        return Ok(());
    }
    out.key("to")?;
    to.serialize(out)
}

impl Agrees for Message {
    ghost valid = { λ _. ⊤ };

    ghost is_row = { IsMessageRow };

    ghost agrees = { message_law };

    fn has_row(types: &Types, n: TypeNo) -> bool {
        matches!(
            internal_variant(types, n, "type", "ping"),
            Some(InternalPayload::Unit)
        ) && has_text(types, n)
    }

    fn is_valid(&self) -> bool {
        true
    }
}

fn has_text(types: &Types, n: TypeNo) -> bool
    ensures { result ≡ true → (closed : Bool) × HasStruct types.now n
        (by_tag (codes "type") closed) (codes "text") (TextFields types.now) }
{
    match internal_variant(types, n, "type", "text") {
        Some(InternalPayload::Struct(fields)) => match own_fields(fields) {
            Some([body, to]) => {
                is_field::<String>(types, body, "body")
                    && is_optional_field::<Option<String>>(types, to, "to")
            }
            _ => false,
        },
        _ => false,
    }
}
