//! Fields of the structs that tables have calls for.
ghost use Rattle.std.specs.Prelude.{◌≡◌, [], ◌∷◌, false, IfOk};
ghost use Rattle.schemars_shapes.specs.Shape.{bare_fields, field_of, fields_of, needed};

use schemars_shapes::{Field, Fields, Required, TypeNo};
use serde_json::Map;
use std::alloc::{AllocError, Global};

/// Two fields without notes that have to be there, and any others beside them.
pub fn two_needed(
    alloc: Global,
    first: &str,
    of_first: TypeNo,
    second: &str,
    of_second: TypeNo,
) -> Result<Fields, AllocError>
    ensures { IfOk result (λ f. fields_of f
        ≡ bare_fields (needed first.now of_first ∷ needed second.now of_second ∷ []) false) }
{
    let first = needed_field(alloc, first, of_first)?;
    let second = needed_field(alloc, second, of_second)?;
    Ok(Fields {
        list: vec![in alloc; first, second]?,
        flatten: Vec::new(alloc),
        closed: false,
    })
}

// A field that has to be there, without notes.
fn needed_field(alloc: Global, name: &str, ty: TypeNo) -> Result<Field, AllocError>
    ensures { IfOk result (λ f. field_of f ≡ needed name.now ty) }
{
    Ok(Field {
        name: String::from_str(alloc, name)?,
        ty,
        required: Required {
            deserialize: true,
            serialize: true,
        },
        notes: Map::new(alloc),
    })
}
