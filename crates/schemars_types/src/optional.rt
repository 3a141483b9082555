//! Options of a table, and the rows inside them.
ghost use Rattle.std.specs.Prelude.{◌≡◌};
ghost use Rattle.schemars_types.specs.Edges.{option_at};
ghost use Rattle.schemars_types.specs.Effective.{without_options};

use crate::table::Types;
use schemars_shapes::TypeNo;

/// Returns the row inside row `n`, if row `n` is an Option.
pub fn row_inside(types: &Types, n: TypeNo) -> Option<TypeNo>
    ensures { result ≡ option_at types.now n }
{
    match types.entry(n) {
        Some(entry) => entry.shape.option(),
        None => None,
    }
}

/// Returns row `n` without the Options around it: the first row from there on that is none.
pub fn without_options(types: &Types, n: TypeNo) -> TypeNo
    ensures { result ≡ without_options types.now n }
{
    let mut at = n;
    for _step in 0..types.len() {
        let Some(inner) = row_inside(types, at) else {
            return at;
        };
        at = inner;
    }
    at
}
