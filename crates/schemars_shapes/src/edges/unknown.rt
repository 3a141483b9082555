//! Numbers that are not rows of a table.
ghost use Rattle.std.specs.Prelude.{◌≡◌, nat_le, find};

use crate::shape::TypeNo;

/// The first of these numbers that is not a row of a table of this length.
pub fn first_unknown_among(numbers: &[TypeNo], len: usize) -> Option<TypeNo>
    ensures { result ≡ find (λ n. nat_le len n) numbers.now }
{
    for n in numbers {
        if len <= *n {
            return Some(*n);
        }
    }
    None
}
