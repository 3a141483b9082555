//! An enum with the names of its variants under a tag, of which one has a struct.
ghost use Rattle.std.specs.Prelude.{◌≡◌, Bool, codes, true};
ghost use Rattle.schemars_shapes.specs.Shape.{by_tag};
ghost use Rattle.schemars_written.specs.Fits.{HasFields, HasUnit, HasNewtype};
ghost use Rattle.example_agreement.specs.Notes.{review_writes, IsReview, IsReviewRow, NoteFields};
ghost use Rattle.example_agreement.specs.NoteLaws.{review_law};

use crate::note::Note;
use schemars_agreement::{Agrees, internal_variant};
use schemars_types::{InternalPayload, TypeNo, Types};
use serde::{Case, Described, Serialize, Serializer};

/// What came back.
#[derive(Drop)]
pub enum Review {
    Missing,
    /// its fields stand beside the tag
    Given(Note),
}

impl Described for Review {
    ghost writes = { review_writes };
}

impl Serialize for Review {
    fn serialize<S: Serializer>(&self, out: &mut S) -> Result<(), S::Error> {
        match self {
            Review::Missing => {
                out.begin_map(Some(1))?;
                out.key("kind")?;
                out.str_cased("missing", Case::AsIs)?;
                out.end_map()
            }
            Review::Given(note) => {
                out.begin_map(Some(3))?;
                out.key("kind")?;
                out.str_cased("given", Case::AsIs)?;
                note.write_fields(out)?;
                out.end_map()
            }
        }
    }
}

impl Agrees for Review {
    ghost valid = { IsReview };

    ghost is_row = { IsReviewRow };

    ghost agrees = { review_law };

    fn has_row(types: &Types, n: TypeNo) -> bool {
        matches!(
            internal_variant(types, n, "kind", "missing"),
            Some(InternalPayload::Unit)
        ) && has_given(types, n)
    }

    fn is_valid(&self) -> bool {
        match self {
            Review::Missing => true,
            Review::Given(note) => note.is_valid(),
        }
    }
}

fn has_given(types: &Types, n: TypeNo) -> bool
    ensures { result ≡ true → (closed : Bool) × HasNewtype types.now n
        (by_tag (codes "kind") closed) (codes "given")
        (λ m. HasFields types.now m (NoteFields types.now)) }
{
    match internal_variant(types, n, "kind", "given") {
        Some(InternalPayload::Newtype(m)) => Note::has_row(types, *m),
        _ => false,
    }
}
