//! What an implementation of `AgreesAsDescribed` promises.
ghost use Rattle.std.specs.Prelude.{◌≡◌, ℕ, List, Some};
ghost use Rattle.schemars_accepted.specs.Words.{Text, Row, place_of, IsChecked, Dictionary, Told, IsIn, AreAsTold};

use schemars_agreement::Agrees;
use schemars_impls::JsonSchema;

/// A type that agrees with the row that it describes.
pub trait AgreesAsDescribed: Agrees + JsonSchema {
    // What the type tells of its row and of those of its parts, by their ids.
    ghost tells: { List (Text × Told) };

    // The dictionary tells the rows of the type and of its parts.
    ghost is_told: { Dictionary → Type 0 };

    // The type is in each such dictionary.
    ghost is_in: { (d : Dictionary) → is_told d → IsIn Self.says d };

    // The row with the type's id is one that describes it.
    ghost described: { (d : Dictionary) (rows : List Row) (n : ℕ) → is_told d
        → AreAsTold d.told rows → IsChecked rows → place_of Self.says.id rows ≡ Some n → Self.is_row rows n };
}
