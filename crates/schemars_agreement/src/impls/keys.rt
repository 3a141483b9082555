//! Keys of maps. Any text is a key of a row of texts, of characters or of truth values; of whole
//! numbers it has to match a pattern of digits.
ghost use Rattle.std.specs.Prelude.{string_bytes, refl};
ghost use Rattle.schemars_shapes.specs.declared.shape.IntKind.TheVariants.{U8, U16, U32, U64, U128, Usize, I8, I16, I32, I64, I128, Isize};
ghost use Rattle.schemars_written.specs.Readings.{those, TakesNatural, TakesInteger};
ghost use Rattle.schemars_written.proofs.Keys.{text_key_law, char_key_law, bool_key_law, natural_key_law, integer_key_law};

use crate::law::AgreesAsKey;

impl AgreesAsKey for String {
    ghost agrees_as_key = { λ rows n s checked row valid. text_key_law rows n (string_bytes s) checked row };
}

impl AgreesAsKey for char {
    ghost agrees_as_key = { λ rows n c checked row valid. char_key_law rows n c checked row };
}

impl AgreesAsKey for bool {
    ghost agrees_as_key = { λ rows n b checked row valid. bool_key_law rows n b checked row };
}

impl AgreesAsKey for u8 {
    ghost key_readings = { those TakesNatural };

    ghost agrees_as_key = { λ rows n x checked row valid. natural_key_law rows n x U8 checked row refl };
}

impl AgreesAsKey for u16 {
    ghost key_readings = { those TakesNatural };

    ghost agrees_as_key = { λ rows n x checked row valid. natural_key_law rows n x U16 checked row refl };
}

impl AgreesAsKey for u32 {
    ghost key_readings = { those TakesNatural };

    ghost agrees_as_key = { λ rows n x checked row valid. natural_key_law rows n x U32 checked row refl };
}

impl AgreesAsKey for u64 {
    ghost key_readings = { those TakesNatural };

    ghost agrees_as_key = { λ rows n x checked row valid. natural_key_law rows n x U64 checked row refl };
}

impl AgreesAsKey for u128 {
    ghost key_readings = { those TakesNatural };

    ghost agrees_as_key = { λ rows n x checked row valid. natural_key_law rows n x U128 checked row refl };
}

impl AgreesAsKey for usize {
    ghost key_readings = { those TakesNatural };

    ghost agrees_as_key = { λ rows n x checked row valid. natural_key_law rows n x Usize checked row refl };
}

impl AgreesAsKey for i8 {
    ghost key_readings = { those TakesInteger };

    ghost agrees_as_key = { λ rows n x checked row valid. integer_key_law rows n x I8 checked row refl };
}

impl AgreesAsKey for i16 {
    ghost key_readings = { those TakesInteger };

    ghost agrees_as_key = { λ rows n x checked row valid. integer_key_law rows n x I16 checked row refl };
}

impl AgreesAsKey for i32 {
    ghost key_readings = { those TakesInteger };

    ghost agrees_as_key = { λ rows n x checked row valid. integer_key_law rows n x I32 checked row refl };
}

impl AgreesAsKey for i64 {
    ghost key_readings = { those TakesInteger };

    ghost agrees_as_key = { λ rows n x checked row valid. integer_key_law rows n x I64 checked row refl };
}

impl AgreesAsKey for i128 {
    ghost key_readings = { those TakesInteger };

    ghost agrees_as_key = { λ rows n x checked row valid. integer_key_law rows n x I128 checked row refl };
}

impl AgreesAsKey for isize {
    ghost key_readings = { those TakesInteger };

    ghost agrees_as_key = { λ rows n x checked row valid. integer_key_law rows n x Isize checked row refl };
}
