//! What the JSON of values is read as, and that different values have different JSON.
ghost use Rattle.std.specs.Prelude.{encode_utf8, string_bytes};
ghost use Rattle.serde_json.specs.Data.{unsigned, number, boolean, string};
ghost use Rattle.serde_json.specs.Find.{of_integer};
ghost use Rattle.schemars_written.proofs.Shown.{u8_shows, u16_shows, u32_shows, u64_shows, usize_shows, u128_shows, i8_shows, i16_shows, i32_shows, i64_shows, isize_shows, i128_shows, bool_shows, char_shows, text_shows, naturals_apart, integers_apart, bools_apart, chars_apart, texts_differ};

use crate::law::TellsApart;

impl TellsApart for u8 {
    ghost shown = { λ v. number (unsigned v) };

    ghost shows = { u8_shows };

    ghost apart = { λ x y v w less. naturals_apart x y less };
}

impl TellsApart for u16 {
    ghost shown = { λ v. number (unsigned v) };

    ghost shows = { u16_shows };

    ghost apart = { λ x y v w less. naturals_apart x y less };
}

impl TellsApart for u32 {
    ghost shown = { λ v. number (unsigned v) };

    ghost shows = { u32_shows };

    ghost apart = { λ x y v w less. naturals_apart x y less };
}

impl TellsApart for u64 {
    ghost shown = { λ v. number (unsigned v) };

    ghost shows = { u64_shows };

    ghost apart = { λ x y v w less. naturals_apart x y less };
}

impl TellsApart for usize {
    ghost shown = { λ v. number (unsigned v) };

    ghost shows = { usize_shows };

    ghost apart = { λ x y v w less. naturals_apart x y less };
}

impl TellsApart for u128 {
    ghost shown = { λ v. number (unsigned v) };

    ghost shows = { u128_shows };

    ghost apart = { λ x y v w less. naturals_apart x y less };
}

impl TellsApart for i8 {
    ghost shown = { λ z. number (of_integer z) };

    ghost shows = { i8_shows };

    ghost apart = { λ x y v w less. integers_apart x y less };
}

impl TellsApart for i16 {
    ghost shown = { λ z. number (of_integer z) };

    ghost shows = { i16_shows };

    ghost apart = { λ x y v w less. integers_apart x y less };
}

impl TellsApart for i32 {
    ghost shown = { λ z. number (of_integer z) };

    ghost shows = { i32_shows };

    ghost apart = { λ x y v w less. integers_apart x y less };
}

impl TellsApart for i64 {
    ghost shown = { λ z. number (of_integer z) };

    ghost shows = { i64_shows };

    ghost apart = { λ x y v w less. integers_apart x y less };
}

impl TellsApart for isize {
    ghost shown = { λ z. number (of_integer z) };

    ghost shows = { isize_shows };

    ghost apart = { λ x y v w less. integers_apart x y less };
}

impl TellsApart for i128 {
    ghost shown = { λ z. number (of_integer z) };

    ghost shows = { i128_shows };

    ghost apart = { λ x y v w less. integers_apart x y less };
}

impl TellsApart for bool {
    ghost shown = { λ b. boolean b };

    ghost shows = { λ rows n b checked row valid. bool_shows rows n b row };

    ghost apart = { λ x y v w less. bools_apart x y less };
}

impl TellsApart for char {
    ghost shown = { λ c. string (encode_utf8 c) };

    ghost shows = { λ rows n c checked row valid. char_shows rows n c row };

    ghost apart = { λ x y v w less. chars_apart x y less };
}

impl TellsApart for String {
    ghost shown = { λ s. string (string_bytes s) };

    ghost shows = { λ rows n s checked row valid. text_shows rows n (string_bytes s) row };

    ghost apart = { λ x y v w less. texts_differ x y less };
}
