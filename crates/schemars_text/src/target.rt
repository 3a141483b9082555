//! Where the text of a schema is written to.
ghost use Rattle.std.specs.Prelude.{◌≡◌, ℕ, List, false, Option};
ghost use Rattle.schemars_text.specs.Words.{IsPrintable, token_of, number, is_float, number_view, number_text, Output, with_token, Becomes};

use json::Token;
use serde_json::Number;

// A place for JSON text, which is written token by token. It may use what is lent to each call.
// Where it fails, it ignores what comes after.
pub(crate) trait Target<S> {
    // The outputs that it may hold, after what it held at the start.
    ghost has: { Self → S → Option (List ℕ) → Output → Type 0 };

    fn token(&mut self, lent: &mut S, token: Token<'_>)
        requires { IsPrintable (token_of token) }
        ensures { Becomes (has self.old lent.old) (has self.new lent.new) false
            (λ o. with_token o (token_of token.entry)) };

    // A number that is not a 64-bit whole number has some text.
    fn number(&mut self, lent: &mut S, n: Number)
        ensures { Becomes (has self.old lent.old) (has self.new lent.new)
            (is_float (number_view n))
            (λ o. with_token o (number (number_text (number_view n)))) };
}
