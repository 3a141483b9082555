//! JSON text that is being written, with its commas in place.
ghost use Rattle.std.specs.Prelude.{◌≡◌, [], false, string_bytes, IfOk, OnOk};
ghost use Rattle.schemars_text.specs.Words.{tokens, IsPrintable, print, token_of, number, is_float, view, number_view, has_float, number_text, text_in, with_token, with_value, layout_meant};

use crate::ordered::{Layout, write_value};
use crate::target::Target;
use json::{Token, Writer};
use serde_json::{Number, Value};
use std::alloc::{AllocError, Global};
use std::marker::Model;

/// JSON text that is being written into memory.
// Its model is the text so far, and whether a value has just ended.
#[derive(Drop)]
pub struct Output {
    writer: Writer,
}

impl Model for Output {
    ghost use Rattle.std.specs.Prelude.{◌≡◌, []};
    ghost use Rattle.json.specs.Print.{print, ends_value};
    ghost use Rattle.schemars_text.specs.Output.{Output};

    ghost Value = { Output };

    ghost view = { λ o. record {
      text = print o.writer.tokens;
      after_value = ends_value o.writer.tokens;
    } };

    ghost invariant = { λ o. o.writer.before ≡ [] };
}

impl Output {
    /// Returns no text, with room for this many bytes.
    pub fn with_capacity(alloc: Global, capacity: usize) -> Result<Output, AllocError>
        ensures { IfOk result (λ o. o ≡ record { text = []; after_value = false }) }
    {
        let bytes = Vec::with_capacity(alloc, capacity)?;
        Ok(Output {
            writer: Writer::new(bytes),
        })
    }

    /// Converts what was written into a string.
    pub fn into_string(self) -> String
        ensures text { string_bytes result ≡ self.text }
        ensures compact { string_bytes result ≡ print (tokens (string_bytes result)) }
    {
        let Output { writer } = self;
        String::from_utf8(writer.into_inner()).unwrap()
    }

    /// Writes a token, after a comma where a value has just ended and another begins.
    pub fn token(&mut self, token: Token<'_>) -> Result<(), AllocError>
        requires { IsPrintable (token_of token) }
        ensures { OnOk result (self.new ≡ with_token self.old (token_of token.entry)) }
    {
        self.writer.token(token)?;
        Ok(())
    }

    pub(crate) fn number(&mut self, n: Number) -> Result<(), AllocError>
        ensures { OnOk result (is_float (number_view n) ≡ false
            → self.new ≡ with_token self.old (number (number_text (number_view n)))) }
    {
        if let Some(whole) = n.as_u64() {
            self.writer.u64(whole)?;
        } else if let Some(below_zero) = n.as_i64() {
            self.writer.i64(below_zero)?;
        } else if let Some(x) = n.as_f64() {
            self.writer.float_with_plus(x)?;
        }
        Ok(())
    }

    /// Writes a value in this layout, after a comma where another value has just ended.
    pub fn value(&mut self, value: &Value, layout: Layout) -> Result<(), AllocError>
        ensures { OnOk result (has_float (view value.now) ≡ false
            → self.new ≡ with_value self.old (text_in (layout_meant layout) (view value.now))) }
    {
        let mut failure = None;
        write_value(value, layout, &mut failure, self);
        match failure {
            Some(error) => Err(error),
            None => Ok(()),
        }
    }
}

// What is lent is the error, once memory has run out.
impl Target<Option<AllocError>> for Output {
    ghost use Rattle.std.specs.Prelude.{◌≡◌, None};

    ghost has = { λ w error _ o. error ≡ None → w ≡ o };

    fn token(&mut self, error: &mut Option<AllocError>, token: Token<'_>) {
        match error {
            Some(_) => {}
            None => match self.token(token) {
                Ok(()) => {}
                Err(failure) => *error = Some(failure),
            },
        }
    }

    fn number(&mut self, error: &mut Option<AllocError>, n: Number) {
        match error {
            Some(_) => {}
            None => match self.number(n) {
                Ok(()) => {}
                Err(failure) => *error = Some(failure),
            },
        }
    }
}
