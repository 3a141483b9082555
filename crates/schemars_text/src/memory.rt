//! Text that is written into memory.
ghost use Rattle.std.specs.Prelude.{◌≡◌, None, [], false, IfOk, string_bytes};
ghost use Rattle.json.specs.Lex.{tokens};
ghost use Rattle.json.specs.Print.{print};

use crate::output::Output;
use crate::target::Target;
use json::Token;
use serde_json::Number;
use std::alloc::{AllocError, Global};

// What a text has room for at first: most definitions fit, and need no more memory.
const FIRST_BYTES: usize = 256;

// The whole text, unless memory ran out.
#[derive(Drop)]
pub(crate) struct InMemory {
    out: Output,
    error: Option<AllocError>,
}

impl InMemory {
    pub(crate) fn new(alloc: Global) -> Result<InMemory, AllocError>
        ensures { IfOk result (λ w. w.out ≡ record { text = []; after_value = false }) }
    {
        let out = Output::with_capacity(alloc, FIRST_BYTES)?;
        Ok(InMemory { out, error: None })
    }

    pub(crate) fn into_string(self) -> Result<String, AllocError>
        ensures text { IfOk result (λ s. (self.error ≡ None) × (string_bytes s ≡ self.out.text)) }
        ensures compact { IfOk result (λ s. string_bytes s ≡ print (tokens (string_bytes s))) }
    {
        let InMemory { out, error } = self;
        match error {
            Some(error) => Err(error),
            None => Ok(out.into_string()),
        }
    }
}

impl Target<()> for InMemory {
    ghost use Rattle.std.specs.Prelude.{◌≡◌, None};

    ghost has = { λ w _ _ o. w.error ≡ None → w.out ≡ o };

    fn token(&mut self, _lent: &mut (), token: Token<'_>) {
        match self.error {
            Some(_) => {}
            None => match self.out.token(token) {
                Ok(()) => {}
                Err(error) => self.error = Some(error),
            },
        }
    }

    fn number(&mut self, _lent: &mut (), n: Number) {
        match self.error {
            Some(_) => {}
            None => match self.out.number(n) {
                Ok(()) => {}
                Err(error) => self.error = Some(error),
            },
        }
    }
}
