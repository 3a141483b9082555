//! How far tokens are read.
use crate::fault::{Fault, Place, refused};
use crate::token::{Token, TokenKind};
use std::alloc::Global;

/// Tokens, with the one that is next.
#[derive(Clone, Copy)]
pub struct Cursor<'a> {
    tokens: &'a [Token],
    position: usize,
    end: Place,
}

impl<'a> Cursor<'a> {
    /// A cursor at the first of the tokens, which end at this place.
    pub fn new(tokens: &'a [Token], end: Place) -> Cursor<'a> {
        Cursor {
            tokens,
            position: 0,
            end,
        }
    }

    /// How many tokens there are, read or not.
    pub fn len(&self) -> usize {
        self.tokens.len()
    }

    /// Whether no token is left.
    pub fn is_empty(&self) -> bool {
        self.peek(0).is_none()
    }

    /// The token so many behind the next.
    pub fn peek(&self, ahead: usize) -> Option<&'a Token> {
        self.tokens.get(self.position.saturating_add(ahead))
    }

    /// The place of the next token, or else the end.
    pub fn place(&self) -> Place {
        match self.peek(0) {
            Some(token) => token.place,
            None => self.end,
        }
    }

    /// Goes past the next token, and returns it.
    pub fn advance(&mut self) -> Option<&'a Token> {
        let token = self.peek(0)?;
        self.position = self.position.saturating_add(1);
        Some(token)
    }

    /// Whether this symbol is so many behind the next token.
    pub fn is_symbol(&self, ahead: usize, symbol: char) -> bool {
        match self.peek(ahead) {
            Some(token) => token.is_symbol(symbol),
            None => false,
        }
    }

    /// Whether this word is next.
    pub fn is_word(&self, word: &str) -> bool {
        match self.peek(0) {
            Some(token) => token.is_word(word),
            None => false,
        }
    }

    /// Goes past this symbol if it is next.
    pub fn take_symbol(&mut self, symbol: char) -> bool {
        let found = self.is_symbol(0, symbol);
        if found {
            let _ = self.advance();
        }
        found
    }

    /// Goes past this word if it is next.
    pub fn take_word(&mut self, word: &str) -> bool {
        let found = self.is_word(word);
        if found {
            let _ = self.advance();
        }
        found
    }

    /// Goes past a lifetime if it is next.
    pub fn take_lifetime(&mut self) -> bool {
        let found = match self.peek(0) {
            Some(token) => token.kind == TokenKind::Lifetime,
            None => false,
        };
        if found {
            let _ = self.advance();
        }
        found
    }

    /// Goes past two colons if they are next.
    pub fn take_colons(&mut self) -> bool {
        let found = self.is_symbol(0, ':') && self.is_symbol(1, ':');
        if found {
            let _ = self.advance();
            let _ = self.advance();
        }
        found
    }

    /// Goes past a name, and returns it.
    pub fn take_name(&mut self) -> Option<&'a str> {
        let token = self.peek(0)?;
        match token.kind {
            TokenKind::Word => {
                let _ = self.advance();
                Some(token.text.as_str())
            }
            _ => None,
        }
    }

    /// Goes past a name.
    ///
    /// # Errors
    ///
    /// The next token is no name.
    pub fn name(&mut self, alloc: Global) -> Result<&'a str, Fault> {
        let place = self.place();
        match self.take_name() {
            Some(name) => Ok(name),
            None => Err(refused(alloc, place, "a name is missing here")),
        }
    }

    /// Goes past the group that is next, and returns a cursor on what is in it.
    pub fn group(&mut self) -> Cursor<'a> {
        let start = self.position.saturating_add(1);
        let mut depth = 0usize;
        for _ in self.position..self.tokens.len() {
            let at = self.position;
            let Some(token) = self.advance() else {
                break;
            };
            if token.closing().is_some() {
                depth = depth.saturating_add(1);
            }
            if token.closes() {
                depth = depth.saturating_sub(1);
                if depth == 0 {
                    return Cursor::new(self.between(start, at), token.place);
                }
            }
        }
        Cursor::new(self.between(start, self.position), self.end)
    }

    // The tokens from one position up to another.
    fn between(&self, start: usize, end: usize) -> &'a [Token] {
        match self.tokens.get(start..end) {
            Some(tokens) => tokens,
            None => &[],
        }
    }

    /// Goes past the next token, or the group that it opens.
    pub fn skip_tree(&mut self) {
        match self.peek(0) {
            Some(token) if token.closing().is_some() => {
                let _inside = self.group();
            }
            _ => {
                let _ = self.advance();
            }
        }
    }

    /// Goes up to the next of these symbols that is in no group, and in no angle brackets if those are
    /// groups too, and returns a cursor on what is before it.
    pub fn up_to(&mut self, ends: &[char], has_angles: bool) -> Cursor<'a> {
        let start = self.position;
        let mut angles = 0usize;
        let mut in_arrow = false;
        for _ in self.position..self.tokens.len() {
            let Some(token) = self.peek(0) else {
                break;
            };
            match token.kind {
                TokenKind::Symbol('>') if in_arrow => {}
                TokenKind::Symbol(c) if angles == 0 && ends.contains(&c) => break,
                TokenKind::Symbol('<') if has_angles => angles = angles.saturating_add(1),
                TokenKind::Symbol('>') => angles = angles.saturating_sub(1),
                _ => {}
            }
            in_arrow = token.is_symbol('-') || token.is_symbol('=');
            self.skip_tree();
        }
        Cursor::new(self.between(start, self.position), self.place())
    }

    /// Whether this word is among the tokens that are left.
    pub fn has_word(&self, word: &str) -> bool {
        let mut cursor = *self;
        for _ in 0..self.len() {
            if cursor.is_word(word) {
                return true;
            }
            let _ = cursor.advance();
        }
        false
    }
}
