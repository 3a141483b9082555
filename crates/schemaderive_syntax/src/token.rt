//! Tokens.
use crate::fault::Place;

/// What a token is.
#[derive(Clone, Copy, Debug, PartialEq, Eq)]
pub enum TokenKind {
    /// an identifier or a keyword
    Word,
    /// a lifetime, without its quotation mark
    Lifetime,
    /// a text, with its escapes read
    Text,
    /// a byte string or a C string
    Bytes,
    /// a character
    Character,
    /// a number, as it is written
    Number,
    /// a documentation comment
    Doc,
    /// any other character
    Symbol(char),
}

/// A token of a source.
#[derive(Debug, Drop)]
pub struct Token {
    /// what it is
    pub kind: TokenKind,
    /// its text; of a symbol, none
    pub text: String,
    /// where it begins
    pub place: Place,
}

impl Token {
    /// Whether it is this symbol.
    pub fn is_symbol(&self, symbol: char) -> bool {
        match self.kind {
            TokenKind::Symbol(c) => c == symbol,
            _ => false,
        }
    }

    /// Whether it is this word.
    pub fn is_word(&self, word: &str) -> bool {
        match self.kind {
            TokenKind::Word => self.text.as_str() == word,
            _ => false,
        }
    }

    /// What closes the group that it opens, if it opens one.
    pub fn closing(&self) -> Option<char> {
        match self.kind {
            TokenKind::Symbol('(') => Some(')'),
            TokenKind::Symbol('[') => Some(']'),
            TokenKind::Symbol('{') => Some('}'),
            _ => None,
        }
    }

    /// Whether it closes a group.
    pub fn closes(&self) -> bool {
        match self.kind {
            TokenKind::Symbol(c) => c == ')' || c == ']' || c == '}',
            _ => false,
        }
    }
}
