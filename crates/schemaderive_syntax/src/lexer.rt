//! The tokens of a text.
use crate::fault::{Fault, Place, refused};
use crate::literals::{read_escape, read_number, read_raw_text, read_text};
use crate::scanner::Scanner;
use crate::token::{Token, TokenKind};
use std::alloc::{AllocError, Global};

/// The tokens of a text that begins at this place.
///
/// A comment line that is `derive(..)`, `serde(..)` or `schemars(..)` and nothing else is read as the
/// attribute of that name. Other comments are no tokens, but for those of documentation.
///
/// # Errors
///
/// A literal or a comment has no end, an escape is none, or brackets do not fit each other.
pub fn read_tokens(alloc: Global, text: &str, place: Place) -> Result<Vec<Token>, Fault> {
    let mut scanner = Scanner::new(alloc, text, place)?;
    let mut tokens = Vec::new(alloc);
    let mut in_attribute = false;
    for _ in 0..scanner.len() {
        match scanner.peek(0) {
            None => break,
            Some('\n') if in_attribute => {
                push_symbol(&mut tokens, &scanner, ']')?;
                in_attribute = false;
                let _ = scanner.advance();
            }
            Some('/') if scanner.peek(1) == Some('/') => {
                if is_attribute_line(&scanner)? && !in_attribute {
                    push_symbol(&mut tokens, &scanner, '#')?;
                    push_symbol(&mut tokens, &scanner, '[')?;
                    scanner.skip(2);
                    in_attribute = true;
                } else {
                    read_line_comment(&mut scanner, &mut tokens)?;
                }
            }
            Some(c) => read_token(&mut scanner, &mut tokens, c)?,
        }
    }
    if in_attribute {
        push_symbol(&mut tokens, &scanner, ']')?;
    }
    require_pairs(alloc, &tokens)?;
    Ok(tokens)
}

// Refuses brackets that do not fit each other.
fn require_pairs(alloc: Global, tokens: &[Token]) -> Result<(), Fault> {
    let mut open: Vec<(char, Place)> = Vec::new(alloc);
    for token in tokens {
        if let Some(closing) = token.closing() {
            open.push((closing, token.place))?;
        }
        if token.closes() {
            let wanted = open.pop();
            require_pair(alloc, token, wanted)?;
        }
    }
    match open.pop() {
        Some((_, place)) => Err(refused(alloc, place, "this bracket is not closed")),
        None => Ok(()),
    }
}

// Refuses a bracket that closes another than the last that is open.
fn require_pair(alloc: Global, token: &Token, wanted: Option<(char, Place)>) -> Result<(), Fault> {
    match wanted {
        Some((closing, _)) if token.is_symbol(closing) => Ok(()),
        Some(_) => {
            let reason = "another bracket is to be closed before this one";
            Err(refused(alloc, token.place, reason))
        }
        None => Err(refused(alloc, token.place, "this bracket closes nothing")),
    }
}

// Reads what begins with this character, which is no line comment.
fn read_token(scanner: &mut Scanner, tokens: &mut Vec<Token>, c: char) -> Result<(), Fault> {
    let place = scanner.place();
    if c.is_whitespace() {
        let _ = scanner.advance();
        return Ok(());
    }
    if c == '/' && scanner.peek(1) == Some('*') {
        return read_block_comment(scanner, tokens);
    }
    if is_word_start(c) {
        return read_word(scanner, tokens);
    }
    if c.is_ascii_digit() {
        let text = read_number(scanner)?;
        return push_token(tokens, TokenKind::Number, text, place);
    }
    if c == '\'' {
        return read_quote(scanner, tokens);
    }
    if c == '"' {
        let _ = scanner.advance();
        let text = read_text(scanner, place)?;
        return push_token(tokens, TokenKind::Text, text, place);
    }
    push_symbol(tokens, scanner, c)?;
    let _ = scanner.advance();
    Ok(())
}

fn push_token(
    tokens: &mut Vec<Token>,
    kind: TokenKind,
    text: String,
    place: Place,
) -> Result<(), Fault> {
    tokens.push(Token { kind, text, place })?;
    Ok(())
}

fn push_symbol(tokens: &mut Vec<Token>, scanner: &Scanner, c: char) -> Result<(), AllocError> {
    tokens.push(Token {
        kind: TokenKind::Symbol(c),
        text: String::new(scanner.alloc),
        place: scanner.place(),
    })?;
    Ok(())
}

fn is_word_start(c: char) -> bool {
    unicode_ident::is_xid_start(c) || c == '_'
}

// Whether the comment line that begins here is an attribute.
fn is_attribute_line(scanner: &Scanner) -> Result<bool, AllocError> {
    let line = scanner.line_ahead(2)?;
    let text = line.as_str().trim_matches(' ');
    let named = text.starts_with("derive(")
        || text.starts_with("serde(")
        || text.starts_with("schemars(");
    Ok(named && text.ends_with(')'))
}

// Reads a line comment, which is a token if it is documentation.
fn read_line_comment(scanner: &mut Scanner, tokens: &mut Vec<Token>) -> Result<(), Fault> {
    let place = scanner.place();
    let is_doc = scanner.peek(2) == Some('/') && scanner.peek(3) != Some('/');
    let text = scanner.line_ahead(3)?;
    scanner.skip_line();
    if is_doc {
        return push_token(tokens, TokenKind::Doc, text, place);
    }
    Ok(())
}

// Reads a block comment, which is a token if it is documentation.
fn read_block_comment(scanner: &mut Scanner, tokens: &mut Vec<Token>) -> Result<(), Fault> {
    let place = scanner.place();
    let is_doc = scanner.peek(2) == Some('*')
        && scanner.peek(3) != Some('*')
        && scanner.peek(3) != Some('/');
    scanner.skip(2);
    if is_doc {
        let _ = scanner.advance();
    }
    let mut text = String::new(scanner.alloc);
    let mut depth = 1usize;
    for _ in 0..scanner.len() {
        let Some(c) = scanner.advance() else {
            break;
        };
        if c == '*' && scanner.is_at('/') {
            let _ = scanner.advance();
            depth = depth.saturating_sub(1);
            if depth == 0 {
                if is_doc {
                    push_token(tokens, TokenKind::Doc, text, place)?;
                }
                return Ok(());
            }
            text.push_str("*/")?;
        } else if c == '/' && scanner.is_at('*') {
            let _ = scanner.advance();
            depth = depth.saturating_add(1);
            text.push_str("/*")?;
        } else {
            text.push(c)?;
        }
    }
    Err(scanner.refused(place, "this comment has no end"))
}

// Reads a word, or a literal that begins with one.
fn read_word(scanner: &mut Scanner, tokens: &mut Vec<Token>) -> Result<(), Fault> {
    let place = scanner.place();
    let word = word_ahead(scanner)?;
    match (word.as_str(), scanner.peek(0)) {
        ("r", Some('#')) if is_word_at(scanner, 1) => {
            let _ = scanner.advance();
            let word = word_ahead(scanner)?;
            push_token(tokens, TokenKind::Word, word, place)
        }
        ("r", Some('"' | '#')) => {
            let text = read_raw_text(scanner, place)?;
            push_token(tokens, TokenKind::Text, text, place)
        }
        ("br" | "cr", Some('"' | '#')) => {
            let text = read_raw_text(scanner, place)?;
            push_token(tokens, TokenKind::Bytes, text, place)
        }
        ("b" | "c", Some('"')) => {
            let _ = scanner.advance();
            let text = read_text(scanner, place)?;
            push_token(tokens, TokenKind::Bytes, text, place)
        }
        _ => push_token(tokens, TokenKind::Word, word, place),
    }
}

fn is_word_at(scanner: &Scanner, ahead: usize) -> bool {
    match scanner.peek(ahead) {
        Some(c) => is_word_start(c),
        None => false,
    }
}

// Reads the letters of a word.
fn word_ahead(scanner: &mut Scanner) -> Result<String, AllocError> {
    let mut word = String::new(scanner.alloc);
    for _ in 0..scanner.len() {
        match scanner.peek(0) {
            Some(c) if unicode_ident::is_xid_continue(c) => {
                let _ = scanner.advance();
                word.push(c)?;
            }
            Some('_') => {
                let _ = scanner.advance();
                word.push('_')?;
            }
            _ => break,
        }
    }
    Ok(word)
}

// Reads a lifetime or a character.
fn read_quote(scanner: &mut Scanner, tokens: &mut Vec<Token>) -> Result<(), Fault> {
    let place = scanner.place();
    let _ = scanner.advance();
    if is_word_at(scanner, 0) && scanner.peek(1) != Some('\'') {
        let word = word_ahead(scanner)?;
        if scanner.is_at('\'') {
            return Err(scanner.refused(place, "this is no character"));
        }
        return push_token(tokens, TokenKind::Lifetime, word, place);
    }
    let mut text = String::new(scanner.alloc);
    match scanner.advance() {
        Some('\\') => {
            if let Some(c) = read_escape(scanner, place)? {
                text.push(c)?;
            }
        }
        Some(c) if c != '\'' && c != '\n' => text.push(c)?,
        _ => return Err(scanner.refused(place, "this is no character")),
    }
    if !scanner.take('\'') {
        return Err(scanner.refused(place, "this character has no end"));
    }
    push_token(tokens, TokenKind::Character, text, place)
}
