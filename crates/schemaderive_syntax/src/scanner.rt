//! The characters of a source, and how far they are read.
use crate::fault::{Fault, Place, refused};
use std::alloc::{AllocError, Global};

/// The characters of a source, with the place that is reached.
#[derive(Drop)]
pub struct Scanner {
    /// the allocator
    pub alloc: Global,
    characters: Vec<char>,
    position: usize,
    place: Place,
}

impl Scanner {
    /// A scanner at the beginning of a text.
    pub fn new(alloc: Global, text: &str, place: Place) -> Result<Scanner, AllocError> {
        let characters = text.chars().collect(alloc)?;
        Ok(Scanner {
            alloc,
            characters,
            position: 0,
            place,
        })
    }

    /// How many characters there are.
    pub fn len(&self) -> usize {
        self.characters.len()
    }

    /// The place that is reached.
    pub fn place(&self) -> Place {
        self.place
    }

    /// The character so many behind the next.
    pub fn peek(&self, ahead: usize) -> Option<char> {
        self.characters
            .get(self.position.saturating_add(ahead))
            .copied()
    }

    /// Whether this character is next.
    pub fn is_at(&self, character: char) -> bool {
        self.peek(0) == Some(character)
    }

    /// Goes past the next character, and returns it.
    pub fn advance(&mut self) -> Option<char> {
        let character = self.peek(0)?;
        self.position = self.position.saturating_add(1);
        if character == '\n' {
            self.place.line = self.place.line.saturating_add(1);
            self.place.column = 1;
        } else {
            self.place.column = self.place.column.saturating_add(1);
        }
        Some(character)
    }

    /// Goes past the next characters, as many.
    pub fn skip(&mut self, count: usize) {
        for _ in 0..count {
            let _ = self.advance();
        }
    }

    /// Goes past this character if it is next.
    pub fn take(&mut self, character: char) -> bool {
        if self.is_at(character) {
            let _ = self.advance();
            return true;
        }
        false
    }

    /// The rest of the line, to which the scanner does not go.
    pub fn line_ahead(&self, from: usize) -> Result<String, AllocError> {
        let mut line = String::new(self.alloc);
        for ahead in from..self.characters.len() {
            match self.peek(ahead) {
                None | Some('\n') => break,
                Some('\r') => {}
                Some(c) => line.push(c)?,
            }
        }
        Ok(line)
    }

    /// Goes to the end of the line.
    pub fn skip_line(&mut self) {
        for _ in 0..self.characters.len() {
            if self.is_at('\n') {
                break;
            }
            if self.advance().is_none() {
                break;
            }
        }
    }

    /// The fault of what is at this place.
    pub fn refused(&self, place: Place, reason: &str) -> Fault {
        refused(self.alloc, place, reason)
    }
}
