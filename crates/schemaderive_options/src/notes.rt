//! Keywords that are added to a document.
use crate::values::push_quoted;
use std::alloc::{AllocError, Global};

/// A keyword, and its value as JSON text.
#[derive(Drop)]
pub struct Note {
    /// the keyword
    pub key: String,
    /// its value
    pub json: String,
}

impl Note {
    // Whether it is a title or a description without text.
    fn is_empty_text(&self) -> bool {
        self.json.as_str() == "\"\"" && ["title", "description"].contains(&self.key.as_str())
    }
}

/// Keywords that are added to a document.
#[derive(Drop)]
pub struct Notes {
    /// the keywords, each once
    pub list: Vec<Note>,
}

impl Notes {
    /// No keywords.
    pub fn new(alloc: Global) -> Notes {
        Notes {
            list: Vec::new(alloc),
        }
    }

    /// Whether there are none.
    pub fn is_empty(&self) -> bool {
        self.list.is_empty()
    }

    /// The value of a keyword.
    pub fn get(&self, key: &str) -> Option<&str> {
        for note in &self.list {
            if note.key.as_str() == key {
                return Some(note.json.as_str());
            }
        }
        None
    }

    // The note of a keyword.
    fn note_of(&mut self, key: &str) -> Option<&mut Note> {
        for note in self.list.iter_mut() {
            if note.key.as_str() == key {
                return Some(note);
            }
        }
        None
    }

    /// Sets the value of a keyword.
    pub fn put(&mut self, alloc: Global, key: &str, json: String) -> Result<(), AllocError> {
        if let Some(note) = self.note_of(key) {
            note.json = json;
            return Ok(());
        }
        let key = String::from_str(alloc, key)?;
        self.list.push(Note { key, json })?;
        Ok(())
    }

    /// Sets the value of a keyword to a copy of this.
    pub fn put_json(&mut self, alloc: Global, key: &str, json: &str) -> Result<(), AllocError> {
        self.put(alloc, key, String::from_str(alloc, json)?)
    }

    /// Sets the value of a keyword to a text.
    pub fn put_text(&mut self, alloc: Global, key: &str, text: &str) -> Result<(), AllocError> {
        let mut json = String::new(alloc);
        push_quoted(alloc, &mut json, text)?;
        self.put(alloc, key, json)
    }

    /// Sets the keywords that others have.
    pub fn put_all(&mut self, alloc: Global, others: &Notes) -> Result<(), AllocError> {
        for note in &others.list {
            self.put_json(alloc, note.key.as_str(), note.json.as_str())?;
        }
        Ok(())
    }

    /// Removes the title and the description, where they are the empty text.
    pub fn remove_empty_texts(&mut self) {
        self.list.retain(|note| !note.is_empty_text());
    }

    /// Writes them as an object.
    pub fn push_object(&self, alloc: Global, out: &mut String) -> Result<(), AllocError> {
        out.push('{')?;
        for (number, note) in self.list.iter().enumerate() {
            if number > 0 {
                out.push(',')?;
            }
            push_quoted(alloc, out, note.key.as_str())?;
            out.push(':')?;
            out.push_str(note.json.as_str())?;
        }
        out.push('}')
    }
}
