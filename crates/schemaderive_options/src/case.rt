//! The cases of names.
use std::alloc::{AllocError, Global};

/// How serde writes a name.
#[derive(Clone, Copy, Debug, PartialEq, Eq)]
pub enum Case {
    /// as it is
    Unchanged,
    /// `lowercase`
    Lower,
    /// `UPPERCASE`
    Upper,
    /// `PascalCase`
    Pascal,
    /// `camelCase`
    Camel,
    /// `snake_case`
    Snake,
    /// `SCREAMING_SNAKE_CASE`
    ScreamingSnake,
    /// `kebab-case`
    Kebab,
    /// `SCREAMING-KEBAB-CASE`
    ScreamingKebab,
}

// The names of cases.
const NAMED: [(&str, Case); 8] = [
    ("lowercase", Case::Lower),
    ("UPPERCASE", Case::Upper),
    ("PascalCase", Case::Pascal),
    ("camelCase", Case::Camel),
    ("snake_case", Case::Snake),
    ("SCREAMING_SNAKE_CASE", Case::ScreamingSnake),
    ("kebab-case", Case::Kebab),
    ("SCREAMING-KEBAB-CASE", Case::ScreamingKebab),
];

impl Case {
    /// The case with this name.
    pub fn named(name: &str) -> Option<Case> {
        for (known, case) in &NAMED {
            if *known == name {
                return Some(*case);
            }
        }
        None
    }

    /// The name of a field in this case.
    pub fn of_field(self, alloc: Global, name: &str) -> Result<String, AllocError> {
        let mut text = String::new(alloc);
        let has_underscores = self != Case::Pascal && self != Case::Camel;
        let mut begins = true;
        for c in name.chars() {
            if has_underscores || c != '_' {
                text.push(self.letter_of_field(c, begins, text.is_empty()))?;
            }
            begins = c == '_';
        }
        Ok(text)
    }

    // A character of a field, which begins a word or the whole name.
    fn letter_of_field(self, c: char, begins: bool, is_first: bool) -> char {
        match self {
            Case::Camel if is_first => c.to_ascii_lowercase(),
            Case::Pascal | Case::Camel if begins => c.to_ascii_uppercase(),
            Case::Kebab | Case::ScreamingKebab if c == '_' => '-',
            Case::Upper | Case::ScreamingSnake | Case::ScreamingKebab => c.to_ascii_uppercase(),
            _ => c,
        }
    }

    /// The name of a variant in this case.
    pub fn of_variant(self, alloc: Global, name: &str) -> Result<String, AllocError> {
        let mut text = String::new(alloc);
        for c in name.chars() {
            if c.is_uppercase() && !text.is_empty() {
                self.push_separator(&mut text)?;
            }
            text.push(self.letter_of_variant(c, text.is_empty()))?;
        }
        Ok(text)
    }

    // What stands before the capital of a word in the name of a variant.
    fn push_separator(self, text: &mut String) -> Result<(), AllocError> {
        match self {
            Case::Snake | Case::ScreamingSnake => text.push('_'),
            Case::Kebab | Case::ScreamingKebab => text.push('-'),
            _ => Ok(()),
        }
    }

    // A character of a variant.
    fn letter_of_variant(self, c: char, is_first: bool) -> char {
        match self {
            Case::Unchanged | Case::Pascal => c,
            Case::Camel if !is_first => c,
            Case::Kebab | Case::ScreamingKebab if c == '_' => '-',
            Case::Upper | Case::ScreamingSnake | Case::ScreamingKebab => c.to_ascii_uppercase(),
            Case::Lower | Case::Camel | Case::Snake | Case::Kebab => c.to_ascii_lowercase(),
        }
    }
}
