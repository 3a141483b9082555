//! Lines, broken as `rt fmt` breaks them.
use crate::texts::push_all;
use std::alloc::{AllocError, Global};

/// How many characters a line has at most.
pub const LINE: usize = 100;

// How many the arguments of a call on one line have at most.
const ARGUMENTS: usize = 60;

/// Lines of a file.
#[derive(Drop)]
pub struct Lines {
    /// the lines
    pub text: String,
}

impl Lines {
    /// No lines.
    pub fn new(alloc: Global) -> Lines {
        Lines {
            text: String::new(alloc),
        }
    }

    /// Adds texts, one behind the other.
    pub fn push(&mut self, texts: &[&str]) -> Result<(), AllocError> {
        push_all(&mut self.text, texts)
    }

    /// Adds a block of lines, in which `$name$` stands for the text that is given with this name.
    pub fn block(&mut self, block: &str, texts: &[(&str, &str)]) -> Result<(), AllocError> {
        let mut is_name = false;
        for piece in block.split('$') {
            self.text
                .push_str(if is_name { named(texts, piece) } else { piece })?;
            is_name = !is_name;
        }
        Ok(())
    }

    /// Adds a line of these texts with so many spaces before it.
    pub fn line(&mut self, indent: usize, texts: &[&str]) -> Result<(), AllocError> {
        self.begin(indent)?;
        self.push(texts)?;
        self.text.push('\n')
    }

    /// Begins a line with so many spaces.
    pub fn begin(&mut self, indent: usize) -> Result<(), AllocError> {
        for _ in 0..indent {
            self.text.push(' ')?;
        }
        Ok(())
    }

    /// Adds a call, in one line or with a line for each argument. Arguments without text are left out.
    pub fn call(
        &mut self,
        indent: usize,
        head: &[&str],
        arguments: &[&str],
        tail: &[&str],
    ) -> Result<(), AllocError> {
        self.list(indent, head, arguments, tail, ARGUMENTS)
    }

    /// Adds the head of a function, in one line or with a line for each parameter.
    pub fn head(
        &mut self,
        head: &[&str],
        parameters: &[&str],
        tail: &[&str],
    ) -> Result<(), AllocError> {
        self.list(0, head, parameters, tail, LINE)
    }

    // Adds a list in parentheses, in one line if it has no more than so many characters.
    fn list(
        &mut self,
        indent: usize,
        head: &[&str],
        items: &[&str],
        tail: &[&str],
        most: usize,
    ) -> Result<(), AllocError> {
        let inside = list_width(items);
        let around = width(head).saturating_add(width(tail)).saturating_add(2);
        let whole = indent.saturating_add(inside).saturating_add(around);
        self.begin(indent)?;
        self.push(head)?;
        if inside <= most && whole <= LINE {
            self.text.push('(')?;
            push_list(&mut self.text, items)?;
        } else {
            self.text.push_str("(\n")?;
            for item in items {
                if !item.is_empty() {
                    self.line(indent.saturating_add(4), &[item, ","])?;
                }
            }
            self.begin(indent)?;
        }
        self.text.push(')')?;
        self.push(tail)?;
        self.text.push('\n')
    }

    /// Adds a `let`, whose value goes into a line of its own if it is long.
    pub fn set(&mut self, indent: usize, name: &str, value: &[&str]) -> Result<(), AllocError> {
        let whole = width(value).saturating_add(width(&["let ", name, " = ;"]));
        if indent.saturating_add(whole) <= LINE {
            self.begin(indent)?;
            self.push(&["let ", name, " = "])?;
        } else {
            self.line(indent, &["let ", name, " ="])?;
            self.begin(indent.saturating_add(4))?;
        }
        self.push(value)?;
        self.text.push_str(";\n")
    }
}

// The text with this name.
fn named<'t>(texts: &[(&str, &'t str)], name: &str) -> &'t str {
    for (known, text) in texts {
        if *known == name {
            return text;
        }
    }
    ""
}

/// How many characters texts have.
pub fn width(texts: &[&str]) -> usize {
    let mut count = 0usize;
    for text in texts {
        for _ in text.chars() {
            count = count.saturating_add(1);
        }
    }
    count
}

// How many they have as a list, but those without text.
fn list_width(texts: &[&str]) -> usize {
    let mut count = 0usize;
    for text in texts {
        if !text.is_empty() {
            count = count.saturating_add(width(&[text, ", "]));
        }
    }
    count.saturating_sub(2)
}

// Adds texts with a comma between them, but those without text.
fn push_list(list: &mut String, texts: &[&str]) -> Result<(), AllocError> {
    let mut before = "";
    for text in texts {
        if !text.is_empty() {
            list.push_str(before)?;
            list.push_str(text)?;
            before = ", ";
        }
    }
    Ok(())
}
