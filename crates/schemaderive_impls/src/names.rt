//! The ids and the names of rows, in which the names of parameters stand for those of their types.
use crate::body::Writer;
use schemaderive_rows::{CLOSING, OPENING};
use schemaderive_text::{Lines, literal, push_escaped, push_literal};
use std::alloc::{AllocError, Global};

/// Whether it is an id or a name.
#[derive(Clone, Copy)]
pub struct Member {
    /// what a type says of itself
    pub says: &'static str,
    /// the function that returns it
    pub function: &'static str,
    /// how it is called
    pub variable: &'static str,
    /// itself as an argument
    pub argument: &'static str,
}

/// An id.
pub const ID: Member = Member {
    says: "id",
    function: "schema_id",
    variable: "id",
    argument: "id.as_str()",
};

/// A name.
pub const NAME: Member = Member {
    says: "name",
    function: "schema_name",
    variable: "name",
    argument: "name.as_str()",
};

// A piece of an id or a name.
#[derive(Clone, Copy)]
enum Piece<'t> {
    // a text
    Text(&'t str),
    // that of the type for which a parameter stands
    Parameter(&'t str),
}

/// Whether an id or a name has parameters.
pub fn has_parameters(text: &str) -> bool {
    text.contains(OPENING)
}

/// An id or a name without the brackets of parameters.
pub fn plain(alloc: Global, text: &str) -> Result<String, AllocError> {
    let mut plain = String::new(alloc);
    for c in text.chars() {
        if c != OPENING && c != CLOSING {
            plain.push(c)?;
        }
    }
    Ok(plain)
}

// The pieces of an id or a name. There is at least one.
fn pieces_of<'t>(alloc: Global, text: &'t str) -> Result<Vec<Piece<'t>>, AllocError> {
    let mut pieces = Vec::new(alloc);
    for part in text.split(OPENING) {
        let rest = match part.split_once(CLOSING) {
            Some((name, rest)) => {
                pieces.push(Piece::Parameter(name))?;
                rest
            }
            None => part,
        };
        if !rest.is_empty() {
            pieces.push(Piece::Text(rest))?;
        }
    }
    if pieces.is_empty() {
        pieces.push(Piece::Text(""))?;
    }
    Ok(pieces)
}

impl<'t> Writer<'t> {
    /// Adds an id or a name to a clause.
    pub fn push_clause(
        &mut self,
        clause: &mut String,
        text: &str,
        member: Member,
    ) -> Result<(), AllocError> {
        let pieces = pieces_of(self.alloc(), text)?;
        self.push_pieces(clause, &pieces, member)
    }

    fn push_pieces(
        &mut self,
        clause: &mut String,
        pieces: &[Piece<'_>],
        member: Member,
    ) -> Result<(), AllocError> {
        let last = pieces.len().saturating_sub(1);
        for (number, piece) in pieces.iter().enumerate() {
            if number > 0 {
                self.imports.words(&["◌++◌"])?;
                clause.push_str(if number < last { " ++ (" } else { " ++ " })?;
            }
            self.push_piece(clause, *piece, member)?;
        }
        for _ in 1..last {
            clause.push(')')?;
        }
        Ok(())
    }

    fn push_piece(
        &mut self,
        clause: &mut String,
        piece: Piece<'_>,
        member: Member,
    ) -> Result<(), AllocError> {
        match piece {
            Piece::Text(text) => {
                self.imports.words(&["codes"])?;
                clause.push_str("codes ")?;
                push_literal(self.alloc(), clause, text)
            }
            Piece::Parameter(name) => {
                clause.push_str(name)?;
                clause.push_str(".says.")?;
                clause.push_str(member.says)
            }
        }
    }
}

// What the pieces of several parameters are called.
const CALLED: [&str; 6] = ["first", "second", "third", "fourth", "fifth", "sixth"];

// An id or a name that is made of those of parameters.
#[derive(Drop)]
struct Made<'t> {
    member: Member,
    pieces: Vec<Piece<'t>>,
    // the parameters, each once
    names: Vec<&'t str>,
}

/// Adds the lines that ask for what the parameters of an id or a name have, and one that makes it of
/// them, between these texts.
pub fn push_made(
    alloc: Global,
    lines: &mut Lines,
    indent: usize,
    text: &str,
    member: Member,
    around: [&str; 2],
) -> Result<(), AllocError> {
    let mut made = Made {
        member,
        pieces: pieces_of(alloc, text)?,
        names: Vec::new(alloc),
    };
    made.find_names()?;
    made.push_names(alloc, lines, indent)?;
    let pattern = made.pattern(alloc)?;
    let [before, behind] = around;
    lines.line(
        indent,
        &[before, "format!(in alloc; ", pattern.as_str(), ")", behind],
    )
}

impl<'t> Made<'t> {
    fn find_names(&mut self) -> Result<(), AllocError> {
        for piece in &self.pieces {
            if let Piece::Parameter(name) = piece {
                if !self.names.contains(name) {
                    self.names.push(name)?;
                }
            }
        }
        Ok(())
    }

    // Adds the lines that ask for what each parameter has.
    fn push_names(
        &self,
        alloc: Global,
        lines: &mut Lines,
        indent: usize,
    ) -> Result<(), AllocError> {
        for name in &self.names {
            lines.begin(indent)?;
            lines.text.push_str("let ")?;
            self.push_called(alloc, &mut lines.text, name)?;
            lines.push(&[" = ", name, "::"])?;
            lines.push(&[self.member.function, "(alloc)?;\n"])?;
        }
        Ok(())
    }

    // The text that is made, with what is put in.
    fn pattern(&self, alloc: Global) -> Result<String, AllocError> {
        let mut pattern = String::new(alloc);
        self.push_pattern(alloc, &mut pattern)?;
        literal(alloc, pattern.as_str())
    }

    fn push_pattern(&self, alloc: Global, pattern: &mut String) -> Result<(), AllocError> {
        for piece in &self.pieces {
            match piece {
                Piece::Text(text) => push_escaped(pattern, text)?,
                Piece::Parameter(name) => {
                    pattern.push('{')?;
                    self.push_called(alloc, pattern, name)?;
                    pattern.push('}')?;
                }
            }
        }
        Ok(())
    }

    // Adds how what a parameter has is called.
    fn push_called(&self, alloc: Global, out: &mut String, name: &str) -> Result<(), AllocError> {
        let mut place = 0usize;
        for (number, known) in self.names.iter().enumerate() {
            if *known == name {
                place = number;
            }
        }
        let variable = self.member.variable;
        match CALLED.get(place) {
            _ if self.names.len() == 1 => out.push_str(variable),
            Some(word) => out.push_str(word),
            None => {
                let word = format!(in alloc; "{variable}_{place}")?;
                out.push_str(word.as_str())
            }
        }
    }
}
