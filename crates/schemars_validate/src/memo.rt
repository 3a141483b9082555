//! What references were found to say of a value and of its parts, so that none is followed again.
ghost use Rattle.std.specs.Prelude.{◌≡◌, ◌<◌, true, length, IfSome, option_map};
ghost use Rattle.schemars_validate.specs.declared.memo.Memo.{out-Memo};
ghost use Rattle.schemars_validate.specs.Memos.{AnswersFor, Keeps, Learns, Nothing, Puts, Recalls, Takes, marked_by};
ghost use Rattle.schemars_validate.specs.Words.{meant};

use crate::marks::unite;
use schemars_assertions::{Dialect, Verdict};
use std::alloc::{AllocError, Global};
use std::mem;

/// What a reference was found to say of a value, with so many references within one another left, and
/// which parts of the value it judges, if that was asked.
#[derive(Drop)]
pub struct Known {
    name: String,
    references: u64,
    says: Verdict,
    judged: Option<Vec<bool>>,
}

/// What is known of a value, and of each of its parts.
#[derive(Drop)]
pub struct Memo {
    known: Vec<Known>,
    parts: Vec<Memo>,
}

impl Known {
    // Whether this answers for a name with so many references left. More of them do not change a verdict
    // that is not open, and fewer do not change one that is.
    fn answers(&self, name: &str, left: u64, asks_parts: bool) -> bool
        ensures { result ≡ true → AnswersFor self.now name.now left asks_parts }
    {
        if self.name.as_str() != name {
            return false;
        }
        match self.says {
            Verdict::Open => left <= self.references,
            Verdict::No => self.references <= left,
            Verdict::Yes => self.references <= left && (!asks_parts || self.judged.is_some()),
        }
    }

    // Whether this answers wherever another answers.
    fn covers(&self, other: &Known) -> bool {
        if self.name.as_str() != other.name.as_str()
            || other.judged.is_some() && self.judged.is_none()
        {
            return false;
        }
        match (self.says, other.says) {
            (Verdict::Open, Verdict::Open) => other.references <= self.references,
            (Verdict::Open, _) | (_, Verdict::Open) => false,
            _ => self.references <= other.references,
        }
    }

    // Marks what was judged if the value fits.
    fn mark(&self, marks: &mut Vec<bool>)
        ensures { marks.new.items
            ≡ marked_by (meant self.now.says) (option_map (λ b. b.items) self.now.judged) marks.old.items }
    {
        if self.says != Verdict::Yes {
            return;
        }
        match &self.judged {
            Some(judged) => unite(judged, marks),
            None => {}
        }
    }
}

impl Memo {
    /// Nothing is known.
    pub fn new(alloc: Global) -> Memo
        ensures { Nothing result }
    {
        Memo {
            known: Vec::new(alloc),
            parts: Vec::new(alloc),
        }
    }

    fn is_empty(&self) -> bool {
        self.known.is_empty() && self.parts.is_empty()
    }

    /// What is known of the schema of a name, if that answers. The parts that it judges are marked.
    pub fn recall(
        &self,
        dialect: Dialect,
        name: &str,
        left: u64,
        marks: &mut Vec<bool>,
    ) -> Option<Verdict>
        ensures { Recalls dialect self.now name.now left (option_map meant result) marks.old.items marks.new.items }
    {
        if dialect.reads_prefix_items() && !dialect.reads_const() {
            return None;
        }
        for known in &self.known {
            if known.answers(name, left, !marks.is_empty()) {
                known.mark(marks);
                return Some(known.says);
            }
        }
        None
    }

    /// Keeps what a reference was found to say.
    pub fn keep(
        &mut self,
        alloc: Global,
        name: &str,
        references: u64,
        says: Verdict,
        judged: Option<Vec<bool>>,
    ) -> Result<(), AllocError>
        ensures { Learns self.old name.now references (meant says) (option_map (λ b. b.items) judged) self.new }
    {
        let known = Known {
            name: String::from_str(alloc, name)?,
            references,
            says,
            judged,
        };
        match self.covered(&known) {
            Some(place) => self.known[place] = known,
            None => self.known.push(known)?,
        }
        Ok(())
    }

    // Where something is kept that answers no more than this does.
    fn covered(&self, known: &Known) -> Option<usize>
        ensures { IfSome result (λ n. n < length (out-Memo self.now).known.items) }
    {
        for place in 0..self.known.len() {
            if known.covers(&self.known[place]) {
                return Some(place);
            }
        }
        None
    }

    /// Takes out what is known of the part at a place.
    pub fn take(&mut self, alloc: Global, place: usize) -> Memo
        ensures taken { Takes self.old place result }
        ensures keeps { Keeps self.old self.new }
    {
        if place < self.parts.len() {
            mem::replace(&mut self.parts[place], Memo::new(alloc))
        } else {
            Memo::new(alloc)
        }
    }

    /// Puts back what is known of the part at a place.
    pub fn put(&mut self, alloc: Global, place: usize, part: Memo) -> Result<(), AllocError>
        ensures { Puts self.old place part self.new }
    {
        if part.is_empty() {
            return Ok(());
        }
        while self.parts.len() <= place {
            self.parts.push(Memo::new(alloc))?;
        }
        self.parts[place] = part;
        Ok(())
    }
}
