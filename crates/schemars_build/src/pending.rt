//! The rows whose documents are being made.
ghost use Rattle.std.specs.Prelude.{ℕ, ◌≡◌, ◌<◌, [], not, length, Some, IfOk, OnOk, OnErr, nat_eq, slice_get};
ghost use Rattle.schemars_build.specs.Words.{insert_key, is_pending, without_last};

use schemars_types::TypeNo;
use std::alloc::{AllocError, Global};
use std::marker::Model;

/// The rows whose documents are being made, the innermost last.
#[derive(Drop)]
pub struct Pending {
    rows: Vec<TypeNo>,
    // for each row its place among these; a place of another row counts for nothing
    marks: Vec<usize>,
}

impl Model for Pending {
    ghost use Rattle.std.specs.Prelude.{ℕ, List};
    ghost use Rattle.schemars_build.specs.Marks.{AreMarked};

    ghost Value = { List ℕ };

    ghost view = { λ p. p.rows.items };

    ghost invariant = { λ p. AreMarked p.rows.items p.marks.items };
}

impl Clone for Pending {
    ghost use Rattle.std.specs.Prelude.{◌≡◌};

    ghost is_clone = { λ p q. q ≡ p };

    fn clone(&self) -> Result<Pending, AllocError> {
        Ok(Pending {
            rows: self.rows.clone()?,
            marks: self.marks.clone()?,
        })
    }
}

impl Pending {
    /// No rows.
    pub fn new(alloc: Global) -> Pending
        ensures { result ≡ [] }
    {
        Pending {
            rows: Vec::new(alloc),
            marks: Vec::new(alloc),
        }
    }

    /// Makes room for the marks of this many rows.
    pub fn extend(&mut self, rows: usize) -> Result<(), AllocError>
        ensures { self.new ≡ self.old }
    {
        match rows.checked_sub(1) {
            Some(last) => extend(&mut self.marks, last),
            None => Ok(()),
        }
    }

    /// Whether row `n` is one of them.
    pub fn contains(&self, n: TypeNo) -> bool
        ensures { result ≡ is_pending self.now n }
    {
        let Some(mark) = self.marks.get(n) else {
            return false;
        };
        match self.rows.get(*mark) {
            Some(row) => *row == n,
            None => false,
        }
    }

    /// Adds row `n` as the innermost, unless it is there. The answer is whether it was not.
    pub fn enter(&mut self, n: TypeNo) -> Result<bool, AllocError>
        ensures is_new { IfOk result (λ b. b ≡ not (is_pending self.old n)) }
        ensures ok { OnOk result (self.new ≡ insert_key nat_eq self.old n) }
        ensures err { OnErr result (self.new ≡ self.old) }
    {
        if self.contains(n) {
            return Ok(false);
        }
        extend(&mut self.marks, n)?;
        let place = self.rows.as_slice().len();
        self.rows.push(n)?;
        put_mark(&mut self.marks, n, place);
        Ok(true)
    }

    /// Takes the innermost row out.
    pub fn leave(&mut self)
        ensures { self.new ≡ without_last self.old }
    {
        let _ = self.rows.pop();
    }

    /// Takes all rows out.
    pub fn clear(&mut self)
        ensures { self.new ≡ [] }
    {
        self.rows.clear();
    }
}

// Makes room for the mark of row `n`.
fn extend(marks: &mut Vec<usize>, n: TypeNo) -> Result<(), AllocError>
    ensures ok { OnOk result (n < length marks.new.items) }
    ensures same { (m i : ℕ) → slice_get marks.old.items m ≡ Some i
        → slice_get marks.new.items m ≡ Some i }
{
    if let Some(more) = n.checked_sub(marks.len()) {
        marks.reserve(more.saturating_add(1))?;
    }
    'growing: while marks.len() <= n {
        marks.push(0)?;
    }
    Ok(())
}

// Marks row `n` with its place.
fn put_mark(marks: &mut Vec<usize>, n: TypeNo, place: usize)
    requires { n < length marks.old.items }
    ensures here { slice_get marks.new.items n ≡ Some place }
    ensures others { (m : ℕ) → (n ≡ m → ⊥)
        → slice_get marks.new.items m ≡ slice_get marks.old.items m }
{
    marks[n] = place;
}
