//! A document that is asked about many values.
ghost use Rattle.std.specs.Prelude.{◌≡◌, ◌≤◌, IfOk, OnOk, IfErr};
ghost use Rattle.schemars_validator.specs.Words.{view, bound, meant, Accepts, IsOf, Says, has_some, is_no, pairs_of, path_of, IsReadBy, AreExpressionsOf, IsRead, IsRefusal};

use crate::failures::failures_of;
use crate::reading::{Reading, read};
use crate::told::Failure;
use schemars_readable::{
    Draft, Expression, Place, Refusal, compiled, patterns_in, schemas_in, unread_in,
};
use schemars_schema::Schema;
use schemars_validate::{Verdict, bound, depth, validate};
use serde_json::Value;
use std::alloc::{AllocError, Global};
use std::collections::HashSet;

/// What a document says of a value, and each keyword that the value does not meet.
#[derive(Debug, Drop)]
pub struct Examined {
    pub verdict: Verdict,
    pub failures: Vec<Failure>,
}

/// A document that was read once, and is asked about values.
#[derive(Drop)]
pub struct Validator<'d> {
    draft: Draft,
    document: &'d Value,
    expressions: Vec<Expression>,
    references: u64,
}

impl<'d> Validator<'d> {
    /// Reads a document of a dialect.
    ///
    /// # Errors
    ///
    /// Where the document is neither an object nor a truth value, has a keyword that judges values and is
    /// not read, a reference that leads to none of its schemas, or a pattern that is no expression, and
    /// where memory runs out.
    pub fn new(alloc: Global, draft: Draft, document: &'d Value) -> Result<Validator<'d>, Refusal>
        ensures taken { IfOk result (λ v. IsOf draft (view document.now) v) }
        ensures read { OnOk result (IsRead draft (view document.now)) }
        ensures expressions { IfOk result (λ v. AreExpressionsOf (view document.now) v.expressions.items) }
        ensures refused { IfErr result (IsRefusal draft (view document.now)) }
    {
        if !Schema::is_schema(document) {
            return Err(Refusal::NotASchema);
        }
        let schemas = schemas_in(alloc, document)?;
        let unread = unread_in(alloc, draft, document, &schemas)?;
        if !unread.is_empty() {
            return Err(Refusal::Unread(unread));
        }
        let patterns = patterns_in(alloc, &schemas)?;
        let expressions = compiled(alloc, &patterns)?;
        let references = count_of_references(alloc, &schemas)?;
        Ok(Validator {
            draft,
            document,
            expressions,
            references,
        })
    }

    /// What the document says of a value.
    pub fn validate(&self, alloc: Global, value: &Value) -> Result<Verdict, AllocError>
        ensures { IfOk result (λ says. Says self.now (view value.now) (meant says)) }
    {
        let reading = read(alloc, &self.expressions, value)?;
        let references = self.references_for(value)?;
        self.judge(alloc, &reading, references, value)
    }

    /// Whether the document accepts a value.
    pub fn is_valid(&self, alloc: Global, value: &Value) -> Result<bool, AllocError>
        ensures { IfOk result (λ valid. Accepts self.now (view value.now) valid) }
    {
        Ok(self.validate(alloc, value)? == Verdict::Yes)
    }

    /// What the document says of a value, and why it denies the value. There are failures if and only if it
    /// does.
    pub fn examine(&self, alloc: Global, value: &Value) -> Result<Examined, AllocError>
        ensures says { IfOk result (λ e. Says self.now (view value.now) (meant e.verdict)) }
        ensures explains { IfOk result (λ e. has_some e.failures.items ≡ is_no (meant e.verdict)) }
    {
        let reading = read(alloc, &self.expressions, value)?;
        let references = self.references_for(value)?;
        let verdict = self.judge(alloc, &reading, references, value)?;
        let failures = if verdict == Verdict::No {
            failures_of(
                alloc,
                self.draft,
                self.document,
                &reading,
                references,
                value,
            )?
        } else {
            Vec::new(alloc)
        };
        Ok(Examined { verdict, failures })
    }

    fn judge(
        &self,
        alloc: Global,
        reading: &Reading,
        references: u64,
        value: &Value,
    ) -> Result<Verdict, AllocError>
        requires read { IsReadBy self.now.expressions.items (view value.now) (pairs_of reading.now.matched.items) }
        requires enough { bound (path_of self.now.draft) (view self.now.document.now) (view value.now) ≤ references }
        ensures { IfOk result (λ says. Says self.now (view value.now) (meant says)) }
    {
        let dialect = self.draft.dialect();
        validate(
            alloc,
            dialect,
            self.document,
            reading,
            references,
            self.document,
            value,
        )
    }

    // As many references as may have to be followed within one another.
    fn references_for(&self, value: &Value) -> Result<u64, AllocError>
        ensures { IfOk result (λ n.
            bound (path_of self.now.draft) (view self.now.document.now) (view value.now) ≤ n) }
    {
        let path = self.draft.definitions_path();
        let Some(least) = bound(path, self.document, value) else {
            // no memory holds a value or a document of that size
            return Err(AllocError);
        };
        match all_references(self.references, value) {
            Some(n) if n > least => Ok(n),
            _ => Ok(least),
        }
    }
}

// Each reference of the document once at each level of the value.
fn all_references(references: u64, value: &Value) -> Option<u64> {
    let deep = depth(value)?.checked_add(1)?;
    deep.checked_mul(references.checked_add(2)?)
}

// The places of references, each once.
fn count_of_references(alloc: Global, schemas: &[Place<'_>]) -> Result<u64, AllocError> {
    let mut places = HashSet::new(alloc);
    for schema in schemas {
        if schema.keywords.get("$ref").is_some() {
            places.insert(String::from_str(alloc, schema.pointer.as_str())?)?;
        }
    }
    Ok(places.len() as u64)
}
