//! What attributes are read for, and what is to be said of them.
use schemaderive_syntax::{Fault, Meta, Place, Refusal, refused};
use std::alloc::{AllocError, Global};

/// Which values a table is for.
#[derive(Clone, Copy, Debug, PartialEq, Eq)]
pub enum Contract {
    /// those that are read and those that are written
    Both,
    /// those that are read
    Deserialize,
    /// those that are written
    Serialize,
}

/// What attributes are read for, with what is to be said of them.
#[derive(Drop)]
pub struct Context {
    /// the allocator
    pub alloc: Global,
    /// which values the table is for
    pub contract: Contract,
    /// what is read, but says less than it may seem to
    pub warnings: Vec<Refusal>,
}

impl Context {
    /// A context without warnings.
    pub fn new(alloc: Global, contract: Contract) -> Context {
        Context {
            alloc,
            contract,
            warnings: Vec::new(alloc),
        }
    }

    /// The fault of what is at this place.
    pub fn refused(&self, place: Place, reason: &str) -> Fault {
        refused(self.alloc, place, reason)
    }

    /// The fault of this attribute.
    pub fn refused_meta(&self, meta: &Meta<'_>, reason: &str) -> Fault {
        self.refused_name(meta.place, meta.name, reason)
    }

    /// The fault of the attribute with this name.
    pub fn refused_name(&self, place: Place, name: &str, reason: &str) -> Fault {
        match self.refusal(place, name, reason) {
            Ok(refusal) => Fault::Refused(refusal),
            Err(_) => Fault::OutOfMemory,
        }
    }

    /// Adds a warning of the attribute with this name.
    pub fn warn(&mut self, place: Place, name: &str, reason: &str) -> Result<(), AllocError> {
        let refusal = self.refusal(place, name, reason)?;
        self.warnings.push(refusal)?;
        Ok(())
    }

    // What is to be said of the attribute with this name.
    fn refusal(&self, place: Place, name: &str, reason: &str) -> Result<Refusal, AllocError> {
        let reason = format!(in self.alloc; "`{name}`: {reason}")?;
        Ok(Refusal { place, reason })
    }
}
