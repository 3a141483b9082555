//! Which rows have names.
ghost use Rattle.std.specs.Prelude.{ℕ, ◌≡◌, ◌+◌, ◌<◌, ◌^◌, ◌++◌, ◌∷◌, [], false, length, IfOk, OnOk, OnErr, Some, None, option_map, string_bytes, take};
ghost use Rattle.schemars_build.specs.Words.{name_of, is_used, candidate, IsOneToOne, IsFirstUnused, AreUsed, IsFirst, IsNoted, place_of_owner};
ghost use Rattle.schemars_types.specs.declared.contract.Contract.{Contract};

use indexmap::IndexSet;
use schemars_types::{Contract, TypeNo};
use std::alloc::{AllocError, Global};
use std::collections::HashMap;
use std::marker::Model;

/// Whose name it is.
#[derive(Clone, Copy, PartialEq, Eq)]
struct Owner {
    row: TypeNo,
    contract: Contract,
}

/// The places where the names of a row may be, by contract.
#[derive(Clone, Copy)]
struct Places {
    deserialize: Option<usize>,
    serialize: Option<usize>,
}

const NOWHERE: Places = Places {
    deserialize: None,
    serialize: None,
};

/// The names that rows were given.
///
/// Each owner has the name of its place.
#[derive(Drop)]
pub struct Names {
    owners: Vec<Owner>,
    given: IndexSet<String>,
    // for each row, where its names are; a place whose owner is another counts for nothing
    places: Vec<Places>,
    // for each base that was asked for, how many of its first candidates are known to be used
    tried: HashMap<String, usize>,
}

impl Model for Names {
    ghost use Rattle.schemars_build.specs.Naming.{Naming};

    ghost Value = { Naming };

    ghost use Rattle.schemars_build.specs.Owners.{naming_of, IsHeld};

    ghost view = { λ t. naming_of t.owners.items t.given.keys };

    ghost invariant = { λ t. IsHeld t.owners.items t.given.keys t.places.items t.tried };
}

impl Clone for Names {
    ghost use Rattle.std.specs.Prelude.{◌≡◌};

    ghost is_clone = { λ t u. u ≡ t };

    fn clone(&self) -> Result<Names, AllocError> {
        Ok(Names {
            owners: self.owners.clone()?,
            given: self.given.clone()?,
            places: self.places.clone()?,
            tried: self.tried.clone()?,
        })
    }
}

/// The candidate that follows this many others.
fn candidate(alloc: Global, base: &str, tries: usize) -> Result<String, AllocError>
    requires { tries < 2 ^ 63 }
    ensures { IfOk result (λ s. string_bytes s ≡ candidate base.now tries) }
{
    if tries == 0 {
        return String::from_str(alloc, base);
    }
    let number = tries + 1;
    format!(in alloc; "{base}{number}")
}

impl Names {
    /// No names.
    pub fn new(alloc: Global) -> Names
        ensures { result ≡ [] }
    {
        Names {
            owners: Vec::new(alloc),
            given: IndexSet::new(alloc),
            places: Vec::new(alloc),
            tried: HashMap::new(alloc),
        }
    }

    /// How many names there are.
    pub fn len(&self) -> usize
        ensures len { result ≡ length self.now }
        ensures small { result < 2 ^ 63 }
        ensures one_to_one { IsOneToOne self.now }
    {
        self.given.len()
    }

    /// Makes room for the places of this many rows.
    pub fn extend(&mut self, rows: usize) -> Result<(), AllocError>
        ensures { self.new ≡ self.old }
    {
        match rows.checked_sub(1) {
            Some(last) => extend(&mut self.places, last),
            None => Ok(()),
        }
    }

    /// The name of row `n` under this contract.
    pub fn get(&self, n: TypeNo, contract: Contract) -> Option<&str>
        ensures { option_map (λ s. s.now) result ≡ name_of n contract self.now }
    {
        let place = place_of(self.places.as_slice(), n, contract)?;
        let owner = self.owners.get(place)?;
        let wanted = Owner { row: n, contract };
        if wanted != *owner {
            return None;
        }
        let name = self.given.get_index(place)?;
        Some(name.as_str())
    }

    fn is_used(&self, name: &str) -> bool
        ensures { result ≡ is_used name.now self.now }
    {
        self.given.contains(name)
    }

    // How many of the first candidates of `base` are known to be used.
    fn tried(&self, base: &str) -> usize
        ensures { AreUsed self.now base.now result }
    {
        match self.tried.get(base) {
            Some(count) => *count,
            None => 0,
        }
    }

    // The first candidate that is not used, with how many come before it.
    fn first_unused(&self, alloc: Global, base: &str) -> Result<(usize, String), AllocError>
        ensures { IfOk result (λ r. IsFirst self.now base.now r.0 (string_bytes r.1)) }
    {
        for tries in self.tried(base)..self.len() + 1 {
            let name = candidate(alloc, base, tries)?;
            if !self.is_used(name.as_str()) {
                return Ok((tries, name));
            }
        }
        unreachable!()
    }

    // Notes that this many of the first candidates of `base` are used, where there is memory for
    // it.
    fn note(&mut self, alloc: Global, base: &str, count: usize)
        requires { AreUsed self.old base.now count }
        ensures { self.new ≡ self.old }
    {
        note(&mut self.tried, alloc, base, count);
    }

    fn push(&mut self, n: TypeNo, contract: Contract, name: String) -> Result<(), AllocError>
        requires unnamed { name_of n contract self.old ≡ None }
        requires unused { is_used (string_bytes name) self.old ≡ false }
        ensures ok { OnOk result (self.new
            ≡ self.old ++ (record { row = n; contract = contract; name = string_bytes name })
            ∷ []) }
        ensures err { OnErr result (self.new ≡ self.old) }
    {
        extend(&mut self.places, n)?;
        self.owners.reserve(1)?;
        let place = self.given.len();
        self.given.insert(name)?;
        self.owners.push(Owner { row: n, contract })?;
        put_place(&mut self.places, n, contract, place);
        Ok(())
    }

    /// Gives row `n`, which has no name under this contract, the first candidate of `base` that is
    /// not used.
    pub fn give(
        &mut self,
        alloc: Global,
        n: TypeNo,
        contract: Contract,
        base: &str,
    ) -> Result<String, AllocError>
        requires { name_of n contract self.old ≡ None }
        ensures given { IfOk result (λ s. IsFirstUnused self.old base.now (string_bytes s)
            × (self.new ≡ self.old ++ (record { row = n; contract = contract; name = string_bytes s }) ∷ [])) }
        ensures err { OnErr result (self.new ≡ self.old) }
    {
        let (tries, name) = self.first_unused(alloc, base)?;
        self.push(n, contract, name.clone()?)?;
        self.note(alloc, base, tries + 1);
        Ok(name)
    }

    /// Takes back all but the first `len` names.
    pub fn truncate(&mut self, len: usize)
        ensures { self.new ≡ take len self.old }
    {
        if len < self.given.len() {
            self.owners.truncate(len);
            self.given.truncate(len);
            self.tried.clear();
        }
    }
}

// Notes a count, where there is memory for it. That of a base with one name is left out: it would
// spare one look-up for the second, and most bases have one.
fn note(tried: &mut HashMap<String, usize>, alloc: Global, base: &str, count: usize)
    ensures { IsNoted tried.old base.now count tried.new }
{
    if count > 1 {
        if let Ok(key) = String::from_str(alloc, base) {
            let _ = tried.insert(key, count);
        }
    }
}

// The place that is noted for row `n` under this contract.
fn place_of(places: &[Places], n: TypeNo, contract: Contract) -> Option<usize>
    ensures { result ≡ place_of_owner n contract places.now }
{
    let of = places.get(n)?;
    match contract {
        Contract::Deserialize => of.deserialize,
        Contract::Serialize => of.serialize,
    }
}

// Notes a place for row `n` under this contract.
fn put_place(places: &mut Vec<Places>, n: TypeNo, contract: Contract, place: usize)
    requires { n < length places.old.items }
    ensures here { place_of_owner n contract places.new.items ≡ Some place }
    ensures others { (m : ℕ) (d : Contract) → (n ≡ m → contract ≡ d → ⊥)
        → place_of_owner m d places.new.items ≡ place_of_owner m d places.old.items }
{
    match contract {
        Contract::Deserialize => places[n].deserialize = Some(place),
        Contract::Serialize => places[n].serialize = Some(place),
    }
}

// Makes room for the places of row `n`.
fn extend(places: &mut Vec<Places>, n: TypeNo) -> Result<(), AllocError>
    ensures ok { OnOk result (n < length places.new.items) }
    ensures same { (m : ℕ) (d : Contract)
        → place_of_owner m d places.new.items ≡ place_of_owner m d places.old.items }
{
    if let Some(more) = n.checked_sub(places.len()) {
        places.reserve(more.saturating_add(1))?;
    }
    'growing: while places.len() <= n {
        places.push(NOWHERE)?;
    }
    Ok(())
}
