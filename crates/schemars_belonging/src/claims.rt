//! Which variants of an enum fit among the members of a map, and the keys that they claim.
ghost use Rattle.std.specs.Prelude.{◌≡◌, ◌++◌, ◌∷◌, ◌&&◌, [], List, Bool, if◌then◌else◌, map, OnOk};
ghost use Rattle.schemars_belonging.specs.Words.{internal_payload_of, payload_of, fields_of, effective, flattened_in, exactly_one, tagged_fields, given_of, is_unit, payload_expanded, one_of_seen};

use crate::fields::field_members;
use crate::given::Given;
use schemars_types::{Contract, Fields, InternalPayload, Payload, Types};
use std::alloc::{AllocError, Global};

/// Whether variants fit, as far as they have been tried.
#[derive(Clone, Copy)]
pub struct Seen {
    /// one fits
    pub one: bool,
    /// another fits too
    pub more: bool,
}

impl Seen {
    pub fn nothing() -> Seen
        ensures { (bs : List Bool) → one_of_seen result.one result.more bs ≡ exactly_one bs }
    {
        Seen {
            one: false,
            more: false,
        }
    }

    /// One more is tried.
    pub fn with(self, fits: bool) -> Seen
        ensures { (bs : List Bool) → one_of_seen result.one result.more bs
            ≡ one_of_seen self.one self.more (fits ∷ bs) }
    {
        Seen {
            one: self.one || fits,
            more: self.more || (self.one && fits),
        }
    }

    /// Whether exactly one fits.
    pub fn is_one(self) -> bool
        ensures { result ≡ one_of_seen self.one self.more [] }
    {
        self.one && !self.more
    }
}

/// Whether exactly one of two answers is yes.
pub fn one_of_two(a: bool, b: bool) -> bool
    ensures { result ≡ exactly_one (a ∷ b ∷ []) }
{
    if a { !b } else { b }
}

/// Whether exactly one of three answers is yes.
pub fn one_of_three(a: bool, b: bool, c: bool) -> bool
    ensures { result ≡ exactly_one (a ∷ b ∷ c ∷ []) }
{
    if a {
        return !b && !c;
    }
    one_of_two(b, c)
}

/// Whether a variant has nothing beside its name.
pub fn is_unit(payload: &Payload) -> bool
    ensures { result ≡ is_unit (payload_of payload.now) }
{
    match payload {
        Payload::Unit => true,
        Payload::Newtype(_) => false,
        Payload::Tuple(_) => false,
        Payload::Struct(_) => false,
    }
}

/// Whether two answers are both yes.
pub fn both(a: bool, b: bool) -> bool
    ensures { result ≡ (a && b) }
{
    a && b
}

/// Adds the key of a variant, if it fits.
pub fn claim<'t>(fits: bool, name: &'t str, claimed: &mut Vec<&'t str>) -> Result<(), AllocError>
    ensures { OnOk result (map (λ k. k.now) claimed.new.items ≡ map (λ k. k.now) claimed.old.items
        ++ (if fits then name.now ∷ [] else [])) }
{
    if fits {
        claimed.push(name)?;
    }
    Ok(())
}

/// Adds the keys of a variant that is tagged inside its map, if it fits: the tag, and its fields.
pub fn claim_internal<'t>(
    alloc: Global,
    types: &'t Types,
    contract: Contract,
    fits: bool,
    tag: &'t str,
    payload: &'t InternalPayload,
    claimed: &mut Vec<&'t str>,
) -> Result<(), AllocError>
    ensures { OnOk result (map (λ k. k.now) claimed.new.items ≡ map (λ k. k.now) claimed.old.items
        ++ (if fits then tag.now ∷ map (λ f. f.name)
        (tagged_fields (payload_expanded types.now (internal_payload_of payload.now))) else [])) }
{
    if !fits {
        return Ok(());
    }
    claim_tagged(alloc, types, contract, tag, payload, claimed)
}

fn claim_tagged<'t>(
    alloc: Global,
    types: &'t Types,
    contract: Contract,
    tag: &'t str,
    payload: &'t InternalPayload,
    claimed: &mut Vec<&'t str>,
) -> Result<(), AllocError>
    ensures { OnOk result (map (λ k. k.now) claimed.new.items ≡ map (λ k. k.now) claimed.old.items
        ++ (tag.now ∷ map (λ f. f.name)
        (tagged_fields (payload_expanded types.now (internal_payload_of payload.now))))) }
{
    claimed.push(tag)?;
    match payload {
        InternalPayload::Struct(fields) => claim_fields(alloc, types, contract, fields, claimed),
        InternalPayload::Unit | InternalPayload::Newtype(_) => Ok(()),
    }
}

fn claim_fields<'t>(
    alloc: Global,
    types: &'t Types,
    contract: Contract,
    fields: &'t Fields,
    claimed: &mut Vec<&'t str>,
) -> Result<(), AllocError>
    ensures { OnOk result (map (λ k. k.now) claimed.new.items ≡ map (λ k. k.now) claimed.old.items
        ++ map (λ f. f.name) (effective (flattened_in types.now) (fields_of fields.now))) }
{
    let list = field_members(alloc, types, contract, &[], fields)?;
    claim_names(&list, claimed)
}

fn claim_names<'t>(list: &[Given<'t>], claimed: &mut Vec<&'t str>) -> Result<(), AllocError>
    ensures { OnOk result (map (λ k. k.now) claimed.new.items ≡ map (λ k. k.now) claimed.old.items
        ++ map (λ g. g.name) (map given_of list.now)) }
{
    for given in list {
        claimed.push(given.name)?;
    }
    Ok(())
}
