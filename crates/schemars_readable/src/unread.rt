//! What a document asks for and is not read.
ghost use Rattle.std.specs.Prelude.{◌≡◌, [], ◌∷◌, IfOk, OnOk, option_map, string_bytes};
ghost use Rattle.schemars_readable.specs.Words.{view, members_view, number_view, standing, is_inner_id, is_open_divisor, is_other_dialect, is_own, is_told, is_unread_at, leads_nowhere, leaves_open, told, unread_among, unread_keyword, unread_of, with_new};

use crate::draft::Draft;
use crate::forms::is_malformed;
use crate::keywords::is_unread;
use crate::places::{Place, member_place};
use crate::refusal::Unread;
use crate::wanted::what_is_wanted;
use schemars_validate::{numbers_le, resolved, size_in_64_bits};
use serde_json::{Number, Value};
use std::alloc::{AllocError, Global};

/// The keywords of a document that judge values and are not read, those whose value has no form that the
/// dialect gives it, a `multipleOf` that is a fraction, the references that lead to no schema of it, each
/// `$id` inside, which would change what references lead to, and a `$schema` that is not that of the
/// dialect. Each is told once.
pub fn unread_in(
    alloc: Global,
    draft: Draft,
    document: &Value,
    schemas: &[Place<'_>],
) -> Result<Vec<Unread>, AllocError>
    ensures { IfOk result (λ unread. told unread.items
        ≡ with_new [] (unread_of draft (view document.now) (standing schemas.now))) }
{
    let mut unread = Vec::new(alloc);
    for schema in schemas {
        add_unread(alloc, draft, document, schema, &mut unread)?;
    }
    Ok(unread)
}

#[tactic(auto, using(crate::proofs::Telling::told_more))]
fn add_unread(
    alloc: Global,
    draft: Draft,
    document: &Value,
    schema: &Place<'_>,
    unread: &mut Vec<Unread>,
) -> Result<(), AllocError>
    ensures { OnOk result (told unread.new.items ≡ with_new (told unread.old.items)
        (unread_among draft (view document.now) (string_bytes schema.now.pointer)
        (members_view schema.now.keywords.now.entries))) }
{
    let place = schema.pointer.as_str();
    for (keyword, value) in schema.keywords.iter() {
        add_keyword(
            alloc,
            draft,
            document,
            place,
            keyword.as_str(),
            value,
            unread,
        )?;
    }
    Ok(())
}

// Adds a keyword of a schema, if it is not read.
fn add_keyword(
    alloc: Global,
    draft: Draft,
    document: &Value,
    place: &str,
    keyword: &str,
    value: &Value,
    unread: &mut Vec<Unread>,
) -> Result<(), AllocError>
    ensures { OnOk result (told unread.new.items ≡ with_new (told unread.old.items)
        (unread_keyword draft (view document.now) place.now keyword.now (view value.now))) }
{
    if !is_unread_at(alloc, draft, document, place, keyword, value)? {
        return Ok(());
    }
    let at = member_place(alloc, place, keyword)?;
    let wanted = what_is_wanted(alloc, draft, keyword, value)?;
    add_new(alloc, at, keyword, wanted, unread)
}

// Adds a keyword at a place, unless it was told before.
fn add_new(
    alloc: Global,
    place: String,
    keyword: &str,
    wanted: Option<String>,
    unread: &mut Vec<Unread>,
) -> Result<(), AllocError>
    ensures { OnOk result (told unread.new.items
        ≡ with_new (told unread.old.items) ((string_bytes place, keyword.now) ∷ [])) }
{
    if is_told(unread, place.as_str(), keyword) {
        return Ok(());
    }
    let keyword = String::from_str(alloc, keyword)?;
    unread.push(Unread {
        place,
        keyword,
        wanted,
    })?;
    Ok(())
}

fn is_told(unread: &[Unread], place: &str, keyword: &str) -> bool
    ensures { result ≡ is_told unread.now place.now keyword.now }
{
    for it in unread {
        if it.place.as_str() == place && it.keyword.as_str() == keyword {
            return true;
        }
    }
    false
}

fn is_unread_at(
    alloc: Global,
    draft: Draft,
    document: &Value,
    place: &str,
    keyword: &str,
    value: &Value,
) -> Result<bool, AllocError>
    ensures { IfOk result (λ unread. unread
        ≡ is_unread_at draft (view document.now) place.now keyword.now (view value.now)) }
{
    let is_lost = leads_nowhere(alloc, document, keyword, value)?;
    let is_changed = is_other_dialect(draft, keyword, value) || is_lost;
    let is_passed_over = is_unread(draft, keyword) || leaves_open(keyword, value);
    let is_wrong = is_inner_id(place, keyword) || is_malformed(draft, keyword, value);
    Ok(is_passed_over || is_wrong || is_changed)
}

// Whether the keyword is a divisor that leaves numbers open.
fn leaves_open(keyword: &str, value: &Value) -> bool
    ensures { result ≡ leaves_open keyword.now (view value.now) }
{
    if keyword != "multipleOf" {
        return false;
    }
    match value.as_number() {
        Some(divisor) => is_open_divisor(*divisor),
        None => false,
    }
}

fn is_open_divisor(divisor: Number) -> bool
    ensures { result ≡ is_open_divisor (number_view divisor) }
{
    !(numbers_le(divisor, Number::from(0u64)) || size_in_64_bits(divisor).is_some())
}

// Whether the keyword is an identifier that is not that of the whole.
fn is_inner_id(place: &str, keyword: &str) -> bool
    ensures { result ≡ is_inner_id place.now keyword.now }
{
    keyword == "$id" && !place.is_empty()
}

fn is_other_dialect(draft: Draft, keyword: &str, value: &Value) -> bool
    ensures { result ≡ is_other_dialect draft keyword.now (view value.now) }
{
    keyword == "$schema" && !is_own(draft, value.as_str())
}

fn is_own(draft: Draft, meta_schema: Option<&str>) -> bool
    ensures { result ≡ is_own draft (option_map (λ t. t.now) meta_schema.entry) }
{
    match meta_schema {
        Some(meta_schema) => draft.is_named_by(meta_schema),
        None => false,
    }
}

// Whether the keyword is a reference that leads to no schema of the document.
fn leads_nowhere(
    alloc: Global,
    document: &Value,
    keyword: &str,
    value: &Value,
) -> Result<bool, AllocError>
    ensures { IfOk result (λ lost. lost ≡ leads_nowhere (view document.now) keyword.now (view value.now)) }
{
    if keyword != "$ref" {
        return Ok(false);
    }
    match value.as_str() {
        Some(reference) => Ok(resolved(alloc, document, reference)?.is_none()),
        None => Ok(false),
    }
}
