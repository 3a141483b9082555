//! Enums, by how their variants are tagged.
ghost use Rattle.std.specs.Prelude.{◌≡◌, ◌<◌, Err, IfOk, OnOk, length, map, option_map};
ghost use Rattle.schemagen_input.specs.Words.{Data, Members, object, shape_of, variant_of, internal_variant_of, adjacent_in, enum_in, external_in, internal_in, internal_variant_in, untagged_in, variant_in, AreOfEnum, IsNext, IsNoValue};

use crate::tokens::object::{ObjectMembers, read_object};
use crate::tokens::said::{Said, read_list};
use crate::tokens::single::{read_flag, read_text};
use json::Reader;
use schemagen_json::{ParseError, read_value};
use schemars_types::{Adjacent, Internal, InternalVariant, Shape, Variant};
use std::alloc::Global;

/// What the members of an enum say.
#[derive(Drop)]
pub struct EnumMembers<V> {
    /// No member has a name besides `tag`, `content`, `closed` and `variants`.
    pub adjacent: bool,
    /// None has one besides `tag`, `closed` and `variants`.
    pub internal: bool,
    /// None has one besides `variants`.
    pub plain: bool,
    pub tag: Option<String>,
    pub content: Option<String>,
    pub closed: Option<bool>,
    pub variants: Option<Vec<V>>,
}

impl<'a, V: Said> ObjectMembers<'a> for EnumMembers<V> {
    ghost are_of = { λ m ms. AreOfEnum V.value_of V.said m (object ms) };

    fn none(alloc: Global) -> EnumMembers<V> {
        EnumMembers {
            adjacent: true,
            internal: true,
            plain: true,
            tag: None,
            content: None,
            closed: Some(false),
            variants: Some(Vec::new(alloc)),
        }
    }

    fn read_member(
        &mut self,
        alloc: Global,
        name: &'a str,
        reader: &mut Reader<'a>,
        depth: usize,
    ) -> Result<(), ParseError> {
        match name {
            "variants" => self.variants = read_list(alloc, reader, depth)?,
            "tag" => {
                self.tag = read_text(alloc, reader, depth)?;
                self.plain = false;
            }
            "closed" => {
                self.closed = read_flag(alloc, reader, depth)?;
                self.plain = false;
            }
            "content" => {
                self.content = read_text(alloc, reader, depth)?;
                self.plain = false;
                self.internal = false;
            }
            _ => {
                drop(read_value(alloc, reader, depth)?);
                self.plain = false;
                self.internal = false;
                self.adjacent = false;
            }
        }
        Ok(())
    }
}

// The variants of an enum with these members, if it says nothing else.
fn variants_of(members: EnumMembers<Variant>) -> Option<Vec<Variant>>
    ensures { (ms : Members) → AreOfEnum variant_of variant_in members (object ms)
        → option_map (λ v. map variant_of v.items) result ≡ enum_in (object ms) }
{
    if !members.plain {
        return None;
    }
    members.variants
}

// The enum with these members whose variants are named beside a tag.
fn internal_of(members: EnumMembers<InternalVariant>) -> Option<Shape>
    ensures { (ms : Members)
        → AreOfEnum internal_variant_of internal_variant_in members (object ms)
        → option_map shape_of result ≡ internal_in (object ms) }
{
    if !members.internal {
        return None;
    }
    Some(Shape::Internal(Internal {
        tag: members.tag?,
        closed: members.closed?,
        variants: members.variants?,
    }))
}

// The enum with these members whose variants have name and content under two keys.
fn adjacent_of(members: EnumMembers<Variant>) -> Option<Shape>
    ensures { (ms : Members) → AreOfEnum variant_of variant_in members (object ms)
        → option_map shape_of result ≡ adjacent_in (object ms) }
{
    if !members.adjacent {
        return None;
    }
    Some(Shape::Adjacent(Adjacent {
        tag: members.tag?,
        content: members.content?,
        closed: members.closed?,
        variants: members.variants?,
    }))
}

// The variants of the enum that the next value says, if it says nothing else.
fn read_variants(
    alloc: Global,
    reader: &mut Reader<'_>,
    depth: usize,
) -> Result<Option<Vec<Variant>>, ParseError>
    ensures ok { IfOk result (λ v. (d : Data) × IsNext depth reader.old d reader.new
        × (option_map (λ xs. map variant_of xs.items) v ≡ enum_in d)) }
    ensures shorter { OnOk result (length reader.new < length reader.old) }
    ensures not_json { result ≡ Err ParseError.NotJson → IsNoValue depth reader.old }
{
    match read_object::<EnumMembers<Variant>>(alloc, reader, depth)? {
        Some(members) => Ok(variants_of(members)),
        None => Ok(None),
    }
}

/// The next value, as an enum whose variants are tagged by their names.
pub fn read_external(
    alloc: Global,
    reader: &mut Reader<'_>,
    depth: usize,
) -> Result<Option<Shape>, ParseError>
    ensures ok { IfOk result (λ s. (d : Data) × IsNext depth reader.old d reader.new
        × (option_map shape_of s ≡ external_in d)) }
    ensures shorter { OnOk result (length reader.new < length reader.old) }
    ensures not_json { result ≡ Err ParseError.NotJson → IsNoValue depth reader.old }
{
    let variants = read_variants(alloc, reader, depth)?;
    Ok(variants.map(Shape::External))
}

/// The next value, as an enum whose variants are tagged by nothing.
pub fn read_untagged(
    alloc: Global,
    reader: &mut Reader<'_>,
    depth: usize,
) -> Result<Option<Shape>, ParseError>
    ensures ok { IfOk result (λ s. (d : Data) × IsNext depth reader.old d reader.new
        × (option_map shape_of s ≡ untagged_in d)) }
    ensures shorter { OnOk result (length reader.new < length reader.old) }
    ensures not_json { result ≡ Err ParseError.NotJson → IsNoValue depth reader.old }
{
    let variants = read_variants(alloc, reader, depth)?;
    Ok(variants.map(Shape::Untagged))
}

/// The next value, as an enum whose variants are named by a member of their own maps.
pub fn read_internal(
    alloc: Global,
    reader: &mut Reader<'_>,
    depth: usize,
) -> Result<Option<Shape>, ParseError>
    ensures ok { IfOk result (λ s. (d : Data) × IsNext depth reader.old d reader.new
        × (option_map shape_of s ≡ internal_in d)) }
    ensures shorter { OnOk result (length reader.new < length reader.old) }
    ensures not_json { result ≡ Err ParseError.NotJson → IsNoValue depth reader.old }
{
    match read_object::<EnumMembers<InternalVariant>>(alloc, reader, depth)? {
        Some(members) => Ok(internal_of(members)),
        None => Ok(None),
    }
}

/// The next value, as an enum whose variants have name and content under two keys.
pub fn read_adjacent(
    alloc: Global,
    reader: &mut Reader<'_>,
    depth: usize,
) -> Result<Option<Shape>, ParseError>
    ensures ok { IfOk result (λ s. (d : Data) × IsNext depth reader.old d reader.new
        × (option_map shape_of s ≡ adjacent_in d)) }
    ensures shorter { OnOk result (length reader.new < length reader.old) }
    ensures not_json { result ≡ Err ParseError.NotJson → IsNoValue depth reader.old }
{
    match read_object::<EnumMembers<Variant>>(alloc, reader, depth)? {
        Some(members) => Ok(adjacent_of(members)),
        None => Ok(None),
    }
}
