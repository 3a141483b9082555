//! Attributes, and the items of their lists.
use crate::conditions::holds;
use crate::cursor::Cursor;
use crate::fault::{Fault, Place, refused};
use crate::token::TokenKind;
use std::alloc::Global;

/// What an attribute or an item of its list has beside its name.
#[derive(Clone, Copy)]
pub enum MetaValue<'a> {
    /// nothing
    Nothing,
    /// a value behind `=`
    Equals(Cursor<'a>),
    /// a list in parentheses
    List(Cursor<'a>),
    /// the text of a documentation comment
    Doc(&'a str),
}

/// An attribute, or an item of its list.
#[derive(Clone, Copy)]
pub struct Meta<'a> {
    /// its name, or its text if it has no name
    pub name: &'a str,
    /// where it begins
    pub place: Place,
    /// whether its name is a text
    pub is_text: bool,
    /// whether it has `!` before its name
    pub is_unset: bool,
    /// what it has beside its name
    pub value: MetaValue<'a>,
}

/// Reads an attribute, or an item of a list, up to the next comma.
///
/// # Errors
///
/// It has no name, or there is something behind it.
pub fn read_meta<'a>(alloc: Global, cursor: &mut Cursor<'a>) -> Result<Meta<'a>, Fault> {
    let place = cursor.place();
    let is_unset = cursor.take_symbol('!');
    let _ = cursor.take_colons();
    let Some(token) = cursor.advance() else {
        return Err(refused(alloc, place, "an attribute is missing here"));
    };
    let is_text = token.kind == TokenKind::Text;
    if !is_text && token.kind != TokenKind::Word {
        return Err(refused(alloc, place, "an attribute begins with a name"));
    }
    let mut name = token.text.as_str();
    for _ in 0..cursor.len() {
        if !cursor.take_colons() {
            break;
        }
        name = cursor.name(alloc)?;
    }
    let value = read_value(alloc, cursor)?;
    Ok(Meta {
        name,
        place,
        is_text,
        is_unset,
        value,
    })
}

// What stands behind the name, up to the next comma.
fn read_value<'a>(alloc: Global, cursor: &mut Cursor<'a>) -> Result<MetaValue<'a>, Fault> {
    if cursor.take_symbol('=') {
        return Ok(MetaValue::Equals(cursor.up_to(&[','], false)));
    }
    let value = match cursor.peek(0) {
        Some(token) if token.closing().is_some() => MetaValue::List(cursor.group()),
        _ => MetaValue::Nothing,
    };
    if !cursor.is_empty() && !cursor.is_symbol(0, ',') {
        return Err(refused(
            alloc,
            cursor.place(),
            "a comma or the end of the attribute is missing here",
        ));
    }
    Ok(value)
}

/// Reads the items of a list.
///
/// # Errors
///
/// One of them has no name, or there is something behind it.
pub fn read_metas<'a>(alloc: Global, list: Cursor<'a>) -> Result<Vec<Meta<'a>>, Fault> {
    let mut cursor = list;
    let mut metas = Vec::new(alloc);
    for _ in 0..list.len() {
        if cursor.is_empty() {
            break;
        }
        let meta = read_meta(alloc, &mut cursor)?;
        metas.push(meta)?;
        let _ = cursor.take_symbol(',');
    }
    Ok(metas)
}

/// Reads the attributes that come next; none if they have a condition that does not hold. One of which
/// that is not known is left among them.
///
/// # Errors
///
/// An attribute has no name.
pub fn read_attributes<'a>(
    alloc: Global,
    given: &[String],
    cursor: &mut Cursor<'a>,
) -> Result<Option<Vec<Meta<'a>>>, Fault> {
    let mut attributes = Vec::new(alloc);
    let mut is_there = true;
    for _ in 0..cursor.len() {
        let Some(token) = cursor.peek(0) else {
            break;
        };
        if token.kind == TokenKind::Doc {
            let _ = cursor.advance();
            attributes.push(doc(token.text.as_str(), token.place))?;
        } else if token.is_symbol('#') && cursor.is_symbol(1, '[') {
            let _ = cursor.advance();
            let meta = read_meta(alloc, &mut cursor.group())?;
            is_there = add_attribute(alloc, given, &mut attributes, meta)? && is_there;
        } else {
            break;
        }
    }
    Ok(if is_there { Some(attributes) } else { None })
}

fn doc<'a>(text: &'a str, place: Place) -> Meta<'a> {
    Meta {
        name: "doc",
        place,
        is_text: false,
        is_unset: false,
        value: MetaValue::Doc(text),
    }
}

// Adds an attribute, or those that it has under a condition which holds; false if it is a condition
// that does not hold.
fn add_attribute<'a>(
    alloc: Global,
    given: &[String],
    attributes: &mut Vec<Meta<'a>>,
    meta: Meta<'a>,
) -> Result<bool, Fault> {
    let mut is_there = true;
    match meta.value {
        MetaValue::List(list) if ["cfg", "cfg_attr"].contains(&meta.name) => {
            let mut rest = list;
            let outcome = holds(given, &mut rest);
            let is_read = rest.take_symbol(',') || rest.is_empty();
            match outcome {
                Some(outcome) if is_read && meta.name == "cfg" => is_there = outcome,
                Some(outcome) if is_read => {
                    if outcome {
                        let mut inside = read_metas(alloc, rest)?;
                        attributes.append(&mut inside)?;
                    }
                }
                _ => attributes.push(meta)?,
            }
        }
        _ => attributes.push(meta)?,
    }
    Ok(is_there)
}
