//! JSON Pointers into a schema.
ghost use Rattle.std.specs.Prelude.{◌≡◌, option_map, string_bytes, IfOk};
ghost use Rattle.schemars_schema.specs.Words.{cow_str_bytes, unescape, view, pointed_in, pointed_inside, pointer_text, IsFirstToken};

use crate::encoding::percent_decode;
use crate::schema::Schema;
use serde_json::Value;
use std::alloc::{AllocError, Global};
use std::borrow::CowStr;

impl Schema {
    /// Returns the value at a JSON Pointer (RFC 6901): the whole at `""`, and otherwise a member,
    /// or an item at an index without a leading zero, for each token after a `/`.
    ///
    /// A pointer after a `#` is percent-decoded first, as in the fragment of a URI (section 6).
    /// There is no value if that is not UTF-8, and none if the schema is a truth value.
    pub fn pointer(&self, alloc: Global, pointer: &str) -> Result<Option<&Value>, AllocError>
        ensures { IfOk result (λ found.
            option_map (λ v. view v.now) found ≡ pointed_in pointer.now self.now) }
    {
        if self.as_object().is_none() {
            return Ok(None);
        }
        match pointer_text(alloc, pointer)? {
            Some(path) => Ok(self.as_value().pointer(path.as_str())),
            None => Ok(None),
        }
    }

    /// Borrows the value at a JSON Pointer mutably. The whole, at `""` and `#`, is not borrowed:
    /// whatever is written, the schema is still a schema.
    pub fn pointer_mut(
        &mut self,
        alloc: Global,
        pointer: &str,
    ) -> Result<Option<&mut Value>, AllocError>
        ensures { IfOk result (λ found.
            option_map (λ v. view v.now) found ≡ pointed_inside pointer.now self.old) }
    {
        let Some(path) = pointer_text(alloc, pointer)? else {
            return Ok(None);
        };
        let Some(tokens) = path.as_str().strip_prefix('/') else {
            return Ok(None);
        };
        let (token, below) = split_token(tokens);
        let key = unescaped(alloc, token)?;
        match self.get_mut(key.as_str()) {
            Some(member) => Ok(member.pointer_mut(below)),
            None => Ok(None),
        }
    }
}

// The pointer, percent-decoded if it comes after a `#`.
fn pointer_text<'p>(alloc: Global, pointer: &'p str) -> Result<Option<CowStr<'p>>, AllocError>
    ensures { IfOk result (λ path. option_map cow_str_bytes path ≡ pointer_text pointer.now) }
{
    match pointer.strip_prefix('#') {
        Some(fragment) => percent_decode(alloc, fragment),
        None => Ok(Some(CowStr::Borrowed(pointer))),
    }
}

// The first token, and the pointer from there on.
pub(crate) fn split_token(tokens: &str) -> (&str, &str)
    ensures { IsFirstToken tokens.now result.0.now result.1.now }
{
    match tokens.find('/') {
        Some(end) => tokens.split_at(end),
        None => (tokens, ""),
    }
}

// The key that a token denotes: `~1` is `/`, and `~0` is `~`.
pub(crate) fn unescaped(alloc: Global, token: &str) -> Result<String, AllocError>
    ensures { IfOk result (λ key. string_bytes key ≡ unescape token.now) }
{
    let mut key = String::new(alloc);
    let mut rest = token;
    while let Some((before, after)) = rest.split_once('~') {
        key.push_str(before)?;
        if let Some(more) = after.strip_prefix('0') {
            key.push('~')?;
            rest = more;
        } else if let Some(more) = after.strip_prefix('1') {
            key.push('/')?;
            rest = more;
        } else {
            key.push('~')?;
            rest = after;
        }
    }
    key.push_str(rest)?;
    Ok(key)
}
