//! Names in references: JSON Pointers in the fragment of a URI.
ghost use Rattle.std.specs.Prelude.{◌≡◌, ◌≢◌, ◌∷◌, ◌++◌, ◌<◌, Some, option_map, string_bytes, All, IfOk, OnOk, IsOkAnd, IsSomeAnd, IfSome, IsTrue, is_some, length};
ghost use Rattle.schemars_schema.specs.Words.{list_all, cow_str_bytes, IsBorrowedStr, Data, object, Members, unescape, get_member, Text, percent_decoded_bytes, percent_decoded, begins_escape, has_escape, is_hex_digit, hex_value, stays, hex_digit, encoded_byte, encoded, lookup};

use std::alloc::{AllocError, Global};
use std::borrow::CowStr;

/// The name as a token of a JSON Pointer in a URI fragment (RFC 6901, section 6; RFC 3986,
/// section 3.5): where `#path` leads to an object, `#path/token` leads to its member at the name.
///
/// `~` becomes `~0` and `/` becomes `~1`. Of the other bytes `!`, `$`, `&` to `;`, `=`, `?` to `Z`,
/// `_` and `a` to `z` stay, and each of the rest becomes `%` and two upper-case hexadecimal digits.
/// A name that needs no change is borrowed.
pub fn encode_ref_name<'n>(alloc: Global, name: &'n str) -> Result<CowStr<'n>, AllocError>
    ensures encoded { IfOk result (λ token. cow_str_bytes token ≡ encoded name.now) }
    ensures borrows { encoded name.now ≡ name.now → IsOkAnd result IsBorrowedStr }
    ensures decodes { IfOk result (λ token.
        option_map unescape (percent_decoded (cow_str_bytes token)) ≡ Some name.now) }
    ensures one_token { IfOk result (λ token. All (λ b. b ≢ 47) (cow_str_bytes token)) }
    ensures leads_to_member { IfOk result (λ token.
        (document : Data) (reference : Text) (members : Members)
        → lookup reference document ≡ Some (object members)
        → lookup (reference ++ 47 ∷ cow_str_bytes token) document
        ≡ get_member name.now members) }
{
    if all_stay(name.as_bytes()) {
        return Ok(CowStr::Borrowed(name));
    }
    let token = encoded(alloc, name.as_bytes())?;
    Ok(CowStr::Owned(token))
}

/// The text with each `%` and two hexadecimal digits, of either case, as the byte that they name
/// (RFC 3986, section 2.1). Any other `%` stays.
///
/// There is none where the bytes are not UTF-8. A text that needs no change is borrowed.
pub fn percent_decode<'t>(alloc: Global, text: &'t str) -> Result<Option<CowStr<'t>>, AllocError>
    ensures decoded { IfOk result (λ decoded.
        option_map cow_str_bytes decoded ≡ percent_decoded text.now) }
    ensures borrows { percent_decoded text.now ≡ Some text.now
        → IsOkAnd result (λ decoded. IsSomeAnd decoded IsBorrowedStr) }
{
    if !has_escape(text.as_bytes()) {
        return Ok(Some(CowStr::Borrowed(text)));
    }
    let bytes = decoded_bytes(alloc, text.as_bytes())?;
    match String::from_utf8(bytes) {
        Ok(decoded) => Ok(Some(CowStr::Owned(decoded))),
        Err(_) => Ok(None),
    }
}

// The bytes that may occur in a fragment, and are not escaped in a pointer.
fn stays(byte: u8) -> bool
    ensures { result ≡ stays byte }
{
    matches!(
        byte,
        b'!' | b'$' | b'&'..=b'.' | b'0'..=b';' | b'=' | b'?'..=b'Z' | b'_' | b'a'..=b'z'
    )
}

fn all_stay(name: &[u8]) -> bool
    ensures { result ≡ list_all stays name.now }
{
    name.iter().all(|byte| stays(*byte))
}

#[tactic(auto, unfolding(crate::specs::Encoding::encoded))]
fn encoded(alloc: Global, name: &[u8]) -> Result<String, AllocError>
    ensures { IfOk result (λ token. string_bytes token ≡ encoded name.now) }
{
    let mut token = String::new(alloc);
    for byte in name {
        push_encoded(&mut token, *byte)?;
    }
    Ok(token)
}

fn push_encoded(token: &mut String, byte: u8) -> Result<(), AllocError>
    ensures { OnOk result (string_bytes token.new ≡ string_bytes token.old ++ encoded_byte byte) }
{
    match byte {
        b'~' => token.push_str("~0"),
        b'/' => token.push_str("~1"),
        _ if stays(byte) => token.push(char::from(byte)),
        _ => {
            token.push('%')?;
            token.push(hex_digit(byte / 16))?;
            token.push(hex_digit(byte % 16))
        }
    }
}

fn hex_digit(value: u8) -> char
    requires { value < 16 }
    ensures { result ≡ hex_digit value }
{
    if value < 10 {
        char::from(b'0' + value)
    } else {
        char::from(b'A' + (value - 10))
    }
}

fn has_escape(bytes: &[u8]) -> bool
    ensures { result ≡ has_escape bytes.now }
{
    let mut rest = bytes;
    while let [_, after @ ..] = rest {
        if split_escape(rest).is_some() {
            return true;
        }
        rest = after;
    }
    false
}

#[tactic(auto, unfolding(crate::specs::Encoding::percent_decoded_bytes), using(crate::proofs::Encodings::decoded_front))]
fn decoded_bytes(alloc: Global, text: &[u8]) -> Result<Vec<u8>, AllocError>
    ensures { IfOk result (λ bytes. bytes.items ≡ percent_decoded_bytes text.now) }
{
    let mut bytes = Vec::new(alloc);
    let mut rest = text;
    while let [first, after @ ..] = rest {
        match split_escape(rest) {
            Some((byte, after_escape)) => {
                bytes.push(byte)?;
                rest = after_escape;
            }
            None => {
                bytes.push(*first)?;
                rest = after;
            }
        }
    }
    Ok(bytes)
}

// The byte that the escape at the front denotes, and what comes after the escape.
fn split_escape(bytes: &[u8]) -> Option<(u8, &[u8])>
    ensures begins { is_some result ≡ begins_escape bytes.now }
    ensures splits { IfSome result (λ split.
        percent_decoded_bytes bytes.now ≡ split.0 ∷ percent_decoded_bytes split.1.now) }
    ensures shorter { IfSome result (λ split. length split.1.now < length bytes.now) }
{
    match bytes {
        [b'%', high, low, after @ ..] if is_hex_digit(*high) && is_hex_digit(*low) => {
            Some((16 * hex_value(*high) + hex_value(*low), after))
        }
        _ => None,
    }
}

fn is_hex_digit(byte: u8) -> bool
    ensures { result ≡ is_hex_digit byte }
{
    byte.is_ascii_hexdigit()
}

fn hex_value(digit: u8) -> u8
    requires { IsTrue (is_hex_digit digit) }
    ensures value { result ≡ hex_value digit }
    ensures small { result < 16 }
{
    match digit {
        b'0'..=b'9' => digit - b'0',
        b'A'..=b'F' => digit - b'A' + 10,
        _ => digit - b'a' + 10,
    }
}
