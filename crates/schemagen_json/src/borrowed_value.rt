//! JSON values whose texts are borrowed.
ghost use Rattle.std.specs.Prelude.{◌≡◌, option_map, option_and_then};
ghost use Rattle.serde_json.specs.Find.{as_bool, as_str, as_u64, as_number, as_array, as_object, get};
ghost use Rattle.schemagen_json.specs.BorrowedValue.{data_of, items_data, members_data};

mod copying;
mod members;
mod number;
mod reading;

pub use copying::copy_members;
use members::last_member;
pub use members::lone_member;
pub use reading::{MAX_DEPTH, read_value, read_value_from};
use serde_json::Number;

/// A JSON value that borrows its texts: from the text that it was read from, or, if they have
/// escapes, from the scratch memory of that reading.
///
/// An object has its members in the order of the text. Of a name that comes twice, the last member
/// counts, as in `serde_json`.
#[derive(Drop)]
pub enum BorrowedValue<'a> {
    Null,
    Bool(bool),
    Number(Number),
    String(&'a str),
    Array(Vec<BorrowedValue<'a>>),
    Object(Vec<(&'a str, BorrowedValue<'a>)>),
}

impl<'a> BorrowedValue<'a> {
    /// The truth value that this is.
    pub fn as_bool(&self) -> Option<bool>
        ensures { result ≡ as_bool (data_of self.now) }
    {
        match self {
            BorrowedValue::Bool(b) => Some(*b),
            _ => None,
        }
    }

    /// The number from 0 to 2^64 - 1 that this is.
    pub fn as_u64(&self) -> Option<u64>
        ensures { result ≡ option_and_then as_u64 (as_number (data_of self.now)) }
    {
        match self {
            BorrowedValue::Number(number) => number.as_u64(),
            _ => None,
        }
    }

    /// The text that this is.
    pub fn as_str(&self) -> Option<&'a str>
        ensures { option_map (λ s. s.now) result ≡ as_str (data_of self.now) }
    {
        match self {
            BorrowedValue::String(text) => Some(*text),
            _ => None,
        }
    }

    /// The items of the list that this is.
    pub fn as_array(&self) -> Option<&Vec<BorrowedValue<'a>>>
        ensures { option_map (λ v. items_data v.now.items) result ≡ as_array (data_of self.now) }
    {
        match self {
            BorrowedValue::Array(items) => Some(items),
            _ => None,
        }
    }

    /// The members of the object that this is.
    pub fn as_object(&self) -> Option<&Vec<(&'a str, BorrowedValue<'a>)>>
        ensures { option_map (λ v. members_data v.now.items) result ≡ as_object (data_of self.now) }
    {
        match self {
            BorrowedValue::Object(members) => Some(members),
            _ => None,
        }
    }

    /// The last member of this name, if this is an object.
    pub fn get(&self, name: &str) -> Option<&BorrowedValue<'a>>
        ensures { option_map (λ v. data_of v.now) result ≡ get name.now (data_of self.now) }
    {
        match self {
            BorrowedValue::Object(members) => last_member(members, name),
            _ => None,
        }
    }
}
