//! Types of parts.
use crate::types::line::line_of;
use crate::types::packs::pack;
use schemars::GenerateError;
use serde_json::{Map, Value};
use std::alloc::Global;
use std::borrow::Cow;
use std::cell::{Cell, RefCell};
use std::cmp::Reverse;
use std::collections::{BTreeMap, BTreeSet, BinaryHeap, HashMap, HashSet, LinkedList, VecDeque};
use std::marker::PhantomData;
use std::num::Wrapping;
use std::ops::{Bound, Range, RangeInclusive};
use std::rc::Rc;

pub(crate) fn container(alloc: Global, of: &str) -> Result<String, GenerateError> {
    match of {
        "Vec<bool>" => line_of::<Vec<bool>>(alloc),
        "VecDeque<bool>" => line_of::<VecDeque<bool>>(alloc),
        "LinkedList<bool>" => line_of::<LinkedList<bool>>(alloc),
        "BinaryHeap<bool>" => line_of::<BinaryHeap<bool>>(alloc),
        "BTreeSet<bool>" => line_of::<BTreeSet<bool>>(alloc),
        "HashSet<bool>" => line_of::<HashSet<bool>>(alloc),
        "[bool;0]" => line_of::<[bool; 0]>(alloc),
        "[bool;1]" => line_of::<[bool; 1]>(alloc),
        "[bool;32]" => line_of::<[bool; 32]>(alloc),
        "BTreeMap<String,bool>" => line_of::<BTreeMap<String, bool>>(alloc),
        "BTreeMap<u8,bool>" => line_of::<BTreeMap<u8, bool>>(alloc),
        "HashMap<char,bool>" => line_of::<HashMap<char, bool>>(alloc),
        "Map<String,Value>" => line_of::<Map<String, Value>>(alloc),
        _ => choice(alloc, of),
    }
}

pub(crate) fn choice(alloc: Global, of: &str) -> Result<String, GenerateError> {
    match of {
        "Option<bool>" => line_of::<Option<bool>>(alloc),
        "Result<bool,char>" => line_of::<Result<bool, char>>(alloc),
        "Bound<bool>" => line_of::<Bound<bool>>(alloc),
        "Range<bool>" => line_of::<Range<bool>>(alloc),
        "RangeInclusive<bool>" => line_of::<RangeInclusive<bool>>(alloc),
        "(bool,)" => line_of::<(bool,)>(alloc),
        "(bool,char)" => line_of::<(bool, char)>(alloc),
        "(bool,char,u8,bool,char,u8,bool,char,u8,bool,char,u8,bool,char,u8,bool)" => line_of::<
            (
                bool,
                char,
                u8,
                bool,
                char,
                u8,
                bool,
                char,
                u8,
                bool,
                char,
                u8,
                bool,
                char,
                u8,
                bool,
            ),
        >(alloc),
        _ => wrapper(alloc, of),
    }
}

pub(crate) fn wrapper(alloc: Global, of: &str) -> Result<String, GenerateError> {
    match of {
        "PhantomData<char>" => line_of::<PhantomData<char>>(alloc),
        "Box<bool>" => line_of::<Box<bool>>(alloc),
        "Rc<bool>" => line_of::<Rc<bool>>(alloc),
        "Cell<bool>" => line_of::<Cell<bool>>(alloc),
        "RefCell<bool>" => line_of::<RefCell<bool>>(alloc),
        "Cow<bool>" => line_of::<Cow<'static, bool>>(alloc),
        "Wrapping<u8>" => line_of::<Wrapping<u8>>(alloc),
        "Reverse<bool>" => line_of::<Reverse<bool>>(alloc),
        "&bool" => line_of::<&'static bool>(alloc),
        "&mut bool" => line_of::<&'static mut bool>(alloc),
        _ => pack(alloc, of),
    }
}
