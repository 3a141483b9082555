//! Members and items of parts. Members in the order of their names are edited in their list.
ghost use Rattle.std.specs.Prelude.{◌≡◌, ◌<◌, is_some, length, map, option_map, slice_set, IfOk, IsTrue, MatchResult, OnOk};
ghost use Rattle.schemars_parts.specs.Words.{IsPermutation, array, no_items, object, member, no_members, put, get_member, view, items_view, members_view, members_len, without, members_in, object_of, put_members, assembled_view, items_assembled, members_assembled, named_view, there_or, IsFoundAt, BelongsAt};
ghost use Rattle.schemars_schema.proofs.SortedMembers.{IsSorted};

use crate::assembled::Assembled;
use crate::error::Stop;
use serde_json::{Map, Value};
use std::alloc::Global;
use std::cmp::Ordering;
use std::marker::Model;

/// Members in the order of their names, each name once.
#[derive(Drop)]
pub struct MemberList<'t> {
    list: Vec<(&'t str, Assembled<'t>)>,
}

impl<'t> Model for MemberList<'t> {
    ghost use Rattle.serde_json.specs.Data.{Members};
    ghost use Rattle.schemars_schema.specs.DataCode.{members_code};
    ghost use Rattle.schemars_schema.proofs.SortedMembers.{IsSorted};
    ghost use Rattle.schemars_parts.specs.Assembled.{members_assembled};

    ghost Value = { Members };

    ghost coded = { members_code };

    ghost view = { λ m. members_assembled m.list.items };

    ghost invariant = { λ m. IsSorted (members_assembled m.list.items) };
}

impl<'t> MemberList<'t> {
    // No members.
    pub(crate) fn new(alloc: Global) -> MemberList<'t>
        ensures { result ≡ no_members }
    {
        MemberList {
            list: Vec::new(alloc),
        }
    }

    /// These members, where each name is before the next.
    ///
    /// # Errors
    ///
    /// `Stop` where a name is not before the next.
    pub fn of(list: Vec<(&'t str, Assembled<'t>)>) -> Result<MemberList<'t>, Stop>
        ensures { IfOk result (λ m. m ≡ members_assembled list.entry.items) }
    {
        if is_ascending(&list) {
            Ok(MemberList { list })
        } else {
            Err(Stop::NotCovered)
        }
    }

    /// All members as parts.
    ///
    /// # Errors
    ///
    /// `Stop` if memory runs out.
    pub fn of_values(alloc: Global, values: &'t Map<String, Value>) -> Result<MemberList<'t>, Stop>
        ensures { IfOk result (λ m. m ≡ members_view values.now.entries) }
    {
        let mut list = Vec::with_capacity(alloc, values.len())?;
        for (name, value) in values.iter() {
            list.push((name.as_str(), Assembled::Value(value)))?;
        }
        Ok(MemberList { list })
    }

    // This member alone.
    fn lone(alloc: Global, name: &'t str, part: Assembled<'t>) -> Result<MemberList<'t>, Stop>
        ensures { IfOk result (λ m. m ≡ member name.now (assembled_view part.entry) no_members) }
    {
        let list = vec![in alloc; (name, part)]?;
        Ok(MemberList { list })
    }

    // How many members there are.
    pub(crate) fn len(&self) -> usize
        ensures { result ≡ members_len self.now }
    {
        self.list.len()
    }

    /// The object of the members.
    pub fn into_object(self) -> Assembled<'t>
        ensures { assembled_view result ≡ object self.entry }
    {
        Assembled::Object(self.list)
    }

    /// Puts the part in, in the place of a member of its name.
    ///
    /// # Errors
    ///
    /// `Stop` if memory runs out.
    pub fn put(&mut self, name: &'t str, part: Assembled<'t>) -> Result<(), Stop>
        ensures { OnOk result (self.new ≡ put name.now (assembled_view part.entry) self.old) }
    {
        match search(&self.list, name) {
            Ok(place) => {
                replace(&mut self.list, place, (name, part));
                Ok(())
            }
            Err(place) => {
                self.list.insert(place, (name, part))?;
                Ok(())
            }
        }
    }

    /// Puts the values in, which take the place of members of their names.
    ///
    /// # Errors
    ///
    /// `Stop` if memory runs out.
    pub fn put_values(&mut self, values: &'t Map<String, Value>) -> Result<(), Stop>
        ensures { OnOk result (self.new ≡ put_members (members_view values.now.entries) self.old) }
    {
        for (name, value) in values.iter() {
            self.put(name.as_str(), Assembled::Value(value))?;
        }
        Ok(())
    }

    /// Finds the part of this name.
    pub fn find(&self, name: &str) -> Option<&Assembled<'t>>
        ensures { option_map (λ p. assembled_view p.now) result ≡ get_member name.now self.now }
    {
        match search(&self.list, name) {
            Ok(place) => Some(&self.list[place].1),
            Err(_) => None,
        }
    }

    /// Whether there is a member of this name.
    pub fn has(&self, name: &str) -> bool
        ensures { result ≡ is_some (get_member name.now self.now) }
    {
        self.find(name).is_some()
    }

    /// Takes the part of this name out.
    pub fn take(&mut self, name: &str) -> Option<Assembled<'t>>
        ensures value { option_map assembled_view result ≡ get_member name.now self.old }
        ensures rest { self.new ≡ without name.now self.old }
        ensures ascending { IsSorted self.old }
    {
        match search(&self.list, name) {
            Ok(place) => {
                let (_, part) = self.list.remove(place);
                Some(part)
            }
            Err(_) => None,
        }
    }

    /// Takes the members of the object of this name out: none where there is no member of the name.
    ///
    /// # Errors
    ///
    /// `Stop` if memory runs out, or where a part of this name is no object.
    pub fn take_members(&mut self, alloc: Global, name: &str) -> Result<MemberList<'t>, Stop>
        ensures value { IfOk result (λ m. object m
            ≡ there_or (object no_members) (get_member name.now self.old)) }
        ensures rest { OnOk result (self.new ≡ without name.now self.old) }
        ensures ascending { OnOk result (IsSorted self.old) }
    {
        match self.take(name) {
            Some(part) => into_members(alloc, part),
            None => Ok(MemberList::new(alloc)),
        }
    }

    /// Takes the items of the list of this name out: none where there is no member of the name.
    ///
    /// # Errors
    ///
    /// `Stop` if memory runs out, or where a part of this name is no list.
    pub fn take_items(&mut self, alloc: Global, name: &str) -> Result<Vec<Assembled<'t>>, Stop>
        ensures value { IfOk result (λ v. array (items_assembled v.items)
            ≡ there_or (array no_items) (get_member name.now self.old)) }
        ensures rest { OnOk result (self.new ≡ without name.now self.old) }
        ensures ascending { OnOk result (IsSorted self.old) }
    {
        match self.take(name) {
            Some(part) => into_items(alloc, part),
            None => Ok(Vec::new(alloc)),
        }
    }
}

// The place of the member of this name, or else the place where it belongs.
fn search<'t>(list: &Vec<(&'t str, Assembled<'t>)>, name: &str) -> Result<usize, usize>
    ensures { MatchResult result (IsFoundAt name.now (members_assembled list.now.items))
        (BelongsAt name.now (members_assembled list.now.items)) }
{
    for (place, member) in list.iter().enumerate() {
        match name.cmp(member.0) {
            Ordering::Less => return Err(place),
            Ordering::Equal => return Ok(place),
            Ordering::Greater => {}
        }
    }
    Err(list.len())
}

// Puts the member in the place of another.
fn replace<'t>(
    list: &mut Vec<(&'t str, Assembled<'t>)>,
    place: usize,
    member: (&'t str, Assembled<'t>),
)
    requires { place < length list.old.items }
    ensures { list.new.items ≡ slice_set list.old.items place member.entry }
{
    list[place] = member;
}

/// The object of these members, put in one after another.
///
/// # Errors
///
/// `Stop` where a name is there twice.
pub fn object_of<'t>(members: Vec<(&'t str, Assembled<'t>)>) -> Result<Assembled<'t>, Stop>
    ensures { IfOk result (λ p. assembled_view p
        ≡ object_of (map named_view members.entry.items)) }
{
    let mut members = members;
    if sort_by_name(&mut members) {
        Ok(Assembled::Object(members))
    } else {
        Err(Stop::NotCovered)
    }
}

// Sorts the members by name, and says whether each name is there once.
fn sort_by_name<'t>(members: &mut Vec<(&'t str, Assembled<'t>)>) -> bool
    ensures same { IsPermutation members.old.items members.new.items }
    ensures ascending { IsTrue result → IsSorted (members_assembled members.new.items) }
{
    if is_ascending(members) {
        return true;
    }
    members.sort_unstable_by(|first, second| first.0.cmp(second.0));
    is_ascending(members)
}

// Whether each name is before the next.
pub(crate) fn is_ascending<'t>(members: &Vec<(&'t str, Assembled<'t>)>) -> bool
    ensures { IsTrue result → IsSorted (members_assembled members.now.items) }
{
    for next in 1..members.len() {
        if members[next - 1].0 >= members[next].0 {
            return false;
        }
    }
    true
}

/// The object of this member alone.
///
/// # Errors
///
/// `Stop` if memory runs out.
pub fn lone_object<'t>(
    alloc: Global,
    name: &'t str,
    part: Assembled<'t>,
) -> Result<Assembled<'t>, Stop>
    ensures { IfOk result (λ p. assembled_view p
        ≡ object (member name.now (assembled_view part.entry) no_members)) }
{
    let members = vec![in alloc; (name, part)]?;
    Ok(Assembled::Object(members))
}

/// The members of a schema once it is an object.
///
/// # Errors
///
/// `Stop` if memory runs out, where members are out of order, or where the part is no schema.
pub fn members_in<'t>(alloc: Global, schema: Assembled<'t>) -> Result<MemberList<'t>, Stop>
    ensures { IfOk result (λ m. m ≡ members_in (assembled_view schema.entry)) }
{
    match schema {
        Assembled::Object(members) => MemberList::of(members),
        Assembled::Reference(target) => MemberList::lone(alloc, "$ref", Assembled::Text(target)),
        Assembled::Value(value) => members_in_value(alloc, value),
        _ => Err(Stop::NotCovered),
    }
}

fn members_in_value<'t>(alloc: Global, value: &'t Value) -> Result<MemberList<'t>, Stop>
    ensures { IfOk result (λ m. m ≡ members_in (view value.now)) }
{
    match value {
        Value::Object(members) => MemberList::of_values(alloc, members),
        Value::Bool(true) => Ok(MemberList::new(alloc)),
        Value::Bool(false) => MemberList::lone(alloc, "not", Assembled::Object(Vec::new(alloc))),
        _ => Err(Stop::NotCovered),
    }
}

// The members of an object.
fn into_members<'t>(alloc: Global, part: Assembled<'t>) -> Result<MemberList<'t>, Stop>
    ensures { IfOk result (λ m. assembled_view part.entry ≡ object m) }
{
    match part {
        Assembled::Object(members) => MemberList::of(members),
        Assembled::Value(Value::Object(members)) => MemberList::of_values(alloc, members),
        _ => Err(Stop::NotCovered),
    }
}

/// The items of a list.
///
/// # Errors
///
/// `Stop` if memory runs out, or where the part is no list.
pub fn into_items<'t>(alloc: Global, part: Assembled<'t>) -> Result<Vec<Assembled<'t>>, Stop>
    ensures { IfOk result (λ v. assembled_view part.entry ≡ array (items_assembled v.items)) }
{
    match part {
        Assembled::List(parts) => Ok(parts),
        Assembled::Value(Value::Array(values)) => items_of(alloc, values),
        _ => Err(Stop::NotCovered),
    }
}

// All items as parts.
fn items_of<'t>(alloc: Global, values: &'t Vec<Value>) -> Result<Vec<Assembled<'t>>, Stop>
    ensures { IfOk result (λ v. items_assembled v.items ≡ items_view values.now.items) }
{
    let mut parts = Vec::with_capacity(alloc, values.len())?;
    for value in values {
        parts.push(Assembled::Value(value))?;
    }
    Ok(parts)
}
