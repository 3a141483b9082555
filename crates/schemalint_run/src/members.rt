//! Members that an object has twice.
use crate::findings::{Finding, Kind, add};
use crate::places::{item_place, member_place};
use schemagen_json::BorrowedValue;
use std::alloc::{AllocError, Global};
use std::collections::BTreeSet;

/// Adds a warning for each member of an object that has a later one of its name.
#[cycle(repeated)]
pub fn add_repeated_members(
    alloc: Global,
    place: &str,
    value: &BorrowedValue<'_>,
    findings: &mut Vec<Finding>,
) -> Result<(), AllocError> {
    match value {
        BorrowedValue::Null | BorrowedValue::Bool(_) => Ok(()),
        BorrowedValue::Number(_) | BorrowedValue::String(_) => Ok(()),
        BorrowedValue::Array(items) => add_in_items(alloc, place, items, findings),
        BorrowedValue::Object(members) => {
            add_names(alloc, place, members, findings)?;
            add_in_members(alloc, place, members, findings)
        }
    }
}

#[cycle(repeated)]
fn add_in_items(
    alloc: Global,
    place: &str,
    items: &Vec<BorrowedValue<'_>>,
    findings: &mut Vec<Finding>,
) -> Result<(), AllocError> {
    for (n, item) in items.iter().enumerate() {
        let at = item_place(alloc, place, n)?;
        add_repeated_members(alloc, at.as_str(), item, findings)?;
    }
    Ok(())
}

#[cycle(repeated)]
fn add_in_members(
    alloc: Global,
    place: &str,
    members: &Vec<(&str, BorrowedValue<'_>)>,
    findings: &mut Vec<Finding>,
) -> Result<(), AllocError> {
    for (name, member) in members {
        let at = member_place(alloc, place, name)?;
        add_repeated_members(alloc, at.as_str(), member, findings)?;
    }
    Ok(())
}

// A line for each name that was there before.
fn add_names(
    alloc: Global,
    place: &str,
    members: &Vec<(&str, BorrowedValue<'_>)>,
    findings: &mut Vec<Finding>,
) -> Result<(), AllocError> {
    let mut names = BTreeSet::new(alloc);
    for (name, _) in members {
        if names.contains(name) {
            let sentence = format!(in alloc;
                "the member {name:?} is there twice; the last one counts"
            )?;
            add(
                alloc,
                findings,
                Kind::RepeatedMember,
                place,
                sentence.as_str(),
            )?;
        } else {
            names.insert(*name)?;
        }
    }
    Ok(())
}
