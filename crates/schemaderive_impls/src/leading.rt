//! Which declarations lead to which, and which of them a type names by their ids, since what leads
//! back to it can't be registered in its implementation.
use crate::items::Subject;
use schemaderive_definitions::{Content, Members, Part, Payload};
use schemaderive_known::{Makeup, Row};
use std::alloc::{AllocError, Global};

/// The declarations that each row leads to by itself, without what these lead to.
pub fn mentions_of(alloc: Global, rows: &[Row]) -> Result<Vec<Vec<usize>>, AllocError> {
    let mut mentions: Vec<Vec<usize>> = Vec::new(alloc);
    for row in rows {
        let found = mentions_in(alloc, row, &mentions)?;
        mentions.push(found)?;
    }
    Ok(mentions)
}

// The declarations that a row leads to, of whose parts this is known.
fn mentions_in(
    alloc: Global,
    row: &Row,
    mentions: &[Vec<usize>],
) -> Result<Vec<usize>, AllocError> {
    let mut found = Vec::new(alloc);
    if let Makeup::Declared(number) = row.makeup {
        found.push(number)?;
    }
    for part in &row.parts {
        add_row(&mut found, mentions, *part)?;
    }
    Ok(found)
}

// Adds the declarations to which a row leads, each once.
fn add_row(list: &mut Vec<usize>, mentions: &[Vec<usize>], row: usize) -> Result<(), AllocError> {
    let Some(more) = mentions.get(row) else {
        return Ok(());
    };
    for number in more {
        if !list.contains(number) {
            list.push(*number)?;
        }
    }
    Ok(())
}

// The declarations to which each of so many leads.
fn leads_of(
    alloc: Global,
    count: usize,
    subjects: &[Subject],
    mentions: &[Vec<usize>],
) -> Result<Vec<Vec<usize>>, AllocError> {
    let mut leads: Vec<Vec<usize>> = Vec::new(alloc);
    for _ in 0..count {
        leads.push(Vec::new(alloc))?;
    }
    for subject in subjects {
        if let Some(list) = leads.get_mut(subject.number) {
            add_leads(list, mentions, subject)?;
        }
    }
    Ok(leads)
}

// Adds the declarations to which the types lead that an implementation names.
fn add_leads(
    list: &mut Vec<usize>,
    mentions: &[Vec<usize>],
    subject: &Subject,
) -> Result<(), AllocError> {
    match &subject.definition {
        Some(definition) => add_content(list, mentions, &definition.content),
        None => add_row(list, mentions, subject.row),
    }
}

fn add_content(
    list: &mut Vec<usize>,
    mentions: &[Vec<usize>],
    content: &Content,
) -> Result<(), AllocError> {
    match content {
        Content::Null => Ok(()),
        Content::Newtype(part) => add_row(list, mentions, part.plain),
        Content::Tuple(parts) => add_parts(list, mentions, parts),
        Content::Struct(members) => add_members(list, mentions, members),
        Content::Enum(choices) => {
            for choice in &choices.list {
                add_payload(list, mentions, &choice.payload)?;
            }
            Ok(())
        }
    }
}

fn add_payload(
    list: &mut Vec<usize>,
    mentions: &[Vec<usize>],
    payload: &Payload,
) -> Result<(), AllocError> {
    match payload {
        Payload::Unit => Ok(()),
        Payload::Newtype(part) => add_row(list, mentions, part.plain),
        Payload::Tuple(parts) => add_parts(list, mentions, parts),
        Payload::Struct(members) => add_members(list, mentions, members),
    }
}

fn add_parts(
    list: &mut Vec<usize>,
    mentions: &[Vec<usize>],
    parts: &[Part],
) -> Result<(), AllocError> {
    for part in parts {
        add_row(list, mentions, part.plain)?;
    }
    Ok(())
}

fn add_members(
    list: &mut Vec<usize>,
    mentions: &[Vec<usize>],
    members: &Members,
) -> Result<(), AllocError> {
    for member in &members.list {
        add_row(list, mentions, member.part.plain)?;
    }
    Ok(())
}

// Whether a declaration has been gone to.
#[derive(Clone, Copy, PartialEq, Eq)]
enum State {
    New,
    Open,
    Done,
}

// A way through declarations, each of which leads to the next.
#[derive(Drop)]
struct Walk {
    states: Vec<State>,
    // whether another declaration leads to each
    led_to: Vec<bool>,
    // the declarations that are open, and how many of those to which they lead are gone to
    path: Vec<(usize, usize)>,
    // of each declaration, those that are open when it leads to them
    ancestors: Vec<Vec<usize>>,
}

/// Of each of so many declarations, those to which it leads and which lead to it: what it names by their ids.
/// The others are registered, which ends, since the declarations are gone through along these ways
/// and none is registered while it is open. The ways begin at declarations to which no other leads.
pub fn ancestors_of(
    alloc: Global,
    count: usize,
    subjects: &[Subject],
    mentions: &[Vec<usize>],
) -> Result<Vec<Vec<usize>>, AllocError> {
    let leads = leads_of(alloc, count, subjects, mentions)?;
    let mut walk = Walk {
        states: Vec::new(alloc),
        led_to: Vec::new(alloc),
        path: Vec::new(alloc),
        ancestors: Vec::new(alloc),
    };
    walk.go_all(alloc, &leads)?;
    Ok(walk.ancestors)
}

impl Walk {
    fn go_all(&mut self, alloc: Global, leads: &[Vec<usize>]) -> Result<(), AllocError> {
        for _ in leads {
            self.states.push(State::New)?;
            self.led_to.push(false)?;
            self.ancestors.push(Vec::new(alloc))?;
        }
        self.find_led_to(leads);
        for number in 0..leads.len() {
            if self.led_to.get(number) == Some(&false) {
                self.go(leads, number)?;
            }
        }
        for number in 0..leads.len() {
            self.go(leads, number)?;
        }
        Ok(())
    }

    fn find_led_to(&mut self, leads: &[Vec<usize>]) {
        for (from, list) in leads.iter().enumerate() {
            for to in list {
                if *to != from {
                    if let Some(it) = self.led_to.get_mut(*to) {
                        *it = true;
                    }
                }
            }
        }
    }

    // Goes through what a declaration leads to, unless it is done.
    fn go(&mut self, leads: &[Vec<usize>], start: usize) -> Result<(), AllocError> {
        self.enter(start)?;
        for _ in 0..usize::MAX {
            let Some((from, next)) = self.path.pop() else {
                break;
            };
            let to = match leads.get(from) {
                Some(list) => list.get(next).copied(),
                None => None,
            };
            match to {
                Some(to) => {
                    self.path.push((from, next.saturating_add(1)))?;
                    self.step(from, to)?;
                }
                None => self.set(from, State::Done),
            }
        }
        Ok(())
    }

    // Goes from a declaration to one to which it leads.
    fn step(&mut self, from: usize, to: usize) -> Result<(), AllocError> {
        if self.states.get(to).copied() == Some(State::Open) {
            if let Some(list) = self.ancestors.get_mut(from) {
                list.push(to)?;
            }
            return Ok(());
        }
        self.enter(to)
    }

    // Opens a declaration that is new.
    fn enter(&mut self, number: usize) -> Result<(), AllocError> {
        if self.states.get(number).copied() == Some(State::New) {
            self.set(number, State::Open);
            self.path.push((number, 0))?;
        }
        Ok(())
    }

    fn set(&mut self, number: usize, state: State) {
        if let Some(it) = self.states.get_mut(number) {
            *it = state;
        }
    }
}
