//! The names that a source brings in by `use`.
use crate::cursor::Cursor;
use crate::fault::{Fault, Place, refused};
use std::alloc::{AllocError, Global};

// How deep the groups of a `use` may nest.
const MAX_DEPTH: usize = 32;

/// A name that a module brings in.
#[derive(Drop)]
pub struct Import {
    /// the module's path, with a colon between names
    pub module: String,
    /// the name
    pub name: String,
    /// the segments of what it stands for; the first is empty if two colons begin the path
    pub path: Vec<String>,
    /// where it has a condition of which it is not known whether it holds
    pub condition: Option<Place>,
}

/// A module whose names another brings in.
#[derive(Drop)]
pub struct Glob {
    /// the path of the module that brings them in
    pub module: String,
    /// the segments of the path of the module whose names they are
    pub path: Vec<String>,
    /// where it has a condition of which it is not known whether it holds
    pub condition: Option<Place>,
}

/// The names that modules bring in.
#[derive(Drop)]
pub struct Uses {
    /// those that are named
    pub imports: Vec<Import>,
    /// modules of which all names are brought in
    pub globs: Vec<Glob>,
    /// where those that are read next have a condition
    pub condition: Option<Place>,
}

/// Reads a `use`, whose keyword is behind, up to its semicolon.
///
/// # Errors
///
/// It is no `use` of Rust, or nests too deeply.
pub fn read_use(
    alloc: Global,
    cursor: &mut Cursor<'_>,
    module: &str,
    uses: &mut Uses,
) -> Result<(), Fault> {
    let prefix = Vec::new(alloc);
    tree_at(alloc, cursor, module, &prefix, uses, MAX_DEPTH)?;
    let _ = cursor.take_symbol(';');
    Ok(())
}

fn copied(alloc: Global, segments: &[String]) -> Result<Vec<String>, AllocError> {
    let mut copy = Vec::new(alloc);
    for segment in segments {
        copy.push(String::from_str(alloc, segment.as_str())?)?;
    }
    Ok(copy)
}

// Reads what comes next under these segments.
#[cycle(uses)]
fn tree_at(
    alloc: Global,
    cursor: &mut Cursor<'_>,
    module: &str,
    prefix: &[String],
    uses: &mut Uses,
    depth: usize,
) -> Result<(), Fault> {
    let mut path = copied(alloc, prefix)?;
    if cursor.take_colons() {
        path.push(String::new(alloc))?;
    }
    for _ in 0..cursor.len() {
        if cursor.is_symbol(0, '{') {
            if depth == 0 {
                return Err(refused(alloc, cursor.place(), "nested too deeply"));
            }
            return group_at(alloc, cursor, module, &path, uses, depth - 1);
        }
        if cursor.take_symbol('*') {
            uses.globs.push(Glob {
                module: String::from_str(alloc, module)?,
                path,
                condition: uses.condition,
            })?;
            return Ok(());
        }
        let name = cursor.name(alloc)?;
        if name != "self" || path.is_empty() {
            path.push(String::from_str(alloc, name)?)?;
        }
        if !cursor.take_colons() {
            break;
        }
    }
    add_import(alloc, cursor, module, path, uses)
}

// Adds the name of a path, or the one that it gets by `as`.
fn add_import(
    alloc: Global,
    cursor: &mut Cursor<'_>,
    module: &str,
    path: Vec<String>,
    uses: &mut Uses,
) -> Result<(), Fault> {
    let name = if cursor.take_word("as") {
        String::from_str(alloc, cursor.name(alloc)?)?
    } else {
        match path.last() {
            Some(last) => String::from_str(alloc, last.as_str())?,
            None => String::new(alloc),
        }
    };
    let module = String::from_str(alloc, module)?;
    uses.imports.push(Import {
        module,
        name,
        path,
        condition: uses.condition,
    })?;
    Ok(())
}

// Reads the group that comes next under these segments.
#[cycle(uses)]
fn group_at(
    alloc: Global,
    cursor: &mut Cursor<'_>,
    module: &str,
    prefix: &[String],
    uses: &mut Uses,
    depth: usize,
) -> Result<(), Fault> {
    let mut inside = cursor.group();
    for _ in 0..inside.len() {
        if inside.is_empty() {
            break;
        }
        if depth == 0 {
            return Err(refused(alloc, inside.place(), "nested too deeply"));
        }
        tree_at(alloc, &mut inside, module, prefix, uses, depth - 1)?;
        let _ = inside.take_symbol(',');
    }
    Ok(())
}
