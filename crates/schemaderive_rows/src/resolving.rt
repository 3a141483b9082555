//! What paths stand for.
use crate::builder::{Builder, Item, joined, push_segment};
use crate::foreign::is_special;
use schemaderive_known::is_crate;
use schemaderive_options::UNDECIDED;
use schemaderive_syntax::{Fault, Place};
use std::alloc::{AllocError, Global};

// How many paths are looked up for one, by `use` lines.
const MAX_WAYS: usize = 1_000;

/// What a path stands for.
#[derive(Drop)]
pub enum Resolved {
    /// what the source declares
    Own(Item),
    /// a name of another crate, and the crate's name if the source has it
    Foreign(String, String),
    /// nothing, since the source has no module of this name; without a name, nothing in a module
    Lost(String),
}

// A path in a module that is looked up.
#[derive(Drop)]
struct Way {
    module: String,
    path: String,
}

impl<'a> Builder<'a> {
    /// What a path in this module stands for, as in Rust: what the module declares or brings in by name,
    /// or by a glob, or else what a crate has.
    ///
    /// # Errors
    ///
    /// It is brought in under a condition of which it is not known whether it holds, or by too many lines.
    pub fn resolve(&self, module: &str, path: &str, place: Place) -> Result<Resolved, Fault> {
        let mut ways = Vec::new(self.alloc());
        self.push_way(&mut ways, module, path, "")?;
        let mut came = Resolved::Lost(String::new(self.alloc()));
        for number in 0..MAX_WAYS {
            let Some(way) = ways.get(number) else {
                return Ok(came);
            };
            let path = String::from_str(self.alloc(), way.path.as_str())?;
            let (base, rest, is_fixed) = self.descend(way.module.as_str(), path.as_str())?;
            match self.look_up(base.as_str(), rest, is_fixed, &mut ways)? {
                Some(Resolved::Own(item)) => return Ok(Resolved::Own(item)),
                Some(other) if is_lost(&came) || is_certain(&other) => came = other,
                _ => {}
            }
        }
        Err(
            self.context
                .refused(place, "too many `use` lines lead from here"),
        )
    }

    // Adds a path of these two parts to those that are looked up, unless it is among them.
    fn push_way(
        &self,
        ways: &mut Vec<Way>,
        module: &str,
        head: &str,
        tail: &str,
    ) -> Result<(), AllocError> {
        let path = joined(self.alloc(), head, tail)?;
        let is_known = |way: &Way| way.module.as_str() == module
            && way.path.as_str() == path.as_str();
        if !ways.iter().any(is_known) {
            let module = String::from_str(self.alloc(), module)?;
            ways.push(Way { module, path })?;
        }
        Ok(())
    }

    // Goes through the modules that a path begins with, and returns the last, the rest of the path, and
    // whether there are any.
    fn descend<'s>(
        &self,
        module: &str,
        path: &'s str,
    ) -> Result<(String, &'s str, bool), AllocError> {
        let mut base = String::from_str(self.alloc(), module)?;
        let mut rest = path;
        let mut is_fixed = false;
        if let Some(inside) = self.behind_root(path) {
            base.clear();
            rest = inside;
            is_fixed = true;
        }
        for _ in 0..path.len() {
            let Some(inside) = self.step(&mut base, rest, is_fixed)? else {
                break;
            };
            rest = inside;
            is_fixed = true;
        }
        Ok((base, rest, is_fixed))
    }

    // What is left of a path behind that of the source's root, if it begins so.
    fn behind_root<'s>(&self, path: &'s str) -> Option<&'s str> {
        let root = match &self.home {
            Some(home) => home.as_str(),
            None => "crate",
        };
        let rest = path.strip_prefix(root)?;
        if rest.is_empty() {
            return Some(rest);
        }
        rest.strip_prefix("::")
    }

    // Goes into the module that a path begins with, and returns the rest; none if it begins with no
    // module.
    fn step<'s>(
        &self,
        base: &mut String,
        path: &'s str,
        is_fixed: bool,
    ) -> Result<Option<&'s str>, AllocError> {
        let (first, rest) = parts_of(path);
        match first {
            "" => return Ok(None),
            "self" if !is_fixed => {}
            "super" if !base.is_empty() => *base = self.parent(base.as_str())?,
            name => {
                let module = joined(self.alloc(), base.as_str(), name)?;
                match self.items.get(module.as_str()) {
                    Some(Item::Module) => *base = module,
                    _ => return Ok(None),
                }
            }
        }
        Ok(Some(rest))
    }

    // Looks up what a path in a module begins with. Where the module brings it in, what it stands for is
    // looked up next.
    fn look_up(
        &self,
        module: &str,
        path: &str,
        is_fixed: bool,
        ways: &mut Vec<Way>,
    ) -> Result<Option<Resolved>, Fault> {
        let (first, rest) = parts_of(path);
        if first.is_empty() {
            return Ok(Some(self.foreign(rest, true)?));
        }
        if rest.is_empty() {
            let whole = joined(self.alloc(), module, first)?;
            match self.items.get(whole.as_str()) {
                None | Some(Item::Module) => {}
                Some(item) => return Ok(Some(Resolved::Own(*item))),
            }
        }
        if self.push_imports(ways, module, first, rest)? {
            return Ok(None);
        }
        self.push_globs(ways, module, path, rest.is_empty())?;
        Ok(Some(self.foreign(path, !is_fixed)?))
    }

    // Adds the paths for which a name stands that a module brings in; false if there is none. One that
    // begins with its own name begins with that of a crate.
    fn push_imports(
        &self,
        ways: &mut Vec<Way>,
        module: &str,
        name: &str,
        rest: &str,
    ) -> Result<bool, Fault> {
        let mut is_there = false;
        for import in &self.source.uses.imports {
            if import.name.as_str() == name && import.module.as_str() == module {
                self.require_known(import.condition)?;
                let mut path = String::new(self.alloc());
                path.push_str(if is_named(name, &import.path) {
                    "::"
                } else {
                    ""
                })?;
                path.push_str(self.path_text(&import.path)?.as_str())?;
                self.push_way(ways, module, path.as_str(), rest)?;
                is_there = true;
            }
        }
        Ok(is_there)
    }

    // Adds the paths for which a path may stand by the globs of a module. One of another crate brings in
    // no module whose types are known.
    fn push_globs(
        &self,
        ways: &mut Vec<Way>,
        module: &str,
        path: &str,
        is_name: bool,
    ) -> Result<(), Fault> {
        for glob in &self.source.uses.globs {
            if glob.module.as_str() == module {
                self.require_known(glob.condition)?;
                let head = self.path_text(&glob.path)?;
                let (base, rest, _) = self.descend(module, head.as_str())?;
                if rest.is_empty() {
                    self.push_way(ways, base.as_str(), "self", path)?;
                } else if is_name {
                    self.push_way(ways, module, head.as_str(), path)?;
                }
            }
        }
        Ok(())
    }

    /// A path, as it is written.
    pub fn path_text(&self, segments: &[String]) -> Result<String, AllocError> {
        let mut path = String::new(self.alloc());
        for (number, segment) in segments.iter().enumerate() {
            path.push_str(if number == 0 { "" } else { "::" })?;
            path.push_str(segment.as_str())?;
        }
        Ok(path)
    }

    /// Refuses what has a condition of which it is not known whether it holds.
    ///
    /// # Errors
    ///
    /// It has one.
    pub fn require_known(&self, condition: Option<Place>) -> Result<(), Fault> {
        match condition {
            Some(place) => Err(self.context.refused_name(place, "cfg", UNDECIDED)),
            None => Ok(()),
        }
    }

    // What a path stands for that no module of the source has: a name of a crate, if it may be one.
    fn foreign(&self, path: &str, may_be: bool) -> Result<Resolved, AllocError> {
        let (first, rest) = parts_of(path);
        let (_, last) = path.rsplit_once("::").unwrap_or(("", path));
        let origin = if rest.is_empty() { "" } else { first };
        let is_found = may_be && (origin.is_empty() || is_crate(origin));
        let origin = String::from_str(self.alloc(), origin)?;
        Ok(if is_found {
            Resolved::Foreign(String::from_str(self.alloc(), last)?, origin)
        } else {
            Resolved::Lost(origin)
        })
    }

    /// The whole path of a name that is declared elsewhere; the name alone if no `use` has it.
    ///
    /// # Errors
    ///
    /// Memory runs out.
    pub fn path_elsewhere(&self, module: &str, segments: &[String]) -> Result<String, AllocError> {
        for import in &self.source.uses.imports {
            if is_named(import.name.as_str(), segments) && import.module.as_str() == module {
                return self.whole_path(module, &import.path, behind_first(segments));
            }
        }
        self.whole_path(module, segments, &[])
    }

    // A path of these two parts as it is outside of this module of the source.
    fn whole_path(
        &self,
        module: &str,
        head: &[String],
        tail: &[String],
    ) -> Result<String, AllocError> {
        let around = self.path_of_module(module)?;
        let mut path = String::new(self.alloc());
        for segment in head.iter().chain(tail) {
            match segment.as_str() {
                "self" if path.is_empty() => path.push_str(around.as_str())?,
                "super" if path.is_empty() => path.push_str(parent(around.as_str()))?,
                "super" => path = self.parent(path.as_str())?,
                name => push_segment(&mut path, name)?,
            }
        }
        Ok(path)
    }

    /// The whole path of a module of the source.
    pub fn path_of_module(&self, module: &str) -> Result<String, AllocError> {
        match &self.home {
            Some(home) => joined(self.alloc(), home.as_str(), module),
            None => String::from_str(self.alloc(), module),
        }
    }

    // The path of the module around a module.
    fn parent(&self, module: &str) -> Result<String, AllocError> {
        String::from_str(self.alloc(), parent(module))
    }
}

// The path of the module around a module.
fn parent(module: &str) -> &str {
    module.rsplit_once("::").unwrap_or(("", module)).0
}

fn is_lost(resolved: &Resolved) -> bool {
    match resolved {
        Resolved::Lost(name) => name.is_empty(),
        _ => false,
    }
}

// Whether a name of a crate is one that another crate has too.
fn is_certain(resolved: &Resolved) -> bool {
    match resolved {
        Resolved::Foreign(name, origin) => is_special(name.as_str(), origin.as_str()),
        _ => false,
    }
}

// The first name of a path, and the rest.
fn parts_of(path: &str) -> (&str, &str) {
    path.split_once("::").unwrap_or((path, ""))
}

// Whether a path begins with this name.
fn is_named(name: &str, segments: &[String]) -> bool {
    match segments.first() {
        Some(first) => first.as_str() == name,
        None => false,
    }
}

fn behind_first(segments: &[String]) -> &[String] {
    segments.get(1..).unwrap_or(&[])
}
