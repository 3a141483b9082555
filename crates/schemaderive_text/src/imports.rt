//! The names that a file brings in.
use crate::lines::{LINE, Lines, width};
use std::alloc::{AllocError, Global};
use std::collections::{BTreeMap, BTreeSet};

// How many characters a `use` on one line has at most.
const USE: usize = 98;

// What each file of implementations names.
const ALWAYS: [&str; 7] = [
    "schemars::impls::JsonSchema",
    "schemars::types::TypeEntry",
    "schemars::types::Types",
    "schemars::types::TypesError",
    "std::alloc::AllocError",
    "std::alloc::Global",
    "std::borrow::CowStr",
];

// Names that stand for what they always do, and where that is if it has to be brought in.
const TAKEN: [(&str, &str); 8] = [
    ("Box", ""),
    ("Ok", ""),
    ("Option", ""),
    ("Result", ""),
    ("Self", ""),
    ("String", ""),
    ("Value", "serde_json::Value"),
    ("Vec", ""),
];

// The words of clauses that are none of std's prelude, in the order in which they are brought in.
const WORDS: [&str; 24] = [
    "codes",
    "Describes",
    "field_of",
    "FieldsAreKnown",
    "flattened_of",
    "internal_variant_of",
    "IsArrayOf",
    "IsIn",
    "IsMapOf",
    "IsNumber",
    "IsOptionOf",
    "IsReserved",
    "IsSeqOf",
    "IsSetOf",
    "KeepsRows",
    "KeepsTo",
    "own",
    "PartsAreKnown",
    "RefusesAs",
    "RefusesPart",
    "TypeRow",
    "Unsaid",
    "variant_of",
    "VariantsAreKnown",
];

/// The names that a file brings in.
#[derive(Drop)]
pub struct Imports {
    alloc: Global,
    // what each name stands for
    paths: BTreeMap<String, String>,
    // the names of each module, in their order
    modules: BTreeMap<String, BTreeMap<String, String>>,
    // the words of clauses
    words: BTreeSet<&'static str>,
    // how many functions there are whose names begin so
    functions: BTreeMap<String, usize>,
}

impl Imports {
    /// The names that each file has.
    pub fn new(alloc: Global) -> Result<Imports, AllocError> {
        let mut imports = Imports {
            alloc,
            paths: BTreeMap::new(alloc),
            modules: BTreeMap::new(alloc),
            words: BTreeSet::new(alloc),
            functions: BTreeMap::new(alloc),
        };
        imports.begin()?;
        Ok(imports)
    }

    fn begin(&mut self) -> Result<(), AllocError> {
        for (name, path) in TAKEN {
            put(self.alloc, &mut self.paths, name, path)?;
        }
        for path in ALWAYS {
            self.add(path)?;
        }
        Ok(())
    }

    /// Brings in what has this path, unless its name stands for something else, and tells whether
    /// it is brought in.
    pub fn add(&mut self, path: &str) -> Result<bool, AllocError> {
        let Some((module, name)) = path.rsplit_once("::") else {
            return Ok(false);
        };
        if !self.stands_for(name, path)? {
            return Ok(false);
        }
        self.add_to(module, name)?;
        Ok(true)
    }

    // Whether a name stands for what has this path, which it does if it stood for nothing.
    fn stands_for(&mut self, name: &str, path: &str) -> Result<bool, AllocError> {
        if let Some(there) = self.paths.get(name) {
            return Ok(there.as_str() == path);
        }
        put(self.alloc, &mut self.paths, name, path)?;
        Ok(true)
    }

    fn add_to(&mut self, module: &str, name: &str) -> Result<(), AllocError> {
        if !self.modules.contains_key(module) {
            let module = String::from_str(self.alloc, module)?;
            self.modules.insert(module, BTreeMap::new(self.alloc))?;
        }
        let place = place_of(self.alloc, name)?;
        match self.modules.get_mut(module) {
            Some(names) => put(self.alloc, names, place.as_str(), name),
            None => Ok(()),
        }
    }

    /// Brings in a function or a constant for implementations.
    pub fn call(&mut self, name: &str) -> Result<(), AllocError> {
        self.add_to("schemars::impls", name)
    }

    /// Keeps a name for a parameter, and tells whether it stood for nothing else.
    pub fn keep(&mut self, name: &str) -> Result<bool, AllocError> {
        self.stands_for(name, name)
    }

    /// Brings in words of clauses.
    pub fn words(&mut self, words: &[&'static str]) -> Result<(), AllocError> {
        for word in words {
            let _ = self.words.insert(*word)?;
        }
        Ok(())
    }

    /// The name of a function that this type needs for this.
    pub fn function_name(&mut self, ty: &str, what: &str) -> Result<String, AllocError> {
        let mut name = String::new(self.alloc);
        push_small(&mut name, ty)?;
        name.push('_')?;
        name.push_str(what)?;
        let before = self.functions.get(name.as_str()).copied().unwrap_or(0);
        let number = before.saturating_add(1);
        let whole = format!(in self.alloc; "{name}_{number}")?;
        self.functions.insert(name, number)?;
        Ok(whole)
    }

    /// A type whose paths are brought in and shortened to their names.
    pub fn short(&mut self, ty: &str) -> Result<String, AllocError> {
        let mut out = String::new(self.alloc);
        let mut path = String::new(self.alloc);
        self.push_type(&mut out, &mut path, ty)?;
        Ok(out)
    }

    // Adds a type whose paths are shortened; the path in which it is stands beside.
    fn push_type(
        &mut self,
        out: &mut String,
        path: &mut String,
        ty: &str,
    ) -> Result<(), AllocError> {
        for c in ty.chars() {
            if c.is_alphanumeric() || c == '_' || c == ':' {
                path.push(c)?;
            } else {
                self.push_path(out, path.as_str())?;
                path.clear();
                out.push(c)?;
            }
        }
        self.push_path(out, path.as_str())
    }

    fn push_path(&mut self, out: &mut String, path: &str) -> Result<(), AllocError> {
        match path.rsplit_once("::") {
            Some((_, name)) if self.add(path)? => out.push_str(name),
            _ => out.push_str(path),
        }
    }

    /// Adds the lines that bring the names in.
    pub fn push_lines(&self, lines: &mut Lines) -> Result<(), AllocError> {
        self.push_prelude(lines)?;
        self.push_words(lines)?;
        lines.text.push('\n')?;
        self.push_modules(lines, true)?;
        self.push_modules(lines, false)
    }

    // Adds the line of the words of std's prelude, if there are any.
    fn push_prelude(&self, lines: &mut Lines) -> Result<(), AllocError> {
        let mut is_first = true;
        for word in self.words.iter() {
            if !WORDS.contains(word) {
                push_word(lines, is_first, "std.specs.Prelude", word)?;
                is_first = false;
            }
        }
        end_words(lines, is_first)
    }

    // Adds the line of the other words, if there are any.
    fn push_words(&self, lines: &mut Lines) -> Result<(), AllocError> {
        let mut is_first = true;
        for word in &WORDS {
            if self.words.contains(word) {
                push_word(lines, is_first, "schemars.specs.Words", word)?;
                is_first = false;
            }
        }
        end_words(lines, is_first)
    }

    // Adds the names of the modules of the crate, or else of the other ones.
    fn push_modules(&self, lines: &mut Lines, is_own: bool) -> Result<(), AllocError> {
        for (module, names) in self.modules.iter() {
            if is_in_crate(module.as_str()) == is_own {
                push_use(lines, module.as_str(), names)?;
            }
        }
        Ok(())
    }
}

// Sets the text that a name has.
fn put(
    alloc: Global,
    texts: &mut BTreeMap<String, String>,
    name: &str,
    text: &str,
) -> Result<(), AllocError> {
    let name = String::from_str(alloc, name)?;
    let text = String::from_str(alloc, text)?;
    texts.insert(name, text)?;
    Ok(())
}

// Adds a word of a module to the line that brings it in.
fn push_word(
    lines: &mut Lines,
    is_first: bool,
    module: &str,
    word: &str,
) -> Result<(), AllocError> {
    if is_first {
        return lines.push(&["ghost use Rattle.", module, ".{", word]);
    }
    lines.push(&[", ", word])
}

// Ends such a line, if it has a word.
fn end_words(lines: &mut Lines, is_empty: bool) -> Result<(), AllocError> {
    lines.text.push_str(if is_empty { "" } else { "};\n" })
}

// Adds a `use` of names of a module.
fn push_use(
    lines: &mut Lines,
    module: &str,
    names: &BTreeMap<String, String>,
) -> Result<(), AllocError> {
    let is_one = names.len() == 1;
    let around = if is_one { "use ::;" } else { "use ::{};" };
    let mut whole = width(&[module, around]);
    for (_, name) in names.iter() {
        whole = whole.saturating_add(width(&[name.as_str(), ", "]));
    }
    lines.push(&["use ", module, "::"])?;
    if whole.saturating_sub(2) > USE {
        return push_broken(lines, names);
    }
    lines.text.push_str(if is_one { "" } else { "{" })?;
    let mut is_first = true;
    for (_, name) in names.iter() {
        lines.push(&[if is_first { "" } else { ", " }, name.as_str()])?;
        is_first = false;
    }
    lines.text.push_str(if is_one { ";\n" } else { "};\n" })
}

// Adds names with a comma behind each, as many in a line as go into it.
fn push_broken(lines: &mut Lines, names: &BTreeMap<String, String>) -> Result<(), AllocError> {
    lines.text.push('{')?;
    let mut line = LINE;
    for (_, name) in names.iter() {
        let wide = width(&[name.as_str(), ", "]);
        line = line.saturating_add(wide);
        let is_new = line.saturating_add(4) > LINE;
        if is_new {
            line = wide;
        }
        let before = if is_new { "\n    " } else { " " };
        lines.push(&[before, name.as_str(), ","])?;
    }
    lines.text.push_str("\n};\n")
}

// Adds the name of a type in small letters, with `_` between its words.
fn push_small(name: &mut String, ty: &str) -> Result<(), AllocError> {
    let mut is_small = false;
    for c in ty.chars() {
        match c {
            '<' => return Ok(()),
            ':' | '#' => {
                name.clear();
                is_small = false;
            }
            c => {
                if c.is_ascii_uppercase() && is_small {
                    name.push('_')?;
                }
                is_small = !c.is_ascii_uppercase();
                name.push(c.to_ascii_lowercase())?;
            }
        }
    }
    Ok(())
}

fn is_in_crate(module: &str) -> bool {
    module == "crate" || module.starts_with("crate::")
}

// A text by which names are in their order: numbers in them are ordered as numbers.
fn place_of(alloc: Global, name: &str) -> Result<String, AllocError> {
    let mut place = String::new(alloc);
    let mut digits = String::new(alloc);
    push_place(&mut place, &mut digits, name)?;
    Ok(place)
}

// Adds the place of a name; the digits of a number that may go on stand beside.
fn push_place(place: &mut String, digits: &mut String, name: &str) -> Result<(), AllocError> {
    for c in name.chars() {
        if c.is_ascii_digit() {
            digits.push(c)?;
        } else {
            push_number(place, digits.as_str())?;
            digits.clear();
            place.push(c)?;
        }
    }
    push_number(place, digits.as_str())
}

// Adds a number with as many zeros before it as make it 12 digits.
fn push_number(place: &mut String, digits: &str) -> Result<(), AllocError> {
    if digits.is_empty() {
        return Ok(());
    }
    for _ in digits.len()..12 {
        place.push('0')?;
    }
    place.push_str(digits)
}
