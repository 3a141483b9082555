//! Rows that are being made.
use schemaderive_known::Row;
use schemaderive_options::Context;
use schemaderive_syntax::{Fault, Place, Source};
use std::alloc::{AllocError, Global};
use std::collections::BTreeMap;

/// What a name stands for.
#[derive(Clone, Copy)]
pub enum Item {
    /// the declaration with this number
    Declaration(usize),
    /// the alias with this number
    Alias(usize),
    /// the constant with this number
    Constant(usize),
    /// a module
    Module,
}

/// What a parameter stands for.
#[derive(Drop)]
pub enum Value {
    /// the type of a row
    Row(usize),
    /// a constant, as it is written
    Constant(String),
}

/// A parameter, and what it stands for.
#[derive(Drop)]
pub struct Binding {
    /// its name
    pub name: String,
    /// what it stands for
    pub value: Value,
    /// whether the values of the type have it
    pub is_used: bool,
}

/// Where names are looked up.
#[derive(Drop)]
pub struct Scope {
    /// the path of the module
    pub module: String,
    /// the parameters
    pub bindings: Vec<Binding>,
    /// the row of `Self`
    pub this: Option<usize>,
}

impl Scope {
    /// The scope of a module.
    pub fn new(alloc: Global, module: &str) -> Result<Scope, AllocError> {
        Ok(Scope {
            module: String::from_str(alloc, module)?,
            bindings: Vec::new(alloc),
            this: None,
        })
    }

    /// What the parameter with this name stands for, if the values of the type have it.
    pub fn used(&self, name: &str) -> Option<&Value> {
        for binding in &self.bindings {
            if binding.is_used && binding.name.as_str() == name {
                return Some(&binding.value);
            }
        }
        None
    }

    /// Whether the values of the type have one of the parameters.
    pub fn has_used(&self) -> bool {
        for binding in &self.bindings {
            if binding.is_used {
                return true;
            }
        }
        false
    }

    /// What the parameter with this name stands for.
    pub fn get(&self, name: &str) -> Option<&Value> {
        for binding in &self.bindings {
            if binding.name.as_str() == name {
                return Some(&binding.value);
            }
        }
        None
    }

    /// The constant that the parameter with this name stands for.
    pub fn constant(&self, name: &str) -> Option<&str> {
        match self.get(name)? {
            Value::Constant(text) => Some(text.as_str()),
            Value::Row(_) => None,
        }
    }
}

/// A declaration with arguments, whose row is reserved.
#[derive(Drop)]
pub struct Instance {
    /// the row
    pub row: usize,
    /// the number of the declaration
    pub declaration: usize,
    /// where its names are looked up
    pub scope: Scope,
}

/// Rows that are being made of what a source declares.
#[derive(Drop)]
pub struct Builder<'a> {
    /// what attributes are read for, and what is to be said of them
    pub context: Context,
    /// what the source declares
    pub source: &'a Source<'a>,
    /// what paths stand for
    pub items: BTreeMap<String, Item>,
    /// the rows
    pub rows: Vec<Row>,
    /// the rows by their ids, or in implementations by their types
    pub ids: BTreeMap<String, usize>,
    /// the declarations whose rows are reserved
    pub instances: Vec<Instance>,
    /// the path of the module of the source, by which its types are named; none if they are not
    pub home: Option<String>,
}

impl<'a> Builder<'a> {
    /// A builder without rows.
    ///
    /// # Errors
    ///
    /// Two types have the same path.
    pub fn new(context: Context, source: &'a Source<'a>) -> Result<Builder<'a>, Fault> {
        let alloc = context.alloc;
        let items = items_of(&context, source)?;
        Ok(Builder {
            context,
            source,
            items,
            rows: Vec::new(alloc),
            ids: BTreeMap::new(alloc),
            instances: Vec::new(alloc),
            home: None,
        })
    }

    /// The allocator.
    pub fn alloc(&self) -> Global {
        self.context.alloc
    }

    /// The row of a type with this id. In implementations types are told apart by how they are
    /// written, since several may have one id.
    pub fn row_by_id(&self, id: &str, ty: &str) -> Option<usize> {
        self.ids.get(self.key_of(id, ty)).copied()
    }

    // What a row is known by.
    fn key_of<'t>(&self, id: &'t str, ty: &'t str) -> &'t str {
        if self.home.is_none() || ty.is_empty() {
            return id;
        }
        ty
    }

    /// Adds a row, unless its type has one, and returns its number. What is made of a type without
    /// an implementation has none.
    pub fn add(&mut self, row: Row) -> Result<usize, AllocError> {
        let mut row = row;
        if self.lack_types(&row.parts) {
            row.ty.clear();
        }
        match self.row_by_id(row.id.as_str(), row.ty.as_str()) {
            Some(number) => Ok(number),
            None => {
                let number = self.keep_id(row.id.as_str(), row.ty.as_str())?;
                self.rows.push(row)?;
                Ok(number)
            }
        }
    }

    // Keeps what the next row is known by, and returns its number.
    fn keep_id(&mut self, id: &str, ty: &str) -> Result<usize, AllocError> {
        let number = self.rows.len();
        let key = String::from_str(self.alloc(), self.key_of(id, ty))?;
        self.ids.insert(key, number)?;
        Ok(number)
    }

    // Whether one of these rows has no type.
    fn lack_types(&self, rows: &[usize]) -> bool {
        for row in rows {
            if self.ty(*row).is_empty() {
                return true;
            }
        }
        false
    }

    /// The row with this number.
    pub fn row(&self, number: usize) -> Option<&Row> {
        self.rows.get(number)
    }

    /// The id of a row.
    pub fn id(&self, number: usize) -> &str {
        match self.rows.get(number) {
            Some(row) => row.id.as_str(),
            None => "",
        }
    }

    /// The type of a row.
    pub fn ty(&self, number: usize) -> &str {
        match self.rows.get(number) {
            Some(row) => row.ty.as_str(),
            None => "",
        }
    }

    /// The name of a row.
    pub fn name(&self, number: usize) -> &str {
        match self.rows.get(number) {
            Some(row) => row.name.as_str(),
            None => "",
        }
    }
}

// What the paths of a source stand for. Of what has the same path under several conditions one is kept
// that has one.
fn items_of(context: &Context, source: &Source<'_>) -> Result<BTreeMap<String, Item>, Fault> {
    let alloc = context.alloc;
    let mut items = BTreeMap::new(alloc);
    for module in &source.modules {
        items.insert(String::from_str(alloc, module.as_str())?, Item::Module)?;
    }
    for (number, constant) in source.constants.iter().enumerate() {
        let path = joined(alloc, constant.module.as_str(), constant.name)?;
        items.insert(path, Item::Constant(number))?;
    }
    for (number, declaration) in source.declarations.iter().enumerate() {
        let path = joined(alloc, declaration.module.as_str(), declaration.name)?;
        let item = Item::Declaration(number);
        if is_first(
            context,
            source,
            items.get(path.as_str()),
            item,
            declaration.place,
        )? {
            items.insert(path, item)?;
        }
    }
    for (number, alias) in source.aliases.iter().enumerate() {
        let path = joined(alloc, alias.module.as_str(), alias.name)?;
        let item = Item::Alias(number);
        if is_first(context, source, items.get(path.as_str()), item, alias.place)? {
            items.insert(path, item)?;
        }
    }
    Ok(items)
}

// Whether a type is kept, of whose path there may be another.
fn is_first(
    context: &Context,
    source: &Source<'_>,
    other: Option<&Item>,
    item: Item,
    place: Place,
) -> Result<bool, Fault> {
    match other {
        None | Some(Item::Module | Item::Constant(_)) => Ok(true),
        Some(other) if is_conditional(source, *other) => Ok(false),
        Some(_) if is_conditional(source, item) => Ok(true),
        Some(_) => Err(context.refused(place, "another type has the same path")),
    }
}

fn is_conditional(source: &Source<'_>, item: Item) -> bool {
    match item {
        Item::Declaration(number) => match source.declarations.get(number) {
            Some(declaration) => declaration.attributes.iter().any(|it| it.name == "cfg"),
            None => false,
        },
        Item::Alias(number) => match source.aliases.get(number) {
            Some(alias) => alias.condition.is_some(),
            None => false,
        },
        Item::Constant(_) | Item::Module => false,
    }
}

/// A path of two.
pub fn joined(alloc: Global, module: &str, name: &str) -> Result<String, AllocError> {
    let mut path = String::from_str(alloc, module)?;
    push_segment(&mut path, name)?;
    Ok(path)
}

/// Adds a name or a path to a path.
pub fn push_segment(path: &mut String, name: &str) -> Result<(), AllocError> {
    if !path.is_empty() && !name.is_empty() {
        path.push_str("::")?;
    }
    path.push_str(name)
}
