//! The items of a source that declare types.
use crate::cursor::Cursor;
use crate::fault::{Fault, Place, refused};
use crate::metas::{Meta, read_attributes};
use crate::token::{Token, TokenKind};
use crate::type_expr::{TypeExpr, read_bounds, read_field_type, read_type};
use crate::uses::{Uses, read_use};
use std::alloc::{AllocError, Global};

/// A parameter of a declaration. Lifetimes are none.
#[derive(Drop)]
pub enum Parameter<'a> {
    /// a type, the traits that it has to have, and its default
    Type(&'a str, Vec<TypeExpr>, Option<TypeExpr>),
    /// a constant, and its default
    Constant(&'a str, Option<TypeExpr>),
}

impl<'a> Parameter<'a> {
    /// What it stands for where no argument is given.
    pub fn default(&self) -> Option<&TypeExpr> {
        match self {
            Parameter::Type(_, _, default) | Parameter::Constant(_, default) => default.as_ref(),
        }
    }
}

// The parameters of a declaration.
#[derive(Drop)]
struct Parameters<'a> {
    // its lifetimes
    lifetimes: Vec<&'a str>,
    // the others
    list: Vec<Parameter<'a>>,
}

/// A field.
#[derive(Drop)]
pub struct Field<'a> {
    /// its name; of a field without one, its number
    pub name: String,
    /// where it begins
    pub place: Place,
    /// its attributes
    pub attributes: Vec<Meta<'a>>,
    /// its type
    pub ty: TypeExpr,
}

/// The fields of a struct or a variant.
#[derive(Drop)]
pub enum Fields<'a> {
    /// there are none
    Unit,
    /// they have no names
    Tuple(Vec<Field<'a>>),
    /// they have names
    Named(Vec<Field<'a>>),
}

/// A variant of an enum.
#[derive(Drop)]
pub struct Variant<'a> {
    /// its name
    pub name: &'a str,
    /// where it begins
    pub place: Place,
    /// its attributes
    pub attributes: Vec<Meta<'a>>,
    /// its fields
    pub fields: Fields<'a>,
}

/// What a declaration declares.
#[derive(Drop)]
pub enum Body<'a> {
    /// a struct
    Struct(Fields<'a>),
    /// an enum
    Enum(Vec<Variant<'a>>),
}

/// A declaration of a struct or an enum.
#[derive(Drop)]
pub struct Declaration<'a> {
    /// the path of its module, with two colons between names
    pub module: String,
    /// its name
    pub name: &'a str,
    /// where its name is
    pub place: Place,
    /// its attributes
    pub attributes: Vec<Meta<'a>>,
    /// its lifetimes
    pub lifetimes: Vec<&'a str>,
    /// its other parameters
    pub parameters: Vec<Parameter<'a>>,
    /// where its `where` begins
    pub conditions: Option<Place>,
    /// what it declares
    pub body: Body<'a>,
}

/// Another name of a type.
#[derive(Drop)]
pub struct Alias<'a> {
    /// the path of its module
    pub module: String,
    /// its name
    pub name: &'a str,
    /// where its name is
    pub place: Place,
    /// where it has a condition of which it is not known whether it holds
    pub condition: Option<Place>,
    /// its parameters
    pub parameters: Vec<Parameter<'a>>,
    /// what it stands for
    pub ty: TypeExpr,
}

/// A constant.
#[derive(Drop)]
pub struct Constant<'a> {
    /// the path of its module
    pub module: String,
    /// its name
    pub name: &'a str,
    /// where it has a condition of which it is not known whether it holds
    pub condition: Option<Place>,
    /// its value, as it is written
    pub value: Cursor<'a>,
}

/// What a source declares.
#[derive(Drop)]
pub struct Source<'a> {
    /// its structs and enums
    pub declarations: Vec<Declaration<'a>>,
    /// other names of types
    pub aliases: Vec<Alias<'a>>,
    /// its constants
    pub constants: Vec<Constant<'a>>,
    /// the paths of its modules
    pub modules: Vec<String>,
    /// names that are brought in
    pub uses: Uses,
}

// How deep modules may nest.
const MAX_DEPTH: usize = 128;

// A module that is read.
#[derive(Drop)]
struct Level<'a> {
    // the path of the module around it
    around: String,
    // its condition, or that of one around it, of which it is not known whether it holds
    condition: Option<Meta<'a>>,
}

// A source that is read.
#[derive(Drop)]
struct Reader<'a, 'g> {
    alloc: Global,
    // what is given for conditions
    given: &'g [String],
    // the path of the module
    path: String,
    levels: Vec<Level<'a>>,
    source: Source<'a>,
}

/// Reads the structs, enums, aliases and constants of a source, also those in its modules. Other items
/// are passed over, and so are those with a condition that does not hold where these names and values
/// are given.
///
/// # Errors
///
/// A declaration is none of Rust, or modules nest too deeply.
pub fn read_source<'a>(
    alloc: Global,
    tokens: &'a [Token],
    end: Place,
    given: &[String],
) -> Result<Source<'a>, Fault> {
    let mut reader = Reader {
        alloc,
        given,
        path: String::new(alloc),
        levels: Vec::new(alloc),
        source: Source {
            declarations: Vec::new(alloc),
            aliases: Vec::new(alloc),
            constants: Vec::new(alloc),
            modules: Vec::new(alloc),
            uses: Uses {
                imports: Vec::new(alloc),
                globs: Vec::new(alloc),
                condition: None,
            },
        },
    };
    reader.read(Cursor::new(tokens, end))?;
    Ok(reader.source)
}

impl<'a, 'g> Reader<'a, 'g> {
    fn read(&mut self, tokens: Cursor<'a>) -> Result<(), Fault> {
        let mut cursor = tokens;
        for _ in 0..tokens.len() {
            if cursor.is_empty() {
                break;
            }
            if cursor.take_symbol('}') {
                self.leave_module();
            } else {
                self.read_item(&mut cursor)?;
            }
        }
        Ok(())
    }

    fn leave_module(&mut self) {
        if let Some(level) = self.levels.pop() {
            self.path = level.around;
        }
    }

    // Reads an item, or the beginning of a module.
    fn read_item(&mut self, cursor: &mut Cursor<'a>) -> Result<(), Fault> {
        let attributes = read_attributes(self.alloc, self.given, cursor)?;
        skip_visibility(cursor);
        match attributes {
            Some(attributes) => self.read_kept(cursor, attributes),
            None => {
                skip_item(cursor);
                Ok(())
            }
        }
    }

    // Reads an item of which no condition is known not to hold.
    fn read_kept(
        &mut self,
        cursor: &mut Cursor<'a>,
        attributes: Vec<Meta<'a>>,
    ) -> Result<(), Fault> {
        let mut attributes = attributes;
        let around = match self.levels.last() {
            Some(level) => level.condition,
            None => None,
        };
        let condition = condition_in(&attributes).or(around);
        if cursor.is_word("struct") || cursor.is_word("enum") {
            if let Some(meta) = around {
                attributes.push(meta)?;
            }
            return self.read_declaration(cursor, attributes);
        }
        let place = match condition {
            Some(meta) => Some(meta.place),
            None => None,
        };
        if cursor.take_word("type") {
            return self.read_alias(cursor, place);
        }
        if cursor.is_word("const") && cursor.is_symbol(2, ':') {
            return Ok(self.read_constant(cursor, place)?);
        }
        if cursor.take_word("use") {
            let uses = &mut self.source.uses;
            uses.condition = place;
            return read_use(self.alloc, cursor, self.path.as_str(), uses);
        }
        if cursor.is_word("mod") && cursor.is_symbol(2, '{') {
            return self.enter_module(cursor, condition);
        }
        if cursor.take_word("ghost") && cursor.take_word("use") {
            skip_to_semicolon(cursor);
        } else {
            cursor.skip_tree();
        }
        Ok(())
    }

    fn enter_module(
        &mut self,
        cursor: &mut Cursor<'a>,
        condition: Option<Meta<'a>>,
    ) -> Result<(), Fault> {
        let _ = cursor.advance();
        let place = cursor.place();
        if self.levels.len() >= MAX_DEPTH {
            return Err(refused(self.alloc, place, "this nests too deeply"));
        }
        let name = cursor.name(self.alloc)?;
        let _ = cursor.take_symbol('{');
        let around = self.module()?;
        self.path
            .push_str(if around.is_empty() { "" } else { "::" })?;
        self.path.push_str(name)?;
        self.levels.push(Level { around, condition })?;
        let module = self.module()?;
        self.source.modules.push(module)?;
        Ok(())
    }

    // The path of the module.
    fn module(&self) -> Result<String, AllocError> {
        String::from_str(self.alloc, self.path.as_str())
    }

    fn read_declaration(
        &mut self,
        cursor: &mut Cursor<'a>,
        attributes: Vec<Meta<'a>>,
    ) -> Result<(), Fault> {
        let module = self.module()?;
        let declaration = read_declaration(self.alloc, self.given, cursor, module, attributes)?;
        self.source.declarations.push(declaration)?;
        Ok(())
    }

    fn read_alias(
        &mut self,
        cursor: &mut Cursor<'a>,
        condition: Option<Place>,
    ) -> Result<(), Fault> {
        let place = cursor.place();
        let name = cursor.name(self.alloc)?;
        let parameters = read_parameters(self.alloc, cursor)?;
        if !cursor.take_symbol('=') {
            skip_to_semicolon(cursor);
            return Ok(());
        }
        let ty = read_type(self.alloc, cursor.up_to(&[';'], false))?;
        let module = self.module()?;
        self.source.aliases.push(Alias {
            module,
            name,
            place,
            condition,
            parameters: parameters.list,
            ty,
        })?;
        Ok(())
    }

    // Reads a constant. What begins so may be a parameter of an item that is passed over.
    fn read_constant(
        &mut self,
        cursor: &mut Cursor<'a>,
        condition: Option<Place>,
    ) -> Result<(), AllocError> {
        let _ = cursor.advance();
        let Some(name) = cursor.take_name() else {
            return Ok(());
        };
        let _ = cursor.up_to(&['=', ';', ',', '>', '{'], true);
        if !cursor.take_symbol('=') {
            return Ok(());
        }
        let value = cursor.up_to(&[';', ',', '>'], false);
        if !cursor.is_symbol(0, ';') {
            return Ok(());
        }
        let module = self.module()?;
        self.source.constants.push(Constant {
            module,
            name,
            condition,
            value,
        })?;
        Ok(())
    }
}

// A condition of which it is not known whether it holds.
fn condition_in<'a>(attributes: &[Meta<'a>]) -> Option<Meta<'a>> {
    for attribute in attributes {
        if attribute.name == "cfg" {
            return Some(*attribute);
        }
    }
    None
}

// Goes past an item, whose attributes are behind.
fn skip_item(cursor: &mut Cursor<'_>) {
    let has_value = ["use", "static", "type"]
        .iter()
        .any(|word| cursor.is_word(word));
    let is_constant = cursor.is_word("const") && cursor.is_symbol(2, ':');
    for _ in 0..cursor.len() {
        let is_group = cursor.is_symbol(0, '{') && !has_value && !is_constant;
        let is_end = cursor.is_symbol(0, ';') || is_group;
        cursor.skip_tree();
        if is_end || cursor.is_empty() {
            break;
        }
    }
}

fn skip_to_semicolon(cursor: &mut Cursor<'_>) {
    let _ = cursor.up_to(&[';'], false);
    let _ = cursor.take_symbol(';');
}

fn skip_visibility(cursor: &mut Cursor<'_>) {
    if cursor.take_word("pub") && cursor.is_symbol(0, '(') && is_restriction(cursor) {
        let _inside = cursor.group();
    }
}

// Whether the parentheses behind `pub` are its own, and not those of a type.
fn is_restriction(cursor: &Cursor<'_>) -> bool {
    match cursor.peek(1) {
        Some(token) => {
            token.is_word("crate")
                || token.is_word("super")
                || token.is_word("self")
                || token.is_word("in")
        }
        None => false,
    }
}

fn read_declaration<'a>(
    alloc: Global,
    given: &[String],
    cursor: &mut Cursor<'a>,
    module: String,
    attributes: Vec<Meta<'a>>,
) -> Result<Declaration<'a>, Fault> {
    let is_enum = cursor.is_word("enum");
    let _ = cursor.advance();
    let place = cursor.place();
    let name = cursor.name(alloc)?;
    let parameters = read_parameters(alloc, cursor)?;
    let conditions = place_of_where(*cursor);
    if cursor.is_word("where") {
        let _ = cursor.up_to(&['{', ';'], false);
    }
    let body = if is_enum {
        Body::Enum(read_variants(alloc, given, cursor)?)
    } else {
        Body::Struct(read_fields(alloc, given, cursor)?)
    };
    Ok(Declaration {
        module,
        name,
        place,
        attributes,
        lifetimes: parameters.lifetimes,
        parameters: parameters.list,
        conditions,
        body,
    })
}

// Where the conditions of a declaration begin, which are behind fields without names.
fn place_of_where(cursor: Cursor<'_>) -> Option<Place> {
    let mut cursor = cursor;
    if cursor.is_symbol(0, '(') {
        let _fields = cursor.group();
    }
    if cursor.is_word("where") {
        Some(cursor.place())
    } else {
        None
    }
}

// The parameters in angle brackets, if they come next.
fn read_parameters<'a>(alloc: Global, cursor: &mut Cursor<'a>) -> Result<Parameters<'a>, Fault> {
    let mut parameters = Parameters {
        lifetimes: Vec::new(alloc),
        list: Vec::new(alloc),
    };
    let place = cursor.place();
    if !cursor.take_symbol('<') {
        return Ok(parameters);
    }
    for _ in 0..cursor.len() {
        if cursor.take_symbol('>') {
            return Ok(parameters);
        }
        let is_constant = cursor.take_word("const");
        let Some(token) = cursor.advance() else {
            break;
        };
        let name = token.text.as_str();
        let (bounds, default) = read_bounds(alloc, cursor.up_to(&[',', '>'], true))?;
        let _ = cursor.take_symbol(',');
        match token.kind {
            TokenKind::Lifetime => parameters.lifetimes.push(name)?,
            TokenKind::Word if is_constant => {
                parameters.list.push(Parameter::Constant(name, default))?;
            }
            TokenKind::Word => parameters
                .list
                .push(Parameter::Type(name, bounds, default))?,
            _ => {}
        }
    }
    Err(refused(alloc, place, "this bracket is not closed"))
}

// The fields of a struct, up to its end.
fn read_fields<'a>(
    alloc: Global,
    given: &[String],
    cursor: &mut Cursor<'a>,
) -> Result<Fields<'a>, Fault> {
    let place = cursor.place();
    if cursor.is_symbol(0, '{') {
        return Ok(Fields::Named(named_fields(alloc, given, cursor.group())?));
    }
    if cursor.is_symbol(0, '(') {
        let inside = cursor.group();
        if cursor.is_word("where") {
            let _ = cursor.up_to(&[';'], false);
        }
        if !cursor.take_symbol(';') {
            return Err(refused(alloc, cursor.place(), "a semicolon is missing here"));
        }
        return Ok(Fields::Tuple(tuple_fields(alloc, given, inside)?));
    }
    if cursor.take_symbol(';') {
        return Ok(Fields::Unit);
    }
    Err(refused(alloc, place, "the fields of a struct are missing here"))
}

fn named_fields<'a>(
    alloc: Global,
    given: &[String],
    inside: Cursor<'a>,
) -> Result<Vec<Field<'a>>, Fault> {
    let mut cursor = inside;
    let mut fields = Vec::new(alloc);
    for _ in 0..inside.len() {
        if cursor.is_empty() {
            break;
        }
        let attributes = read_attributes(alloc, given, &mut cursor)?;
        skip_visibility(&mut cursor);
        match attributes {
            Some(attributes) => add_named(alloc, &mut cursor, &mut fields, attributes)?,
            None => {
                let _ = cursor.up_to(&[','], true);
            }
        }
        let _ = cursor.take_symbol(',');
    }
    Ok(fields)
}

// Adds the field that comes next. One that is a statement for a proof is passed over.
fn add_named<'a>(
    alloc: Global,
    cursor: &mut Cursor<'a>,
    fields: &mut Vec<Field<'a>>,
    attributes: Vec<Meta<'a>>,
) -> Result<(), Fault> {
    if cursor.is_word("ghost") && !cursor.is_symbol(1, ':') {
        let _ghost = cursor.up_to(&[','], true);
        return Ok(());
    }
    let field = named_field(alloc, cursor, attributes)?;
    fields.push(field)?;
    Ok(())
}

fn named_field<'a>(
    alloc: Global,
    cursor: &mut Cursor<'a>,
    attributes: Vec<Meta<'a>>,
) -> Result<Field<'a>, Fault> {
    let place = cursor.place();
    let name = String::from_str(alloc, cursor.name(alloc)?)?;
    if !cursor.take_symbol(':') {
        return Err(refused(alloc, cursor.place(), "the type of a field is missing here"));
    }
    let ty = read_field_type(alloc, cursor.up_to(&[','], true))?;
    Ok(Field {
        name,
        place,
        attributes,
        ty,
    })
}

fn tuple_fields<'a>(
    alloc: Global,
    given: &[String],
    inside: Cursor<'a>,
) -> Result<Vec<Field<'a>>, Fault> {
    let mut cursor = inside;
    let mut fields = Vec::new(alloc);
    for _ in 0..inside.len() {
        if cursor.is_empty() {
            break;
        }
        let attributes = read_attributes(alloc, given, &mut cursor)?;
        skip_visibility(&mut cursor);
        let place = cursor.place();
        let written = cursor.up_to(&[','], true);
        let _ = cursor.take_symbol(',');
        if let Some(attributes) = attributes {
            let number = fields.len();
            let name = format!(in alloc; "{number}")?;
            let ty = read_field_type(alloc, written)?;
            fields.push(Field {
                name,
                place,
                attributes,
                ty,
            })?;
        }
    }
    Ok(fields)
}

// The variants of an enum.
fn read_variants<'a>(
    alloc: Global,
    given: &[String],
    cursor: &mut Cursor<'a>,
) -> Result<Vec<Variant<'a>>, Fault> {
    let mut variants = Vec::new(alloc);
    if !cursor.is_symbol(0, '{') {
        return Err(refused(
            alloc,
            cursor.place(),
            "the variants of an enum are missing here",
        ));
    }
    let mut inside = cursor.group();
    for _ in 0..inside.len() {
        if inside.is_empty() {
            break;
        }
        match read_attributes(alloc, given, &mut inside)? {
            Some(attributes) => {
                let variant = read_variant(alloc, given, &mut inside, attributes)?;
                variants.push(variant)?;
            }
            None => {
                let _ = inside.up_to(&[','], false);
            }
        }
        let _ = inside.take_symbol(',');
    }
    Ok(variants)
}

fn read_variant<'a>(
    alloc: Global,
    given: &[String],
    cursor: &mut Cursor<'a>,
    attributes: Vec<Meta<'a>>,
) -> Result<Variant<'a>, Fault> {
    let place = cursor.place();
    let name = cursor.name(alloc)?;
    let fields = if cursor.is_symbol(0, '{') {
        Fields::Named(named_fields(alloc, given, cursor.group())?)
    } else if cursor.is_symbol(0, '(') {
        Fields::Tuple(tuple_fields(alloc, given, cursor.group())?)
    } else {
        Fields::Unit
    };
    if !cursor.is_empty() && !cursor.is_symbol(0, ',') && !cursor.is_symbol(0, '=') {
        let reason = "a comma or the end of the variants is missing here";
        return Err(refused(alloc, cursor.place(), reason));
    }
    let _number = cursor.up_to(&[','], false);
    Ok(Variant {
        name,
        place,
        attributes,
        fields,
    })
}
