//! The patterns of a document, as expressions.
ghost use Rattle.std.specs.Prelude.{◌≡◌, [], ◌∷◌, ◌++◌, IfOk, OnOk, IfErr, option_map, string_bytes};
ghost use Rattle.schemars_readable.specs.Words.{members_view, is_listed, standing, member_place, AreOwn, IsReadFrom, IsRefusalAmong, asked_of, each_name, names_at, named, patterns_in, patterns_of, text_at, with_patterns};

use crate::ecma::expression_of;
use crate::members::{object_in, text_in};
use crate::places::{Place, member_place};
use crate::refusal::{Refusal, Unread};
use regex::{Error, Regex};
use serde_json::{Map, Value};
use std::alloc::{AllocError, Global};

/// A pattern, and its expression.
#[derive(Drop)]
pub struct Expression {
    pub pattern: String,
    pub regex: Regex,
}

/// A pattern, and the place of its keyword.
#[derive(Drop)]
pub struct Asked<'d> {
    pub place: String,
    pub pattern: &'d str,
}

/// The patterns of schemas: those under `pattern`, and the names under `patternProperties`.
pub fn patterns_in<'d>(alloc: Global, schemas: &[Place<'d>]) -> Result<Vec<Asked<'d>>, AllocError>
    ensures { IfOk result (λ asked. asked_of asked.items ≡ patterns_of (standing schemas.now)) }
{
    let mut asked = Vec::new(alloc);
    for schema in schemas {
        add_patterns(alloc, schema, &mut asked)?;
    }
    Ok(asked)
}

fn add_patterns<'d>(
    alloc: Global,
    schema: &Place<'d>,
    asked: &mut Vec<Asked<'d>>,
) -> Result<(), AllocError>
    ensures { OnOk result (asked_of asked.new.items ≡ asked_of asked.old.items
        ++ patterns_in (string_bytes schema.now.pointer) (members_view schema.now.keywords.now.entries)) }
{
    let keywords = schema.keywords;
    let pointer = schema.pointer.as_str();
    add_text(
        member_place(alloc, pointer, "pattern")?,
        text_in(keywords, "pattern"),
        asked,
    )?;
    let at = member_place(alloc, pointer, "patternProperties")?;
    add_names(
        alloc,
        at.as_str(),
        object_in(keywords, "patternProperties"),
        asked,
    )
}

fn add_text<'d>(
    place: String,
    pattern: Option<&'d str>,
    asked: &mut Vec<Asked<'d>>,
) -> Result<(), AllocError>
    ensures { OnOk result (asked_of asked.new.items ≡ asked_of asked.old.items
        ++ text_at (string_bytes place) (option_map (λ t. t.now) pattern.entry)) }
{
    match pattern {
        Some(pattern) => Ok(asked.push(Asked { place, pattern })?),
        None => Ok(()),
    }
}

fn add_names<'d>(
    alloc: Global,
    place: &str,
    schemas: Option<&'d Map<String, Value>>,
    asked: &mut Vec<Asked<'d>>,
) -> Result<(), AllocError>
    ensures { OnOk result (asked_of asked.new.items ≡ asked_of asked.old.items
        ++ names_at place.now (option_map (λ ms. members_view ms.now.entries) schemas.entry)) }
{
    match schemas {
        Some(schemas) => add_each_name(alloc, place, schemas, asked),
        None => Ok(()),
    }
}

fn add_each_name<'d>(
    alloc: Global,
    place: &str,
    schemas: &'d Map<String, Value>,
    asked: &mut Vec<Asked<'d>>,
) -> Result<(), AllocError>
    ensures { OnOk result (asked_of asked.new.items
        ≡ asked_of asked.old.items ++ each_name place.now (members_view schemas.now.entries)) }
{
    for (pattern, _) in schemas.iter() {
        asked.push(Asked {
            place: String::from_str(alloc, place)?,
            pattern: pattern.as_str(),
        })?;
    }
    Ok(())
}

/// Compiles each of the patterns once.
///
/// # Errors
///
/// Where a pattern is no expression, and where memory runs out.
pub fn compiled(alloc: Global, asked: &[Asked<'_>]) -> Result<Vec<Expression>, Refusal>
    ensures each { IfOk result (λ expressions.
        named expressions.items ≡ with_patterns [] (asked_of asked.now)) }
    ensures own { IfOk result (λ expressions. AreOwn expressions.items) }
    ensures refused { IfErr result (IsRefusalAmong (asked_of asked.now)) }
{
    let mut expressions = Vec::new(alloc);
    for it in asked {
        add_expression(alloc, it, &mut expressions)?;
    }
    Ok(expressions)
}

fn add_expression(
    alloc: Global,
    asked: &Asked<'_>,
    expressions: &mut Vec<Expression>,
) -> Result<(), Refusal>
    ensures added { OnOk result (named expressions.new.items
        ≡ with_patterns (named expressions.old.items) (asked_of (asked.now ∷ []))) }
    ensures own { OnOk result (AreOwn expressions.old.items → AreOwn expressions.new.items) }
    ensures refused { IfErr result (IsRefusalAmong (asked_of (asked.now ∷ []))) }
{
    if has_expression(expressions, asked.pattern) {
        return Ok(());
    }
    let expression = expression_for(alloc, asked)?;
    expressions.push(expression)?;
    Ok(())
}

fn has_expression(expressions: &[Expression], pattern: &str) -> bool
    ensures { result ≡ is_listed pattern.now (named expressions.now) }
{
    for expression in expressions {
        if pattern == expression.pattern.as_str() {
            return true;
        }
    }
    false
}

fn expression_for(alloc: Global, asked: &Asked<'_>) -> Result<Expression, Refusal>
    ensures made { IfOk result (λ e. string_bytes e.pattern ≡ asked.now.pattern.now) }
    ensures own { IfOk result (λ e. IsReadFrom (string_bytes e.pattern) e.regex) }
    ensures refused { IfErr result (IsRefusalAmong (asked_of (asked.now ∷ []))) }
{
    let source = expression_of(alloc, asked.pattern)?;
    let pattern = String::from_str(alloc, asked.pattern)?;
    let place = String::from_str(alloc, asked.place.as_str())?;
    match Regex::new(alloc, source.as_str()) {
        Ok(regex) => Ok(Expression { pattern, regex }),
        Err(Error::OutOfMemory) => Err(Refusal::OutOfMemory),
        Err(Error::Syntax(_) | Error::CompiledTooBig | Error::Internal) => {
            let keyword = pattern;
            Err(Refusal::Pattern(Unread {
                place,
                keyword,
                wanted: None,
            }))
        }
    }
}
