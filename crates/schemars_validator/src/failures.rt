//! Why a value is not accepted, keyword by keyword.
ghost use Rattle.std.specs.Prelude.{IfOk, IsTrue};
ghost use Rattle.schemars_readable.specs.Refused.{has_some};

use crate::asking::{Asked, At, add, add_whole, is_denied, is_denied_by, judged_by};
use crate::itself::explain_itself;
use crate::probes::without;
use crate::reading::Reading;
use crate::sentences::{Choice, sentence_of_choice};
use crate::told::{Failure, Told};
use crate::ways::{
    Part, Way, parts_of, way_of, way_of_reference, ways_beside_keys, ways_listed, ways_to,
};
use schemars_assertions::member;
use schemars_readable::{Draft, member_place};
use schemars_schema::Schema;
use schemars_validate::lone_reference;
use serde_json::{Map, Value};
use std::alloc::{AllocError, Global};

/// The failures of a value that the document does not accept: at least one.
pub fn failures_of(
    alloc: Global,
    draft: Draft,
    document: &Value,
    reading: &Reading,
    references: u64,
    value: &Value,
) -> Result<Vec<Failure>, AllocError>
    ensures { IfOk result (λ failures. IsTrue (has_some failures.items)) }
{
    let asked = Asked {
        alloc,
        draft,
        document,
        reading,
        references,
    };
    let at = At {
        instance: "",
        keywords: "",
        value,
    };
    let mut told = Told::new(alloc);
    explain(&asked, DEEPEST, document, &at, &mut told)?;
    told.into_failures(alloc)
}

// How deep schemas within one another are explained.
const DEEPEST: u32 = 1000;

// Adds why a schema denies a value.
#[cycle(explain)]
fn explain(
    asked: &Asked<'_>,
    left: u32,
    schema: &Value,
    at: &At<'_>,
    told: &mut Told,
) -> Result<(), AllocError> {
    if left > 0 && !told.is_full() && !is_denied(asked, schema, at.value)? {
        return Ok(());
    }
    explain_denied(asked, left, schema, at, told)
}

// Adds why a schema denies a value that it is known to deny.
#[cycle(explain)]
fn explain_denied(
    asked: &Asked<'_>,
    left: u32,
    schema: &Value,
    at: &At<'_>,
    told: &mut Told,
) -> Result<(), AllocError> {
    if left == 0 || told.is_full() {
        told.pass_over();
        return Ok(());
    }
    told.begin();
    match schema {
        Value::Object(keywords) => explain_object(asked, left - 1, keywords, at, told),
        _ => add_whole(asked, at, "is not allowed", told),
    }
}

#[cycle(explain)]
fn explain_object(
    asked: &Asked<'_>,
    left: u32,
    keywords: &Map<String, Value>,
    at: &At<'_>,
    told: &mut Told,
) -> Result<(), AllocError> {
    let before = told.count();
    let referred = way_of_reference(asked.alloc, asked.document, keywords)?;
    if lone_reference(asked.draft.dialect(), keywords).is_some() {
        explain_referred(asked, left, &referred, at, told)?;
    } else {
        explain_itself(asked, keywords, at, told)?;
        explain_ways(asked, left, &referred, at, told)?;
        explain_inside(asked, left, keywords, at, told)?;
    }
    if told.count() == before {
        add_whole(asked, at, "is not accepted", told)?;
    }
    Ok(())
}

// What a reference that stands alone leads to denies what the reference denies.
#[cycle(explain)]
fn explain_referred(
    asked: &Asked<'_>,
    left: u32,
    referred: &[Way<'_>],
    at: &At<'_>,
    told: &mut Told,
) -> Result<(), AllocError> {
    for way in referred {
        let place = way.place_in(asked.alloc, at.keywords)?;
        let inner = At {
            instance: at.instance,
            keywords: place.as_str(),
            value: at.value,
        };
        explain_denied(asked, left, way.schema, &inner, told)?;
    }
    Ok(())
}

// The keywords with schemas.
#[cycle(explain)]
fn explain_inside(
    asked: &Asked<'_>,
    left: u32,
    keywords: &Map<String, Value>,
    at: &At<'_>,
    told: &mut Told,
) -> Result<(), AllocError> {
    explain_parts(asked, left, keywords, at, told)?;
    explain_keys(asked, left, keywords, at, told)?;
    explain_same(asked, left, keywords, at, told)?;
    explain_choices(asked, left, keywords, at, told)?;
    explain_unjudged(asked, left, keywords, at, told)
}

// ---- schemas of the same value, and of its parts

// Adds why the schemas of `allOf`, of the branch of a condition and beside keys deny the value.
#[cycle(explain)]
fn explain_same(
    asked: &Asked<'_>,
    left: u32,
    keywords: &Map<String, Value>,
    at: &At<'_>,
    told: &mut Told,
) -> Result<(), AllocError> {
    let all = ways_listed(asked.alloc, keywords, "allOf")?;
    explain_ways(asked, left, &all, at, told)?;
    let branch = way_of_branch(asked, keywords, at.value)?;
    explain_ways(asked, left, &branch, at, told)?;
    let beside = ways_of_dependents(asked, keywords, "dependentSchemas", at.value)?;
    explain_ways(asked, left, &beside, at, told)?;
    let beside = ways_of_dependents(asked, keywords, "dependencies", at.value)?;
    explain_ways(asked, left, &beside, at, told)
}

// The schema under `then` or `else`, where the condition denies the value.
fn way_of_branch<'a>(
    asked: &Asked<'_>,
    keywords: &'a Map<String, Value>,
    value: &Value,
) -> Result<Vec<Way<'a>>, AllocError> {
    let Some(condition) = keywords.get("if") else {
        return Ok(Vec::new(asked.alloc));
    };
    if !is_denied_by(asked, keywords, &["if", "then", "else"], value)? {
        return Ok(Vec::new(asked.alloc));
    }
    let branch = if is_denied(asked, condition, value)? {
        "else"
    } else {
        "then"
    };
    way_of(asked.alloc, keywords, branch)
}

// The schemas under a keyword beside keys of the value, where the keyword denies it.
fn ways_of_dependents<'a>(
    asked: &Asked<'_>,
    keywords: &'a Map<String, Value>,
    keyword: &'a str,
    value: &Value,
) -> Result<Vec<Way<'a>>, AllocError> {
    if !is_denied_by(asked, keywords, &[keyword], value)? {
        return Ok(Vec::new(asked.alloc));
    }
    ways_beside_keys(asked.alloc, keywords, keyword, value)
}

// Adds why schemas under keywords of the object at the place deny the value.
#[cycle(explain)]
fn explain_ways(
    asked: &Asked<'_>,
    left: u32,
    ways: &[Way<'_>],
    at: &At<'_>,
    told: &mut Told,
) -> Result<(), AllocError> {
    for way in ways {
        explain_way(asked, left, way, at, told)?;
    }
    Ok(())
}

#[cycle(explain)]
fn explain_way(
    asked: &Asked<'_>,
    left: u32,
    way: &Way<'_>,
    at: &At<'_>,
    told: &mut Told,
) -> Result<(), AllocError> {
    let place = way.place_in(asked.alloc, at.keywords)?;
    let inner = At {
        instance: at.instance,
        keywords: place.as_str(),
        value: at.value,
    };
    explain(asked, left, way.schema, &inner, told)
}

#[cycle(explain)]
fn explain_parts(
    asked: &Asked<'_>,
    left: u32,
    keywords: &Map<String, Value>,
    at: &At<'_>,
    told: &mut Told,
) -> Result<(), AllocError> {
    let parts = parts_of(asked.alloc, at.value)?;
    for part in &parts {
        explain_part(asked, left, keywords, part, at, told)?;
    }
    Ok(())
}

#[cycle(explain)]
fn explain_part(
    asked: &Asked<'_>,
    left: u32,
    keywords: &Map<String, Value>,
    part: &Part<'_>,
    at: &At<'_>,
    told: &mut Told,
) -> Result<(), AllocError> {
    let instance = part.key.place_in(asked.alloc, at.instance)?;
    let inner = At {
        instance: instance.as_str(),
        keywords: at.keywords,
        value: part.value,
    };
    let ways = ways_to(asked.alloc, asked.reading, keywords, part.key)?;
    explain_ways(asked, left, &ways, &inner, told)
}

// Adds why the schema for keys denies them: what fails for the key as a text, at the place of its member.
#[cycle(explain)]
fn explain_keys(
    asked: &Asked<'_>,
    left: u32,
    keywords: &Map<String, Value>,
    at: &At<'_>,
    told: &mut Told,
) -> Result<(), AllocError> {
    let keyword = "propertyNames";
    let Value::Object(members) = at.value else {
        return Ok(());
    };
    if !is_denied_by(asked, keywords, &[keyword], at.value)? {
        return Ok(());
    }
    let ways = way_of(asked.alloc, keywords, keyword)?;
    for name in members.keys() {
        explain_key(asked, left, &ways, members, name.as_str(), at, told)?;
    }
    Ok(())
}

// Adds why schemas deny the key of a member.
#[cycle(explain)]
fn explain_key(
    asked: &Asked<'_>,
    left: u32,
    ways: &[Way<'_>],
    members: &Map<String, Value>,
    name: &str,
    at: &At<'_>,
    told: &mut Told,
) -> Result<(), AllocError> {
    if member(members, name).is_none() {
        return Ok(());
    }
    let instance = member_place(asked.alloc, at.instance, name)?;
    let key = Value::String(String::from_str(asked.alloc, name)?);
    let inner = At {
        instance: instance.as_str(),
        keywords: at.keywords,
        value: &key,
    };
    let mut own = told.beside(asked.alloc, true);
    explain_ways(asked, left, ways, &inner, &mut own)?;
    told.take(own)?;
    Ok(())
}

// The keyword for members or items that no other one judges.
fn unevaluated_keyword(value: &Value) -> &'static str {
    match value {
        Value::Array(_) => "unevaluatedItems",
        _ => "unevaluatedProperties",
    }
}

// The members or items that no other keyword judges, and that the one for these denies.
#[cycle(explain)]
fn explain_unjudged(
    asked: &Asked<'_>,
    left: u32,
    keywords: &Map<String, Value>,
    at: &At<'_>,
    told: &mut Told,
) -> Result<(), AllocError> {
    let keyword = unevaluated_keyword(at.value);
    let ways = way_of(asked.alloc, keywords, keyword)?;
    if ways.is_empty() {
        return Ok(());
    }
    let rest = without(asked.alloc, keywords, keyword)?;
    if is_denied(asked, &rest, at.value)? {
        return Ok(());
    }
    let judged = judged_by(asked, &rest, at.value)?;
    let parts = parts_of(asked.alloc, at.value)?;
    for (n, part) in parts.iter().enumerate() {
        if !matches!(judged.get(n), Some(true)) {
            explain_rest(asked, left, &ways, part, at, told)?;
        }
    }
    Ok(())
}

// Adds why schemas deny a member or an item.
#[cycle(explain)]
fn explain_rest(
    asked: &Asked<'_>,
    left: u32,
    ways: &[Way<'_>],
    part: &Part<'_>,
    at: &At<'_>,
    told: &mut Told,
) -> Result<(), AllocError> {
    let instance = part.key.place_in(asked.alloc, at.instance)?;
    let inner = At {
        instance: instance.as_str(),
        keywords: at.keywords,
        value: part.value,
    };
    explain_ways(asked, left, ways, &inner, told)
}

// ---- choices

#[cycle(explain)]
fn explain_choices(
    asked: &Asked<'_>,
    left: u32,
    keywords: &Map<String, Value>,
    at: &At<'_>,
    told: &mut Told,
) -> Result<(), AllocError> {
    explain_choice(asked, left, Choice::AnyOf, keywords, at, told)?;
    explain_choice(asked, left, Choice::OneOf, keywords, at, told)?;
    explain_choice(asked, left, Choice::Not, keywords, at, told)
}

#[cycle(explain)]
fn explain_choice(
    asked: &Asked<'_>,
    left: u32,
    choice: Choice,
    keywords: &Map<String, Value>,
    at: &At<'_>,
    told: &mut Told,
) -> Result<(), AllocError> {
    let keyword = choice.keyword();
    let Some(schemas) = member(keywords, keyword) else {
        return Ok(());
    };
    let Some(fitting) = fitting(asked, schemas, at.value)? else {
        return Ok(());
    };
    if choice.is_met(fitting) {
        return Ok(());
    }
    let error = sentence_of_choice(asked.alloc, choice, fitting)?;
    add(asked, keywords, keyword, at, error.as_str(), told)?;
    if fitting == 0 {
        let ways = ways_listed(asked.alloc, keywords, keyword)?;
        explain_each(asked, left, &ways, at, told)?;
    }
    Ok(())
}

// Adds the failures of each schema of a list that has the value's type.
#[cycle(explain)]
fn explain_each(
    asked: &Asked<'_>,
    left: u32,
    ways: &[Way<'_>],
    at: &At<'_>,
    told: &mut Told,
) -> Result<(), AllocError> {
    for way in ways {
        let mut own = told.beside(asked.alloc, false);
        explain_way(asked, left, way, at, &mut own)?;
        if own.has_other_type(at.instance) {
            told.pass(&own);
        } else {
            told.take(own)?;
        }
    }
    Ok(())
}

// How many of the schemas under a keyword a value fits; none where these are no schemas.
fn fitting(asked: &Asked<'_>, schemas: &Value, value: &Value) -> Result<Option<usize>, AllocError> {
    let Value::Array(schemas) = schemas else {
        let denied = is_denied(asked, schemas, value)?;
        return Ok(Some(if denied { 0 } else { 1 }));
    };
    let mut count: usize = 0;
    for schema in schemas {
        if !Schema::is_schema(schema) {
            return Ok(None);
        }
        if !is_denied(asked, schema, value)? {
            count = count.saturating_add(1);
        }
    }
    Ok(Some(count))
}
