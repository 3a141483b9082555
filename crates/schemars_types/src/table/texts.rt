//! The ids and names of rows, and those that are made of them.
ghost use Rattle.std.specs.Prelude.{◌≡◌, ◌++◌, IfOk, codes, map, string_bytes};
ghost use Rattle.std.specs.List.{join_by};
ghost use Rattle.schemars_types.specs.Rows.{id_at, name_at};

use crate::table::Types;
use schemars_shapes::TypeNo;
use std::alloc::{AllocError, Global};

/// The id of row `n`, or the empty text if there is no such row.
pub fn id_at(types: &Types, n: TypeNo) -> &str
    ensures { result.now ≡ id_at types.now n }
{
    types.id(n).unwrap_or("")
}

/// The name of row `n`, or the empty text if there is no such row.
pub fn name_at(types: &Types, n: TypeNo) -> &str
    ensures { result.now ≡ name_at types.now n }
{
    types.name(n).unwrap_or("")
}

/// The id and the name of a row that is made of row `n`: its id has the id of `n` between two
/// texts, and its name has that of `n` behind one.
pub fn texts_around(
    alloc: Global,
    types: &Types,
    n: TypeNo,
    before: &str,
    after: &str,
    name_before: &str,
) -> Result<(String, String), AllocError>
    ensures id { IfOk result (λ t. string_bytes t.0
        ≡ before.now ++ (id_at types.now n ++ after.now)) }
    ensures name { IfOk result (λ t. string_bytes t.1
        ≡ name_before.now ++ name_at types.now n) }
{
    let (id, name) = (id_at(types, n), name_at(types, n));
    let id = format!(in alloc; "{before}{id}{after}")?;
    let name = format!(in alloc; "{name_before}{name}")?;
    Ok((id, name))
}

/// The id and the name of a row that is made of two others: its id has theirs as the parts of
/// `generic`, and its name has theirs behind one text and around another.
pub fn pair_texts(
    alloc: Global,
    types: &Types,
    first: TypeNo,
    second: TypeNo,
    generic: &str,
    name_before: &str,
    name_between: &str,
) -> Result<(String, String), AllocError>
    ensures id { IfOk result (λ t. string_bytes t.0 ≡ generic.now
        ++ (codes "<" ++ (id_at types.now first
        ++ (codes ", " ++ (id_at types.now second ++ codes ">"))))) }
    ensures name { IfOk result (λ t. string_bytes t.1
        ≡ name_before.now ++ (name_at types.now first
        ++ (name_between.now ++ name_at types.now second))) }
{
    let (first_id, second_id) = (id_at(types, first), id_at(types, second));
    let id = format!(in alloc; "{generic}<{first_id}, {second_id}>")?;
    let (first_name, second_name) = (name_at(types, first), name_at(types, second));
    let name = format!(in alloc; "{name_before}{first_name}{name_between}{second_name}")?;
    Ok((id, name))
}

/// The id of lists of one value of each of these rows.
pub fn tuple_id(alloc: Global, types: &Types, parts: &[TypeNo]) -> Result<String, AllocError>
    ensures { IfOk result (λ s. string_bytes s ≡ codes "("
        ++ (join_by (λ id. id) (codes ",") (map (id_at types.now) parts.now)
        ++ codes ")")) }
{
    let mut ids = Vec::new(alloc);
    for n in parts {
        ids.push(id_at(types, *n))?;
    }
    let ids = ids.join(alloc, ",")?;
    format!(in alloc; "({ids})")
}

/// The name of lists of one value of each of these rows.
pub fn tuple_name(alloc: Global, types: &Types, parts: &[TypeNo]) -> Result<String, AllocError>
    ensures { IfOk result (λ s. string_bytes s ≡ codes "Tuple_of_"
        ++ join_by (λ name. name) (codes "_and_")
        (map (name_at types.now) parts.now)) }
{
    let mut names = Vec::new(alloc);
    for n in parts {
        names.push(name_at(types, *n))?;
    }
    let names = names.join(alloc, "_and_")?;
    format!(in alloc; "Tuple_of_{names}")
}
