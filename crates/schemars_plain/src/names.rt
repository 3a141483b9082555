//! Lists of names.
ghost use Rattle.std.specs.Prelude.{◌↔◌, map, IsTrue};
ghost use Rattle.schemars_shapes.specs.Shape.{field_of};
ghost use Rattle.schemars_documents.specs.PlainTable.{IsNoName, AreNoNames, AreOthers, AreApartFrom, AreApart};

use schemars_schema::edits::is_listed;
use schemars_types::Field;

/// Whether no field has this name.
pub fn is_no_name(name: &str, fields: &[&Field]) -> bool
    ensures { IsTrue result ↔ IsNoName name.now (map (λ f. field_of f.now) fields.now) }
{
    for field in fields {
        if field.name.as_str() == name {
            return false;
        }
    }
    true
}

/// Whether no name is in two of the lists: the names of the fields, and each of the others.
pub fn are_apart(fields: &[&Field], others: &[Vec<&str>]) -> bool
    ensures { IsTrue result ↔ AreApart (map (λ f. field_of f.now) fields.now)
        (map (λ names. map (λ n. n.now) names.items) others.now) }
{
    for (n, names) in others.iter().enumerate() {
        if !is_apart(names, fields, &others[n + 1..]) {
            return false;
        }
    }
    true
}

// Whether none of the names is a field's, nor in one of the lists.
fn is_apart(names: &[&str], fields: &[&Field], lists: &[Vec<&str>]) -> bool
    ensures { IsTrue result
        ↔ (AreNoNames (map (λ f. field_of f.now) fields.now) (map (λ n. n.now) names.now)
        × AreApartFrom (map (λ n. n.now) names.now)
        (map (λ names. map (λ n. n.now) names.items) lists.now)) }
{
    are_no_names(fields, names) && are_apart_from(names, lists)
}

// Whether none of the names is a field's.
fn are_no_names(fields: &[&Field], names: &[&str]) -> bool
    ensures { IsTrue result ↔ AreNoNames (map (λ f. field_of f.now) fields.now)
        (map (λ n. n.now) names.now) }
{
    for name in names {
        if !is_no_name(name, fields) {
            return false;
        }
    }
    true
}

// Whether none of the names is in one of the lists.
fn are_apart_from(names: &[&str], lists: &[Vec<&str>]) -> bool
    ensures { IsTrue result ↔ AreApartFrom (map (λ n. n.now) names.now)
        (map (λ names. map (λ n. n.now) names.items) lists.now) }
{
    for list in lists {
        if !are_others(names, list) {
            return false;
        }
    }
    true
}

// Whether none of the others is one of the names.
fn are_others(names: &[&str], others: &[&str]) -> bool
    ensures { IsTrue result ↔ AreOthers (map (λ n. n.now) names.now) (map (λ n. n.now) others.now) }
{
    for other in others {
        if is_listed(other, names) {
            return false;
        }
    }
    true
}
