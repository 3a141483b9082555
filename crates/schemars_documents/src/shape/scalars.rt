//! The templates of values without parts.
ghost use Rattle.std.specs.Prelude.{◌≡◌, ◌∷◌, [], codes, map, IfOk};
ghost use Rattle.schemars_documents.specs.Words.{number, unsigned, typed, int_document, char_document, formatted_document, empty_list_document, finished, node_view, scalar_keyword};

use crate::integers::int_keywords_of;
use schemars_templates::template::nodes::keywords;
use schemars_templates::template::{Scalar, SchemaNode};
use schemars_types::IntKind;
use std::alloc::{AllocError, Global};

/// An integer of this kind.
pub fn int_template<'t>(alloc: Global, kind: IntKind) -> Result<SchemaNode<'t>, AllocError>
    ensures { IfOk result (λ t. node_view t ≡ finished (int_document kind)) }
{
    Ok(keywords(int_keywords_of(alloc, kind)?))
}

/// A text of one code point.
pub fn char_template<'t>(alloc: Global) -> Result<SchemaNode<'t>, AllocError>
    ensures { IfOk result (λ t. node_view t ≡ finished char_document) }
{
    Ok(keywords(char_keywords(alloc)?))
}

/// The keywords of a text of one code point.
pub fn char_keywords<'t>(alloc: Global) -> Result<Vec<(&'t str, Scalar<'t>)>, AllocError>
    ensures { IfOk result (λ v. map scalar_keyword v.items ≡ typed (codes "string")
        ∷ (codes "minLength", number (unsigned 1)) ∷ (codes "maxLength", number (unsigned 1)) ∷ []) }
{
    let keywords = vec![in alloc;
        ("type", Scalar::Text("string")),
        ("minLength", Scalar::Integer(1)),
        ("maxLength", Scalar::Integer(1)),
    ]?;
    Ok(keywords)
}

/// A text of this format.
pub fn formatted_template<'t>(alloc: Global, format: &'t str) -> Result<SchemaNode<'t>, AllocError>
    ensures { IfOk result (λ t. node_view t ≡ finished (formatted_document format.now)) }
{
    let both = vec![in alloc;
        ("type", Scalar::Text("string")),
        ("format", Scalar::Text(format)),
    ]?;
    Ok(keywords(both))
}

/// A list of no items.
pub fn empty_list_template<'t>(alloc: Global) -> Result<SchemaNode<'t>, AllocError>
    ensures { IfOk result (λ t. node_view t ≡ finished empty_list_document) }
{
    let both = vec![in alloc;
        ("type", Scalar::Text("array")),
        ("maxItems", Scalar::Integer(0)),
    ]?;
    Ok(keywords(both))
}
