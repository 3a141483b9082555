//! Keywords whose schemas judge the same object as the schema around them.
ghost use Rattle.std.specs.Prelude.{◌≡◌};
ghost use Rattle.schemars_text.specs.OrderedText.{is_listed};
ghost use Rattle.schemars_schema.specs.References.{with_same_object, with_same_objects};

/// Whether the keyword has a schema that judges the same object.
pub fn holds_same(key: &str) -> bool
    ensures { result ≡ is_listed key.now with_same_object }
{
    key == "if" || key == "then" || key == "else"
}

/// Whether the keyword has a list of schemas that judge the same object.
pub fn lists_same(key: &str) -> bool
    ensures { result ≡ is_listed key.now with_same_objects }
{
    key == "allOf" || key == "anyOf" || key == "oneOf"
}
