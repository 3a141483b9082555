//! Which rows of a shape are listed.
ghost use Rattle.std.specs.Prelude.{◌≡◌};
ghost use Rattle.schemars_shapes.specs.Rows.{beside_tag, under_key};

/// Which of the rows that a shape refers to are listed.
#[derive(Clone, Copy)]
pub enum Rows {
    /// all, as they are written
    All,
    /// those that are flattened into the shape's maps
    Flattened,
    /// those whose values, or whose members, the shape has itself
    Same,
    /// those that the shape asks at once, whether they are written in place or not: that of a map's
    /// keys, and those whose members are in the shape's own maps
    Asked,
}

impl Rows {
    // What is listed of a variant's payload whose members are beside a tag, and so all of them in
    // the shape's own maps.
    pub(crate) fn beside_tag(self) -> Rows
        ensures { result ≡ beside_tag self }
    {
        match self {
            Rows::All => Rows::All,
            Rows::Flattened => Rows::Flattened,
            Rows::Same | Rows::Asked => Rows::Same,
        }
    }

    // What is listed of a variant's payload under a key, whose value is not the shape's own.
    pub(crate) fn under_key(self) -> Rows
        ensures { result ≡ under_key self }
    {
        match self {
            Rows::All => Rows::All,
            Rows::Flattened | Rows::Same | Rows::Asked => Rows::Flattened,
        }
    }
}
