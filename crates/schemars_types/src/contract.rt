ghost use Rattle.std.specs.Prelude.{◌≡◌};
ghost use Rattle.schemars_types.specs.SameContract.{is_same_contract};

/// Which values a document describes: a type may be written in another form than it is read.
#[derive(Clone, Copy, PartialEq, Eq, PartialOrd, Ord, Hash, Debug)]
pub enum Contract {
    /// The values that are read.
    Deserialize,
    /// The values that are written.
    Serialize,
}

impl Contract {
    /// Returns whether the values that are read are described.
    pub fn is_deserialize(&self) -> bool
        ensures { result ≡ is_same_contract self.now Contract.Deserialize }
    {
        match self {
            Contract::Deserialize => true,
            Contract::Serialize => false,
        }
    }

    /// Returns whether the values that are written are described.
    pub fn is_serialize(&self) -> bool
        ensures { result ≡ is_same_contract self.now Contract.Serialize }
    {
        match self {
            Contract::Deserialize => false,
            Contract::Serialize => true,
        }
    }
}
