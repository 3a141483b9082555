//! Definitions as JSON values.
ghost use Rattle.std.specs.Prelude.{◌≡◌};
ghost use Rattle.schemars_definitions.specs.Words.{no_members, members_view, map_row, Lends, sem};

use crate::entries::{insert_new, replace};
use crate::store::Definitions;
use schemars_schema::Schema;
use schemars_transform::{GenTransform, Needs, NoTransform};
use serde_json::{Map, Value};
use std::alloc::{AllocError, Global};
use std::marker::Model;

/// Definitions as JSON values.
#[derive(Drop)]
pub struct Objects {
    members: Map<String, Value>,
}

impl Model for Objects {
    ghost use Rattle.serde_json.specs.Data.{Members};
    ghost use Rattle.serde_json.specs.View.{members_view};
    ghost use Rattle.schemars_schema.specs.DataCode.{members_code};

    ghost Value = { Members };

    ghost coded = { members_code };

    ghost view = { λ o. members_view o.members.entries };
}

impl Objects {
    ghost use Rattle.schemars_definitions.specs.contracts.objects.Objects.{the_row};

    /// Returns no definitions.
    pub fn new(alloc: Global) -> Objects
        ensures { result ≡ no_members }
    {
        Objects {
            members: Map::new(alloc),
        }
    }

    /// Returns the definitions.
    pub fn as_object(&self) -> &Map<String, Value>
        ensures { members_view result.now.entries ≡ self.now }
    {
        &self.members
    }

    /// Borrows the definitions mutably.
    pub fn as_object_mut(&mut self) -> &mut Map<String, Value>
        ensures* writes_back { sem 𝓛 (Lends the_row map_row self.entry result
            (λ m. members_view m.entries)) }
        ensures value { members_view result.now.entries ≡ self.old }
    {
        &mut self.members
    }

    /// Converts the store into its definitions.
    pub fn into_object(self) -> Map<String, Value>
        ensures { members_view result.entries ≡ self }
    {
        let Objects { members } = self;
        members
    }
}

impl Clone for Objects {
    ghost use Rattle.std.specs.Prelude.{◌≡◌};

    ghost is_clone = { λ o p. p ≡ o };

    fn clone(&self) -> Result<Objects, AllocError> {
        let members = self.members.clone()?;
        Ok(Objects { members })
    }
}

impl Definitions for Objects {
    ghost kept = { λ ms. ms };

    ghost changed = { λ d. d };

    fn contains_key(&self, name: &str) -> bool {
        self.members.contains_key(name)
    }

    fn begin(&mut self, alloc: Global, name: &str) -> Result<bool, AllocError> {
        let key = String::from_str(alloc, name)?;
        insert_new(&mut self.members, key, Value::Bool(false))
    }

    fn finish(&mut self, _alloc: Global, name: &str, schema: Schema) -> Result<(), AllocError> {
        replace(&mut self.members, name, schema.to_value());
        Ok(())
    }

    fn keeps_texts(&self) -> bool {
        false
    }

    fn changes_nothing(&self) -> bool {
        true
    }

    fn finish_text(
        &mut self,
        _name: &str,
        text: String,
        _needs: Option<Needs>,
    ) -> Result<(), String> {
        Err(text)
    }

    fn transforms(&self, alloc: Global) -> Result<Vec<GenTransform<NoTransform>>, AllocError> {
        Ok(Vec::new(alloc))
    }

    fn finish_changed(&mut self, _name: &str, _before: String, _after: String) -> bool {
        false
    }

    fn remove(&mut self, name: &str) {
        let _ = self.members.remove(name);
    }
}
