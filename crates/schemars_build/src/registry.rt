//! What documents are made into.
ghost use Rattle.std.specs.Prelude.{ℕ, List, true, false, map, ◌≡◌, ◌∷◌, ◌++◌, ◌||◌, [], None, Some, length, IfOk, IfErr, IfSome, OnOk, OnErr, is_some, string_bytes, not, ◌&&◌, if◌then◌else◌};
ghost use Rattle.schemars_build.specs.Words.{Data, boolean, put, no_members, get_member, as_object, members_view, made_by, needs_of, ordered_text, IsWholeTextOf, is_pending, pending_in, GivesNames, without_all, without_last, Lends, sem, map_row};
ghost use Rattle.schemars_schema.specs.Edits.{replaced};
ghost use Rattle.schemars_types.specs.declared.contract.Contract.{Contract};
ghost use Rattle.schemars_build.specs.Registry.{name_of, IsOneToOne, rolled_back};

use crate::names::Names;
use crate::pending::Pending;
use crate::text_count::{NO_TEXTS, TextCount};
use schemars_definitions::{Definitions, Objects};
use schemars_schema::Schema;
use schemars_transform::{GenTransform, Needs, NoTransform};
use schemars_types::{Contract, TypeNo, Types};
use serde_json::{Map, Value};
use std::alloc::{AllocError, Global};
use std::marker::Model;

/// The names and definitions that documents are made into, and what a call has added to them.
#[derive(Drop)]
pub struct Registry<D: Definitions> {
    names: Names,
    definitions: D,
    begun: Vec<String>,
    kept: usize,
    has_root_reference: bool,
    pending: Pending,
    texts: TextCount,
}

impl<D: Definitions> Model for Registry<D> {
    ghost use Rattle.std.specs.Prelude.{◌≤◌, map, length, string_bytes};
    ghost use Rattle.std.specs.Coded.{codes};
    ghost use Rattle.schemars_schema.specs.DataCode.{members_code};
    ghost use Rattle.schemars_build.specs.Registry as specs;

    ghost Value = { specs.Registry };

    ghost coded = { Prim.hlevel (codes, members_code) };

    ghost view = { λ w. record {
      names = w.names;
      definitions = D.kept w.definitions;
      begun = map string_bytes w.begun.items;
      kept = w.kept;
      has_root_reference = w.has_root_reference;
      pending = w.pending;
    } };

    ghost invariant = { λ w. w.kept ≤ length w.names };
}

impl Clone for Registry<Objects> {
    ghost use Rattle.std.specs.Prelude.{◌≡◌};

    ghost is_clone = { λ v w. w ≡ v };

    fn clone(&self) -> Result<Registry<Objects>, AllocError> {
        Ok(Registry {
            names: self.names.clone()?,
            definitions: self.definitions.clone()?,
            begun: self.begun.clone()?,
            kept: self.kept,
            has_root_reference: self.has_root_reference,
            pending: self.pending.clone()?,
            texts: self.texts,
        })
    }
}

impl Registry<Objects> {
    ghost use Rattle.schemars_build.specs.contracts.registry.Registry.{the_row};
    ghost use Rattle.schemars_definitions.specs.contracts.objects.Objects.{the_row as objects_row};

    /// No names and no definitions.
    pub fn new(alloc: Global) -> Registry<Objects>
        ensures { result ≡ record {
          names = [];
          definitions = no_members;
          begun = [];
          kept = 0;
          has_root_reference = false;
          pending = [];
        } }
    {
        Registry {
            names: Names::new(alloc),
            definitions: Objects::new(alloc),
            begun: Vec::new(alloc),
            kept: 0,
            has_root_reference: false,
            pending: Pending::new(alloc),
            texts: NO_TEXTS,
        }
    }

    /// The definitions.
    pub fn definitions(&self) -> &Map<String, Value>
        ensures { members_view result.now.entries ≡ self.now.definitions }
    {
        self.definitions.as_object()
    }

    /// The definitions, for writing.
    pub fn definitions_mut(&mut self) -> &mut Map<String, Value>
        ensures* writes_back { sem 𝓛 (Lends (the_row objects_row ⟦<Objects as Definitions>⟧) map_row
            self.entry result (λ m. record self.old { definitions = members_view m.entries })) }
        ensures value { members_view result.now.entries ≡ self.old.definitions }
    {
        self.definitions.as_object_mut()
    }

    /// A copy of the definitions.
    pub fn copy_definitions(&self) -> Result<Map<String, Value>, AllocError>
        ensures { IfOk result (λ m. members_view m.entries ≡ self.now.definitions) }
    {
        Ok(self.definitions.clone()?.into_object())
    }

    /// Takes the definitions.
    pub fn take_definitions(&mut self, alloc: Global) -> Map<String, Value>
        ensures taken { members_view result.entries ≡ self.old.definitions }
        ensures rest { self.new ≡ record self.old { definitions = no_members } }
    {
        std::mem::replace(&mut self.definitions, Objects::new(alloc)).into_object()
    }
}

impl<D: Definitions> Registry<D> {
    /// Makes room for what is noted of this many rows.
    pub fn extend(&mut self, rows: usize) -> Result<(), AllocError>
        ensures { self.new ≡ self.old }
    {
        self.names.extend(rows)?;
        self.pending.extend(rows)
    }

    /// Whether there is a definition of this name.
    pub fn has_definition(&self, name: &str) -> bool
        ensures { result ≡ is_some (get_member name.now self.now.definitions) }
    {
        self.definitions.contains_key(name)
    }

    /// The name of row `n`, which is given one if it has none.
    pub fn name_for(
        &mut self,
        alloc: Global,
        types: &Types,
        contract: Contract,
        n: TypeNo,
    ) -> Result<String, AllocError>
        ensures named { IfOk result (λ s. name_of n contract self.new.names
            ≡ Some (string_bytes s)) }
        ensures given { OnOk result (GivesNames types.now self.old.names self.new.names) }
        ensures no_other { OnOk result ((m : ℕ) (c : Contract) (name : List ℕ)
            → name_of m c self.old.names ≡ None
            → name_of m c self.new.names ≡ Some name → (m ≡ n) × (c ≡ contract)) }
        ensures rest { self.new ≡ record self.old { names = self.new.names } }
        ensures rolled_back { rolled_back self.new ≡ rolled_back self.old }
    {
        if let Some(name) = self.names.get(n, contract) {
            let name = String::from_str(alloc, name)?;
            return Ok(name);
        }
        let base = types.name(n).unwrap_or("");
        let name = self.names.give(alloc, n, contract, base)?;
        Ok(name)
    }

    // Begins a definition, which is `false` until it is finished, unless there is one of this name.
    // Answers whether it did. One that is likely to be there is looked for first.
    pub(crate) fn begin_new(
        &mut self,
        alloc: Global,
        name: &str,
        is_likely: bool,
    ) -> Result<bool, AllocError>
        ensures is_new { IfOk result (λ b. b
            ≡ not (is_some (get_member name.now self.old.definitions))) }
        ensures begun { IfOk result (λ b. b ≡ true → self.new ≡ record self.old {
          definitions = put name.now (boolean false) self.old.definitions;
          begun = self.old.begun ++ name.now ∷ [];
        }) }
        ensures same { IfOk result (λ b. b ≡ false → self.new ≡ self.old) }
        ensures err { OnErr result (self.new ≡ self.old) }
    {
        if is_likely && self.has_definition(name) {
            return Ok(false);
        }
        self.begun.push(String::from_str(alloc, name)?)?;
        let is_new = self.definitions.begin(alloc, name);
        if !matches!(is_new, Ok(true)) {
            let _ = self.begun.pop();
        }
        is_new
    }

    // Whether row `n` has a name.
    pub(crate) fn is_named(&self, contract: Contract, n: TypeNo) -> bool {
        self.names.get(n, contract).is_some()
    }

    /// Puts a definition that was begun in its place.
    pub fn finish(&mut self, alloc: Global, name: &str, schema: Schema) -> Result<(), AllocError>
        ensures ok { OnOk result (self.new
            ≡ record self.old { definitions = replaced name.now schema self.old.definitions }) }
        ensures err { OnErr result (self.new ≡ self.old) }
    {
        self.definitions.finish(alloc, name, schema)
    }

    /// Whether definitions are to be rendered: the store keeps texts, and those that were rendered
    /// before were mostly kept.
    pub fn wants_texts(&self) -> bool {
        self.definitions.keeps_texts() && self.texts.are_mostly_kept()
    }

    /// Whether each definition is written as it is kept, whatever it needs.
    pub fn changes_nothing(&self) -> bool {
        self.definitions.changes_nothing()
    }

    /// Puts a definition that was begun in its place: the schema whose ordered text this is, and
    /// whose needs these are.
    ///
    /// # Errors
    ///
    /// The text, if the store does not keep it.
    pub fn finish_text(
        &mut self,
        name: &str,
        text: String,
        needs: Option<Needs>,
    ) -> Result<(), String>
        requires { (d : Data) × IsWholeTextOf (string_bytes text) d
            × IfSome needs (λ known. known ≡ needs_of d) }
        ensures ok { OnOk result ((d : Data) → IsWholeTextOf (string_bytes text) d
            → self.new ≡ record self.old
            { definitions = replaced name.now d self.old.definitions }) }
        ensures err { OnErr result (self.new ≡ self.old) }
        ensures text { IfErr result (λ unkept. unkept ≡ text) }
    {
        let finished = self.definitions.finish_text(name, text, needs);
        if finished.is_ok() {
            self.texts.add(true);
        }
        finished
    }

    /// The built-in transforms by which definitions are changed before they are written.
    pub fn transforms(&self, alloc: Global) -> Result<Vec<GenTransform<NoTransform>>, AllocError>
        ensures { IfOk result (λ ts. (d : Data) → D.changed d ≡ made_by ts.items d) }
    {
        self.definitions.transforms(alloc)
    }

    /// Puts a definition that was begun in its place, where its ordered text and that of what is
    /// made of it are known. The answer is whether definitions are kept as text; if not, nothing is
    /// done.
    pub fn finish_changed(&mut self, name: &str, before: String, after: String) -> bool
        requires { (d : Data) × IsWholeTextOf (string_bytes before) d
            × (string_bytes after ≡ ordered_text (D.changed d)) }
        ensures done { result ≡ true → (d : Data) → IsWholeTextOf (string_bytes before) d
            → self.new ≡ record self.old
            { definitions = replaced name.now d self.old.definitions } }
        ensures same { result ≡ false → self.new ≡ self.old }
    {
        let is_kept = self.definitions.finish_changed(name, before, after);
        self.texts.add(is_kept);
        is_kept
    }

    /// Notes that a definition was rendered, and that its text is not kept.
    pub fn note_unkept(&mut self)
        ensures { self.new ≡ self.old }
    {
        self.texts.add(false);
    }

    /// Notes that the root was referred to, where a definition does so.
    pub fn note_root_reference(&mut self, in_definition: bool)
        ensures { self.new ≡ record self.old
            { has_root_reference = self.old.has_root_reference || in_definition } }
    {
        self.has_root_reference = self.has_root_reference || in_definition;
    }

    /// Whether a definition that was added refers to the root.
    pub fn has_root_reference(&self) -> bool
        ensures { result ≡ self.now.has_root_reference }
    {
        self.has_root_reference
    }

    /// Whether the document of row `n` is being made.
    pub fn is_pending(&self, n: TypeNo) -> bool
        ensures { result ≡ is_pending self.now.pending n }
    {
        self.pending.contains(n)
    }

    /// Notes, where rows are inlined, that the document of row `n` is being made. The answer is
    /// whether it was not noted before.
    pub fn enter(&mut self, inlines: bool, n: TypeNo) -> Result<bool, AllocError>
        ensures is_new { IfOk result (λ b. b ≡ inlines && not (is_pending self.old.pending n)) }
        ensures ok { OnOk result (self.new
            ≡ record self.old { pending = pending_in inlines self.old.pending n }) }
        ensures err { OnErr result (self.new ≡ self.old) }
    {
        if !inlines {
            return Ok(false);
        }
        let is_new = self.pending.enter(n)?;
        Ok(is_new)
    }

    /// Notes that the document of the row that was entered last is made, where one was.
    pub fn leave(&mut self, entered: bool)
        ensures { self.new
            ≡ record self.old {
              pending = if entered then without_last self.old.pending else
                  self.old.pending;
            } }
    {
        if entered {
            self.pending.leave();
        }
    }

    /// Keeps what was added.
    pub fn commit(&mut self)
        ensures one_to_one { IsOneToOne self.old.names }
        ensures kept { self.new ≡ record self.old
            { begun = []; kept = length self.old.names; has_root_reference = false } }
    {
        self.begun.clear();
        self.kept = self.names.len();
        self.has_root_reference = false;
    }

    /// Keeps the names that were added, and takes the definitions back.
    pub fn discard_definitions(&mut self)
        ensures one_to_one { IsOneToOne self.old.names }
        ensures kept { self.new ≡ record self.old {
          definitions = without_all self.old.begun self.old.definitions;
          begun = [];
          kept = length self.old.names;
          has_root_reference = false;
        } }
    {
        take_out(&mut self.definitions, &mut self.begun);
        self.commit();
    }

    /// Takes back what was added.
    pub fn roll_back(&mut self)
        ensures { self.new ≡ rolled_back self.old }
    {
        self.names.truncate(self.kept);
        self.pending.clear();
        self.discard_definitions();
    }

    /// The store of the definitions.
    pub fn into_store(self) -> D
        ensures { D.kept result ≡ self.definitions }
    {
        let Registry { definitions, .. } = self;
        definitions
    }
}

impl<D: Definitions + Drop> Registry<D> {
    /// The same registry with another store, which keeps the same definitions.
    pub fn with_store<E: Definitions>(self, store: E) -> Registry<E>
        requires { E.kept store ≡ self.definitions }
        ensures { result ≡ self }
    {
        let Registry {
            names,
            begun,
            kept,
            has_root_reference,
            pending,
            texts,
            ..
        } = self;
        Registry {
            names,
            definitions: store,
            begun,
            kept,
            has_root_reference,
            pending,
            texts,
        }
    }
}

// Removes the definitions of these names, the last first.
fn take_out<D: Definitions>(definitions: &mut D, names: &mut Vec<String>)
    ensures definitions { D.kept definitions.new
        ≡ without_all (map string_bytes names.old.items) (D.kept definitions.old) }
    ensures names { names.new.items ≡ [] }
{
    while let Some(name) = names.pop() {
        definitions.remove(name.as_str());
    }
}
