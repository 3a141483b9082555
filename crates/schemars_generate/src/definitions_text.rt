//! The text of definitions.
ghost use Rattle.std.specs.Prelude.{◌≡◌, ◌≤◌, ◌↔◌, true, Err, length, drop, string_bytes, IfOk, IfErr, IsTrue};
ghost use Rattle.schemars_generate.specs.Words.{IsDefinitionsText, IsDefinitionsRefusal, TakesEarly, held_transforms, state, transforms_openapi3};

use crate::changes::ChangesOpenApi3;
use crate::document::plan_for;
use crate::error::GenerateError;
use crate::generate::{SchemaGenerator, has_row};
use schemars_build::build::answer;
use schemars_definitions::Texts;
use schemars_documents::template::Ask;
use schemars_schema::schema::definitions_to_ordered_string;
use schemars_transform::GenTransform;
use schemars_types::TypeNo;
use schemars_walk::Transform;
use std::alloc::Global;

impl<O: Transform + Drop> SchemaGenerator<O> {
    /// Generates the schema of row `n` as `subschema_for_type` does, and returns the text of all
    /// definitions, each transformed as by `take_definitions`: an object of schemas by name, as for
    /// `components.schemas` of an OpenAPI document.
    ///
    /// Where the transforms are those of OpenAPI and there are no definitions yet, each is written
    /// as soon as it is finished: as text, which takes an eighth of the memory of its JSON value.
    ///
    /// # Errors
    ///
    /// `UnknownType(n)` if the table has no row `n`; the errors of the transforms; `OutOfMemory`.
    pub fn into_definitions_text_for_type(
        self,
        alloc: Global,
        n: TypeNo,
    ) -> Result<String, GenerateError>
        ensures text { IfOk result (λ t. IsDefinitionsText O.makes (held_transforms self)
            (state self) n (string_bytes t)) }
        ensures unknown { (result ≡ Err (GenerateError.UnknownType n)) ↔ (length self.rows ≤ n) }
        ensures refused { IfErr result (λ e. IsDefinitionsRefusal O.makes (held_transforms self)
            (state self) n e) }
    {
        if self.takes_early() {
            self.early_definitions(alloc, n)
        } else {
            self.late_definitions(alloc, n)
        }
    }

    // The text of the definitions that row `n` leads to, from their JSON values.
    fn late_definitions(self, alloc: Global, n: TypeNo) -> Result<String, GenerateError>
        ensures text { IfOk result (λ t. IsDefinitionsText O.makes (held_transforms self)
            (state self) n (string_bytes t)) }
        ensures unknown { (result ≡ Err (GenerateError.UnknownType n)) ↔ (length self.rows ≤ n) }
        ensures refused { IfErr result (λ e. IsDefinitionsRefusal O.makes (held_transforms self)
            (state self) n e) }
    {
        let mut generator = self;
        generator.subschema_for_type(alloc, n)?;
        let definitions = generator.into_definitions(alloc)?;
        let text = definitions_to_ordered_string(alloc, &definitions)?;
        Ok(text)
    }

    // The text of the definitions that row `n` leads to, each of them written as soon as it is
    // finished.
    fn early_definitions(self, alloc: Global, n: TypeNo) -> Result<String, GenerateError>
        requires { TakesEarly self }
        ensures text { IfOk result (λ t. IsDefinitionsText O.makes (held_transforms self)
            (state self) n (string_bytes t)) }
        ensures unknown { (result ≡ Err (GenerateError.UnknownType n)) ↔ (length self.rows ≤ n) }
        ensures refused { IfErr result (λ e. IsDefinitionsRefusal O.makes (held_transforms self)
            (state self) n e) }
    {
        let SchemaGenerator {
            settings,
            types,
            registry,
        } = self;
        has_row(&types, n)?;
        let plan = plan_for(&settings, &types, None);
        let mut registry = registry.with_store(Texts::new(alloc, ChangesOpenApi3));
        let _part = answer(alloc, &plan, &mut registry, true, Ask::Part(n))?;
        registry.commit();
        let text = registry.into_store().into_definitions_text(alloc)?;
        Ok(text)
    }

    // Whether the transforms are those of OpenAPI, and there are no definitions yet.
    fn takes_early(&self) -> bool
        ensures { IsTrue result → TakesEarly self.now }
    {
        self.registry.definitions().len() == 0 && are_openapi3(&self.settings.transforms)
    }
}

// Whether the transforms are those of OpenAPI.
fn are_openapi3<O>(transforms: &[GenTransform<O>]) -> bool
    ensures { IsTrue result → transforms.now ≡ transforms_openapi3 }
{
    match transforms {
        [
            GenTransform::ReplaceUnevaluatedProperties(_),
            bools,
            nullable,
            rest @ ..,
        ] => replaces_bools(bools) && adds_nullable(nullable) && end_as_openapi3(rest),
        _ => false,
    }
}

// Whether these are the transforms of OpenAPI from the fourth on.
fn end_as_openapi3<O>(transforms: &[GenTransform<O>]) -> bool
    ensures { IsTrue result → transforms.now ≡ drop 3 transforms_openapi3 }
{
    matches!(
        transforms,
        [
            GenTransform::RemoveRefSiblings(_),
            GenTransform::SetSingleExample(_),
            GenTransform::ReplaceConstValue(_),
            GenTransform::ReplacePrefixItems(_),
        ]
    )
}

// Whether the transform replaces boolean schemas as that of OpenAPI does.
fn replaces_bools<O>(transform: &GenTransform<O>) -> bool
    ensures { IsTrue result → transform.now
        ≡ GenTransform.ReplaceBoolSchemas (record { skip_additional_properties = true }) }
{
    match transform {
        GenTransform::ReplaceBoolSchemas(bools) => bools.skip_additional_properties,
        _ => false,
    }
}

// Whether the transform adds `nullable` as that of OpenAPI does.
fn adds_nullable<O>(transform: &GenTransform<O>) -> bool
    ensures { IsTrue result → transform.now ≡ GenTransform.AddNullable (record {
      remove_null_type = true;
      add_const_null = true;
    }) }
{
    match transform {
        GenTransform::AddNullable(nullable) => {
            nullable.remove_null_type && nullable.add_const_null
        }
        _ => false,
    }
}
