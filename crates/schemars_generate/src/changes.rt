//! What the transforms of a draft's settings make of a definition.
ghost use Rattle.std.specs.Prelude.{◌≡◌, false, OnOk};
ghost use Rattle.schemars_generate.specs.Words.{made_by, some_own, needs_of, transforms07, transforms2019_09, transforms_openapi3};

use schemars_definitions::Change;
use schemars_schema::Schema;
use schemars_transform::{
    AddNullable, GenTransform, Needs, NoTransform, RemoveRefSiblings, ReplaceBoolSchemas,
    ReplaceConstValue, ReplacePrefixItems, ReplaceUnevaluatedProperties, SetSingleExample,
    apply_all, apply_needed, are_idle,
};
use schemars_walk::Transform;
use std::alloc::{AllocError, Global};

// The transforms of 2019-09.
#[derive(Drop)]
pub(crate) struct Changes2019_09;

impl Change for Changes2019_09 {
    ghost use Rattle.schemars_headline.specs.Drafts.{Draft2019_09, made_for};

    ghost made = { λ d. made_for Draft2019_09 d };

    fn changes_nothing(&self) -> bool {
        false
    }

    fn leaves(&self, needs: Needs) -> bool {
        are_idle(&draft2019_09_transforms(), needs)
    }

    fn transforms(&self, alloc: Global) -> Result<Vec<GenTransform<NoTransform>>, AllocError> {
        let transforms = Vec::from_array(alloc, draft2019_09_transforms())?;
        Ok(transforms)
    }

    fn change(
        &mut self,
        alloc: Global,
        schema: &mut Schema,
        needs: Needs,
    ) -> Result<(), AllocError> {
        let mut transforms = Vec::from_array(alloc, draft2019_09_transforms())?;
        apply_where_needed(alloc, &mut transforms, schema, needs)
    }
}

// The transforms of Draft 7.
#[derive(Drop)]
pub(crate) struct Changes07;

impl Change for Changes07 {
    ghost use Rattle.schemars_headline.specs.Drafts.{Draft07, made_for};

    ghost made = { λ d. made_for Draft07 d };

    fn changes_nothing(&self) -> bool {
        false
    }

    fn leaves(&self, needs: Needs) -> bool {
        are_idle(&draft07_transforms(), needs)
    }

    fn transforms(&self, alloc: Global) -> Result<Vec<GenTransform<NoTransform>>, AllocError> {
        let transforms = Vec::from_array(alloc, draft07_transforms())?;
        Ok(transforms)
    }

    fn change(
        &mut self,
        alloc: Global,
        schema: &mut Schema,
        needs: Needs,
    ) -> Result<(), AllocError> {
        let mut transforms = Vec::from_array(alloc, draft07_transforms())?;
        apply_where_needed(alloc, &mut transforms, schema, needs)
    }
}

// The transforms of OpenAPI.
#[derive(Drop)]
pub(crate) struct ChangesOpenApi3;

impl Change for ChangesOpenApi3 {
    ghost use Rattle.schemars_laws.specs.Laws.{for_openapi3};

    ghost made = { λ d. for_openapi3 d };

    fn changes_nothing(&self) -> bool {
        false
    }

    fn leaves(&self, needs: Needs) -> bool {
        are_idle(&openapi3_transforms(), needs)
    }

    fn transforms(&self, alloc: Global) -> Result<Vec<GenTransform<NoTransform>>, AllocError> {
        let transforms = Vec::from_array(alloc, openapi3_transforms())?;
        Ok(transforms)
    }

    fn change(
        &mut self,
        alloc: Global,
        schema: &mut Schema,
        needs: Needs,
    ) -> Result<(), AllocError> {
        let mut transforms = Vec::from_array(alloc, openapi3_transforms())?;
        apply_where_needed(alloc, &mut transforms, schema, needs)
    }
}

// The transforms of 2019-09, in order.
fn draft2019_09_transforms() -> [GenTransform<NoTransform>; 1]
    ensures { result ≡ transforms2019_09 }
{
    [GenTransform::ReplacePrefixItems(ReplacePrefixItems)]
}

// The transforms of Draft 7, in order.
fn draft07_transforms() -> [GenTransform<NoTransform>; 3]
    ensures { result ≡ transforms07 }
{
    [
        GenTransform::ReplaceUnevaluatedProperties(ReplaceUnevaluatedProperties),
        GenTransform::RemoveRefSiblings(RemoveRefSiblings),
        GenTransform::ReplacePrefixItems(ReplacePrefixItems),
    ]
}

// The transforms of OpenAPI, in order.
fn openapi3_transforms() -> [GenTransform<NoTransform>; 7]
    ensures { result ≡ transforms_openapi3 }
{
    let bools = ReplaceBoolSchemas {
        skip_additional_properties: true,
    };
    [
        GenTransform::ReplaceUnevaluatedProperties(ReplaceUnevaluatedProperties),
        GenTransform::ReplaceBoolSchemas(bools),
        GenTransform::AddNullable(AddNullable::default()),
        GenTransform::RemoveRefSiblings(RemoveRefSiblings),
        GenTransform::SetSingleExample(SetSingleExample),
        GenTransform::ReplaceConstValue(ReplaceConstValue),
        GenTransform::ReplacePrefixItems(ReplacePrefixItems),
    ]
}

// Applies built-in transforms to a schema, one after another. They fail only if out of memory.
pub(crate) fn apply_built_in<O: Transform + Drop>(
    alloc: Global,
    transforms: &mut Vec<GenTransform<O>>,
    schema: &mut Schema,
) -> Result<(), AllocError>
    requires { some_own transforms.old.items ≡ false }
    ensures { OnOk result (schema.new ≡ made_by transforms.old.items schema.old) }
{
    match apply_all(alloc, transforms, schema) {
        Ok(()) => Ok(()),
        Err(_) => Err(AllocError),
    }
}

// The same, to a schema with these needs.
fn apply_where_needed<O: Transform + Drop>(
    alloc: Global,
    transforms: &mut Vec<GenTransform<O>>,
    schema: &mut Schema,
    needs: Needs,
) -> Result<(), AllocError>
    requires own { some_own transforms.old.items ≡ false }
    requires needs { needs ≡ needs_of schema.old }
    ensures { OnOk result (schema.new ≡ made_by transforms.old.items schema.old) }
{
    match apply_needed(alloc, transforms, schema, needs) {
        Ok(()) => Ok(()),
        Err(_) => Err(AllocError),
    }
}
