//! Shapes.
ghost use Rattle.schemars_shapes.specs.Shape as shapes;
ghost use Rattle.schemagen_shapes.specs.Shapes as input;

use crate::tokens::enums::{read_adjacent, read_external, read_internal, read_untagged};
use crate::tokens::fields::read_fields;
use crate::tokens::single::read_parts;
use crate::tokens::tagged::Tagged;
use json::Reader;
use schemagen_json::{ParseError, read_value};
use schemagen_shapes::{if_said, shape_named, shape_under};
use schemars_types::Shape;
use std::alloc::Global;

impl Tagged for Shape {
    ghost Value = { shapes.Shape };

    ghost value_of = { shapes.shape_of };

    ghost said_by = { input.shape_named };

    ghost said_under = { input.shape_under };

    fn of_text(text: &str) -> Option<Shape> {
        shape_named(text)
    }

    fn read_under(
        alloc: Global,
        name: &str,
        reader: &mut Reader<'_>,
        depth: usize,
    ) -> Result<Option<Shape>, ParseError> {
        match name {
            "struct" => Ok(read_fields(alloc, reader, depth)?.map(Shape::Struct)),
            "external" => read_external(alloc, reader, depth),
            "untagged" => read_untagged(alloc, reader, depth),
            "internal" => read_internal(alloc, reader, depth),
            "adjacent" => read_adjacent(alloc, reader, depth),
            "tuple" => Ok(read_parts(alloc, reader, depth)?.map(Shape::Tuple)),
            _ => {
                let value = read_value(alloc, reader, depth)?;
                Ok(if_said(shape_under(alloc, name, &value))?)
            }
        }
    }
}
