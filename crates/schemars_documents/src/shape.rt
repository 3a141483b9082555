//! The templates of shapes.
pub(crate) mod adjacent;
pub(crate) mod choices;
pub(crate) mod enums;
pub(crate) mod keyed;
pub(crate) mod lists;
pub(crate) mod maps;
pub(crate) mod scalars;
pub(crate) mod tagged;
