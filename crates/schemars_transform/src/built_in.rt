//! The built-in transforms.
pub(crate) mod bool_schemas;
pub(crate) mod const_value;
pub(crate) mod formats;
pub(crate) mod inner;
pub(crate) mod keywords;
pub(crate) mod nullable;
pub(crate) mod prefix_items;
pub(crate) mod ref_siblings;
pub(crate) mod single_example;
pub(crate) mod unevaluated;
