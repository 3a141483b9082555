//! Transforms, and the walks that apply one to every schema of a document.
#![tactic(auto)]

mod closure;
mod list;
mod recursive;
pub mod rewrite;
mod transform;
mod value;
pub mod walk;

pub use closure::{Call, FnTransform};
pub use recursive::{DEPTH_LIMIT, RecursiveTransform};
pub use transform::{Transform, TransformError};
pub use value::on_value;
pub use walk::{transform_members, transform_subschemas};
