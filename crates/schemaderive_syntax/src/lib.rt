//! The declarations in a Rust or Rattle source: its tokens, types, attributes and items.
#![tactic(auto)]

mod conditions;
mod cursor;
mod fault;
mod items;
mod lexer;
mod literals;
mod metas;
mod scanner;
mod token;
mod type_expr;
mod uses;

pub use cursor::Cursor;
pub use fault::{Fault, Place, Refusal, refused};
pub use items::{
    Alias, Body, Constant, Declaration, Field, Fields, Parameter, Source, Variant, read_source,
};
pub use lexer::read_tokens;
pub use metas::{Meta, MetaValue, read_meta, read_metas};
pub use token::{Token, TokenKind};
pub use type_expr::{TypeExpr, read_length, read_type};
pub use uses::{Glob, Import, Uses};
