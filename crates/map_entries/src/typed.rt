//! Expressions with their types.

use c_tree::{LExpr, Ty};

/// An expression by numbers, and its type where it has one.
#[derive(Drop)]
pub struct Typed {
    pub expr: LExpr,
    pub ty: Option<Ty>,
}
