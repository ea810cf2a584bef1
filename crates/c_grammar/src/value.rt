//! The values that are made while a text is read.

use c_tree::{
    At, Boxed, Const, Count, Define, Expr, Field, Fill, Mapping, Part, Program, Pt, Row, Stmt,
    Token, Ty,
};

/// An expression, with the offset in bytes of the first token that was read for it: of a bracket
/// round it, too.
#[derive(Drop)]
pub struct Operand {
    pub expr: Expr,
    pub first: u32,
}

/// What was read: a token that was kept, or a part of a tree.
#[derive(Drop)]
pub enum Value {
    /// A token that was kept.
    Word(Token),
    Ty(Ty),
    Operand(Operand),
    /// The arguments of a call.
    Exprs(Row<Expr>),
    /// An expression that may be left out.
    MaybeExpr(Option<Expr>),
    Stmt(Boxed<Stmt>),
    /// The statements of a block, or the first part of a `for`.
    Stmts(Row<Stmt>),
    /// A statement that may be left out: the step of a `for`.
    MaybeStmt(Option<Boxed<Stmt>>),
    /// The fields of a struct, or the parameters of a function.
    Fields(Row<Field>),
    /// The length of an array.
    Count(At<Count>),
    /// The initialiser of a global.
    Const(At<Const>),
    Define(Define),
    Program(Program),
    /// A point of a mapping.
    Pt(Pt),
    /// What the new slots of a part are filled with.
    Fills(Row<Fill>),
    /// An added part of a point.
    Part(Part),
    /// The parts of a point.
    Parts(Row<Part>),
    Mapping(Mapping),
}
