//! Where an expression stands, and what its names stand for there.

ghost use Rattle.std.specs.Prelude.{◌≡◌, ◌&&◌, find, reverse};
ghost use Rattle.c_tree.specs.Scope as spec;
ghost use Rattle.c_tree.specs.Types as types;
ghost use Rattle.c_tree.specs.Lifting as lifting;
ghost use Rattle.c_tree.specs.declared.scope.Named.{Named};
ghost use Rattle.name_index.specs.Meanings.{meaning_of};

use crate::build::{in_place, is_equality};
use crate::kind::is_pointer_type;
use c_tree::{BinOp, Expr, ExprKind, Field, LExpr, Meaning, Name, Named, Ty};
use name_index::{File, is_zero_define, is_zero_number};
use std::alloc::Global;

/// What all statements of a function stand in.
#[derive(Drop)]
pub struct Setting<'a> {
    pub alloc: Global,
    pub file: &'a File<'a>,
    /// The number of the function's parameters and locals.
    pub base: u32,
    /// The result type of the function.
    pub ret: &'a Ty,
}

/// The parameters and locals that a function has declared so far.
pub struct Locals {
    /// Those in scope, the nearest last.
    pub names: Vec<Named>,
    /// The types of all.
    pub slots: Vec<Ty>,
}

impl Drop for Locals {
    fn drop(self) {
        let Locals { names: _, slots: _ } = self;
    }
}

/// Where an expression stands.
#[derive(Drop)]
pub struct Spot<'a> {
    pub setting: &'a Setting<'a>,
    pub locals: &'a Locals,
}

impl Spot<'_> {
    ghost use Rattle.c_lift.specs.Around.{around};

    /// What a name stands for.
    pub fn meaning(&self, name: &Name) -> Meaning
        ensures { result ≡ spec.meaning (around self.now).scope name.now }
    {
        match nearest(self.locals, name) {
            Some(what) => what,
            None => self.setting.file.meaning(name),
        }
    }

    /// Whether an expression is the literal 0, also by a define's name.
    pub fn is_zero(&self, x: &Expr) -> bool
        ensures { result ≡ types.is_zero (around self.now).scope x.now.kind }
    {
        match &x.kind {
            ExprKind::Num(n) => is_zero_number(*n),
            ExprKind::Name(name) => is_zero_define(self.setting.file.define(self.meaning(name))),
            _ => false,
        }
    }

    /// A value where one of a type is asked: the literal 0 becomes a null pointer there.
    pub fn fitted(&self, asked: &Ty, x: &Expr, value: LExpr) -> LExpr
        ensures { result ≡ lifting.fitted (around self.now).scope asked.now x.now.kind value }
    {
        in_place(asked.is_pointer(), self.is_zero(x), value)
    }

    /// An argument, as the first of the parameters asks for it.
    pub fn fitted_first(&self, params: &[Field], x: &Expr, value: LExpr) -> LExpr
        ensures { result ≡ lifting.fitted_first (around self.now).scope params.now x.now.kind
            value }
    {
        match params {
            [] => value,
            [param, ..] => self.fitted(&param.ty, x, value),
        }
    }

    /// A side of an operator beside another side, of which the type is given.
    pub fn beside(&self, op: BinOp, x: &Expr, other: &Option<Ty>, value: LExpr) -> LExpr
        ensures { result ≡ lifting.in_place (lifting.is_equality op && lifting.is_pointer_type
            other.now) (types.is_zero (around self.now).scope x.now.kind) value }
    {
        in_place(
            is_equality(op) && is_pointer_type(other),
            self.is_zero(x),
            value,
        )
    }
}

/// What the nearest local of a name stands for.
fn nearest(locals: &Locals, name: &Name) -> Option<Meaning>
    ensures { result ≡ meaning_of (find (spec.has_name name.now) (reverse locals.now.names.items)) }
{
    locals
        .names
        .iter()
        .rev()
        .find(|n| *name == n.name)
        .map(|n| n.meaning)
}
