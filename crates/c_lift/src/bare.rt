//! Expressions without the casts round them.

ghost use Rattle.std.specs.Prelude.{◌≡◌};
ghost use Rattle.c_tree.specs.Lifting as lifting;

use c_tree::{Expr, ExprKind};

/// The expression that the outermost casts are of.
#[tactic(auto, using(crate::proofs::BareLemmas::bare_rules))]
pub fn bare(x: &Expr) -> &Expr
    ensures { result.now.kind ≡ lifting.bare x.now.kind }
{
    match &x.kind {
        ExprKind::Cast(_, x) => bare(x.get()),
        ExprKind::Num(_) => x,
        ExprKind::Null => x,
        ExprKind::Eof => x,
        ExprKind::Slot(_, _) => x,
        ExprKind::Name(_) => x,
        ExprKind::Index(_, _) => x,
        ExprKind::Field(_, _) => x,
        ExprKind::Un(_, _) => x,
        ExprKind::Bin(_, _, _) => x,
        ExprKind::Call(_, _) => x,
        ExprKind::Malloc(_) => x,
        ExprKind::Getchar => x,
        ExprKind::Create(_, _, _) => x,
        ExprKind::Join(_) => x,
        ExprKind::Lock(_) => x,
        ExprKind::Unlock(_) => x,
    }
}
