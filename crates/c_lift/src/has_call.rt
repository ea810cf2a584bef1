//! Whether an expression has a call.

ghost use Rattle.std.specs.Prelude.{◌≡◌, ◌||◌};
ghost use Rattle.c_tree.specs.Lifting as lifting;

use c_tree::{Expr, ExprKind};

fn either(a: bool, b: bool) -> bool
    ensures { result ≡ (a || b) }
{
    a || b
}

/// Whether an expression makes a call: of a function, of `malloc` or `getchar`, or one on threads
/// and mutexes.
#[tactic(auto, using(crate::proofs::HasCallLemmas::has_call_rules))]
pub fn has_call(x: &Expr) -> bool
    ensures { result ≡ lifting.has_call x.now.kind }
{
    match &x.kind {
        ExprKind::Index(_, x) => has_call(x.get()),
        ExprKind::Field(x, _) => has_call(x.get()),
        ExprKind::Un(_, x) => has_call(x.get()),
        ExprKind::Bin(_, x, y) => either(has_call(x.get()), has_call(y.get())),
        ExprKind::Cast(_, x) => has_call(x.get()),
        ExprKind::Call(_, _) => true,
        ExprKind::Malloc(_) => true,
        ExprKind::Getchar => true,
        ExprKind::Create(_, _, _) => true,
        ExprKind::Join(_) => true,
        ExprKind::Lock(_) => true,
        ExprKind::Unlock(_) => true,
        ExprKind::Num(_) => false,
        ExprKind::Null => false,
        ExprKind::Eof => false,
        ExprKind::Slot(_, _) => false,
        ExprKind::Name(_) => false,
    }
}
