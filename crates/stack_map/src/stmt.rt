//! Statements that are the same by names, after the matches.

ghost use Rattle.std.specs.Prelude.{◌≡◌};
ghost use Rattle.c_tree.specs.Same as spec;

use crate::expr::{all, both, same};
use crate::forms::{
    is_assign, is_break, is_call, is_continue, is_free, is_getc, is_join, is_lock, is_new,
    is_print, is_return, is_spawn, is_unlock,
};
use c_tree::LStmt;
use patch_match::Link;

/// Whether an old and a new statement are the same.
#[cycle(same_statements)]
#[tactic(auto, using(crate::proofs::StmtLemmas::stmt_rules))]
pub fn same_stmt(k: &Link<'_>, a: &LStmt, b: &LStmt) -> bool
    ensures { result ≡ spec.same_stmt k.now a.now b.now }
{
    match a {
        LStmt::Assign(to, value) => is_assign(k, to, value, b),
        LStmt::New(slot, owner) => is_new(*slot, k.structure(*owner), b),
        LStmt::Getc(slot) => is_getc(*slot, b),
        LStmt::Print(text, args) => is_print(k, text, args.as_slice(), b),
        LStmt::Free(value) => is_free(k, value, b),
        LStmt::Call(to, f, args) => is_call(k, *to, k.function(*f), args.as_slice(), b),
        LStmt::Spawn(to, f, value) => is_spawn(k, to, k.function(*f), value, b),
        LStmt::Join(value) => is_join(k, value, b),
        LStmt::Lock(m) => is_lock(k.mutex(*m), b),
        LStmt::Unlock(m) => is_unlock(k.mutex(*m), b),
        LStmt::Return(value) => is_return(k, value, b),
        LStmt::If(test, yes, no) => match b {
            LStmt::If(t, y, n) => {
                let thens = same_block(k, yes.as_slice(), y.as_slice());
                let elses = same_block(k, no.as_slice(), n.as_slice());
                all(same(k, test, t), thens, elses)
            }
            LStmt::Assign(_, _) | LStmt::New(_, _) | LStmt::Getc(_) | LStmt::Print(_, _) => false,
            LStmt::Free(_) | LStmt::Call(_, _, _) | LStmt::Spawn(_, _, _) | LStmt::Join(_) => false,
            LStmt::Lock(_) | LStmt::Unlock(_) | LStmt::Return(_) | LStmt::Loop(_, _, _, _) => false,
            LStmt::Break | LStmt::Continue => false,
        },
        LStmt::Loop(calls, test, body, step) => match b {
            LStmt::Loop(c, t, s, n) => {
                let calls = same_block(k, calls.as_slice(), c.as_slice());
                let bodies = same_block(k, body.as_slice(), s.as_slice());
                let steps = same_block(k, step.as_slice(), n.as_slice());
                both(all(calls, same(k, test, t), bodies), steps)
            }
            LStmt::Assign(_, _) | LStmt::New(_, _) | LStmt::Getc(_) | LStmt::Print(_, _) => false,
            LStmt::Free(_) | LStmt::Call(_, _, _) | LStmt::Spawn(_, _, _) | LStmt::Join(_) => false,
            LStmt::Lock(_) | LStmt::Unlock(_) | LStmt::Return(_) | LStmt::If(_, _, _) => false,
            LStmt::Break | LStmt::Continue => false,
        },
        LStmt::Break => is_break(b),
        LStmt::Continue => is_continue(b),
    }
}

/// Whether the statements of two blocks are the same one by one.
#[cycle(same_statements)]
pub fn same_block(k: &Link<'_>, a: &[LStmt], b: &[LStmt]) -> bool
    ensures { result ≡ spec.same_body k.now a.now b.now }
{
    if a.len() != b.len() {
        return false;
    }
    for i in 0..a.len() {
        if !same_stmt(k, &a[i], &b[i]) {
            return false;
        }
    }
    true
}
