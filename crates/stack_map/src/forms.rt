//! Statements of one form that are the same by names, after the matches.

ghost use Rattle.std.specs.Prelude.{◌≡◌};
ghost use Rattle.c_tree.specs.Same as spec;

use crate::expr::{same, same_dest, same_list, same_option};
use c_tree::{Dest, LExpr, LStmt, Text, is_number};
use patch_match::Link;

/// Both or neither are there, and then equal.
fn same_slot(a: Option<u32>, b: Option<u32>) -> bool
    ensures { result ≡ spec.same_slot a b }
{
    match (a, b) {
        (None, None) => true,
        (Some(a), Some(b)) => a == b,
        (None, Some(_)) => false,
        (Some(_), None) => false,
    }
}

/// Whether a statement is an assignment of the same value to the same destination.
pub fn is_assign(k: &Link<'_>, to: &Dest, value: &LExpr, b: &LStmt) -> bool
    ensures { result ≡ spec.is_assign (spec.same_dest k.now to.now)
        (spec.same k.now value.now) b.now }
{
    match b {
        LStmt::Assign(t, v) => same_dest(k, to, t) && same(k, value, v),
        LStmt::New(_, _) | LStmt::Getc(_) | LStmt::Print(_, _) | LStmt::Free(_) => false,
        LStmt::Call(_, _, _) | LStmt::Spawn(_, _, _) | LStmt::Join(_) | LStmt::Lock(_) => false,
        LStmt::Unlock(_) | LStmt::Return(_) | LStmt::If(_, _, _) => false,
        LStmt::Loop(_, _, _, _) | LStmt::Break | LStmt::Continue => false,
    }
}

/// Whether a statement is a new object of this struct in the same slot.
pub fn is_new(slot: u32, owner: Option<u32>, b: &LStmt) -> bool
    ensures { result ≡ spec.is_new slot owner b.now }
{
    match b {
        LStmt::New(i, o) => slot == *i && is_number(owner, *o),
        LStmt::Assign(_, _) | LStmt::Getc(_) | LStmt::Print(_, _) | LStmt::Free(_) => false,
        LStmt::Call(_, _, _) | LStmt::Spawn(_, _, _) | LStmt::Join(_) | LStmt::Lock(_) => false,
        LStmt::Unlock(_) | LStmt::Return(_) | LStmt::If(_, _, _) => false,
        LStmt::Loop(_, _, _, _) | LStmt::Break | LStmt::Continue => false,
    }
}

/// Whether a statement is a read byte in the same slot.
pub fn is_getc(slot: u32, b: &LStmt) -> bool
    ensures { result ≡ spec.is_getc slot b.now }
{
    match b {
        LStmt::Getc(i) => slot == *i,
        LStmt::Assign(_, _) | LStmt::New(_, _) | LStmt::Print(_, _) | LStmt::Free(_) => false,
        LStmt::Call(_, _, _) | LStmt::Spawn(_, _, _) | LStmt::Join(_) | LStmt::Lock(_) => false,
        LStmt::Unlock(_) | LStmt::Return(_) | LStmt::If(_, _, _) => false,
        LStmt::Loop(_, _, _, _) | LStmt::Break | LStmt::Continue => false,
    }
}

/// Whether a statement is the same text with the same arguments.
pub fn is_print(k: &Link<'_>, text: &Text, args: &[LExpr], b: &LStmt) -> bool
    ensures { result ≡ spec.is_print text.now (spec.same_list k.now args.now) b.now }
{
    match b {
        LStmt::Print(t, xs) => text.as_bytes() == t.as_bytes() && same_list(k, args, xs.as_slice()),
        LStmt::Assign(_, _) | LStmt::New(_, _) | LStmt::Getc(_) | LStmt::Free(_) => false,
        LStmt::Call(_, _, _) | LStmt::Spawn(_, _, _) | LStmt::Join(_) | LStmt::Lock(_) => false,
        LStmt::Unlock(_) | LStmt::Return(_) | LStmt::If(_, _, _) => false,
        LStmt::Loop(_, _, _, _) | LStmt::Break | LStmt::Continue => false,
    }
}

/// Whether a statement is a freed object that is the same.
pub fn is_free(k: &Link<'_>, value: &LExpr, b: &LStmt) -> bool
    ensures { result ≡ spec.is_free (spec.same k.now value.now) b.now }
{
    match b {
        LStmt::Free(v) => same(k, value, v),
        LStmt::Assign(_, _) | LStmt::New(_, _) | LStmt::Getc(_) | LStmt::Print(_, _) => false,
        LStmt::Call(_, _, _) | LStmt::Spawn(_, _, _) | LStmt::Join(_) | LStmt::Lock(_) => false,
        LStmt::Unlock(_) | LStmt::Return(_) | LStmt::If(_, _, _) => false,
        LStmt::Loop(_, _, _, _) | LStmt::Break | LStmt::Continue => false,
    }
}

/// Whether a statement is a call of this function with the same arguments.
pub fn is_call(k: &Link<'_>, to: Option<u32>, f: Option<u32>, args: &[LExpr], b: &LStmt) -> bool
    ensures { result ≡ spec.is_call to f (spec.same_list k.now args.now) b.now }
{
    match b {
        LStmt::Call(t, g, xs) => same_slot(to, *t)
            && is_number(f, *g)
            && same_list(k, args, xs.as_slice()),
        LStmt::Assign(_, _) | LStmt::New(_, _) | LStmt::Getc(_) | LStmt::Print(_, _) => false,
        LStmt::Free(_) | LStmt::Spawn(_, _, _) | LStmt::Join(_) | LStmt::Lock(_) => false,
        LStmt::Unlock(_) | LStmt::Return(_) | LStmt::If(_, _, _) => false,
        LStmt::Loop(_, _, _, _) | LStmt::Break | LStmt::Continue => false,
    }
}

/// Whether a statement is a start of this function with the same argument.
pub fn is_spawn(k: &Link<'_>, to: &Dest, f: Option<u32>, value: &LExpr, b: &LStmt) -> bool
    ensures { result ≡ spec.is_spawn (spec.same_dest k.now to.now) f
        (spec.same k.now value.now) b.now }
{
    match b {
        LStmt::Spawn(t, g, v) => same_dest(k, to, t) && is_number(f, *g) && same(k, value, v),
        LStmt::Assign(_, _) | LStmt::New(_, _) | LStmt::Getc(_) | LStmt::Print(_, _) => false,
        LStmt::Free(_) | LStmt::Call(_, _, _) | LStmt::Join(_) | LStmt::Lock(_) => false,
        LStmt::Unlock(_) | LStmt::Return(_) | LStmt::If(_, _, _) => false,
        LStmt::Loop(_, _, _, _) | LStmt::Break | LStmt::Continue => false,
    }
}

/// Whether a statement is a join of the same thread.
pub fn is_join(k: &Link<'_>, value: &LExpr, b: &LStmt) -> bool
    ensures { result ≡ spec.is_join (spec.same k.now value.now) b.now }
{
    match b {
        LStmt::Join(v) => same(k, value, v),
        LStmt::Assign(_, _) | LStmt::New(_, _) | LStmt::Getc(_) | LStmt::Print(_, _) => false,
        LStmt::Free(_) | LStmt::Call(_, _, _) | LStmt::Spawn(_, _, _) | LStmt::Lock(_) => false,
        LStmt::Unlock(_) | LStmt::Return(_) | LStmt::If(_, _, _) => false,
        LStmt::Loop(_, _, _, _) | LStmt::Break | LStmt::Continue => false,
    }
}

/// Whether a statement is a lock of this mutex.
pub fn is_lock(m: Option<u32>, b: &LStmt) -> bool
    ensures { result ≡ spec.is_lock m b.now }
{
    match b {
        LStmt::Lock(n) => is_number(m, *n),
        LStmt::Assign(_, _) | LStmt::New(_, _) | LStmt::Getc(_) | LStmt::Print(_, _) => false,
        LStmt::Free(_) | LStmt::Call(_, _, _) | LStmt::Spawn(_, _, _) | LStmt::Join(_) => false,
        LStmt::Unlock(_) | LStmt::Return(_) | LStmt::If(_, _, _) => false,
        LStmt::Loop(_, _, _, _) | LStmt::Break | LStmt::Continue => false,
    }
}

/// Whether a statement is an unlock of this mutex.
pub fn is_unlock(m: Option<u32>, b: &LStmt) -> bool
    ensures { result ≡ spec.is_unlock m b.now }
{
    match b {
        LStmt::Unlock(n) => is_number(m, *n),
        LStmt::Assign(_, _) | LStmt::New(_, _) | LStmt::Getc(_) | LStmt::Print(_, _) => false,
        LStmt::Free(_) | LStmt::Call(_, _, _) | LStmt::Spawn(_, _, _) | LStmt::Join(_) => false,
        LStmt::Lock(_) | LStmt::Return(_) | LStmt::If(_, _, _) | LStmt::Loop(_, _, _, _) => false,
        LStmt::Break | LStmt::Continue => false,
    }
}

/// Whether a statement is a return of the same value.
pub fn is_return(k: &Link<'_>, value: &Option<LExpr>, b: &LStmt) -> bool
    ensures { result ≡ spec.is_return (spec.same_option k.now value.now) b.now }
{
    match b {
        LStmt::Return(v) => same_option(k, value, v),
        LStmt::Assign(_, _) | LStmt::New(_, _) | LStmt::Getc(_) | LStmt::Print(_, _) => false,
        LStmt::Free(_) | LStmt::Call(_, _, _) | LStmt::Spawn(_, _, _) | LStmt::Join(_) => false,
        LStmt::Lock(_) | LStmt::Unlock(_) | LStmt::If(_, _, _) | LStmt::Loop(_, _, _, _) => false,
        LStmt::Break | LStmt::Continue => false,
    }
}

/// Whether a statement is a `break`.
pub fn is_break(b: &LStmt) -> bool
    ensures { result ≡ spec.is_break b.now }
{
    match b {
        LStmt::Break => true,
        LStmt::Assign(_, _) | LStmt::New(_, _) | LStmt::Getc(_) | LStmt::Print(_, _) => false,
        LStmt::Free(_) | LStmt::Call(_, _, _) | LStmt::Spawn(_, _, _) | LStmt::Join(_) => false,
        LStmt::Lock(_) | LStmt::Unlock(_) | LStmt::Return(_) | LStmt::If(_, _, _) => false,
        LStmt::Loop(_, _, _, _) | LStmt::Continue => false,
    }
}

/// Whether a statement is a `continue`.
pub fn is_continue(b: &LStmt) -> bool
    ensures { result ≡ spec.is_continue b.now }
{
    match b {
        LStmt::Continue => true,
        LStmt::Assign(_, _) | LStmt::New(_, _) | LStmt::Getc(_) | LStmt::Print(_, _) => false,
        LStmt::Free(_) | LStmt::Call(_, _, _) | LStmt::Spawn(_, _, _) | LStmt::Join(_) => false,
        LStmt::Lock(_) | LStmt::Unlock(_) | LStmt::Return(_) | LStmt::If(_, _, _) => false,
        LStmt::Loop(_, _, _, _) | LStmt::Break => false,
    }
}
