//! Expressions that are the same by names, after the matches.

ghost use Rattle.std.specs.Prelude.{◌≡◌, ◌&&◌};
ghost use Rattle.c_tree.specs.Same as spec;
ghost use Rattle.c_tree.specs.Operators as operators;
ghost use Rattle.c_tree.specs.Scope.{is_same_name};

use c_tree::{BinOp, Dest, LExpr, UnOp, is_number, slot_name};
use patch_match::Link;

fn is_num(n: i32, b: &LExpr) -> bool
    ensures { result ≡ spec.is_num n b.now }
{
    match b {
        LExpr::Num(m) => n == *m,
        LExpr::Null | LExpr::Slot(_) | LExpr::Global(_) | LExpr::Elem(_, _) => false,
        LExpr::Field(_, _, _) | LExpr::Own(_) | LExpr::Un(_, _) | LExpr::Bin(_, _, _) => false,
    }
}

fn is_null(b: &LExpr) -> bool
    ensures { result ≡ spec.is_null b.now }
{
    match b {
        LExpr::Null => true,
        LExpr::Num(_) | LExpr::Slot(_) | LExpr::Global(_) | LExpr::Elem(_, _) => false,
        LExpr::Field(_, _, _) | LExpr::Own(_) | LExpr::Un(_, _) | LExpr::Bin(_, _, _) => false,
    }
}

fn is_slot(i: u32, b: &LExpr) -> bool
    ensures { result ≡ spec.is_slot i b.now }
{
    match b {
        LExpr::Slot(j) => i == *j,
        LExpr::Num(_) | LExpr::Null | LExpr::Global(_) | LExpr::Elem(_, _) => false,
        LExpr::Field(_, _, _) | LExpr::Own(_) | LExpr::Un(_, _) | LExpr::Bin(_, _, _) => false,
    }
}

fn is_own(i: u32, b: &LExpr) -> bool
    ensures { result ≡ spec.is_own i b.now }
{
    match b {
        LExpr::Own(j) => i == *j,
        LExpr::Num(_) | LExpr::Null | LExpr::Slot(_) | LExpr::Global(_) => false,
        LExpr::Elem(_, _) | LExpr::Field(_, _, _) | LExpr::Un(_, _) | LExpr::Bin(_, _, _) => false,
    }
}

fn is_global(g: Option<u32>, b: &LExpr) -> bool
    ensures { result ≡ spec.is_global g b.now }
{
    match b {
        LExpr::Global(h) => is_number(g, *h),
        LExpr::Num(_) | LExpr::Null | LExpr::Slot(_) | LExpr::Elem(_, _) => false,
        LExpr::Field(_, _, _) | LExpr::Own(_) | LExpr::Un(_, _) | LExpr::Bin(_, _, _) => false,
    }
}

fn same_un(a: UnOp, b: UnOp) -> bool
    ensures { result ≡ is_same_name (operators.un_text a) (operators.un_text b) }
{
    a.text() == b.text()
}

fn same_bin(a: BinOp, b: BinOp) -> bool
    ensures { result ≡ is_same_name (operators.bin_text a) (operators.bin_text b) }
{
    a.text() == b.text()
}

/// Whether a field of a new struct has the name of one of the old struct that is matched with it.
fn is_member(k: &Link<'_>, owner: u32, field: u32, new_owner: u32, new_field: u32) -> bool
    ensures { result ≡ spec.is_member k.now owner field new_owner new_field }
{
    let old = slot_name(k.old().fields(owner), field);
    let new = slot_name(k.new().fields(new_owner), new_field);
    is_number(k.structure(owner), new_owner) && old == new
}

/// Whether both hold.
pub fn both(a: bool, b: bool) -> bool
    ensures { result ≡ (a && b) }
{
    a && b
}

/// Whether all three hold.
pub fn all(a: bool, b: bool, c: bool) -> bool
    ensures { result ≡ (a && b && c) }
{
    a && b && c
}

/// Whether an old and a new expression are the same.
#[tactic(auto, using(crate::proofs::SameLemmas::same_rules))]
pub fn same(k: &Link<'_>, a: &LExpr, b: &LExpr) -> bool
    ensures { result ≡ spec.same k.now a.now b.now }
{
    match a {
        LExpr::Num(n) => is_num(*n, b),
        LExpr::Null => is_null(b),
        LExpr::Slot(i) => is_slot(*i, b),
        LExpr::Own(i) => is_own(*i, b),
        LExpr::Global(g) => is_global(k.global(*g), b),
        LExpr::Elem(g, i) => match b {
            LExpr::Elem(h, j) => both(is_number(k.global(*g), *h), same(k, i.get(), j.get())),
            LExpr::Num(_) | LExpr::Null | LExpr::Slot(_) | LExpr::Global(_) => false,
            LExpr::Field(_, _, _) | LExpr::Own(_) | LExpr::Un(_, _) | LExpr::Bin(_, _, _) => false,
        },
        LExpr::Field(p, owner, field) => match b {
            LExpr::Field(q, new_owner, new_field) => {
                let pointer = same(k, p.get(), q.get());
                both(
                    pointer,
                    is_member(k, *owner, *field, *new_owner, *new_field),
                )
            }
            LExpr::Num(_) | LExpr::Null | LExpr::Slot(_) | LExpr::Global(_) => false,
            LExpr::Elem(_, _) | LExpr::Own(_) | LExpr::Un(_, _) | LExpr::Bin(_, _, _) => false,
        },
        LExpr::Un(op, x) => match b {
            LExpr::Un(o, y) => both(same_un(*op, *o), same(k, x.get(), y.get())),
            LExpr::Num(_) | LExpr::Null | LExpr::Slot(_) | LExpr::Global(_) => false,
            LExpr::Elem(_, _) | LExpr::Field(_, _, _) | LExpr::Own(_) | LExpr::Bin(_, _, _) =>
                false,
        },
        LExpr::Bin(op, x, y) => match b {
            LExpr::Bin(o, v, w) => {
                let left = same(k, x.get(), v.get());
                all(same_bin(*op, *o), left, same(k, y.get(), w.get()))
            }
            LExpr::Num(_) | LExpr::Null | LExpr::Slot(_) | LExpr::Global(_) => false,
            LExpr::Elem(_, _) | LExpr::Field(_, _, _) | LExpr::Own(_) | LExpr::Un(_, _) => false,
        },
    }
}

/// Whether an old and a new destination are the same.
pub fn same_dest(k: &Link<'_>, a: &Dest, b: &Dest) -> bool
    ensures { result ≡ spec.same_dest k.now a.now b.now }
{
    match (a, b) {
        (Dest::Slot(i), Dest::Slot(j)) => *i == *j,
        (Dest::Global(g), Dest::Global(h)) => is_number(k.global(*g), *h),
        (Dest::Elem(g, i), Dest::Elem(h, j)) => is_number(k.global(*g), *h) && same(k, i, j),
        (Dest::Field(p, owner, field), Dest::Field(q, new_owner, new_field)) => {
            same(k, p, q) && is_member(k, *owner, *field, *new_owner, *new_field)
        }
        _ => false,
    }
}

/// Both or neither are there, and then the same.
pub fn same_option(k: &Link<'_>, a: &Option<LExpr>, b: &Option<LExpr>) -> bool
    ensures { result ≡ spec.same_option k.now a.now b.now }
{
    match (a, b) {
        (None, None) => true,
        (Some(a), Some(b)) => same(k, a, b),
        _ => false,
    }
}

/// Whether two rows of expressions are the same one by one.
pub fn same_list(k: &Link<'_>, a: &[LExpr], b: &[LExpr]) -> bool
    ensures { result ≡ spec.same_list k.now a.now b.now }
{
    if a.len() != b.len() {
        return false;
    }
    for i in 0..a.len() {
        if !same(k, &a[i], &b[i]) {
            return false;
        }
    }
    true
}
