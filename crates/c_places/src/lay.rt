//! The places of a function, laid out one after another.

ghost use Rattle.std.specs.Prelude.{◌≡◌, ◌≤◌, ◌+◌, ◌++◌, ◌∷◌, [], IfOk, OnOk, map};
ghost use Rattle.c_tree.specs.Layout as spec;
ghost use Rattle.c_tree.specs.declared.lifted.LStmt.TheVariants as stmt;
ghost use Rattle.c_tree.specs.declared.place.Act.TheVariants as act;
ghost use Rattle.c_tree.specs.declared.place.Follow.TheVariants as follow;
ghost use Rattle.c_places.specs.Limit.{KeepsLimit, IsWithin};

use crate::enter::begin;
use crate::size::{size, size_of};
use c_tree::{Act, Exits, Follow, LExpr, LFunction, LStmt, Lifted, Place, Places, Row};
use std::alloc::{AllocError, Global};

fn push(out: &mut Vec<Place>, act: Act, follow: Follow) -> Result<(), AllocError>
    ensures { OnOk result (out.new.items ≡ out.old.items ++ spec.place act follow ∷ []) }
{
    out.push(Place { act, follow })?;
    Ok(())
}

/// Lays out a statement that is one place.
fn lay_simple(
    alloc: Global,
    s: &LStmt,
    follow: Follow,
    out: &mut Vec<Place>,
) -> Result<(), AllocError>
    ensures { OnOk result (out.new.items ≡ out.old.items ++ spec.place (act.Do s.now) follow ∷ []) }
{
    let copy = s.copy(alloc)?;
    push(out, Act::Do(copy), follow)
}

/// Lays out a test, with the places after a true and after a false one.
fn lay_test(
    alloc: Global,
    test: &LExpr,
    yes: u32,
    no: u32,
    out: &mut Vec<Place>,
) -> Result<(), AllocError>
    ensures { OnOk result (out.new.items
        ≡ out.old.items ++ spec.place (act.Test test.now) (follow.Two yes no) ∷ []) }
{
    let copy = test.copy(alloc)?;
    push(out, Act::Test(copy), Follow::Two(yes, no))
}

/// Lays out an `if` at `n`, which `next` follows.
#[cycle(laying)]
fn lay_if(
    alloc: Global,
    exits: Exits,
    n: u32,
    next: u32,
    test: &LExpr,
    yes: &[LStmt],
    no: &[LStmt],
    out: &mut Vec<Place>,
) -> Result<(), AllocError>
    requires { n + 1 + spec.size_of yes.now + spec.size_of no.now ≤ 10000 }
    ensures { OnOk result (out.new.items
        ≡ out.old.items ++ spec.layout exits n next (stmt.If test.now yes.now no.now)) }
{
    let other = n + 1 + size_of(yes);
    let first = begin(exits, n + 1, next, yes);
    let second = begin(exits, other, next, no);
    lay_test(alloc, test, first, second, out)?;
    lay_block(alloc, exits, n + 1, next, yes, out)?;
    lay_block(alloc, exits, other, next, no, out)?;
    Ok(())
}

/// Lays out a loop at `n`, which `next` follows: its calls, its test, its body, its step, its end.
#[cycle(laying)]
fn lay_loop(
    alloc: Global,
    exits: Exits,
    n: u32,
    next: u32,
    calls: &[LStmt],
    test: &LExpr,
    body: &[LStmt],
    step: &[LStmt],
    out: &mut Vec<Place>,
) -> Result<(), AllocError>
    requires { n + spec.size_of calls.now + 1 + spec.size_of body.now + spec.size_of step.now + 1
        ≤ 10000 }
    ensures { OnOk result (out.new.items
        ≡ out.old.items
        ++ spec.layout exits n next (stmt.Loop calls.now test.now body.now step.now)) }
{
    let test_at = n + size_of(calls);
    let step_at = test_at + 1 + size_of(body);
    let end_at = step_at + size_of(step);
    let again = begin(exits, step_at, end_at, step);
    let within = Exits { leave: next, again };
    let back = begin(exits, n, test_at, calls);
    let inside = begin(within, test_at + 1, again, body);
    lay_block(alloc, exits, n, test_at, calls, out)?;
    lay_test(alloc, test, inside, next, out)?;
    lay_block(alloc, within, test_at + 1, again, body, out)?;
    lay_block(alloc, exits, step_at, end_at, step, out)?;
    push(out, Act::EndLoop, Follow::One(back))?;
    Ok(())
}

/// Lays out a statement at `n`, which `next` follows.
#[cycle(laying)]
#[tactic(auto, using(c_tree::proofs::LayoutLemmas::layout_rules, c_tree::proofs::LayoutLemmas::count_rules))]
fn lay(
    alloc: Global,
    exits: Exits,
    n: u32,
    next: u32,
    s: &LStmt,
    out: &mut Vec<Place>,
) -> Result<(), AllocError>
    requires { n + spec.count s.now ≤ 10000 }
    ensures { OnOk result (out.new.items ≡ out.old.items ++ spec.layout exits n next s.now) }
{
    match s {
        LStmt::If(test, yes, no) => {
            let (yes, no) = (yes.as_slice(), no.as_slice());
            lay_if(alloc, exits, n, next, test, yes, no, out)
        }
        LStmt::Loop(calls, test, body, step) => {
            let (calls, body, step) = (calls.as_slice(), body.as_slice(), step.as_slice());
            lay_loop(alloc, exits, n, next, calls, test, body, step, out)
        }
        LStmt::Break => Ok(()),
        LStmt::Continue => Ok(()),
        LStmt::Return(_) => lay_simple(alloc, s, Follow::Leaves, out),
        LStmt::Assign(_, _) => lay_simple(alloc, s, Follow::One(next), out),
        LStmt::New(_, _) => lay_simple(alloc, s, Follow::One(next), out),
        LStmt::Getc(_) => lay_simple(alloc, s, Follow::One(next), out),
        LStmt::Print(_, _) => lay_simple(alloc, s, Follow::One(next), out),
        LStmt::Free(_) => lay_simple(alloc, s, Follow::One(next), out),
        LStmt::Call(_, _, _) => lay_simple(alloc, s, Follow::One(next), out),
        LStmt::Spawn(_, _, _) => lay_simple(alloc, s, Follow::One(next), out),
        LStmt::Join(_) => lay_simple(alloc, s, Follow::One(next), out),
        LStmt::Lock(_) => lay_simple(alloc, s, Follow::One(next), out),
        LStmt::Unlock(_) => lay_simple(alloc, s, Follow::One(next), out),
    }
}

/// Lays out a block at `n`, which `next` follows.
#[cycle(laying)]
fn lay_block(
    alloc: Global,
    exits: Exits,
    n: u32,
    next: u32,
    block: &[LStmt],
    out: &mut Vec<Place>,
) -> Result<(), AllocError>
    requires { n + spec.size_of block.now ≤ 10000 }
    ensures { OnOk result (out.new.items ≡ out.old.items ++ spec.layout_of exits n next block.now) }
{
    let mut at = n;
    'block: for i in 0..block.len() {
        let s = &block[i];
        let after = at + size(s);
        let follow = begin(exits, after, next, &block[i + 1..]);
        lay(alloc, exits, at, follow, s, out)?;
        at = after;
    }
    Ok(())
}

fn places_of(alloc: Global, function: &LFunction) -> Result<Row<Place>, AllocError>
    requires { IsWithin function.now }
    ensures { IfOk result (λ row. row ≡ spec.places function.now) }
{
    let body = function.body.as_slice();
    let last = 1 + size_of(body);
    let outside = Exits {
        leave: last,
        again: last,
    };
    let first = begin(outside, 1, last, body);
    let mut out = Vec::new(alloc);
    push(&mut out, Act::Enter, Follow::One(first))?;
    lay_block(alloc, outside, 1, last, body, &mut out)?;
    push(&mut out, Act::Finish, Follow::Leaves)?;
    Ok(Row::from_vec(out))
}

/// The places of each function of a program.
pub fn places(alloc: Global, program: &Lifted) -> Result<Places, AllocError>
    requires { KeepsLimit program.now }
    ensures { IfOk result (λ p. p.functions ≡ map spec.places program.now.functions) }
{
    let mut functions = Vec::new(alloc);
    for function in program.functions.as_slice() {
        functions.push(places_of(alloc, function)?)?;
    }
    Ok(Places {
        functions: Row::from_vec(functions),
    })
}
