//! How many places a statement has.

ghost use Rattle.std.specs.Prelude.{◌≡◌, ◌≤◌, ◌+◌, ◌↔◌, min, IsTrue, All};
ghost use Rattle.c_tree.specs.Layout as spec;
ghost use Rattle.c_places.specs.Limit.{KeepsLimit, IsWithin};

use c_tree::place::MAX_PLACES;
use c_tree::{LFunction, LStmt, Lifted};

/// One more than any number of places that is told apart.
const MANY: u32 = MAX_PLACES + 1;

fn capped(n: u32) -> u32
    ensures { result ≡ min n 10001 }
{
    n.min(MANY)
}

/// The number of places of a statement, or `MANY` where there are more.
#[cycle(sizes)]
#[tactic(auto, using(c_tree::proofs::LayoutLemmas::count_rules))]
pub fn size(s: &LStmt) -> u32
    ensures { result ≡ min (spec.count s.now) 10001 }
{
    match s {
        LStmt::Assign(_, _) => 1,
        LStmt::New(_, _) => 1,
        LStmt::Getc(_) => 1,
        LStmt::Print(_, _) => 1,
        LStmt::Free(_) => 1,
        LStmt::Call(_, _, _) => 1,
        LStmt::Spawn(_, _, _) => 1,
        LStmt::Join(_) => 1,
        LStmt::Lock(_) => 1,
        LStmt::Unlock(_) => 1,
        LStmt::Return(_) => 1,
        LStmt::If(_, yes, no) => capped(1 + size_of(yes.as_slice()) + size_of(no.as_slice())),
        LStmt::Loop(calls, _, body, step) => capped(
            2 + size_of(calls.as_slice()) + size_of(body.as_slice()) + size_of(step.as_slice()),
        ),
        LStmt::Break => 0,
        LStmt::Continue => 0,
    }
}

/// The number of places of a block, or `MANY` where there are more.
#[cycle(sizes)]
pub fn size_of(block: &[LStmt]) -> u32
    ensures { result ≡ min (spec.size_of block.now) 10001 }
{
    let mut total = 0;
    for s in block {
        total = capped(total + size(s));
    }
    total
}

fn is_within(function: &LFunction) -> bool
    ensures { IsTrue result ↔ IsWithin function.now }
{
    size_of(function.body.as_slice()) + 2 <= MAX_PLACES
}

/// Whether no function has more places than are allowed.
pub fn keeps_limit(program: &Lifted) -> bool
    ensures { IsTrue result ↔ KeepsLimit program.now }
{
    program.functions.as_slice().iter().all(is_within)
}
