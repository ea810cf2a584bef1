//! Where a statement begins.

ghost use Rattle.std.specs.Prelude.{◌≡◌, ◌≤◌, ◌<◌, ◌+◌};
ghost use Rattle.c_tree.specs.Layout as spec;

use crate::size::size_of;
use c_tree::{Exits, LStmt};

/// The place where the statement at `n` begins.
#[cycle(entering)]
#[tactic(auto, using(c_tree::proofs::LayoutLemmas::enter_rules, c_tree::proofs::LayoutLemmas::count_rules))]
fn enter(exits: Exits, n: u32, s: &LStmt) -> u32
    requires { n + spec.count s.now ≤ 10000 }
    ensures { result ≡ spec.enter exits n s.now }
{
    match s {
        LStmt::Assign(_, _) => n,
        LStmt::New(_, _) => n,
        LStmt::Getc(_) => n,
        LStmt::Print(_, _) => n,
        LStmt::Free(_) => n,
        LStmt::Call(_, _, _) => n,
        LStmt::Spawn(_, _, _) => n,
        LStmt::Join(_) => n,
        LStmt::Lock(_) => n,
        LStmt::Unlock(_) => n,
        LStmt::Return(_) => n,
        LStmt::If(_, _, _) => n,
        LStmt::Loop(calls, _, _, _) => {
            let calls = calls.as_slice();
            begin(exits, n, n + size_of(calls), calls)
        }
        LStmt::Break => exits.leave,
        LStmt::Continue => exits.again,
    }
}

/// The place where the block at `n` begins, which `next` follows.
#[cycle(entering)]
#[tactic(auto, using(c_tree::proofs::LayoutLemmas::enter_rules, c_tree::proofs::LayoutLemmas::count_rules))]
pub fn begin(exits: Exits, n: u32, next: u32, block: &[LStmt]) -> u32
    requires { n + spec.size_of block.now ≤ 10000 }
    ensures { result ≡ spec.start_of exits n next block.now }
{
    match block.split_first() {
        None => next,
        Some((first, _)) => enter(exits, n, first),
    }
}
