//! How many places and loops statements hold.

ghost use Rattle.std.specs.Prelude.{◌≡◌, ◌≤◌, ◌+◌};
ghost use Rattle.c_tree.specs.Layout.{count, size_of};
ghost use Rattle.frame_transform.specs.Loops as spec;

use c_tree::LStmt;

/// How many places and loops statements hold.
#[derive(Clone, Copy, PartialEq, Eq)]
pub struct Extent {
    pub places: u32,
    pub loops: u32,
}

const ONE: Extent = Extent {
    places: 1,
    loops: 0,
};

const NONE: Extent = Extent {
    places: 0,
    loops: 0,
};

/// The places and the loops of a statement.
#[cycle(extents)]
#[tactic(auto, using(crate::proofs::LoopLemmas::extent_rules))]
pub fn extent_of_statement(s: &LStmt) -> Extent
    requires { count s.now ≤ 10000 }
    ensures places { result.places ≡ count s.now }
    ensures loops { result.loops ≡ spec.loops s.now }
{
    match s {
        LStmt::Assign(_, _) => ONE,
        LStmt::New(_, _) => ONE,
        LStmt::Getc(_) => ONE,
        LStmt::Print(_, _) => ONE,
        LStmt::Free(_) => ONE,
        LStmt::Call(_, _, _) => ONE,
        LStmt::Spawn(_, _, _) => ONE,
        LStmt::Join(_) => ONE,
        LStmt::Lock(_) => ONE,
        LStmt::Unlock(_) => ONE,
        LStmt::Return(_) => ONE,
        LStmt::If(_, yes, no) => extent_of_if(yes.as_slice(), no.as_slice()),
        LStmt::Loop(calls, _, body, step) => {
            extent_of_loop(calls.as_slice(), body.as_slice(), step.as_slice())
        }
        LStmt::Break => NONE,
        LStmt::Continue => NONE,
    }
}

#[cycle(extents)]
fn extent_of_if(yes: &[LStmt], no: &[LStmt]) -> Extent
    requires { 1 + size_of yes.now + size_of no.now ≤ 10000 }
    ensures places { result.places ≡ 1 + size_of yes.now + size_of no.now }
    ensures loops { result.loops ≡ spec.loops_of yes.now + spec.loops_of no.now }
{
    let first = extent_of_block(yes);
    let second = extent_of_block(no);
    Extent {
        places: 1 + first.places + second.places,
        loops: first.loops + second.loops,
    }
}

#[cycle(extents)]
fn extent_of_loop(calls: &[LStmt], body: &[LStmt], step: &[LStmt]) -> Extent
    requires { size_of calls.now + 1 + size_of body.now + size_of step.now + 1 ≤ 10000 }
    ensures places { result.places
        ≡ size_of calls.now + 1 + size_of body.now + size_of step.now + 1 }
    ensures loops { result.loops
        ≡ spec.loops_of calls.now + spec.loops_of body.now + spec.loops_of step.now + 1 }
{
    let first = extent_of_block(calls);
    let second = extent_of_block(body);
    let third = extent_of_block(step);
    Extent {
        places: first.places + 1 + second.places + third.places + 1,
        loops: first.loops + second.loops + third.loops + 1,
    }
}

/// The places and the loops of a block.
#[cycle(extents)]
pub fn extent_of_block(block: &[LStmt]) -> Extent
    requires { size_of block.now ≤ 10000 }
    ensures places { result.places ≡ size_of block.now }
    ensures loops { result.loops ≡ spec.loops_of block.now }
{
    let mut places = 0;
    let mut loops = 0;
    'block: for i in 0..block.len() {
        let more = extent_of_statement(&block[i]);
        places += more.places;
        loops += more.loops;
    }
    Extent { places, loops }
}
