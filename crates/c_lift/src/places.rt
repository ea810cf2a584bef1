//! How many places a body has, as far as a limit asks.

ghost use Rattle.std.specs.Prelude.{◌≡◌, ◌-◌};
ghost use Rattle.c_tree.specs.Lifting as lifting;
ghost use Rattle.c_lift.specs.Places.{places_of, places_in};

use c_tree::{LFunction, LStmt, LimitKind};

/// A function has at most 10,000 places, of which two are its entry and the implied return.
const MOST_PLACES: u32 = 9998;

/// A function has at most so many slots.
const MOST_SLOTS: usize = 128;

/// What is left of so many places after those of a statement.
#[cycle(places)]
#[tactic(auto, using(crate::proofs::PlaceLemmas::place_rules))]
fn left_after(s: &LStmt, room: u32) -> u32
    ensures { result ≡ room - places_of s.now }
{
    match s {
        LStmt::If(_, yes, no) => {
            left_after_all(
                no.as_slice(),
                left_after_all(yes.as_slice(), room.saturating_sub(1)),
            )
        }
        LStmt::Loop(calls, _, body, step) => {
            let room = left_after_all(calls.as_slice(), room.saturating_sub(2));
            left_after_all(step.as_slice(), left_after_all(body.as_slice(), room))
        }
        LStmt::Break => room,
        LStmt::Continue => room,
        LStmt::Assign(_, _) => room.saturating_sub(1),
        LStmt::New(_, _) => room.saturating_sub(1),
        LStmt::Getc(_) => room.saturating_sub(1),
        LStmt::Print(_, _) => room.saturating_sub(1),
        LStmt::Free(_) => room.saturating_sub(1),
        LStmt::Call(_, _, _) => room.saturating_sub(1),
        LStmt::Spawn(_, _, _) => room.saturating_sub(1),
        LStmt::Join(_) => room.saturating_sub(1),
        LStmt::Lock(_) => room.saturating_sub(1),
        LStmt::Unlock(_) => room.saturating_sub(1),
        LStmt::Return(_) => room.saturating_sub(1),
    }
}

#[cycle(places)]
#[tactic(auto, using(crate::proofs::PlaceLemmas::place_rules))]
fn left_after_all(stmts: &[LStmt], room: u32) -> u32
    ensures { result ≡ room - places_in stmts.now }
{
    let mut left = room;
    for s in stmts {
        left = left_after(s, left);
    }
    left
}

/// The limit that a function passes. That on places comes before that on slots.
pub fn passed_limit(function: &LFunction) -> Option<LimitKind>
    ensures { result ≡ lifting.passed_limit function.now }
{
    if left_after_all(function.body.as_slice(), MOST_PLACES + 1) == 0 {
        Some(LimitKind::Places)
    } else if function.slots.len() > MOST_SLOTS {
        Some(LimitKind::Slots)
    } else {
        None
    }
}
