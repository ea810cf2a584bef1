//! Where a frame is rebuilt in the code of its function.

ghost use Rattle.std.specs.Prelude.{◌≡◌, ◌<◌, ◌+◌, length, slice_index_or};
ghost use Rattle.target_code.specs.Code.{IsCode};
ghost use Rattle.target_code.specs.Machine.{function_in, part_at};
ghost use Rattle.thread_machine.specs.Rebuilt.{params_in, position_of, AreAscending, StandsAt};

use c_tree::Frame;
use target_code::{CallSpot, Code};

/// How many parameters a function has; none where no function has the number.
pub fn params_of(code: &Code, function: u32) -> u32
    ensures { result ≡ params_in code.now function }
{
    match code.functions().as_slice().get(function as usize) {
        Some(function) => function.params,
        None => 0,
    }
}

/// The position of the mark of a place.
pub fn mark_of(code: &Code, function: u32, place: u32) -> u32
    ensures { result ≡ slice_index_or (function_in code.now function).marks place 0 }
{
    match code.functions().as_slice().get(function as usize) {
        Some(function) => match function.marks.as_slice().get(place as usize) {
            Some(mark) => *mark,
            None => 0,
        },
        None => 0,
    }
}

/// How many calls come before the place, by a search that halves.
fn calls_before(calls: &[CallSpot], place: u32) -> usize
    requires { AreAscending calls.now }
    ensures { StandsAt calls.now place result }
{
    let mut low = 0;
    let mut high = calls.len();
    while low < high {
        let middle = low + (high - low) / 2;
        if calls[middle].place < place {
            low = middle + 1;
        } else {
            high = middle;
        }
    }
    low
}

/// The position of the rebuilding part of the call at a place.
fn part_in(calls: &[CallSpot], place: u32) -> u32
    requires { AreAscending calls.now }
    ensures { result ≡ part_at calls.now place }
{
    match calls.get(calls_before(calls, place)) {
        Some(call) => { if call.place == place { call.rebuild } else { 0 } }
        None => 0,
    }
}

/// The position of the rebuilding part of a function's call at a place.
fn part_of(code: &Code, function: u32, place: u32) -> u32
    requires { AreAscending (function_in code.now function).calls }
    ensures { result ≡ part_at (function_in code.now function).calls place }
{
    match code.functions().as_slice().get(function as usize) {
        Some(function) => part_in(function.calls.as_slice(), place),
        None => 0,
    }
}

/// The position at which the first of these frames is rebuilt, which called the next one.
pub fn position(code: &Code, frames: &[Frame]) -> u32
    requires some { 0 < length frames.now }
    requires code { IsCode code.now }
    requires fits { position_of code.now frames.now < 4294967296 }
    ensures { result ≡ position_of code.now frames.now }
{
    let frame = &frames[0];
    match frames.get(1) {
        None => mark_of(code, frame.function, frame.place),
        Some(called) => {
            part_of(code, frame.function, frame.place) + (params_of(code, called.function) + 1)
        }
    }
}
