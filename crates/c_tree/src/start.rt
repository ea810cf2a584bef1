//! The state in which a program starts, and the frames of calls.

ghost use Rattle.std.specs.Prelude.{◌≡◌, [], ◌∷◌, ◌-◌, map, length, replicate, unwrap_or, IfOk, None};
ghost use Rattle.c_tree.specs.Start as spec;
ghost use Rattle.c_tree.specs.Step as step;

use crate::input::Input;
use crate::lifted::{LGlobal, Lifted};
use crate::row::Row;
use crate::state::{Frame, Heap, State};
use crate::text::Text;
use std::alloc::{AllocError, Global};

/// The frame of a call: the arguments, then zeros.
pub fn fresh(alloc: Global, program: &Lifted, f: u32, args: Row<i32>) -> Result<Frame, AllocError>
    ensures { IfOk result (λ frame. frame ≡ step.fresh program.now f args) }
{
    let want = slots_of(program, f);
    let mut slots = args.into_vec();
    let from = slots.len();
    'zeros: for _ in from..want {
        slots.push(0)?;
    }
    Ok(Frame {
        function: f,
        place: 0,
        slots: Row::from_vec(slots),
    })
}

fn slots_of(program: &Lifted, f: u32) -> usize
    ensures { result ≡ length (step.function_of program.now f).slots }
{
    match program.functions.as_slice().get(f as usize) {
        Some(function) => function.slots.len(),
        None => 0,
    }
}

/// A stack of one frame.
pub fn stack(alloc: Global, frame: Frame) -> Result<Row<Frame>, AllocError>
    ensures { IfOk result (λ r. r ≡ frame ∷ []) }
{
    let mut frames = Vec::new(alloc);
    frames.push(frame)?;
    Ok(Row::from_vec(frames))
}

fn filled(alloc: Global, n: usize, value: i32) -> Result<Row<i32>, AllocError>
    ensures { IfOk result (λ r. r ≡ replicate n value) }
{
    let mut values = Vec::new(alloc);
    'each: for _ in 0..n {
        values.push(value)?;
    }
    Ok(Row::from_vec(values))
}

fn free(alloc: Global, n: usize) -> Result<Row<Option<u32>>, AllocError>
    ensures { IfOk result (λ r. r ≡ replicate n None) }
{
    let mut owners = Vec::new(alloc);
    'each: for _ in 0..n {
        owners.push(None)?;
    }
    Ok(Row::from_vec(owners))
}

fn first_values(alloc: Global, g: &LGlobal) -> Result<Row<i32>, AllocError>
    ensures { IfOk result (λ r. r ≡ spec.first_values g.now) }
{
    filled(alloc, g.count.unwrap_or(1) as usize, g.init)
}

fn globals(alloc: Global, gs: &[LGlobal]) -> Result<Row<Row<i32>>, AllocError>
    ensures { IfOk result (λ r. r ≡ map spec.first_values gs.now) }
{
    let mut rows = Vec::new(alloc);
    for g in gs {
        rows.push(first_values(alloc, g)?)?;
    }
    Ok(Row::from_vec(rows))
}

impl State {
    /// The state in which a program starts: the initialisers, no objects, free mutexes, no output,
    /// and thread 0 with one frame of `main` at its entry.
    pub fn start(alloc: Global, program: &Lifted, input: &Text) -> Result<State, AllocError>
        ensures { IfOk result (λ s. s ≡ spec.start program.now input.now) }
    {
        let none = Row::from_vec(Vec::new(alloc));
        let frame = fresh(alloc, program, program.main, none)?;
        let frames = stack(alloc, frame)?;
        let mut threads = Vec::new(alloc);
        threads.push(Some(frames))?;
        Ok(State {
            globals: globals(alloc, program.globals.as_slice())?,
            heap: Heap {
                objects: Row::from_vec(Vec::new(alloc)),
            },
            mutexes: free(alloc, program.mutexes.len())?,
            threads: Row::from_vec(threads),
            input: Input::of(input)?,
            output: Text::from_vec(Vec::new(alloc)),
        })
    }
}
