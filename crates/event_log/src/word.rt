//! Words: what stands for an event in the log.
//!
//! Worker and thread share one word, since a run makes millions of Steps, and the first touch of
//! the memory of a whole event costs more than the Step itself. What has no room in a word stands
//! aside.

ghost use Rattle.std.specs.Prelude.{◌≡◌, ◌<◌, ◌+◌, ◌^◌, length, IfSome};
ghost use Rattle.event_log.specs.Word.{event_of, step_of, IsWordOf};

use c_tree::{Event, EventKind};

/// A word below this one is a Step.
pub const ASIDE: u32 = 2_147_483_648;

/// A Step is kept as a word where its worker is below this number.
const WORKERS: u32 = 4096;

/// A Step is kept as a word where its thread is below this number.
const THREADS: u32 = 524_288;

/// The word of a worker's Step of a thread, where both are small.
#[inline(always)]
pub fn step_word(worker: u32, thread: u32) -> Option<u32>
    ensures { IfSome result (λ word. IsWordOf word (step_of worker thread)) }
{
    if worker < WORKERS && thread < THREADS {
        Some(worker * THREADS + thread)
    } else {
        None
    }
}

/// The word of an event that is a Step of small numbers.
#[inline(always)]
pub fn event_word(event: &Event) -> Option<u32>
    ensures { IfSome result (λ word. IsWordOf word event.now) }
{
    match event.kind {
        EventKind::Step(thread) => step_word(event.worker, thread),
        _ => None,
    }
}

/// The event that a word stands for.
#[inline(always)]
pub fn event_at(aside: &[Event], word: u32) -> Event
    requires { word < 2 ^ 31 + length aside.now }
    ensures { result ≡ event_of aside.now word }
{
    if word < ASIDE {
        Event {
            worker: word / THREADS,
            kind: EventKind::Step(word % THREADS),
        }
    } else {
        aside[(word - ASIDE) as usize]
    }
}
