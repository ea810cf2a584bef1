//! The line of an event.

ghost use Rattle.std.specs.Prelude.{◌∷◌, [], MatchOption};
ghost use Rattle.history.specs.Listing.{NoLine};
ghost use Rattle.history.specs.Taken as taken;

use crate::number::{take_newline, take_number, take_numbers, take_space};
use crate::reason::take_reason;
use crate::word::{Word, take_word};
use c_tree::{Event, EventKind};

/// One number and a newline, and what follows.
fn take_thread(bytes: &[u8]) -> Option<(u32, &[u8])>
    ensures { MatchOption result
        (taken.LacksNumbers 1 bytes.now)
        (λ r. taken.TakesNumbers bytes.now (r.0 ∷ []) r.1.now) }
{
    let ([thread, ..], rest) = take_numbers(1, bytes)?;
    Some((thread, rest))
}

/// The kind at the front with the newline after it, and what follows.
fn take_kind(bytes: &[u8]) -> Option<(EventKind, &[u8])>
    ensures { MatchOption result
        (taken.LacksKind bytes.now)
        (λ r. taken.TakesKind bytes.now r.0 r.1.now) }
{
    let (word, rest) = take_word(bytes)?;
    match word {
        Word::Step => {
            let (thread, rest) = take_thread(rest)?;
            Some((EventKind::Step(thread), rest))
        }
        Word::Request => {
            let rest = take_newline(rest)?;
            Some((EventKind::Request, rest))
        }
        Word::Park => {
            let (thread, rest) = take_thread(rest)?;
            Some((EventKind::Park(thread), rest))
        }
        Word::Update => {
            let rest = take_newline(rest)?;
            Some((EventKind::Update, rest))
        }
        Word::Refuse => {
            let (reason, rest) = take_reason(rest)?;
            Some((EventKind::Refuse(reason), rest))
        }
        Word::Resume => {
            let (thread, rest) = take_thread(rest)?;
            Some((EventKind::Resume(thread), rest))
        }
    }
}

/// The event of the line at the front, and what follows the line.
pub fn take_line(bytes: &[u8]) -> Option<(Event, &[u8])>
    ensures { MatchOption result
        (NoLine bytes.now)
        (λ r. taken.TakesLine bytes.now r.0 r.1.now) }
{
    let (worker, rest) = take_number(bytes)?;
    let rest = take_space(rest)?;
    let (kind, rest) = take_kind(rest)?;
    Some((Event { worker, kind }, rest))
}
