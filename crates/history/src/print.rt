//! The text of events.

ghost use Rattle.std.specs.Prelude.{◌≡◌, ◌++◌, ◌∷◌, [], codes, IfOk, OnOk};
ghost use Rattle.std.specs.List.{flat_map};
ghost use Rattle.std.specs.Fmt.{decimal};
ghost use Rattle.history.specs.History.{history, line, kind_text, reason_numbers, spaced};

use c_tree::{Event, EventKind, Reason, Text};
use event_log::EventLog;
use itoa::Buffer;
use std::alloc::{AllocError, Global};

fn push_number(out: &mut Vec<u8>, number: u32) -> Result<(), AllocError>
    ensures { OnOk result (out.new.items ≡ out.old.items ++ decimal number) }
{
    let mut buffer = Buffer::new();
    out.extend_from_slice(buffer.format(number).as_bytes())?;
    Ok(())
}

/// A word, the numbers, each after a space, and a newline.
fn push_words(out: &mut Vec<u8>, word: &[u8], numbers: &[u32]) -> Result<(), AllocError>
    ensures { OnOk result
        (out.new.items ≡ out.old.items ++ (word.now ++ flat_map spaced numbers.now ++ 10 ∷ [])) }
{
    out.extend_from_slice(word)?;
    for number in numbers {
        out.push(b' ')?;
        push_number(out, *number)?;
    }
    out.push(b'\n')?;
    Ok(())
}

fn push_reason(out: &mut Vec<u8>, reason: Reason) -> Result<(), AllocError>
    ensures { OnOk result (out.new.items ≡ out.old.items
        ++ (codes "refuse" ++ flat_map spaced (reason_numbers reason) ++ 10 ∷ [])) }
{
    match reason {
        Reason::Unmapped(thread, frame) => push_words(out, b"refuse", &[1, thread, frame]),
        Reason::Held(mutex) => push_words(out, b"refuse", &[2, mutex]),
        Reason::Removed(object) => push_words(out, b"refuse", &[3, object]),
        Reason::Check(check, code) => push_words(out, b"refuse", &[4, check, code]),
        Reason::Global(global, code) => push_words(out, b"refuse", &[5, global, code]),
        Reason::Field(object, field, code) => {
            push_words(out, b"refuse", &[6, object, field, code])
        }
        Reason::Slot(thread, frame, slot, code) => {
            push_words(out, b"refuse", &[7, thread, frame, slot, code])
        }
        Reason::Memory => push_words(out, b"refuse", &[8]),
        Reason::Depth(thread) => push_words(out, b"refuse", &[9, thread]),
    }
}

#[tactic(auto, unfolding(crate::specs::History::kind_text))]
fn push_kind(out: &mut Vec<u8>, kind: EventKind) -> Result<(), AllocError>
    ensures { OnOk result (out.new.items ≡ out.old.items ++ kind_text kind) }
{
    match kind {
        EventKind::Step(thread) => push_words(out, b"step", &[thread]),
        EventKind::Request => push_words(out, b"request", &[]),
        EventKind::Park(thread) => push_words(out, b"park", &[thread]),
        EventKind::Update => push_words(out, b"update", &[]),
        EventKind::Refuse(reason) => push_reason(out, reason),
        EventKind::Resume(thread) => push_words(out, b"resume", &[thread]),
    }
}

#[tactic(auto, unfolding(crate::specs::History::line))]
fn push_line(out: &mut Vec<u8>, event: Event) -> Result<(), AllocError>
    ensures { OnOk result (out.new.items ≡ out.old.items ++ line event) }
{
    push_number(out, event.worker)?;
    out.push(b' ')?;
    push_kind(out, event.kind)
}

/// The text of a history: a line for each event, in order.
///
/// # Errors
///
/// Where the memory for the text is wanting.
pub fn history_text(alloc: Global, events: &EventLog) -> Result<Text, AllocError>
    ensures { IfOk result (λ t. t ≡ history events.now.items) }
{
    let mut out = Vec::new(alloc);
    for event in events {
        push_line(&mut out, event)?;
    }
    Ok(Text::from_vec(out))
}
