//! The words of a reason.

ghost use Rattle.std.specs.Prelude.{◌≡◌, ◌++◌, [], OnOk, IfOk};
ghost use Rattle.c_places.specs.Limit.{KeepsLimit};
ghost use Rattle.std.specs.Fmt.{decimal};
ghost use Rattle.std.specs.Prelude.{codes};
ghost use Rattle.c_tree.specs.Link.{link_of};
ghost use Rattle.c_tree.specs.declared.event.Reason.TheVariants as why;
ghost use Rattle.reports.specs.Words as spec;

use crate::named::{append_field, append_place, append_slot};
use crate::words::{append_counted, append_frame, append_trap, check_word};
use c_tree::{LEntry, Lifted, Patch, Reason, Text};
use map_text::name_at;
use patch_match::Link;
use std::alloc::{AllocError, Global};

fn append_unmapped(
    alloc: Global,
    old: &Lifted,
    at: (u32, u32),
    thread: u32,
    frame: u32,
    out: &mut Vec<u8>,
) -> Result<(), AllocError>
    requires { KeepsLimit old.now }
    ensures { OnOk result (out.new.items ≡ out.old.items ++ spec.unmapped old.now at thread frame) }
{
    append_frame(thread, frame, out)?;
    out.extend_from_slice(b" ")?;
    append_place(alloc, old, at.0, at.1, out)?;
    out.extend_from_slice(b" unmapped")
}

fn append_held(link: &Link<'_>, mutex: u32, out: &mut Vec<u8>) -> Result<(), AllocError>
    ensures { OnOk result (out.new.items ≡ out.old.items ++ spec.reason link.now [] (0, 0)
        (why.Held mutex)) }
{
    out.extend_from_slice(b"mutex ")?;
    out.extend_from_slice(name_at(link.old(), 3, mutex))?;
    out.extend_from_slice(b" held")
}

fn append_removed(object: u32, out: &mut Vec<u8>) -> Result<(), AllocError>
    ensures { OnOk result
        (out.new.items ≡ out.old.items ++
        (codes "object " ++ (decimal object ++ codes " removed"))) }
{
    append_counted(b"object ", object, out)?;
    out.extend_from_slice(b" removed")
}

fn append_check(check: u32, code: u32, out: &mut Vec<u8>) -> Result<(), AllocError>
    ensures { OnOk result
        (out.new.items ≡ out.old.items ++
        (codes "check " ++ (decimal check ++ (codes " " ++ spec.check_word code)))) }
{
    append_counted(b"check ", check, out)?;
    out.extend_from_slice(b" ")?;
    out.extend_from_slice(check_word(code))
}

fn append_global(
    link: &Link<'_>,
    global: u32,
    code: u32,
    out: &mut Vec<u8>,
) -> Result<(), AllocError>
    ensures { OnOk result (out.new.items ≡ out.old.items ++ spec.reason link.now [] (0, 0)
        (why.Global global code)) }
{
    out.extend_from_slice(b"global ")?;
    out.extend_from_slice(name_at(link.new(), 2, global))?;
    append_trap(code, out)
}

fn append_field_reason(
    link: &Link<'_>,
    owner: u32,
    object: u32,
    field: u32,
    code: u32,
    out: &mut Vec<u8>,
) -> Result<(), AllocError>
    ensures { OnOk result (out.new.items ≡ out.old.items ++ spec.reason link.now [] (owner, 0)
        (why.Field object field code)) }
{
    append_counted(b"field ", object, out)?;
    out.extend_from_slice(b" ")?;
    append_field(link, owner, field, out)?;
    append_trap(code, out)
}

fn append_slot_reason(
    link: &Link<'_>,
    entries: &[LEntry],
    at: (u32, u32),
    frame: (u32, u32),
    slot: u32,
    code: u32,
    out: &mut Vec<u8>,
) -> Result<(), AllocError>
    ensures { OnOk result (out.new.items ≡ out.old.items ++ spec.reason link.now entries.now at
        (why.Slot frame.0 frame.1 slot code)) }
{
    out.extend_from_slice(b"slot ")?;
    append_frame(frame.0, frame.1, out)?;
    out.extend_from_slice(b" ")?;
    append_slot(link, entries, at, slot, out)?;
    append_trap(code, out)
}

fn append_deep(thread: u32, out: &mut Vec<u8>) -> Result<(), AllocError>
    ensures { OnOk result
        (out.new.items ≡ out.old.items ++
        (codes "thread " ++ (decimal thread ++ codes " too deep"))) }
{
    append_counted(b"thread ", thread, out)?;
    out.extend_from_slice(b" too deep")
}

/// Appends the words of a reason.
fn append_reason(
    alloc: Global,
    link: &Link<'_>,
    entries: &[LEntry],
    at: (u32, u32),
    reason: Reason,
    out: &mut Vec<u8>,
) -> Result<(), AllocError>
    requires { KeepsLimit link.now.old }
    ensures { OnOk result
        (out.new.items ≡ out.old.items ++ spec.reason link.now entries.now at reason) }
{
    match reason {
        Reason::Unmapped(thread, frame) => {
            append_unmapped(alloc, link.old().program(), at, thread, frame, out)
        }
        Reason::Held(mutex) => append_held(link, mutex, out),
        Reason::Removed(object) => append_removed(object, out),
        Reason::Check(check, code) => append_check(check, code, out),
        Reason::Global(global, code) => append_global(link, global, code, out),
        Reason::Field(object, field, code) => {
            append_field_reason(link, at.0, object, field, code, out)
        }
        Reason::Slot(thread, frame, slot, code) => {
            append_slot_reason(link, entries, at, (thread, frame), slot, code, out)
        }
        Reason::Memory => out.extend_from_slice(b"memory"),
        Reason::Depth(thread) => append_deep(thread, out),
    }
}

/// The words of a reason against an update of two programs that belong together so.
fn linked_words(
    alloc: Global,
    link: &Link<'_>,
    entries: &[LEntry],
    at: (u32, u32),
    reason: Reason,
) -> Result<Text, AllocError>
    requires { KeepsLimit link.now.old }
    ensures { IfOk result (λ words. words ≡ spec.reason link.now entries.now at reason) }
{
    let mut out = Vec::new(alloc);
    append_reason(alloc, link, entries, at, reason, &mut out)?;
    Ok(Text::from_vec(out))
}

/// The words of a reason for which an update by a patch was refused.
///
/// `at` tells of what the reason names in the old state: of a frame its function and its place, of
/// an object its struct and 0. Of other reasons it isn't read. The slot of a reason is counted
/// through all parts that the frame becomes, from 0.
pub fn reason_words(
    alloc: Global,
    patch: &Patch,
    at: (u32, u32),
    reason: Reason,
) -> Result<Text, AllocError>
    requires { KeepsLimit patch.now.old }
    ensures { IfOk result (λ words. words ≡
        spec.reason (link_of patch.now.old patch.now.new patch.now.entries) patch.now.entries at
        reason) }
{
    match Link::by_numbers(alloc, &patch.old, &patch.new, patch.entries.as_slice()) {
        Ok(link) => linked_words(alloc, &link, patch.entries.as_slice(), at, reason),
        Err(e) => Err(e),
    }
}
