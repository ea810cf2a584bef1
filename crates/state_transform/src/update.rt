//! The update of a whole state.

ghost use Rattle.std.specs.Prelude.{◌≡◌, map, IfOk, MatchResult, Ok};
ghost use Rattle.c_tree.specs.Layout as layout;
ghost use Rattle.c_tree.specs.MapGlobals as globals;
ghost use Rattle.c_tree.specs.Update as spec;
ghost use Rattle.c_tree.specs.Update.{update};
ghost use Rattle.stack_map.specs.Refusal.{IsRefusal};
ghost use Rattle.stack_map.specs.Subjects.{GivesFirst};
ghost use Rattle.state_transform.specs.Mapped as mapped;
ghost use Rattle.state_transform.specs.Parts.{with_parts};
ghost use Rattle.state_transform.specs.Whole.{IsWhole};

use crate::checks::failed;
use crate::globals::map_globals;
use crate::heap::{map_objects, removed};
use crate::mutexes::{held, new_owners};
use crate::parts::Parts;
use c_tree::{Heap, LEntry, Object, Patch, Places, Reason, Row, State};
use patch_match::{Link, origins_of};
use stack_map::{
    Declared, FrameMap, MapEnd, declared, deep, map_threads, unchanged_functions, unmapped,
};
use std::alloc::{AllocError, Global};

/// What is refused before any new value is computed: a frame without a map, then a stack that is
/// too deep, then a held mutex and an object without a match, then a check.
fn refusal(m: &FrameMap<'_, '_>, state: &State) -> Result<Option<Reason>, AllocError>
    ensures { IfOk result (λ r. r ≡ spec.refusal m.now.link.now m.now.entries.now state.now) }
{
    let frame = unmapped(m, state.threads.as_slice())?;
    if frame.is_some() {
        return Ok(frame);
    }
    let stack = deep(m, state.threads.as_slice())?;
    if stack.is_some() {
        return Ok(stack);
    }
    let mutex = held(m.link, state.mutexes.as_slice())?;
    if mutex.is_some() {
        return Ok(mutex);
    }
    let object = removed(m.link, state.heap.objects.as_slice())?;
    if object.is_some() {
        return Ok(object);
    }
    failed(state, m.entries)
}

/// The values of the new globals.
fn globals_by(alloc: Global, m: &FrameMap<'_, '_>, state: &State) -> Result<Row<Row<i32>>, MapEnd>
    ensures { let wanted = globals.map_globals m.now.link.now m.now.entries.now state.now in
        MatchResult result (λ gs. wanted ≡ Ok gs) (IsRefusal wanted) }
{
    match origins_of(alloc, m.link.globals()) {
        Ok(origins) => map_globals(alloc, m.link, m.entries, m.declared, &origins, state),
        Err(e) => Err(MapEnd::Memory(e)),
    }
}

/// The new parts beside globals and objects: threads first, then the owners of mutexes.
fn with_threads(
    alloc: Global,
    m: &FrameMap<'_, '_>,
    state: &State,
    globals: Row<Row<i32>>,
    objects: Row<Option<Object>>,
) -> Result<Parts, MapEnd>
    ensures { let wanted =
        mapped.with_threads m.now.link.now m.now.entries.now state.now globals objects in
        MatchResult result (λ ps. wanted ≡ Ok (with_parts ps state.now)) (IsRefusal wanted) }
{
    let threads = match map_threads(alloc, m, state) {
        Ok(threads) => threads,
        Err(end) => return Err(end),
    };
    let mutexes = match new_owners(alloc, m.link, state) {
        Ok(mutexes) => mutexes,
        Err(e) => return Err(MapEnd::Memory(e)),
    };
    Ok(Parts {
        globals,
        heap: Heap { objects },
        mutexes,
        threads,
    })
}

/// The new parts beside globals.
fn with_objects(
    alloc: Global,
    m: &FrameMap<'_, '_>,
    state: &State,
    globals: Row<Row<i32>>,
) -> Result<Parts, MapEnd>
    requires { IsWhole m.now.link.now }
    ensures { let wanted = mapped.with_objects m.now.link.now m.now.entries.now state.now globals in
        MatchResult result (λ ps. wanted ≡ Ok (with_parts ps state.now)) (IsRefusal wanted) }
{
    match map_objects(alloc, m.link, m.entries, m.declared, state) {
        Ok(objects) => with_threads(alloc, m, state, globals, objects),
        Err(end) => Err(end),
    }
}

/// The new parts, or the first expression that traps: globals first, then fields, then slots.
fn mapped(alloc: Global, m: &FrameMap<'_, '_>, state: &State) -> Result<Parts, MapEnd>
    requires { IsWhole m.now.link.now }
    ensures { let wanted = spec.mapped_state m.now.link.now m.now.entries.now state.now in
        MatchResult result (λ ps. wanted ≡ Ok (with_parts ps state.now)) (IsRefusal wanted) }
{
    match globals_by(alloc, m, state) {
        Ok(globals) => with_objects(alloc, m, state, globals),
        Err(end) => Err(end),
    }
}

/// The new parts, or the first reason against them, by what is found once for an update.
fn by_map(alloc: Global, m: &FrameMap<'_, '_>, state: &State) -> Result<Parts, MapEnd>
    requires { IsWhole m.now.link.now }
    ensures { let wanted = spec.update_by m.now.link.now m.now.entries.now state.now in
        MatchResult result (λ ps. wanted ≡ Ok (with_parts ps state.now)) (IsRefusal wanted) }
{
    match refusal(m, state) {
        Ok(None) => mapped(alloc, m, state),
        Ok(Some(reason)) => Err(MapEnd::Refused(reason)),
        Err(e) => Err(MapEnd::Memory(e)),
    }
}

/// The new parts, or the first reason against them, by the first entry about each thing.
fn by_declared(
    alloc: Global,
    k: &Link<'_>,
    entries: &[LEntry],
    declared: &Declared,
    places: &Places,
    state: &State,
) -> Result<Parts, MapEnd>
    requires whole { IsWhole k.now }
    requires first { GivesFirst declared.now entries.now }
    requires placed { places.now.functions ≡ map layout.places k.now.old.functions }
    ensures { let wanted = spec.update_by k.now entries.now state.now in
        MatchResult result (λ ps. wanted ≡ Ok (with_parts ps state.now)) (IsRefusal wanted) }
{
    let same = match unchanged_functions(alloc, k) {
        Ok(same) => same,
        Err(e) => return Err(MapEnd::Memory(e)),
    };
    let m = FrameMap {
        link: k,
        entries,
        declared,
        same: same.as_slice(),
        places,
    };
    by_map(alloc, &m, state)
}

/// The new parts, or the first reason against them, by the link that the entries make.
fn by_link(
    alloc: Global,
    k: &Link<'_>,
    entries: &[LEntry],
    places: &Places,
    state: &State,
) -> Result<Parts, MapEnd>
    requires whole { IsWhole k.now }
    requires placed { places.now.functions ≡ map layout.places k.now.old.functions }
    ensures { let wanted = spec.update_by k.now entries.now state.now in
        MatchResult result (λ ps. wanted ≡ Ok (with_parts ps state.now)) (IsRefusal wanted) }
{
    match declared(alloc, entries) {
        Ok(declared) => by_declared(alloc, k, entries, &declared, places, state),
        Err(e) => Err(MapEnd::Memory(e)),
    }
}

/// The parts of the state that a patch leads to, or the first reason against it. The old state
/// stays as it is. A list that is longer than a `u32` can number counts as want of memory.
pub fn updated(
    alloc: Global,
    patch: &Patch,
    places: &Places,
    state: &State,
) -> Result<Parts, MapEnd>
    requires { places.now.functions ≡ map layout.places patch.now.old.functions }
    ensures { MatchResult result (λ ps. update patch.now state.now ≡ Ok (with_parts ps state.now))
        (IsRefusal (update patch.now state.now)) }
{
    match Link::by_numbers(alloc, &patch.old, &patch.new, patch.entries.as_slice()) {
        Ok(k) => by_link(alloc, &k, patch.entries.as_slice(), places, state),
        Err(e) => Err(MapEnd::Memory(e)),
    }
}
