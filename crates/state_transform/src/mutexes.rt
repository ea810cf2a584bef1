//! How the mutexes of an old state become those of a new one.

ghost use Rattle.std.specs.Prelude.{◌≡◌, IfOk, MatchResult, Ok};
ghost use Rattle.c_tree.specs.Link as link;
ghost use Rattle.c_tree.specs.MapMutexes as spec;
ghost use Rattle.stack_map.specs.Refusal.{IsRefusal};
ghost use Rattle.patch_match.specs.Origins.{GivesOrigins};

use c_tree::{Reason, Row, State, narrowed};
use patch_match::{Link, Origins, origin_in, origins_of};
use stack_map::MapEnd;
use std::alloc::{AllocError, Global};

/// The first mutex that is held and has no match, as a reason. More than 4,294,967,296 mutexes
/// count as want of memory.
pub fn held(k: &Link<'_>, owners: &[Option<u32>]) -> Result<Option<Reason>, AllocError>
    ensures { IfOk result (λ r. r ≡ spec.held k.now 0 owners.now) }
{
    for m in 0..owners.len() {
        let number = narrowed(m)?;
        if owners[m].is_some() && k.mutex(number).is_none() {
            return Ok(Some(Reason::Held(number)));
        }
    }
    Ok(None)
}

/// Who holds an old mutex; a mutex that is new is free.
fn owner_at(state: &State, old: Option<u32>) -> Option<u32>
    ensures { result ≡ spec.owner_at state.now old }
{
    let old = match old {
        Some(old) => old,
        None => return None,
    };
    match state.mutexes.as_slice().get(old as usize) {
        Some(owner) => *owner,
        None => None,
    }
}

/// Who holds a new mutex.
fn owner_of(
    k: &Link<'_>,
    origins: &Origins,
    state: &State,
    m: usize,
) -> Result<Option<u32>, AllocError>
    requires { GivesOrigins origins.now k.now.mutexes }
    ensures { IfOk result (λ o. o ≡ spec.owner_at state.now (link.origin k.now.mutexes m)) }
{
    let old = origin_in(origins, narrowed(m)?);
    Ok(owner_at(state, old))
}

/// Who holds each new mutex.
fn owners_by(
    alloc: Global,
    k: &Link<'_>,
    origins: &Origins,
    state: &State,
) -> Result<Row<Option<u32>>, AllocError>
    requires { GivesOrigins origins.now k.now.mutexes }
    ensures { IfOk result (λ os. os ≡ spec.new_owners k.now state.now) }
{
    let mut made = Vec::new(alloc);
    for (m, _) in k.new().program().mutexes.as_slice().iter().enumerate() {
        made.push(owner_of(k, origins, state, m)?)?;
    }
    Ok(Row::from_vec(made))
}

/// Who holds each new mutex: who held the first old one that it is the match of. More than
/// 4,294,967,296 mutexes count as want of memory.
pub fn new_owners(
    alloc: Global,
    k: &Link<'_>,
    state: &State,
) -> Result<Row<Option<u32>>, AllocError>
    ensures { IfOk result (λ os. os ≡ spec.new_owners k.now state.now) }
{
    let origins = origins_of(alloc, k.mutexes())?;
    owners_by(alloc, k, &origins, state)
}

/// Who holds each new mutex. Refused is the first mutex that is held and has no match.
pub fn map_mutexes(alloc: Global, k: &Link<'_>, state: &State) -> Result<Row<Option<u32>>, MapEnd>
    ensures { let wanted = spec.map_mutexes k.now state.now in
        MatchResult result (λ os. wanted ≡ Ok os) (IsRefusal wanted) }
{
    match held(k, state.mutexes.as_slice()) {
        Ok(None) => {}
        Ok(Some(reason)) => return Err(MapEnd::Refused(reason)),
        Err(e) => return Err(MapEnd::Memory(e)),
    }
    match new_owners(alloc, k, state) {
        Ok(owners) => Ok(owners),
        Err(e) => Err(MapEnd::Memory(e)),
    }
}
