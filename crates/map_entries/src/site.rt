//! Places between which a point goes.

ghost use Rattle.std.specs.Prelude.{◌≡◌, map, not};
ghost use Rattle.c_tree.specs.Names as names;
ghost use Rattle.c_tree.specs.Suits as suits;
ghost use Rattle.map_entries.specs.Rest.{seen};

use crate::points::PointTable;
use patch_match::Link;

/// A place of a function.
#[derive(Clone, Copy, PartialEq, Eq)]
pub struct Site {
    pub function: u32,
    pub place: u32,
}

/// Whether a call stands there.
fn is_call_at(table: &PointTable<'_>, site: Site) -> bool
    ensures { result ≡ suits.is_call_at table.now (seen site) }
{
    table.is_call(site.function, site.place)
}

/// The function that is called there.
fn callee_of(table: &PointTable<'_>, site: Site) -> Option<u32>
    ensures { result ≡ suits.callee_of table.now (seen site) }
{
    table.callee(site.function, site.place)
}

/// Whether a site that isn't the last is no call.
fn some_is_no_call(new: &PointTable<'_>, sites: &[Site]) -> bool
    ensures { result ≡ suits.some_neighbours
        (λ s next. not (suits.is_call_at new.now s)) (map seen sites.now) }
{
    'sites: for i in 1..sites.len() {
        if !is_call_at(new, sites[i - 1]) {
            return true;
        }
    }
    false
}

/// Whether one of two places is a call and the other is not.
fn kind_differs(
    k: &Link<'_>,
    old: &PointTable<'_>,
    new: &PointTable<'_>,
    from: Site,
    to: Site,
) -> bool
    requires old { old.now ≡ k.now.old }
    requires new { new.now ≡ k.now.new }
    ensures { result ≡ suits.kind_differs k.now (seen from) (seen to) }
{
    let is_call = is_call_at(new, to);
    if is_call_at(old, from) {
        !is_call
    } else {
        is_call
    }
}

/// Whether the old place or the last new one is a call and the other is not.
fn last_kind_differs(
    k: &Link<'_>,
    old: &PointTable<'_>,
    new: &PointTable<'_>,
    from: Site,
    sites: &[Site],
) -> bool
    requires old { old.now ≡ k.now.old }
    requires new { new.now ≡ k.now.new }
    ensures { result ≡ suits.last_is (suits.kind_differs k.now (seen from)) (map seen sites.now) }
{
    match sites.last() {
        Some(last) => kind_differs(k, old, new, from, *last),
        None => false,
    }
}

/// Whether a part that isn't the last stands at no call, or the old place or the last part's place
/// is a call and the other is not.
pub fn kinds_differ(
    k: &Link<'_>,
    old: &PointTable<'_>,
    new: &PointTable<'_>,
    from: Site,
    sites: &[Site],
) -> bool
    requires old { old.now ≡ k.now.old }
    requires new { new.now ≡ k.now.new }
    ensures { result ≡ suits.kinds_differ k.now (seen from) (map seen sites.now) }
{
    some_is_no_call(new, sites) || last_kind_differs(k, old, new, from, sites)
}

fn is_number(number: Option<u32>, n: u32) -> bool
    ensures { result ≡ names.is_number number n }
{
    match number {
        Some(number) => number == n,
        None => false,
    }
}

/// Whether a site is a call of the next one's function.
fn links_to(new: &PointTable<'_>, site: Site, next: Site) -> bool
    ensures { result ≡ suits.links_to new.now (seen site) (seen next) }
{
    is_number(callee_of(new, site), next.function)
}

/// Whether a site that isn't the last does not call the next one's function.
fn some_calls_another(new: &PointTable<'_>, sites: &[Site]) -> bool
    ensures { result ≡ suits.some_neighbours
        (λ s next. not (suits.links_to new.now s next)) (map seen sites.now) }
{
    'sites: for i in 1..sites.len() {
        if !links_to(new, sites[i - 1], sites[i]) {
            return true;
        }
    }
    false
}

/// Whether the old place is a call, and the new one does not call the match of what it calls.
fn callee_differs(
    k: &Link<'_>,
    old: &PointTable<'_>,
    new: &PointTable<'_>,
    from: Site,
    to: Site,
) -> bool
    requires old { old.now ≡ k.now.old }
    requires new { new.now ≡ k.now.new }
    ensures { result ≡ suits.callee_differs k.now (seen from) (seen to) }
{
    let matched = match_of_callee(k, callee_of(old, from));
    let is_match = same_number(matched, callee_of(new, to));
    is_call_at(old, from) && !is_match
}

/// Whether the old place is a call, and the last new one does not call the match of what it calls.
fn last_callee_differs(
    k: &Link<'_>,
    old: &PointTable<'_>,
    new: &PointTable<'_>,
    from: Site,
    sites: &[Site],
) -> bool
    requires old { old.now ≡ k.now.old }
    requires new { new.now ≡ k.now.new }
    ensures { result ≡ suits.last_is (suits.callee_differs k.now (seen from)) (map seen sites.now) }
{
    match sites.last() {
        Some(last) => callee_differs(k, old, new, from, *last),
        None => false,
    }
}

/// Whether a part that isn't the last does not call the next one's function, or the last one does
/// not call the match of what is called at the old place.
pub fn callees_differ(
    k: &Link<'_>,
    old: &PointTable<'_>,
    new: &PointTable<'_>,
    from: Site,
    sites: &[Site],
) -> bool
    requires old { old.now ≡ k.now.old }
    requires new { new.now ≡ k.now.new }
    ensures { result ≡ suits.callees_differ k.now (seen from) (map seen sites.now) }
{
    some_calls_another(new, sites) || last_callee_differs(k, old, new, from, sites)
}

fn match_of_callee(k: &Link<'_>, callee: Option<u32>) -> Option<u32>
    ensures { result ≡ suits.match_of_callee k.now callee }
{
    match callee {
        Some(f) => k.function(f),
        None => None,
    }
}

/// Whether both are there and equal.
fn same_number(a: Option<u32>, b: Option<u32>) -> bool
    ensures { result ≡ names.same_number a b }
{
    match (a, b) {
        (Some(a), Some(b)) => a == b,
        _ => false,
    }
}
