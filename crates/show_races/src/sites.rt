//! By which instructions entries were made, and the memory with which a run begins.

ghost use Rattle.std.specs.Prelude.{◌≡◌, ◌*◌, IfOk};
ghost use Rattle.types.specs.declared.limits.TheConstants.{PAGE_SIZE};
ghost use Rattle.show_races.specs.Sites.{bytes_at, code_of, kind_at, may_race, opening_of, site_at, sites_shown};

use allowed_races::Allowed;
use interp::CodePlace;
use race_history::{AccessKind, Site, ThreadAccess, bytes_of};
use show_rows::Shown;
use std::alloc::{AllocError, Global};
use types::{Entry, PAGE_SIZE, Parts};
use validate_module_rules::IndexSpaces;

/// The kind of the entry at a place.
fn kind_at(shown: Shown, at: usize) -> AccessKind
    ensures { result ≡ kind_at shown.entry at }
{
    if shown.is_atomic_at(at) {
        AccessKind::Atomic
    } else {
        AccessKind::Plain
    }
}

/// A number of a place in the code; the greatest one where the place isn't known. A module has fewer functions, and
/// they have fewer instructions, than 2^32, so that no two places have one number.
fn code_of(place: Option<CodePlace>) -> u64
    ensures { result ≡ code_of place }
{
    match place {
        Some(place) => (place.function as u64)
            .wrapping_mul(4294967296)
            .wrapping_add(place.instr as u64),
        None => u64::MAX,
    }
}

/// Whether an access to bytes may race.
fn may_race(allowed: &Allowed, access: Option<ThreadAccess>) -> bool
    ensures { result ≡ may_race allowed.now access }
{
    match access {
        Some(access) => {
            allowed.has(access.addr, u64::from(access.width)) || (allowed.mixed && access.atomic)
        }
        None => false,
    }
}

/// The access to bytes of the entry at a place, if there is one.
fn bytes_at(log: &[Entry], site: &Site, at: usize) -> Option<ThreadAccess>
    ensures { result ≡ bytes_at log.now site.now at }
{
    match log.get(at) {
        Some(entry) => bytes_of(entry, site),
        None => None,
    }
}

/// The instruction that made the entry at a place, and whether it may race.
fn site_at(shown: Shown, allowed: &Allowed, at: usize) -> Site
    ensures { result ≡ site_at allowed.now shown.entry at }
{
    let site = Site {
        kind: kind_at(shown, at),
        code: code_of(shown.own_place_at(at)),
        is_allowed: false,
    };
    let is_allowed = may_race(allowed, bytes_at(shown.record.log.as_slice(), &site, at));
    Site { is_allowed, ..site }
}

/// The instructions that made a record's entries, in order, and which of them may race.
///
/// # Errors
/// Where memory is refused.
pub fn sites_of(alloc: Global, shown: Shown, allowed: &Allowed) -> Result<Vec<Site>, AllocError>
    ensures { IfOk result (λ sites. sites.items ≡ sites_shown allowed.now shown.entry) }
{
    let mut sites = Vec::new(alloc);
    for at in 0..shown.record.log.as_slice().len() {
        sites.push(site_at(shown, allowed, at))?;
    }
    Ok(sites)
}

/// How many bytes so many pages have.
fn length_of(pages: u32) -> u64
    ensures { result ≡ PAGE_SIZE * pages }
{
    PAGE_SIZE as u64 * u64::from(pages)
}

/// How many bytes the pages have with which a module's memory opens.
///
/// # Errors
/// Where memory is refused.
pub fn opening_of(alloc: Global, parts: &Parts) -> Result<u64, AllocError>
    ensures { IfOk result (λ n. n ≡ opening_of parts.now) }
{
    let spaces = IndexSpaces::of(alloc, parts)?;
    let pages = match spaces.memories.first() {
        Some(memory) => memory.min,
        None => 0,
    };
    Ok(length_of(pages))
}
