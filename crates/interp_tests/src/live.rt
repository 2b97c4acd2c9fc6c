//! Which locals of a ticket lock are live.

use binary::read;
use live_locals::{LiveTables, live_tables};
use std::alloc::{AllocError, Global as Alloc};
use std::test::Fail;
use test_cases::hold;
use test_modules::TICKET_LOCK;
use validate::validate;

/// The tables of a module.
fn tables_of(alloc: Alloc, bytes: &[u8]) -> Result<Option<LiveTables>, AllocError> {
    let Ok(module) = read(alloc, bytes) else {
        return Ok(None);
    };
    match validate(alloc, module) {
        Ok(module) => Ok(Some(live_tables(alloc, &module)?)),
        Err(_) => Ok(None),
    }
}

/// Whether the first locals of the function that locks are live or dead at a place: its ticket, and whom it serves.
fn are(tables: &LiveTables, place: usize, ticket: bool, served: bool) -> bool {
    tables.is_live(0, place, 0) == ticket && tables.is_live(0, place, 1) == served
}

/// The function that locks draws a ticket at place 2, and keeps it at 3. In a loop from place 6 to 18 it reads who is
/// served, leaves the loop at 12 where that is its ticket, and waits at 16.
#[test]
fn dead_tickets_are_dead(rt: HostRuntime) -> Result<(), Fail> {
    let Some(tables) = tables_of(rt.alloc(), TICKET_LOCK)? else {
        return Err(Fail::new("no tables"));
    };
    hold(&[
        ("before it is drawn", are(&tables, 2, false, false)),
        ("drawn", are(&tables, 4, true, false)),
        ("before the load", are(&tables, 7, true, false)),
        ("loaded", are(&tables, 9, true, true)),
        ("before the branch", are(&tables, 12, true, true)),
        ("waiting", are(&tables, 17, true, false)),
        ("left", are(&tables, 21, false, false)),
        ("returned", are(&tables, 22, false, false)),
        ("no such place", are(&tables, 23, true, true)),
        ("a local of a loop", tables.is_live(3, 4, 2)),
        ("no parameter", !tables.is_live(3, 4, 0)),
    ])
}
