//! The tables of a module: which locals are live at each place of each body.

ghost use Rattle.std.specs.Prelude.{◌≡◌, IfOk, length};
ghost use Rattle.live_locals.specs.Live.{IsSound, AreSound, is_live_at, row_at};

use crate::analysis::found;
use crate::checking::is_sound;
use crate::rows::{is_live, row_at};
use std::alloc::{AllocError, Global};
use std::marker::Model;
use types::{Body, Sequence};
use validate_module::ValidModule;
use validate_typing::Table;

/// How many marks the tables of a module have, at most. A body that would have more has none.
pub const MOST_MARKS: usize = 16_777_216;

/// Of each body of a module, which locals are live at each of its places. In contracts it is the marks: of each body,
/// of each place, of each local. What there is no mark for is live.
#[derive(Drop)]
pub struct LiveTables {
    tables: Vec<Sequence<Sequence<bool>>>,
}

impl Model for LiveTables {
    ghost use Rattle.std.specs.Prelude.{List, Bool};

    ghost Value = { List (List (List Bool)) };

    ghost view = { λ t. t.tables.items };
}

impl LiveTables {
    /// The marks of a place of a function's body; functions of the module itself, from 0.
    pub fn row(&self, function: usize, place: usize) -> &[bool]
        ensures { result.now ≡ row_at (row_at self.now function) place }
    {
        match self.tables.get(function) {
            Some(rows) => row_at(rows.as_slice(), place),
            None => &[],
        }
    }

    /// Whether a local is live at a place of a function's body; functions of the module itself, from 0.
    pub fn is_live(&self, function: usize, place: usize, local: usize) -> bool
        ensures { result ≡ is_live_at self.now function place local }
    {
        is_live(self.row(function, place), local)
    }
}

/// How many marks a body has with so many locals.
fn marks_of(body: &Body, locals: usize) -> usize {
    body.code.len().saturating_add(1).saturating_mul(locals)
}

/// Sound marks for a body with so many locals: what the analysis finds, if the checker accepts it; else none, by which
/// all is live.
fn live_table(
    alloc: Global,
    body: &Body,
    table: &Table,
    locals: usize,
) -> Result<Sequence<Sequence<bool>>, AllocError>
    ensures { IfOk result (λ live. IsSound body.now.code table.now live) }
{
    let rows = found(alloc, body.code.as_slice(), table, locals)?;
    if is_sound(body.code.as_slice(), table, rows.as_slice()) {
        return Ok(Sequence::from_vec(rows));
    }
    Ok(Sequence::from_vec(Vec::new(alloc)))
}

/// Sound marks for a body with so many locals, if there are any and at most so many; else none.
fn live_table_within(
    alloc: Global,
    body: &Body,
    table: &Table,
    locals: usize,
    most: usize,
) -> Result<Sequence<Sequence<bool>>, AllocError>
    ensures { IfOk result (λ live. IsSound body.now.code table.now live) }
{
    if locals == 0 || marks_of(body, locals) > most {
        return Ok(Sequence::from_vec(Vec::new(alloc)));
    }
    live_table(alloc, body, table, locals)
}

/// How many locals a function of the module itself has, the parameters among them.
fn local_count(module: &ValidModule, own: usize, body: &Body) -> usize {
    match module.func_type(own) {
        Some(func_type) => func_type.params.len().saturating_add(body.locals.len()),
        None => 0,
    }
}

/// Sound tables of marks for a module.
///
/// # Errors
/// Where memory is refused.
pub fn live_tables(alloc: Global, module: &ValidModule) -> Result<LiveTables, AllocError>
    ensures { IfOk result (λ tables. AreSound «module».now tables) }
{
    let bodies = module.parts().bodies.as_slice();
    let branches = module.tables();
    let mut tables = Vec::new(alloc);
    let mut left = MOST_MARKS;
    for own in 0..bodies.len() {
        let body = &bodies[own];
        let locals = local_count(module, own, body);
        tables.push(live_table_within(alloc, body, &branches[own], locals, left)?)?;
        left = left.saturating_sub(marks_of(body, locals));
    }
    Ok(LiveTables { tables })
}
