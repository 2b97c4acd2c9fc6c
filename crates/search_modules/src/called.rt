//! What is searched.

ghost use Rattle.std.specs.Prelude.{◌≡◌, true};
ghost use Rattle.live_locals.specs.Live.{AreSound};
ghost use Rattle.search_modules.specs.Searching.{is_callable};

use allowed_races::Allowed;
use live_locals::LiveTables;
use types::Value;
use validate_module::ValidModule;

/// A call of a function of a module, and how many first bytes of the memory are looked at in the end.
#[derive(Drop)]
pub struct Searched<'m> {
    pub valid: &'m ValidModule,
    /// Which locals are live at each place of its code.
    pub live: LiveTables,
    /// The opening memory: its bytes, and how many pages it may have.
    pub opening: Vec<u8>,
    pub max: u32,
    /// The number of the function that thread 0 calls, from 0 without the imported ones, and its arguments.
    pub main: usize,
    pub args: Vec<Value>,
    /// The number of the function that spawned threads call.
    pub worker: Option<usize>,
    pub dump: usize,
    /// What may race.
    pub allowed: Allowed<'m>,
    ghost sound: { AreSound valid.now live },
    ghost callable: { is_callable valid.now.parts opening.items max main args.items worker ≡ true },
}
