//! By what the runs of a search are made.
ghost use Rattle.std.specs.Prelude.{◌<◌};

use selection::Sought;
use spawn_host::Request;

/// The call of a module's function, and what is looked for among the runs by that call.
#[derive(Clone, Copy)]
pub(crate) struct RunMaker<'m, 'a> {
    pub(crate) request: &'a Request<'m, 'a>,
    pub(crate) sought: &'a Sought<'a>,
    /// Among how many entries the points lie at which priorities change.
    pub(crate) entries: u32,
    ghost some: { 0 < entries },
}
