//! What a run is asked to call.

use types::Value;

/// A call of an exported function, with the budget of each thread: what a run is asked for, from the command line down
/// to thread 0.
#[derive(Clone, Copy)]
pub struct Call<'a> {
    /// The name under which the module exports the function.
    pub name: &'a str,
    /// The arguments, in the order of the function's parameters, and of their types.
    pub args: &'a [Value],
    /// How many units each thread may spend: any number, and 0 to 1,000,000,000,000 where the run is recorded.
    pub fuel: u64,
}
