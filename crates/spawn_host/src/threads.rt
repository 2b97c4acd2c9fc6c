//! The threads of a run before their first turn.
ghost use Rattle.std.specs.Prelude.{◌≡◌, ◌<◌, ◌+◌, length, map, IfOk};
ghost use Rattle.types.specs.declared.parts.FuncType.{FuncType};
ghost use Rattle.types.specs.declared.parts.Body.{Body};
ghost use Rattle.types.specs.Values.{type_of};
ghost use Rattle.validate_typing.specs.Context.{imported_functions};
ghost use Rattle.interp.specs.Starts.{IsFunction};
ghost use Rattle.spawn_host.specs.Entries.{StartsThreads, IsThreadStart};
ghost use Rattle.spawn_host.specs.Threads.{IsCall, BeginsRequest, BeginBeside, AreSpawnable};
ghost use Rattle.interp.specs.Threads.{meaning_in};

use crate::request::Request;
use interp::Thread;
use std::alloc::{AllocError, Global};
use types::{MOST_FUNCTIONS, MOST_ITEMS, MOST_SPAWNED, Value};
use validate_module::ValidModule;

/// What stands in place of a spawned thread's number and argument.
const PLACEHOLDERS: [Value; 2] = [Value::I32(0), Value::I32(0)];

/// The index of a function of the module itself, with the imported ones counted.
#[tactic(auto, using(crate::proofs::Imported::few_imported))]
fn index_of(valid: &ValidModule, own: usize) -> u32
    requires { own < length valid.now.parts.functions }
    ensures { result ≡ length (imported_functions valid.now.parts) + own }
{
    let parts = valid.parts();
    prove!(parts.imports.len() <= MOST_ITEMS && parts.functions.len() <= MOST_FUNCTIONS);
    (valid.imported_functions() + own) as u32
}

/// A thread that is about to call a function of the module itself.
fn calling<'m>(
    alloc: Global,
    valid: &'m ValidModule,
    own: usize,
    args: &[Value],
    fuel: u64,
) -> Result<Thread<'m>, AllocError>
    requires within { own < length valid.now.parts.functions }
    requires call { (t : FuncType) × (body : Body) × IsFunction valid.now.parts own t body
        × (map type_of args.now ≡ t.params) }
    ensures { IfOk result (λ thread. (t : FuncType) (body : Body) → IsFunction valid.now.parts own t body
        → IsCall meaning_in valid.now.parts t body args.now fuel thread) }
{
    Thread::new(alloc, valid, index_of(valid, own), args, fuel)
}

/// Thread 0 of a run by a request: it is about to make the call.
///
/// # Errors
/// Where memory is refused.
pub fn first_thread<'m>(alloc: Global, request: &Request<'m, '_>) -> Result<Thread<'m>, AllocError>
    ensures { IfOk result (BeginsRequest meaning_in request.now) }
{
    let call = request.call();
    calling(
        alloc,
        request.module(),
        request.number(),
        call.args,
        call.fuel,
    )
}

/// The number of the function of the module itself that spawned threads call, from 0 without the imported ones.
pub fn thread_start(valid: &ValidModule) -> usize
    requires { StartsThreads valid.now.parts }
    ensures within { result < length valid.now.parts.functions }
    ensures start { (t : FuncType) × (body : Body) × IsThreadStart valid.now.parts result t body }
{
    let parts = valid.parts();
    prove!(parts.functions.len() == parts.bodies.len());
    let Some(own) = valid.exported("wasi_thread_start") else {
        unreachable!()
    };
    own
}

/// The threads that can be spawned: each is about to call the function for that.
pub fn spawnable_threads<'m>(
    alloc: Global,
    valid: &'m ValidModule,
    fuel: u64,
) -> Result<Vec<Thread<'m>>, AllocError>
    requires { StartsThreads valid.now.parts }
    ensures { IfOk result (λ threads. AreSpawnable meaning_in valid.now.parts PLACEHOLDERS fuel threads.items) }
{
    let own = thread_start(valid);
    let mut threads = Vec::with_capacity(alloc, MOST_SPAWNED)?;
    for _ in 0..MOST_SPAWNED {
        match calling(alloc, valid, own, &PLACEHOLDERS, fuel) {
            Ok(thread) => threads.push_reserved(thread),
            Err(refused) => return Err(refused),
        }
    }
    Ok(threads)
}

/// The threads beside thread 0 in a run by a request: those that can be spawned, or none, where the module can start
/// none.
///
/// # Errors
/// Where memory is refused.
pub(crate) fn other_threads<'m>(
    alloc: Global,
    request: &Request<'m, '_>,
) -> Result<Vec<Thread<'m>>, AllocError>
    ensures { IfOk result (λ threads. BeginBeside meaning_in request.now threads.items) }
{
    let module = request.module();
    if !module.starts_threads() {
        return Ok(Vec::new(alloc));
    }
    spawnable_threads(alloc, module, request.call().fuel)
}
