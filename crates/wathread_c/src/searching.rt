//! A search through every order.
ghost use Rattle.std.specs.Prelude.{◌≡◌};
ghost use Rattle.wathread_c.specs.Answers.{no_answer};
ghost use Rattle.wathread_c.specs.Calls.{Searches, SearchesNamed};

use crate::answer::CallAnswer;
use crate::given::{Options, Word, values_of};
use crate::objects::{refuse, search_line, tell};
use host_calls::{HostFault, endings_of};
use spawn_host::CallFault;
use std::alloc::Global;

/// What a name comes to that is no UTF-8, as no exported one is.
pub(crate) const NO_NAME: HostFault = HostFault::Call(CallFault::UnknownExport);

fn search_named(
    alloc: Global,
    module: &[u8],
    name: &str,
    args: &[Word],
    options: &Options,
    text: &mut [u8],
    answer: &mut CallAnswer,
) -> u32
    requires { answer.old ≡ no_answer }
    ensures { SearchesNamed «module».now name.now args.now options.now text.old text.new answer.new result }
{
    let Ok(values) = values_of(alloc, args) else {
        return 5;
    };
    let Options { states, dump, .. } = *options;
    match endings_of(alloc, module, name, &values, states, dump) {
        Ok(all) => tell(search_line(alloc, &all, states), text, answer),
        Err(fault) => refuse(alloc, fault, text, answer),
    }
}

/// Goes through every order of the threads' entries, and tells all endings as an object of JSON in `text`. Answers the
/// status: 0 where all is well, 1 where it isn't or isn't known, 2 of a module that is refused, 3 of a call, 5 where
/// memory is.
#[unsafe(no_mangle)]
pub extern "C" fn wathread_search(
    alloc: Global,
    module: &[u8],
    name: &[u8],
    args: &[Word],
    options: &Options,
    text: &mut [u8],
    answer: &mut CallAnswer,
) -> u32
    ensures { Searches «module».now name.now args.now options.now text.old text.new answer.new result }
{
    *answer = CallAnswer::none();
    match str::from_utf8(name) {
        Ok(name) => search_named(alloc, module, name, args, options, text, answer),
        Err(_) => refuse(alloc, NO_NAME, text, answer),
    }
}
