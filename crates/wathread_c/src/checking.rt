//! The check of a module.
ghost use Rattle.wathread_c.specs.Calls.{Checks};

use crate::answer::CallAnswer;
use crate::objects::{accepted_line, refuse, tell};
use host_calls::functions_of;
use std::alloc::Global;

/// Checks a module. Answers the status: 0 where it is accepted, 2 where it is refused, 5 where memory is.
///
/// The object of JSON goes into `text`.
#[unsafe(no_mangle)]
pub extern "C" fn wathread_check(
    alloc: Global,
    module: &[u8],
    text: &mut [u8],
    answer: &mut CallAnswer,
) -> u32
    ensures { Checks «module».now text.old text.new answer.new result }
{
    *answer = CallAnswer::none();
    match functions_of(alloc, module) {
        Ok(count) => tell(accepted_line(alloc, count), text, answer),
        Err(fault) => refuse(alloc, fault, text, answer),
    }
}
