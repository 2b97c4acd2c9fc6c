//! A replay of a record.
ghost use Rattle.wathread_c.specs.Calls.{Replays};

use crate::answer::{CallAnswer, put};
use crate::objects::{refuse, run_line, tell};
use host_calls::replay_of;
use std::alloc::Global;

/// Runs a record again. What it left is told as an object of JSON in `text`, and the memory's bytes go into `bytes`.
/// Answers the status: 0 where all threads ended well, 1 for a trap or stop, 2 of a module that is refused, 4 of a
/// record, 5 where memory is.
#[unsafe(no_mangle)]
pub extern "C" fn wathread_replay(
    alloc: Global,
    module: &[u8],
    record: &[u8],
    bytes: &mut [u8],
    text: &mut [u8],
    answer: &mut CallAnswer,
) -> u32
    ensures { Replays «module».now «record».now bytes.old bytes.new text.old text.new answer.new result }
{
    *answer = CallAnswer::none();
    match replay_of(alloc, module, record) {
        Ok(end) => {
            put(bytes, &end.bytes);
            answer.bytes = end.bytes.len();
            tell(run_line(alloc, &end), text, answer)
        }
        Err(fault) => refuse(alloc, fault, text, answer),
    }
}
