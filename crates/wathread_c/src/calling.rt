//! Calls, replays and searches of an instance.
ghost use Rattle.std.specs.Prelude.{◌≡◌, ◌==◌, ◌||◌, nat_le, if◌then◌else◌, length};
ghost use Rattle.host_instances.specs.Instances.{CanHave, left_by};
ghost use Rattle.wathread_c.specs.Answers.{no_answer};
ghost use Rattle.wathread_c.specs.Kept.{CallsHeld, CallsNamed, CallsOver, ReplaysHeld, ReplaysOver, SearchesHeld};
ghost use Rattle.wathread_c.specs.Kept.{SearchesNamedOver, SearchesOver};

use crate::answer::CallAnswer;
use crate::given::{Options, Word, values_of};
use crate::instance_handle::InstanceHandle;
use crate::objects::{refuse, run_line, search_line, tell};
use crate::running::keep;
use crate::searching::NO_NAME;
use host_instances::Instance;
use spawn_host::EndState;
use std::alloc::Global;

/// Whether a buffer has room for so many bytes, or is empty, so that they aren't wanted.
fn has_room(buffer: &[u8], count: usize) -> bool
    ensures { result ≡ (length buffer.now == 0) || nat_le count (length buffer.now) }
{
    buffer.is_empty() || count <= buffer.len()
}

/// Makes an instance what a run left, where there is room for what is told of it.
fn settle(held: &mut Instance, has_room: bool, end: EndState)
    requires { CanHave held.old.parts end.pages end.bytes.items }
    ensures { held.new ≡ (if has_room then left_by end held.old else held.old) }
{
    if has_room {
        held.keep(end);
    }
}

fn call_named(
    alloc: Global,
    held: &mut Instance,
    name: &str,
    args: &[Word],
    options: &Options,
    record: &mut [u8],
    answer: &mut CallAnswer,
) -> u32
    requires { answer.old ≡ no_answer }
    ensures { CallsNamed held.old held.new name.now args.now options.now record.old record.new answer.new result }
{
    let Ok(values) = values_of(alloc, args) else {
        return 5;
    };
    let made = match held.run(alloc, name, &values, &options.plan()) {
        Ok(made) => made,
        Err(fault) => return fault.status(),
    };
    let Some(status) = keep(alloc, &made, record, answer) else {
        return 5;
    };
    settle(held, has_room(record, answer.bytes), made.end);
    status
}

fn call_held(
    alloc: Global,
    held: &mut Instance,
    name: &[u8],
    args: &[Word],
    options: &Options,
    record: &mut [u8],
    answer: &mut CallAnswer,
) -> u32
    requires { answer.old ≡ no_answer }
    ensures { CallsOver held.old held.new name.now args.now options.now record.old record.new answer.new result }
{
    match str::from_utf8(name) {
        Ok(name) => call_named(alloc, held, name, args, options, record, answer),
        Err(_) => 3,
    }
}

/// Calls an exported function of an instance's module, which begins with the instance's memory: the run of a number by a
/// seed, whose record goes into `record`, and whose memory the instance has then. Where the record doesn't fit its buffer,
/// which isn't empty, the instance stays. Answers the status: 0 where all threads ended well, 1 for a trap or stop, 3 of a
/// call or where the handle is closed, 5 where memory is refused; from 3 on the instance stays.
#[unsafe(no_mangle)]
pub extern "C" fn wathread_call(
    alloc: Global,
    instance: &mut InstanceHandle,
    name: &[u8],
    args: &[Word],
    options: &Options,
    record: &mut [u8],
    answer: &mut CallAnswer,
) -> u32
    ensures { CallsHeld instance.old.slot.held instance.new.slot.held name.now args.now options.now
        record.old record.new answer.new result }
{
    *answer = CallAnswer::none();
    let Some(mut held) = instance.take(alloc) else {
        return 3;
    };
    let status = call_held(alloc, &mut held, name, args, options, record, answer);
    *instance = InstanceHandle::open(held);
    status
}

fn replay_held(
    alloc: Global,
    held: &mut Instance,
    record: &[u8],
    text: &mut [u8],
    answer: &mut CallAnswer,
) -> u32
    requires { answer.old ≡ no_answer }
    ensures { ReplaysOver held.old held.new «record».now text.old text.new answer.new result }
{
    let end = match held.replay(alloc, record) {
        Ok(end) => end,
        Err(fault) => return refuse(alloc, fault, text, answer),
    };
    let Ok(line) = run_line(alloc, &end) else {
        return 5;
    };
    settle(held, has_room(text, line.text.len()), end);
    tell(Ok(line), text, answer)
}

/// Runs a record of a call again that began with an instance's memory, which the instance's is then as that run left it.
/// What became of each thread is told as an object of JSON in `text`; where it doesn't fit there, and `text` isn't empty,
/// the instance stays. Answers the status: 0 where all threads ended well, 1 for a trap or stop, 3 where the handle is
/// closed, 4 of a record, 5 where memory is refused; from 3 on the instance stays.
#[unsafe(no_mangle)]
pub extern "C" fn wathread_instance_replay(
    alloc: Global,
    instance: &mut InstanceHandle,
    record: &[u8],
    text: &mut [u8],
    answer: &mut CallAnswer,
) -> u32
    ensures { ReplaysHeld instance.old.slot.held instance.new.slot.held «record».now text.old text.new
        answer.new result }
{
    *answer = CallAnswer::none();
    let Some(mut held) = instance.take(alloc) else {
        return 3;
    };
    let status = replay_held(alloc, &mut held, record, text, answer);
    *instance = InstanceHandle::open(held);
    status
}

fn search_named(
    alloc: Global,
    held: &Instance,
    name: &str,
    args: &[Word],
    options: &Options,
    text: &mut [u8],
    answer: &mut CallAnswer,
) -> u32
    requires { answer.old ≡ no_answer }
    ensures { SearchesNamedOver held.now name.now args.now options.now text.old text.new answer.new result }
{
    let Ok(values) = values_of(alloc, args) else {
        return 5;
    };
    let Options { states, dump, .. } = *options;
    match held.endings(alloc, name, &values, states, dump) {
        Ok(all) => tell(search_line(alloc, &all, states), text, answer),
        Err(fault) => refuse(alloc, fault, text, answer),
    }
}

fn search_held(
    alloc: Global,
    held: &Instance,
    name: &[u8],
    args: &[Word],
    options: &Options,
    text: &mut [u8],
    answer: &mut CallAnswer,
) -> u32
    requires { answer.old ≡ no_answer }
    ensures { SearchesOver held.now name.now args.now options.now text.old text.new answer.new result }
{
    match str::from_utf8(name) {
        Ok(name) => search_named(alloc, held, name, args, options, text, answer),
        Err(_) => refuse(alloc, NO_NAME, text, answer),
    }
}

/// Goes through every order of the threads of a call that begins with an instance's memory, as `wathread_search` does,
/// and tells all endings as an object of JSON in `text`. The instance stays. Answers the status: 0 where all is well, 1
/// where it isn't or isn't known, 3 of a call or where the handle is closed, 5 where memory is refused.
#[unsafe(no_mangle)]
pub extern "C" fn wathread_instance_search(
    alloc: Global,
    instance: &mut InstanceHandle,
    name: &[u8],
    args: &[Word],
    options: &Options,
    text: &mut [u8],
    answer: &mut CallAnswer,
) -> u32
    ensures searches { SearchesHeld instance.old.slot.held name.now args.now options.now text.old text.new
        answer.new result }
    ensures stays { instance.new.slot.held ≡ instance.old.slot.held }
{
    *answer = CallAnswer::none();
    let Some(held) = instance.take(alloc) else {
        return 3;
    };
    let status = search_held(alloc, &held, name, args, options, text, answer);
    *instance = InstanceHandle::open(held);
    status
}
