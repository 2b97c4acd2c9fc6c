//! How many entries the log of a job takes where its module asks for more.
ghost use Rattle.std.specs.Prelude.{◌≤◌};
ghost use Rattle.types.specs.declared.limits.TheConstants.{MOST_LIMIT};

use report_command::{CallWords, EndLook, Job, RunJob};
use report_program::with_room;
use std::alloc::Global;
use std::test::Fail;
use test_cases::hold;
use test_modules::ATOMIC_ADD;
use types::MOST_LIMIT;

/// A module whose library makes three entries for one of the program's.
const THREEFOLD: &[u8] = b"\x00asm\x01\x00\x00\x00\x00\x13\x10wathread.entries\x01\x03";

/// One that says so by a number that ends nowhere.
const ENDLESS: &[u8] = b"\x00asm\x01\x00\x00\x00\x00\x13\x10wathread.entries\x01\x83";

/// One that says so by 0.
const NOTHING: &[u8] = b"\x00asm\x01\x00\x00\x00\x00\x13\x10wathread.entries\x01\x00";

/// How many entries the log of a run of a module takes, where so many are usual or the words say so many.
fn limit_of(alloc: Global, module: &[u8], limit: u32, is_limit_said: bool) -> u32
    requires low { 1 ≤ limit }
    requires high { limit ≤ MOST_LIMIT }
{
    let job = Job::Run(RunJob {
        file: "a.wasm",
        call: CallWords {
            invoke: "f",
            args: Vec::new(alloc),
            fuel: 1000,
        },
        on_words: false,
        limit,
        is_limit_said,
        save: None,
        memory_in: None,
        memory_out: None,
        look: EndLook::lines(0),
    });
    let Job::Run(run) = with_room(job, module) else {
        return 0;
    };
    run.limit
}

#[test]
fn a_module_asks_for_more_entries(rt: HostRuntime) -> Result<(), Fail> {
    let alloc = rt.alloc();
    hold(&[
        (
            "three times",
            limit_of(alloc, THREEFOLD, 1000, false) == 3000,
        ),
        (
            "at most all",
            limit_of(alloc, THREEFOLD, 400_000, false) == MOST_LIMIT,
        ),
        (
            "as the words say",
            limit_of(alloc, THREEFOLD, 1000, true) == 1000,
        ),
        (
            "no section",
            limit_of(alloc, ATOMIC_ADD, 1000, false) == 1000,
        ),
        ("no number", limit_of(alloc, ENDLESS, 1000, false) == 1000),
        ("none", limit_of(alloc, NOTHING, 1000, false) == 1000),
    ])
}
