//! How faults of reading are printed, and how the end of a thread is.

use binary_wire::{Fault, ReadFault, Refusal};
use std::alloc::AllocError;
use std::fmt::Write;
use std::test::Fail;
use test_cases::hold;
use types::{Outcome, Stop, Value};

/// A refusal, the fault that it is, and that there is no memory, each as it is printed.
fn print(text: &mut String, refused: Refusal) -> Result<(), AllocError> {
    writeln!(text, "{refused}")?;
    writeln!(text, "{}", ReadFault::from(refused))?;
    writeln!(text, "{}", ReadFault::OutOfMemory)
}

const LINES: &str =
    "number too long, or wrong unused bits at 7\nnumber too long, or wrong unused bits at 7\nno memory\n";

#[test]
fn printed_faults(rt: HostRuntime) -> Result<(), Fail> {
    let mut text = String::new(rt.alloc());
    let refused = Refusal {
        kind: Fault::Number,
        offset: 7,
    };
    print(&mut text, refused)?;
    hold(&[("the lines", text.as_str() == LINES)])
}

/// Whether an outcome is printed as this text.
fn is_printed(rt: &HostRuntime, outcome: Outcome, text: &str) -> Result<bool, Fail> {
    Ok(format!(in rt.alloc(); "{outcome}")?.as_str() == text)
}

#[test]
fn prints_ends(rt: HostRuntime) -> Result<(), Fail> {
    let done = Outcome::Done(Some(Value::I32(17)));
    let stop = Outcome::Stop(Stop::AsleepForGood);
    hold(&[
        ("what is done", is_printed(&rt, done, "ok i32:17")?),
        ("a stop", is_printed(&rt, stop, "stop asleep for good")?),
    ])
}
