//! The words of the faults of opening a memory.

use shared_memory_sequential::OpenFault;
use std::alloc::Global;
use std::test::Fail;
use test_cases::hold;

/// Whether a fault is printed as this text.
fn is_printed(alloc: Global, fault: OpenFault, text: &str) -> Result<bool, Fail> {
    Ok(format!(in alloc; "{fault}")?.as_str() == text)
}

#[test]
fn faults(rt: HostRuntime) -> Result<(), Fail> {
    let alloc = rt.alloc();
    hold(&[
        (
            "no memory",
            is_printed(alloc, OpenFault::NoMemory, "no memory")?,
        ),
        (
            "a limit",
            is_printed(alloc, OpenFault::PastLimit, "past a limit")?,
        ),
    ])
}
