//! A module of one atomic add, from its bytes to printed lines. What is printed of each of the 4,096 is a clause of the
//! call.

use report_first::{FirstFault, first};
use std::alloc::Global;
use std::sync::Wait;
use std::test::Fail;
use std::thread::Threads;

/// The module that adds a number to the i32 at an address.
fn adding(address: u8, addend: u8) -> [u8; 46] {
    [
        0x00, 0x61, 0x73, 0x6d, 0x01, 0x00, 0x00, 0x00, 0x01, 0x05, 0x01, 0x60, 0x00, 0x01, 0x7f,
        0x03, 0x02, 0x01, 0x00, 0x05, 0x04, 0x01, 0x03, 0x01, 0x01, 0x07, 0x05, 0x01, 0x01, 0x66,
        0x00, 0x00, 0x0a, 0x0c, 0x01, 0x0a, 0x00, 0x41, address, 0x41, addend, 0xfe, 0x1e, 0x02,
        0x00, 0x0b,
    ]
}

/// Whether the call answers this of the bytes, and writes just this.
fn gives<R: Threads + Wait + Sync>(
    rt: &R,
    alloc: Global,
    bytes: &[u8],
    dump: u32,
    answer: Result<u8, FirstFault>,
    wrote: &str,
) -> bool {
    let mut out = Vec::new(alloc);
    first(rt, alloc, bytes, dump, &mut out) == answer && out.as_slice() == wrote.as_bytes()
}

#[test]
fn prints_the_bytes(rt: HostRuntime) -> Result<(), Fail> {
    let lines = "thread 0: ok i32:0\npages 1\nbytes 00 00 00 00 3f 00 00 00\n";
    assert!(rt; gives(&rt, rt.alloc(), &adding(4, 63), 8, Ok(0), lines));
    Ok(())
}
