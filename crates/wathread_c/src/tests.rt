//! Each call with ample memory.

use crate::calling::{wathread_call, wathread_instance_replay, wathread_instance_search};
use crate::checking::wathread_check;
use crate::instance_handle::InstanceHandle;
use crate::instances::{
    wathread_instance_free, wathread_instance_open, wathread_instance_pages,
    wathread_instance_read, wathread_instance_set, wathread_instance_write,
};
use crate::module_handle::ModuleHandle;
use crate::modules::{wathread_module_free, wathread_module_open, wathread_module_share};
use crate::replaying::wathread_replay;
use crate::running::wathread_run;
use crate::searching::wathread_search;
use crate::{CallAnswer, Options};
use std::alloc::Global;
use std::test::Fail;

/// `examples/atomic_add.wasm`: `f` adds 5 to the first word of its memory, and returns what stood there.
const ATOMIC_ADD: &[u8] = b"\
\x00\x61\x73\x6d\x01\x00\x00\x00\
\x01\x05\x01\x60\x00\x01\x7f\
\x03\x02\x01\x00\
\x05\x04\x01\x03\x01\x01\
\x07\x05\x01\x01\x66\x00\x00\
\x0a\x0c\x01\x0a\x00\x41\x00\x41\x05\xfe\x1e\x02\x00\x0b";

const OPTIONS: Options = Options {
    seed: 1,
    run: 1,
    fuel: 1_000_000,
    limit: 10_000,
    strategy: 0,
    depth: 3,
    states: 1000,
    dump: 0,
};

#[test]
fn a_check(rt: HostRuntime) -> Result<(), Fail> {
    let mut text = [0; 64];
    let mut answer = CallAnswer::none();
    let status = wathread_check(rt.alloc(), ATOMIC_ADD, &mut text, &mut answer);
    let said = b"{\"status\":0,\"functions\":1}\n";
    assert!(rt; status == 0 && answer.text == said.len());
    assert!(rt; text.starts_with(said));
    Ok(())
}

#[test]
fn a_run_that_is_replayed(rt: HostRuntime) -> Result<(), Fail> {
    let alloc = rt.alloc();
    let mut record = [0; 512];
    let mut answer = CallAnswer::none();
    let status = wathread_run(
        alloc,
        ATOMIC_ADD,
        b"f",
        &[],
        &OPTIONS,
        &mut record,
        &mut answer,
    );
    assert!(rt; status == 0 && answer.kind == 2 && answer.value == 0 && answer.bytes <= 512);
    let mut text = [0; 512];
    let Some(saved) = record.get(..answer.bytes) else {
        return Err(Fail::new("the record is longer than its buffer"));
    };
    let status = wathread_replay(alloc, ATOMIC_ADD, saved, &mut [], &mut text, &mut answer);
    assert!(rt; status == 0 && answer.bytes == 65536 && text.starts_with(b"{\"status\":0,"));
    Ok(())
}

#[test]
fn a_search(rt: HostRuntime) -> Result<(), Fail> {
    let mut text = [0; 512];
    let mut answer = CallAnswer::none();
    let status = wathread_search(
        rt.alloc(),
        ATOMIC_ADD,
        b"f",
        &[],
        &OPTIONS,
        &mut text,
        &mut answer,
    );
    assert!(rt; status == 0 && text.starts_with(b"{\"status\":0,\"verdict\":\"all\""));
    Ok(())
}

/// Opens an instance of the module of the atomic add.
fn open_add(alloc: Global, instance: &mut InstanceHandle) -> u32 {
    let mut module = ModuleHandle::closed();
    let mut answer = CallAnswer::none();
    let status = wathread_module_open(alloc, ATOMIC_ADD, &mut module, &mut [], &mut answer);
    if status != 0 {
        return status;
    }
    let status = wathread_instance_open(alloc, &mut module, instance);
    wathread_module_free(alloc, &mut module);
    status
}

/// Calls `f`: its status, and what it returned, if anything.
fn call_add(alloc: Global, instance: &mut InstanceHandle, record: &mut [u8]) -> (u32, CallAnswer) {
    let mut answer = CallAnswer::none();
    let status = wathread_call(alloc, instance, b"f", &[], &OPTIONS, record, &mut answer);
    (status, answer)
}

#[test]
fn a_counter_in_an_instance(rt: HostRuntime) -> Result<(), Fail> {
    let alloc = rt.alloc();
    let mut instance = InstanceHandle::closed();
    assert!(rt; open_add(alloc, &mut instance) == 0 && instance.is_open == 1);
    assert!(rt; wathread_instance_pages(alloc, &mut instance) == 1);
    let (status, answer) = call_add(alloc, &mut instance, &mut []);
    assert!(rt; status == 0 && answer.kind == 2 && answer.value == 0);
    let (status, answer) = call_add(alloc, &mut instance, &mut []);
    assert!(rt; status == 0 && answer.value == 5);
    let mut first = [0];
    assert!(rt; wathread_instance_read(alloc, &mut instance, 0, &mut first) == 0 && first == [10]);
    wathread_instance_free(alloc, &mut instance);
    assert!(rt; instance.is_open == 0);
    Ok(())
}

#[test]
fn a_record_without_room(rt: HostRuntime) -> Result<(), Fail> {
    let alloc = rt.alloc();
    let mut instance = InstanceHandle::closed();
    assert!(rt; open_add(alloc, &mut instance) == 0);
    let (status, answer) = call_add(alloc, &mut instance, &mut [0; 8]);
    assert!(rt; status == 0 && answer.bytes > 8);
    let mut record = [0; 512];
    let (status, answer) = call_add(alloc, &mut instance, &mut record);
    assert!(rt; status == 0 && answer.value == 0 && answer.bytes <= 512);
    wathread_instance_free(alloc, &mut instance);
    let Some(saved) = record.get(..answer.bytes) else {
        return Err(Fail::new("the record is longer than its buffer"));
    };
    assert!(rt; open_add(alloc, &mut instance) == 0);
    let (mut text, mut answer) = ([0; 512], CallAnswer::none());
    let status = wathread_instance_replay(alloc, &mut instance, saved, &mut text, &mut answer);
    assert!(rt; status == 0 && text.starts_with(b"{\"status\":0,"));
    let status = wathread_instance_replay(alloc, &mut instance, saved, &mut text, &mut answer);
    assert!(rt; status == 4);
    let (status, answer) = call_add(alloc, &mut instance, &mut []);
    assert!(rt; status == 0 && answer.value == 5);
    wathread_instance_free(alloc, &mut instance);
    Ok(())
}

#[test]
fn a_memory_is_read_and_written(rt: HostRuntime) -> Result<(), Fail> {
    let alloc = rt.alloc();
    let mut instance = InstanceHandle::closed();
    assert!(rt; open_add(alloc, &mut instance) == 0);
    assert!(rt; wathread_instance_write(alloc, &mut instance, 0, &[7, 1]) == 0);
    assert!(rt; wathread_instance_write(alloc, &mut instance, 65_535, &[7, 1]) == 3);
    assert!(rt; wathread_instance_set(alloc, &mut instance, &[7, 1]) == 3);
    let (status, answer) = call_add(alloc, &mut instance, &mut []);
    assert!(rt; status == 0 && answer.value == 263);
    wathread_instance_free(alloc, &mut instance);
    Ok(())
}

#[test]
fn closed_handles(rt: HostRuntime) -> Result<(), Fail> {
    let alloc = rt.alloc();
    let mut instance = InstanceHandle::closed();
    let (mut module, mut other) = (ModuleHandle::closed(), ModuleHandle::closed());
    assert!(rt; wathread_instance_open(alloc, &mut module, &mut instance) == 3);
    assert!(rt; wathread_module_share(alloc, &mut module, &mut other) == 3);
    let (status, answer) = call_add(alloc, &mut instance, &mut []);
    assert!(rt; status == 3 && answer.kind == 0);
    assert!(rt; wathread_instance_read(alloc, &mut instance, 0, &mut []) == 3);
    assert!(rt; wathread_instance_pages(alloc, &mut instance) == 0);
    let mut answer = CallAnswer::none();
    let status = wathread_module_open(alloc, b"\0asm", &mut module, &mut [], &mut answer);
    assert!(rt; status == 2 && module.is_open == 0 && answer.text > 0);
    Ok(())
}

#[test]
fn a_search_of_an_instance(rt: HostRuntime) -> Result<(), Fail> {
    let alloc = rt.alloc();
    let mut instance = InstanceHandle::closed();
    assert!(rt; open_add(alloc, &mut instance) == 0);
    let (mut text, mut answer) = ([0; 512], CallAnswer::none());
    let status = wathread_instance_search(
        alloc,
        &mut instance,
        b"f",
        &[],
        &OPTIONS,
        &mut text,
        &mut answer,
    );
    assert!(rt; status == 0 && text.starts_with(b"{\"status\":0,\"verdict\":\"all\""));
    wathread_instance_free(alloc, &mut instance);
    Ok(())
}
