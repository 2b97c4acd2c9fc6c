//! What is put together from code is what another tool made of the text.

use std::test::Fail;
use test_modules::{ADDING, ATOMIC_ADD};

#[test]
fn puts_a_module_together(rt: HostRuntime) -> Result<(), Fail> {
    let module = ADDING.bytes(rt.alloc())?;
    assert_eq!(rt; module.as_slice(), ATOMIC_ADD);
    Ok(())
}
