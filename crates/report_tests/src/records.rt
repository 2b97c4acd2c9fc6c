//! A record that can't be written to its end.

use crate::writers::{Narrow, RECORD};
use replay_text::{Record, WriteFault, read_record, write_record};
use std::alloc::Global;
use std::test::Fail;

/// Whether writing the record to a writer with so much room is answered so, and the writer has its front.
fn is_written(alloc: Global, record: &Record, room: usize, answer: Result<(), WriteFault>) -> bool {
    let mut narrow = Narrow::new(alloc, room, usize::MAX);
    write_record(record, &mut narrow) == answer && narrow.has_front(RECORD)
}

#[test]
fn writes_as_much_as_there_is_room_for(rt: HostRuntime) -> Result<(), Fail> {
    let record = read_record(rt.alloc(), RECORD)?;
    for room in 0..RECORD.len() {
        assert!(rt;
            is_written(rt.alloc(), &record, room, Err(WriteFault::Writer)),
            "{room}"
        );
    }
    assert!(rt; is_written(rt.alloc(), &record, RECORD.len(), Ok(())));
    Ok(())
}
