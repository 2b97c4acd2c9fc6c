//! Modules of one function: put together from its code, or whole.

use std::alloc::{AllocError, Global};

/// A module with one function, exported as `f`, that has no parameters and no locals.
#[derive(Clone, Copy)]
pub struct Small<'a> {
    /// The type of its result, if it has one.
    pub output: &'a [u8],
    /// The memory section, if there is one.
    pub memory: &'a [u8],
    /// The function's code without its last `end`; it is shorter than 120 bytes.
    pub body: &'a [u8],
}

/// The bytes that each module begins with.
const HEADER: &[u8] = b"\x00\x61\x73\x6d\x01\x00\x00\x00";

/// One shared page: `(memory 1 1 shared)`.
pub const SHARED: &[u8] = b"\x05\x04\x01\x03\x01\x01";

/// One page that isn't shared: `(memory 1)`.
pub const PLAIN: &[u8] = b"\x05\x03\x01\x00\x01";

pub const I32: &[u8] = b"\x7f";

pub const I64: &[u8] = b"\x7e";

/// A function that gives an i32; one shared page.
const GIVING_I32: Small<'static> = Small {
    output: I32,
    memory: SHARED,
    body: b"",
};

/// A function that gives nothing; one shared page.
pub const GIVING_NOTHING: Small<'static> = Small {
    output: b"",
    ..GIVING_I32
};

/// Puts the pieces behind the bytes, one after the other.
fn push_all(bytes: &mut Vec<u8>, pieces: &[&[u8]]) -> Result<(), AllocError> {
    for piece in pieces {
        bytes.extend_from_slice(piece)?;
    }
    Ok(())
}

impl Small<'_> {
    /// Puts the module behind the bytes.
    pub(crate) fn push(&self, module: &mut Vec<u8>) -> Result<(), AllocError> {
        let count = u8::try_from(self.output.len()).unwrap_or(u8::MAX);
        let length = u8::try_from(self.body.len()).unwrap_or(u8::MAX);
        let size = length.wrapping_add(2);
        let signature = [1, count.wrapping_add(4), 1, 0x60, 0, count];
        let code = [0x0a, size.wrapping_add(2), 1, size, 0];
        let pieces: [&[u8]; 9] = [
            HEADER,
            &signature,
            self.output,
            b"\x03\x02\x01\x00",
            self.memory,
            b"\x07\x05\x01\x01\x66\x00\x00",
            &code,
            self.body,
            &[0x0b],
        ];
        push_all(module, &pieces)
    }

    /// The module's bytes.
    pub fn bytes(&self, alloc: Global) -> Result<Vec<u8>, AllocError> {
        let mut module = Vec::new(alloc);
        self.push(&mut module)?;
        Ok(module)
    }
}

/// Adds 5 to the i32 at 0, and gives what was there: the module of `examples/atomic_add.wasm`.
///
/// ```wat
/// (i32.atomic.rmw.add (i32.const 0) (i32.const 5))
/// ```
pub const ADDING: Small<'static> = Small {
    body: b"\x41\x00\x41\x05\xfe\x1e\x02\x00",
    ..GIVING_I32
};

/// Stores eight bytes over two words, and gives 0.
///
/// ```wat
/// (i64.store (i32.const 4) (i64.const 0x1122334455667788))
/// i32.const 0
/// ```
pub const TWO_WORDS: Small<'static> = Small {
    body: b"\x41\x04\x42\x88\xef\x99\xab\xc5\xe8\x8c\x91\x11\x37\x03\x00\x41\x00",
    ..GIVING_I32
};

/// Loads behind the last byte of the page.
///
/// ```wat
/// (i32.atomic.load (i32.const 65536))
/// ```
pub const OUTSIDE: Small<'static> = Small {
    body: b"\x41\x80\x80\x04\xfe\x10\x02\x00",
    ..GIVING_I32
};

/// Stores eight bytes at 65532, where the page has four more, and gives 0.
///
/// ```wat
/// (i64.store (i32.const 65532) (i64.const -1))
/// i32.const 0
/// ```
pub const OVER_THE_END: Small<'static> = Small {
    body: b"\x41\xfc\xff\x03\x42\x7f\x37\x03\x00\x41\x00",
    ..GIVING_I32
};

/// Grows the memory by a page, which is past its maximum, and gives its size.
///
/// ```wat
/// (drop (memory.grow (i32.const 1)))
/// memory.size
/// ```
pub const GROWING: Small<'static> = Small {
    body: b"\x41\x01\x40\x00\x1a\x3f\x00",
    ..GIVING_I32
};

/// Waits at 0 while 0 is there, with the timeout 5.
///
/// ```wat
/// (memory.atomic.wait32 (i32.const 0) (i32.const 0) (i64.const 5))
/// ```
pub const WAITING: Small<'static> = Small {
    body: b"\x41\x00\x41\x00\x42\x05\xfe\x01\x02\x00",
    ..GIVING_I32
};

/// Waits at 0 while 0 is there, without a timeout.
///
/// ```wat
/// (memory.atomic.wait32 (i32.const 0) (i32.const 0) (i64.const -1))
/// ```
pub const WAITING_FOR_GOOD: Small<'static> = Small {
    body: b"\x41\x00\x41\x00\x42\x7f\xfe\x01\x02\x00",
    ..GIVING_I32
};

/// Adds 1 to the i32 at 0 in each round of a loop that doesn't end: five units a round.
///
/// ```wat
/// (loop $round
///   (drop (i32.atomic.rmw.add (i32.const 0) (i32.const 1)))
///   br $round)
/// ```
pub const ENDLESS: Small<'static> = Small {
    body: b"\x03\x40\x41\x00\x41\x01\xfe\x1e\x02\x00\x1a\x0c\x00\x0b",
    ..GIVING_NOTHING
};
