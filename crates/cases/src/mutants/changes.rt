//! Changes of bytes, as a seed determines them.
ghost use Rattle.std.specs.Prelude.{◌<◌};

use std::alloc::AllocError;

/// How many changes are made of one thing at most.
const MOST_CHANGES: usize = 4;

/// A count that no input has room for, as a module spells it.
const SWOLLEN: [u8; 5] = [0xff, 0xff, 0xff, 0xff, 0x0f];

/// Numbers that look like any, one after the other (xorshift, with a multiplication).
#[derive(Drop)]
pub(crate) struct Numbers {
    state: u64,
}

impl Numbers {
    /// Those that a seed determines.
    pub(crate) fn new(seed: u64) -> Numbers {
        Numbers { state: seed | 1 }
    }

    fn next(&mut self) -> u64 {
        self.state ^= self.state >> 12;
        self.state ^= self.state << 25;
        self.state ^= self.state >> 27;
        self.state.wrapping_mul(0x2545_f491_4f6c_dd1d) >> 16
    }

    /// A number below this one.
    pub(crate) fn below(&mut self, bound: usize) -> usize
        requires { 0 < bound }
        ensures { result < bound }
    {
        let number = self.next() % bound as u64;
        number as usize
    }

    fn byte(&mut self) -> u8 {
        self.below(256) as u8
    }
}

/// Changes bytes in one way.
fn change_once(numbers: &mut Numbers, bytes: &mut Vec<u8>) -> Result<(), AllocError> {
    if bytes.is_empty() {
        bytes.push(numbers.byte())?;
        return Ok(());
    }
    let at = numbers.below(bytes.len());
    match numbers.below(16) {
        0..=4 => bytes[at] = numbers.byte(),
        5..=9 => bytes[at] ^= 1 << numbers.below(8),
        10 => bytes[at] = b'0' + numbers.below(10) as u8,
        11 => {
            let other = numbers.below(bytes.len());
            bytes.swap(at, other);
        }
        12 => bytes.insert(at, numbers.byte())?,
        13 => {
            bytes.remove(at);
        }
        14 => bytes.truncate(at),
        _ => {
            bytes.truncate(at);
            bytes.extend_from_slice(&SWOLLEN)?;
        }
    }
    Ok(())
}

/// Changes bytes in up to four ways.
pub(crate) fn change(numbers: &mut Numbers, bytes: &mut Vec<u8>) -> Result<(), AllocError> {
    let changes = numbers.below(MOST_CHANGES) + 1;
    for _ in 0..changes {
        change_once(numbers, bytes)?;
    }
    Ok(())
}
