//! Numbers in bytes, the lowest byte first (Core specification 1.0, section 4.3.1, "Storage").
ghost use Rattle.std.specs.Prelude.{◌≡◌, ◌+◌, ◌*◌, ◌%◌, ◌^◌, ◌<◌, ◌≤◌, ◌⊎◌, length, take, drop};
ghost use Rattle.std.specs.List.{splice};
ghost use Rattle.shared_memory.specs.Numbers.{le_number, le_bytes};
ghost use Rattle.shared_memory.specs.Memory.{combined};

use crate::low_bytes;
use types::RmwOp;

/// The number in `width` bytes from `at` on.
pub fn read(bytes: &[u8], at: usize, width: usize) -> u64
    requires inside { at + width ≤ length bytes.now }
    requires narrow { width ≤ 8 }
    ensures { result ≡ le_number (take width (drop at bytes.now)) }
{
    // Where the width is known, the compiler makes one load of the loop.
    match width {
        1 => read_each(bytes, at, 1),
        2 => read_each(bytes, at, 2),
        4 => read_each(bytes, at, 4),
        8 => read_each(bytes, at, 8),
        _ => read_each(bytes, at, width),
    }
}

/// The same, byte by byte from the top down.
#[inline(always)]
fn read_each(bytes: &[u8], at: usize, width: usize) -> u64
    requires inside { at + width ≤ length bytes.now }
    requires narrow { width ≤ 8 }
    ensures { result ≡ le_number (take width (drop at bytes.now)) }
{
    let mut number = 0;
    for i in (0..width).rev() {
        number = number * 256 + u64::from(bytes[at + i]);
    }
    number
}

/// Writes a number to `width` bytes from `at` on; what doesn't fit is cut off at the top.
pub fn write(bytes: &mut [u8], at: usize, width: usize, number: u64)
    requires { at + width ≤ length bytes.old }
    ensures { bytes.new ≡ splice bytes.old at (at + width) (le_bytes width number) }
{
    // Where the width is known, the compiler makes one store of the loop.
    match width {
        1 => write_each(bytes, at, 1, number),
        2 => write_each(bytes, at, 2, number),
        4 => write_each(bytes, at, 4, number),
        8 => write_each(bytes, at, 8, number),
        _ => write_each(bytes, at, width, number),
    }
}

/// The same, byte by byte from the bottom up.
#[inline(always)]
fn write_each(bytes: &mut [u8], at: usize, width: usize, number: u64)
    requires { at + width ≤ length bytes.old }
    ensures { bytes.new ≡ splice bytes.old at (at + width) (le_bytes width number) }
{
    let mut rest = number;
    for i in 0..width {
        bytes[at + i] = (rest % 256) as u8;
        rest /= 256;
    }
}

/// What a read-modify-write makes of the old value and its operand, modulo the width (threads proposal, section
/// "Read-Modify-Write").
#[inline]
pub fn combine(op: RmwOp, width: u8, old: u64, value: u64) -> u64
    requires width { (width ≡ 1) ⊎ (width ≡ 2) ⊎ (width ≡ 4) ⊎ (width ≡ 8) }
    requires value { value < 2 ^ (8 * width) }
    ensures { result ≡ combined op width old value }
{
    match op {
        RmwOp::Add => low_bytes(old.wrapping_add(value), width),
        RmwOp::Sub => low_bytes(old.wrapping_sub(value), width),
        RmwOp::And => old & value,
        RmwOp::Or => old | value,
        RmwOp::Xor => old ^ value,
        RmwOp::Xchg => value,
    }
}
