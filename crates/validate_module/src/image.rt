//! The bytes of the opening memory.

ghost use Rattle.std.specs.Prelude.{◌≡◌, ◌+◌, ◌*◌, ◌≤◌, length, IfOk};
ghost use Rattle.std.specs.List.{All};
ghost use Rattle.types.specs.declared.limits.TheConstants.{PAGE_SIZE};
ghost use Rattle.validate_typing.specs.Image.{offset_of, with_segment};
ghost use Rattle.validate_module.specs.Pages.{image_of};

use std::alloc::{AllocError, Global};
use types::{DataSegment, PAGE_SIZE};
use validate_module_rules::offset;

/// Writes a segment's bytes at its offset.
fn write_segment(image: &mut [u8], segment: &DataSegment)
    requires { offset_of segment.now.offset + length segment.now.bytes ≤ length image.old }
    ensures { image.new ≡ with_segment image.old segment.now }
{
    let start = offset(segment.offset.as_slice()) as usize;
    let bytes = segment.bytes.as_slice();
    let place = &mut image[start..start + bytes.len()];
    place.copy_from_slice(bytes);
}

/// So many pages of zeros, with the segments written over them in order (Core specification 1.0, section 4.5.4).
pub fn opening_image(
    alloc: Global,
    pages: u32,
    segments: &[DataSegment],
) -> Result<Vec<u8>, AllocError>
    requires { All (λ d. offset_of d.offset + length d.bytes ≤ PAGE_SIZE * pages) segments.now }
    ensures { IfOk result (λ image. image.items ≡ image_of pages segments.now) }
{
    let mut image = vec![in alloc; 0; PAGE_SIZE * pages as usize]?;
    for segment in segments {
        write_segment(&mut image, segment);
    }
    Ok(image)
}
