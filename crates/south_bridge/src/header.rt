//! The headers of the chip's functions.
ghost use Rattle.std.specs.Prelude.{◌≡◌, slice_index};

/// The byte of a header at an offset, and 0 past its end.
pub fn header_byte(header: &[u8; 16], off: u8) -> u8
    ensures byte { result ≡ slice_index header.now off }
{
    if off < 16 {
        header[usize::from(off)]
    } else {
        0
    }
}
