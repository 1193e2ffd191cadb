//! The library's example: what a processor fetches first.

use board_base::Target;
use board_example::reset_vector;
use board_spec::Reply;
use std::test::Fail;

/// The ROM's byte at offset o is o mod 256; FFFFFFF0h is its offset FFF0h.
#[test]
fn the_first_fetch_is_from_the_rom(rt: HostRuntime) -> Result<(), Fail> {
    let mut rom = Vec::new(rt.alloc());
    for offset in 0..0x1_0000_u32 {
        rom.push((offset % 0x100) as u8)?;
    }
    let reply = reset_vector(rt.alloc(), rom)?;
    let due = Reply::Bus {
        value: Some(0xF3F2_F1F0),
        target: Target::Rom(0xFFF0),
        denial: None,
    };
    assert!(rt; reply == due);
    Ok(())
}
