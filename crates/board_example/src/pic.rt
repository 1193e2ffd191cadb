//! The pair of 8259A, with the registers of the PIIX3 before it: an interrupt is raised and acknowledged.

ghost use Rattle.std.specs.Prelude.{◌<◌};

use board_spec::offset::PIRQRCA;
use board_spec::port::{MASTER, MASTER_ODD, SLAVE, SLAVE_ODD};
use pic_pair::{Ack, Lines, PicPair};
use south_bridge::{Elcr, Pirq};

/// ICW1: edge triggered, more than one chip, and ICW4 is to come.
const CASCADED: u8 = 0x11;

/// ICW4: the processor is an 8086 or a later one.
const MODE_8086: u8 = 0x01;

/// Initialises one chip: the vector of its level 0, and where the chips are joined.
fn initialise(pair: &mut PicPair, even: u16, odd: u16, vector: u8, joint: u8) {
    pair.port_write(even, CASCADED);
    pair.port_write(odd, vector);
    pair.port_write(odd, joint);
    pair.port_write(odd, MODE_8086);
    pair.port_write(odd, 0x00);
}

/// The pair as a PC's BIOS leaves it, nothing masked: lines 0 to 7 at vectors 08h to 0Fh, 8 to 15 at 70h to 77h.
pub fn initialised() -> PicPair {
    let mut pair = PicPair::new();
    initialise(&mut pair, MASTER, MASTER_ODD, 0x08, 0x04);
    initialise(&mut pair, SLAVE, SLAVE_ODD, 0x70, 0x02);
    pair
}

/// Raises a line, and acknowledges its interrupt.
pub fn acknowledged(line: u8) -> Ack
    requires line { line < 16 }
{
    let mut pair = initialised();
    pair.lines(Lines::low().with(line, true), 0);
    pair.acknowledge()
}

/// Routes PIRQA# to line 11, level triggered, and acknowledges the interrupt of a card that asserts it.
pub fn routed() -> Ack {
    let mut pirq = Pirq::new();
    pirq.write(PIRQRCA, 0x0B);
    let mut elcr = Elcr::new();
    elcr.write(true, 0x08);
    let triggers = u16::from_le_bytes([elcr.read(false), elcr.read(true)]);
    let mut pair = initialised();
    pair.lines(pirq.route([true, false, false, false]), triggers);
    pair.acknowledge()
}
