//! The SMRAM control byte: what a write makes of it, and which accesses it lets reach SMRAM.
ghost use Rattle.std.specs.Prelude.{◌≡◌, ◌<◌, ◌^◌, if◌then◌else◌};
ghost use Rattle.board_prelude.specs.{smram_after, smram_answers};

use board_base::Kind;
use board_spec::bits::is_set;

/// The bit of SMM space open: SMRAM answers outside system management mode too.
const DOPEN: u32 = 6;
/// The bit of SMM space closed: SMRAM answers code fetches alone.
const DCLS: u32 = 5;
/// The bit of SMM space locked: DOPEN stays 0, and this bit stays 1 until a reset.
pub const DLCK: u32 = 4;
/// The bit of SMRAM enable: where it is 0, SMRAM never answers.
const SMRAME: u32 = 3;
/// The SMM space base segment in bits 2 to 0, which is always A0000h.
const C_BASE_SEG: u8 = 0b010;
/// The register after a reset: SMRAM is closed and not locked.
pub const SMRAM_RESET: u8 = C_BASE_SEG;

/// The control byte after a write to a byte that was `old`. Bit 7 reads 0 and bits 2 to 0 read 010.
/// DLCK stays once it is set, and clears DOPEN.
pub fn smram_after(old: u8, written: u8) -> u8
    ensures after { result ≡ smram_after old written }
{
    let (old, written) = (u32::from(old), u32::from(written));
    let locked = is_set(old, DLCK) || is_set(written, DLCK);
    let open = is_set(written, DOPEN) && !locked;
    let closed = is_set(written, DCLS);
    let enabled = is_set(written, SMRAME);
    mask(DOPEN, open) | mask(DCLS, closed) | mask(DLCK, locked) | mask(SMRAME, enabled) | C_BASE_SEG
}

/// Whether an access at A0000h to BFFFFh reaches SMRAM under this control byte. `smm` says that it is
/// made in system management mode.
pub fn smram_reaches(smram: u8, kind: Kind, smm: bool) -> bool
    ensures reaches { result ≡ smram_answers smram kind smm }
{
    let smram = u32::from(smram);
    let open = smm || is_set(smram, DOPEN);
    match (is_set(smram, SMRAME), is_set(smram, DCLS)) {
        (false, _) => false,
        (true, false) => open,
        (true, true) => open && kind == Kind::Fetch,
    }
}

/// A byte in which one bit, 0 to 7, is on or off, and the others are 0.
fn mask(bit: u32, on: bool) -> u8
    requires bit { bit < 8 }
    ensures mask { result ≡ (if on then 2 ^ bit else 0) }
{
    if on { 1 << bit } else { 0 }
}
