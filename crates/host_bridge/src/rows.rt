//! The rows of DRAM, by their boundary registers DRB0 to DRB7 (82441FX).
ghost use Rattle.std.specs.Prelude.{◌≡◌, ◌≤◌, ◌<◌, ◌*◌, ◌↔◌, nat_lt, position, IsNone, IfSome};
ghost use Rattle.board_prelude.specs.{Bytes, top_of as top_by, row_of as row_by, largest_top, boundary_unit};
ghost use Rattle.host_bridge.specs.Pmc.{IsRowsOf};

use board_spec::range::BOUNDARY_UNIT;

/// The row that ends at the top of DRAM.
const LAST_ROW: usize = 7;

/// The top of DRAM, where its last row ends. It is a multiple of 8 MiB, and 0 where there is no DRAM.
pub fn top_of(drb: &[u8; 8]) -> u32
    ensures top { (bytes : Bytes) → IsRowsOf bytes drb.now → result ≡ top_by bytes }
    ensures largest { result ≤ largest_top }
{
    end_of(drb[LAST_ROW])
}

/// The row of DRAM of an address: the first that ends above it. None at or above the top of DRAM.
pub fn row_of(drb: &[u8; 8], addr: u32) -> Option<u8>
    ensures row { (bytes : Bytes) → IsRowsOf bytes drb.now → result ≡ row_by bytes addr }
    ensures none { (bytes : Bytes) → IsRowsOf bytes drb.now → IsNone result ↔ (top_by bytes ≤ addr) }
    ensures within { IfSome result (λ row. row < 8) }
{
    if addr >= top_of(drb) {
        return None;
    }
    first_above(drb, addr).map(|row| row as u8)
}

/// The first row that ends above an address.
fn first_above(drb: &[u8; 8], addr: u32) -> Option<usize>
    ensures first { result ≡ position (λ boundary. nat_lt addr (boundary * boundary_unit)) drb.now }
    ensures within { IfSome result (λ row. row < 8) }
{
    drb.iter().position(|boundary| addr < end_of(*boundary))
}

/// The address at which a row with this boundary register ends, in units of 8 MiB (82441FX).
pub fn end_of(boundary: u8) -> u32
    ensures end { result ≡ boundary * boundary_unit }
    ensures largest { result ≤ largest_top }
{
    u32::from(boundary) * BOUNDARY_UNIT
}
