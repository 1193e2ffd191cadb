//! The records of numbers by which other languages ask a machine and are told: what they say, and how a call ends as a
//! status.
#![tactic(auto)]

mod asked_step;
mod bytes;
mod card;
mod card_bytes;
mod clock_second;
mod event;
mod fitted_reply;
pub mod laws;
mod lines;
mod log_line;
mod map;
mod master;
mod now;
pub mod numbers;
mod opening;
mod part_back;
mod place;
mod port_access;
mod reply;
mod reply_back;
mod rom_reply;
pub mod status;
mod step_lines;
mod strings;

pub use asked_step::step;
pub use bytes::{read_clock_byte, read_dram, read_sector, write_clock_byte, write_dram};
pub use card::{BaseRecord, CardRecord, cards_of};
pub use card_bytes::{read_base, write_base};
pub use clock_second::second;
pub use event::{EventRecord, asked_of, event_of};
pub use lines::{SerialRecord, read_lines, read_serial};
pub use log_line::write_line;
pub use map::{AreaRecord, MapRecord, RangeRecord, WindowRecord, read_map};
pub use master::decode_master;
pub use now::read_now;
pub use opening::open;
pub use place::{decode, read_rise};
pub use port_access::{port_in, port_out};
pub use reply::{PartRecord, ReplyRecord, of_part};
pub use reply_back::reply_recorded;
pub use strings::{in_many, out_many};
