//! The reader of scripts of version 1 and 2: from bytes to what the script says, or to the first line that is bad
//! and the least reason for it; and of one line, its fields and the item that it says.
#![tactic(auto)]

mod card;
mod event;
mod fault;
mod fields;
mod item;
mod lines;
mod moment;
mod name;
mod numbers;
mod read;
mod reading;
mod reason;
mod script;
mod straight;
mod take;
mod valid;

pub use card::{BaseField, CardFields};
pub use fault::ScriptFault;
pub use fields::Fields;
pub use item::{Asked, Item, is_word, parse_item};
pub use moment::MomentFields;
pub use name::Name;
pub use numbers::{parse_decimal, parse_digit, parse_hex};
pub use read::read_script;
pub use script::Script;
pub use straight::{parse_straight, straight_end};
