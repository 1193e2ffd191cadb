//! The devices with one name, and the words of devices.

ghost use Rattle.std.specs.Prelude.{◌≡◌, ◌≤◌, length};
ghost use Rattle.board_spec.specs.Text.{WordsApart, device_word, device_worded};

use board_base::Dev;

/// The devices with one name, in the order of their numbers for C.
pub const NAMED: [Dev; 11] = [
    Dev::Confadd,
    Dev::Reset,
    Dev::Pic0,
    Dev::Pic1,
    Dev::Pit,
    Dev::System,
    Dev::Keyboard,
    Dev::Clock,
    Dev::Elcr,
    Dev::Ata,
    Dev::Wires,
];

/// The word of a device, and of an acknowledge, which the number of a chip follows.
pub fn word(dev: Dev) -> &'static str
    ensures word { result.now ≡ device_word dev }
    ensures short { length result.now ≤ 7 }
{
    match dev {
        Dev::Confadd => "confadd",
        Dev::Reset => "reset",
        Dev::Pic0 => "pic0",
        Dev::Pic1 => "pic1",
        Dev::Pit => "pit",
        Dev::System => "sys",
        Dev::Keyboard => "kbd",
        Dev::Clock => "clock",
        Dev::Elcr => "elcr",
        Dev::Ata => "ata",
        Dev::Wires => "wires",
        Dev::Vector(_) => "vec",
        Dev::Spurious(_) => "spur",
    }
}

/// The device with one name that this word names.
pub fn with_word(field: &[u8]) -> Option<Dev>
    ensures device { result ≡ device_worded field.now }
{
    NAMED
        .iter()
        .copied()
        .find(|dev| field == word(*dev).as_bytes())
}

/// The text of a device with one name is read as this device.
#[tactic(auto, using(crate::proofs::WordProofs::words_apart))]
pub fn law_words()
    ensures apart { WordsApart }
{}
