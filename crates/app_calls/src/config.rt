//! The bytes of configuration space and the configuration address by themselves, each line a new one.

ghost use Rattle.std.specs.Prelude.{IsTrue};
ghost use Rattle.board_prelude.specs.{is_config_port};

use addr_decode::{ConfAdd, Selected, Space};
use board_base::NoMemory;
use board_spec::port::CONFIG_DATA;
use call_words::{byte, number, word};
use std::alloc::AllocError;

/// `59=FF` writes a byte of 256 that all have this value after a reset and this mask; told are that byte before, after
/// and after a reset, and the one beside it.
pub fn tell_space(words: &[&str], text: &mut String) -> Result<(), NoMemory> {
    let (reset, mask) = (byte(word(words, 1)), byte(word(words, 2)));
    let mut space = Space::new([reset; 256], [mask; 256]);
    Ok(push_space(text, &mut space, byte(word(words, 0)), byte(word(words, 3)))?)
}

/// Writes a byte, and tells it before, after and after a reset, and the one beside it.
fn push_space(
    text: &mut String,
    space: &mut Space,
    off: u8,
    written: u8,
) -> Result<(), AllocError> {
    let before = space.read(off);
    space.write(off, written);
    let (after, beside) = (space.read(off), space.read(off ^ 1));
    space.reset();
    let anew = space.read(off);
    write!(text, "{before:02X} {after:02X} {beside:02X} {anew:02X}")
}

/// The port of a byte of the configuration data.
fn data_port(place: &str) -> u16
    ensures data { IsTrue (is_config_port result) }
{
    match place {
        "1" => CONFIG_DATA + 1,
        "2" => CONFIG_DATA + 2,
        "3" => CONFIG_DATA + 3,
        _ => CONFIG_DATA,
    }
}

/// What is selected by a byte of the data port.
fn selected(conf_add: &ConfAdd, place: &str) -> Option<Selected> {
    conf_add.select(data_port(place))
}

/// Tells what is selected: bus, device, function and offset.
fn push_selected(text: &mut String, selected: &Selected) -> Result<(), AllocError> {
    write!(text, "{:02X}.{:02X}.", selected.bus, selected.reg.dev)?;
    write!(text, "{}.{:02X}", selected.reg.fun, selected.reg.off)
}

/// Tells what is selected by a byte of the data port.
fn push_place(text: &mut String, conf_add: &ConfAdd, place: &str) -> Result<(), AllocError> {
    match selected(conf_add, place) {
        Some(selected) => push_selected(text, &selected),
        None => text.push_str("none"),
    }
}

/// A step that writes the configuration address, or selects by a byte of the data port.
fn act_address(conf_add: &mut ConfAdd, step: &str, text: &mut String) -> Result<(), AllocError> {
    match step.strip_prefix('=') {
        Some(value) => {
            conf_add.write(number(value));
            Ok(())
        }
        None => push_place(text, conf_add, step),
    }
}

/// The configuration address: `=80000058` writes it, `?` reads it, `reset` is a hard reset, `3` selects by byte 3 of
/// the data port.
pub fn tell_address(steps: &[&str], text: &mut String) -> Result<(), NoMemory> {
    let mut conf_add = ConfAdd::new();
    for step in steps {
        match *step {
            "?" => write!(text, "{:08X} ", conf_add.read())?,
            "reset" => conf_add.reset(),
            _ => act_address(&mut conf_add, step, text)?,
        }
    }
    Ok(())
}
