//! The tags of events.

ghost use Rattle.std.specs.Prelude.{◌≡◌};
ghost use Rattle.board_image.specs.ImageBytes.{tag_byte, tag_of_event};

use board_spec::{Event, Stimulus};

/// What kind of event a step has.
#[derive(Clone, Copy)]
pub enum Tag {
    Memory,
    Port,
    Look,
    Ack,
    Time,
    Wide,
    Stimulus(Stimulus),
}

impl Tag {
    /// Its number in an image.
    pub fn byte(self) -> u8
        ensures byte { result ≡ tag_byte self }
    {
        match self {
            Tag::Memory => 1,
            Tag::Port => 2,
            Tag::Look => 3,
            Tag::Ack => 4,
            Tag::Time => 6,
            Tag::Wide => 10,
            Tag::Stimulus(one) => one.code(),
        }
    }

    /// The tag of an event.
    pub fn of_event(event: &Event) -> Tag
        ensures tag { result ≡ tag_of_event event.now }
    {
        match event {
            Event::Memory(_) => Tag::Memory,
            Event::Wide(_) => Tag::Wide,
            Event::Port(_) => Tag::Port,
            Event::Look { .. } => Tag::Look,
            Event::Ack => Tag::Ack,
            _ => match event.applied() {
                Some(said) => Tag::Stimulus(said.stimulus),
                None => Tag::Time,
            },
        }
    }
}
