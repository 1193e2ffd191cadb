//! How many entries of a history there are of each kind.

ghost use Rattle.std.specs.Prelude.{◌≡◌, ◌+◌, ◌++◌, List, [], ◌∷◌};
ghost use Rattle.board_prelude.specs.{Entry as AnEntry, Part as APart, parts_list};
ghost use Rattle.make_script.specs.Summary.{parts_in, is_look_reply};
ghost use Rattle.make_script.specs.Counts.{AreMarks, AreCounts, HasRoomForOne};

use board_base::Target;
use board_spec::{Entry, Part, Parts, Reply};

/// What an entry counts as: the kinds of targets that answered it, and whether something denied it.
#[derive(Clone, Copy)]
pub struct Marks {
    dram: bool,
    shadow: bool,
    smram: bool,
    rom: bool,
    card: bool,
    config: bool,
    device: bool,
    abort: bool,
    denied: bool,
}

impl Marks {
    /// Nothing answered.
    fn none() -> Marks
        ensures marks { AreMarks [] result }
    {
        Marks {
            dram: false,
            shadow: false,
            smram: false,
            rom: false,
            card: false,
            config: false,
            device: false,
            abort: false,
            denied: false,
        }
    }

    /// One target answered.
    fn of_part(part: Part) -> Marks
        ensures marks { AreMarks (part ∷ []) result }
    {
        Marks {
            dram: matches!(part.target, Target::Dram(_)),
            shadow: matches!(part.target, Target::Shadow(_)),
            smram: matches!(part.target, Target::Smram),
            rom: matches!(part.target, Target::Rom(_)),
            card: matches!(part.target, Target::Card(..)),
            config: matches!(part.target, Target::Config(_)),
            device: matches!(part.target, Target::Device(_)),
            abort: matches!(part.target, Target::Abort),
            denied: part.denial.is_some(),
        }
    }

    /// Each kind that one of the two has.
    fn or(self, other: Marks) -> Marks
        ensures marks { (parts more : List APart) → AreMarks parts self → AreMarks more other
            → AreMarks (parts ++ more) result }
    {
        Marks {
            dram: self.dram || other.dram,
            shadow: self.shadow || other.shadow,
            smram: self.smram || other.smram,
            rom: self.rom || other.rom,
            card: self.card || other.card,
            config: self.config || other.config,
            device: self.device || other.device,
            abort: self.abort || other.abort,
            denied: self.denied || other.denied,
        }
    }

    /// The parts of a wide access answered.
    fn of_parts(parts: Parts) -> Marks
        ensures marks { AreMarks (parts_list parts) result }
    {
        match parts {
            Parts::Two(a, b) => Marks::of_part(a).or(Marks::of_part(b)),
            Parts::Three(a, b, c) => Marks::of_part(a)
                .or(Marks::of_part(b))
                .or(Marks::of_part(c)),
            Parts::Four(a, b, c, d) => {
                let low = Marks::of_part(a).or(Marks::of_part(b));
                let high = Marks::of_part(c).or(Marks::of_part(d));
                low.or(high)
            }
        }
    }

    /// What a reply counts as.
    fn of_reply(reply: &Reply) -> Marks
        ensures marks { AreMarks (parts_in reply.now) result }
    {
        match *reply {
            Reply::Bus { target, denial, .. } => Marks::of_part(Part { target, denial }),
            Reply::Parts { parts, .. } => Marks::of_parts(parts),
            Reply::Saw(_) => Marks::none(),
        }
    }
}

/// A reply is that of a look at the map.
fn is_look(reply: &Reply) -> bool
    ensures look { result ≡ is_look_reply reply.now }
{
    matches!(*reply, Reply::Saw(_))
}

/// How many entries of a history there are of each kind.
#[derive(Clone, Copy)]
pub struct Counts {
    pub dram: u64,
    pub shadow: u64,
    pub smram: u64,
    pub rom: u64,
    pub card: u64,
    pub config: u64,
    pub device: u64,
    pub abort: u64,
    pub denied: u64,
    pub looks: u64,
}

impl Counts {
    /// The counts of no entries.
    pub fn new() -> Counts
        ensures counts { AreCounts [] result }
    {
        Counts {
            dram: 0,
            shadow: 0,
            smram: 0,
            rom: 0,
            card: 0,
            config: 0,
            device: 0,
            abort: 0,
            denied: 0,
            looks: 0,
        }
    }

    /// The counts with one entry more.
    pub fn with(self, entry: &Entry) -> Counts
        requires room { HasRoomForOne self }
        ensures counts { (history : List AnEntry) → AreCounts history self → AreCounts (entry.now ∷ history) result }
    {
        let marks = Marks::of_reply(&entry.reply);
        Counts {
            dram: self.dram + u64::from(marks.dram),
            shadow: self.shadow + u64::from(marks.shadow),
            smram: self.smram + u64::from(marks.smram),
            rom: self.rom + u64::from(marks.rom),
            card: self.card + u64::from(marks.card),
            config: self.config + u64::from(marks.config),
            device: self.device + u64::from(marks.device),
            abort: self.abort + u64::from(marks.abort),
            denied: self.denied + u64::from(marks.denied),
            looks: self.looks + u64::from(is_look(&entry.reply)),
        }
    }
}
