//! One who looks at the published map.
ghost use Rattle.std.specs.Prelude.{◌≡◌, ◌<◌, ◌≤◌, length, true, is_some, IsTrue, IsFalse};
ghost use Rattle.std.specs.Option.{ForSome};
ghost use mathlib.Core.List.{IsPrefix};
ghost use Rattle.left_right.specs.Sides.{view};
ghost use Rattle.map_publish.specs.Lists.{opened_of, version_after, IsMapOfLog, IsLookIn};
ghost use Rattle.map_publish.specs.Names.{name};
ghost use Rattle.map_publish.specs.Props.{IsSightOf-prop};
ghost use Rattle.map_publish.specs.Sights.{IsSightOf};

use crate::front::Front;
use crate::names::{Name, Published, Stays};
use crate::newest::Newest;
use crate::shown::Shown;
use crate::sight::Sight;
use board_base::Kind;
use board_spec::Look;
use left_right::reader::Reader;
use map_builder::FlatMap;
use std::sync::Arc;
use std::sync::atomic::Ordering;

/// What a publisher gives a viewer to learn from: the list as it was published when the note was made. Only its length
/// takes bytes.
#[derive(Drop)]
pub struct Note {
    pub front: Front,
}

pub(crate) type Place = Reader<Shown, Name, Published>;

/// A viewer. It keeps the sight of the newest map that it was opened with, found by a look, or learnt from a note, and
/// its place at the published copies. `board_example::published` has an example.
#[derive(Drop)]
pub struct Viewer {
    /// None only inside a call that reads what is published.
    reader: Option<Place>,
    newest: Arc<Newest>,
    sight: Sight,
    /// The list of that map.
    pub front: Front,
    ghost seen: { IsSightOf front.seen.log sight } by { IsSightOf-prop front.seen.log sight },
    ghost placed: { is_some reader ≡ true },
    ghost tied: { ForSome reader (λ r. view r.place ≡ name front.seen.book) },
}

impl Viewer {
    pub(crate) fn new(reader: Place, newest: Arc<Newest>, map: &FlatMap, front: Front) -> Viewer
        requires map { IsMapOfLog front.seen.log map.now }
        requires tied { view reader.place ≡ name front.seen.book }
        ensures viewer { result.front ≡ front }
    {
        Viewer {
            reader: Some(reader),
            newest,
            sight: Sight::new(map),
            front,
        }
    }

    /// Whether the note is at least as new as what this viewer knows: the note's list begins with the viewer's. False
    /// exactly where the note's list is the shorter one.
    pub fn meets(&mut self, note: Note) -> bool
        requires own { note.front.seen.book ≡ self.old.front.seen.book }
        ensures yes { IsTrue result → IsPrefix self.old.front.seen.log note.front.seen.log }
        ensures no { IsFalse result → length note.front.seen.log < length self.old.front.seen.log }
        ensures same { self.new ≡ self.old }
    {
        self.front.begins(&note.front)
    }

    /// Takes in the map that was published when the note was made. It is copied only where the note's list is longer
    /// than the viewer's.
    pub fn learn(&mut self, note: Note, map: &FlatMap)
        requires own { note.front.seen.book ≡ self.old.front.seen.book }
        requires begins { IsPrefix self.old.front.seen.log note.front.seen.log }
        requires map { IsMapOfLog note.front.seen.log map.now }
        ensures learnt { self.new.front ≡ note.front }
        ensures opened { opened_of self.new.front.seen.log ≡ opened_of self.old.front.seen.log }
    {
        if self.front.count < note.front.count {
            self.take_in(note.front, map);
        } else {
            self.front = note.front;
        }
    }

    /// Takes in a list that begins with the viewer's own, and its map. It is not inlined: a function that makes a map
    /// pays for the map's size at each call, and so would each turn and each look.
    #[inline(never)]
    fn take_in(&mut self, front: Front, map: &FlatMap)
        requires own { front.seen.book ≡ self.old.front.seen.book }
        requires begins { IsPrefix self.old.front.seen.log front.seen.log }
        requires map { IsMapOfLog front.seen.log map.now }
        ensures learnt { self.new.front ≡ front }
    {
        self.sight.take_in(map);
        self.front = front;
    }

    /// Looks at the newest published map that it finds: how many changes led to it, and the longest interval round an
    /// address in which this kind of access has one area. The map is no older than one that the viewer found or learnt
    /// before. It neither waits nor takes memory.
    #[tactic(auto, using(crate::proofs::Changes::version_grows))]
    pub fn look(&mut self, addr: u32, kind: Kind, smm: bool) -> Look
        ensures own { self.new.front.seen.book ≡ self.old.front.seen.book }
        ensures opened { opened_of self.new.front.seen.log ≡ opened_of self.old.front.seen.log }
        ensures later { IsPrefix self.old.front.seen.log self.new.front.seen.log }
        ensures look { IsLookIn self.new.front.seen.log addr kind smm result }
        ensures newer { version_after self.old.front.seen.log ≤ result.version }
    {
        self.keep_up();
        self.find(addr, kind, smm)
    }

    /// How many changes led to the map that the viewer knows.
    pub fn version(&self) -> u32
        ensures version { result ≡ version_after self.now.front.seen.log }
    {
        self.sight.version()
    }

    /// Takes in the published map where its list is longer than the viewer's own. No clause can say that it compares
    /// them: what a viewer knows is a beginning of the list, whether it looked at the list or not.
    fn keep_up(&mut self)
        ensures own { self.new.front.seen.book ≡ self.old.front.seen.book }
        ensures later { IsPrefix self.old.front.seen.log self.new.front.seen.log }
    {
        if self.newest.load(Ordering::Acquire) > u64::from(self.front.count) {
            self.refresh();
        }
    }

    /// Takes in the published map where its list is longer. The viewer stays as it is where the publisher has closed
    /// the copies.
    #[inline(never)]
    fn refresh(&mut self)
        ensures own { self.new.front.seen.book ≡ self.old.front.seen.book }
        ensures later { IsPrefix self.old.front.seen.log self.new.front.seen.log }
    {
        let Some(reader) = self.reader.take() else {
            unreachable!()
        };
        match reader.enter_as::<Stays>() {
            Err(reader) => self.reader = Some(reader),
            Ok(reading) => {
                let shown = reading.get();
                if self.front.begins(&shown.front) && self.front.count < shown.front.count {
                    self.sight.take_in(&shown.map);
                    self.front = shown.front.again();
                }
                self.reader = Some(reading.leave());
            }
        }
    }

    /// A look at the map that the viewer knows.
    fn find(&mut self, addr: u32, kind: Kind, smm: bool) -> Look
        ensures look { IsLookIn self.old.front.seen.log addr kind smm result }
        ensures same { self.new.front ≡ self.old.front }
    {
        let span = self.sight.find(addr, kind, smm);
        Look {
            version: self.sight.version(),
            lo: span.lo,
            hi: span.hi,
            area: span.area,
        }
    }
}
