//! The one who publishes.
ghost use Rattle.std.specs.Prelude.{◌≡◌, ◌≤◌, ◌<◌, ◌++◌, ◌∷◌, [], All, drop, length, IfOk, OnOk, OnErr, MatchResult};
ghost use Rattle.board_spec.specs.Limits.{entry_limit};
ghost use Rattle.left_right.specs.Sides.{view};
ghost use Rattle.map_publish.specs.Lists.{version_after, IsMapOfLog};
ghost use Rattle.map_publish.specs.Fronts.{head_of};
ghost use Rattle.map_publish.specs.declared.mark.Mark.TheVariants.{Opened, Changed};
ghost use Rattle.map_publish.specs.Names.{name};

use crate::front::{Front, Head};
use crate::names::{Name, Names, Published, Stays, Tells};
use crate::newest::Teller;
use crate::shown::{Next, Shown};
use crate::viewer::{Note, Viewer};
use board_base::NoMemory;
use board_spec::MapChange;
use core::mem::replace_with;
use left_right::writer::Writer;
use map_builder::FlatMap;
use std::alloc::{AllocError, Global};
use std::sync::Wait;

pub(crate) type Copies = Writer<Shown, Next, Name, Published>;

/// A map, of which two copies are kept so that viewers can look at one while the other is changed. It is not `Drop`:
/// end it by `close`. `board_example::published` has an example.
pub struct Publisher {
    writer: Copies,
    head: Head,
    teller: Teller,
    /// The list of what is published.
    pub front: Front,
    ghost head_is: { head ≡ head_of front.seen.book },
    ghost told: { teller.told ≡ front.count },
    ghost quiet: { drop writer.behind writer.log.items ≡ [] },
    ghost shows: { writer.desk.shown.value.front ≡ front },
    ghost listed: { writer.desk.shown.value.list.log ≡ front.seen.log },
    ghost named: { view writer.desk.place ≡ name front.seen.book },
}

/// Publishes once more what is published already, by which the publisher learns the name of the list that the copies
/// follow.
fn named<R: Wait>(rt: &R, writer: Copies) -> (Copies, Result<(), NoMemory>)
    requires quiet { drop writer.behind writer.log.items ≡ [] }
    requires listed { writer.desk.shown.value.list.log ≡ writer.desk.shown.value.front.seen.log }
    ensures list { result.0.desk.shown.value.list.log ≡ writer.desk.shown.value.list.log }
    ensures front { result.0.desk.shown.value.front ≡ writer.desk.shown.value.front }
    ensures quiet { drop result.0.behind result.0.log.items ≡ [] }
    ensures named { OnOk result.1 (view result.0.desk.place ≡ name writer.desk.shown.value.front.seen.book) }
{
    let mut writer = writer;
    match writer.append(Next::Same) {
        Err(_) => (writer, Err(NoMemory)),
        Ok(()) => {
            let (writer, result) = writer.publish_as::<Names, R>(rt);
            result.unwrap();
            (writer, Ok(()))
        }
    }
}

/// Publishes the map with a change made in it, and the list with the change at its end. Refused for want of memory;
/// then what is published is as before.
fn published<R: Wait>(
    writer: Copies,
    what: (&R, MapChange, Front),
) -> (Copies, Result<(), NoMemory>)
    requires quiet { drop writer.behind writer.log.items ≡ [] }
    requires listed { writer.desk.shown.value.list.log ≡ writer.desk.shown.value.front.seen.log }
    requires room { version_after writer.desk.shown.value.front.seen.log < entry_limit }
    requires own { what.2.seen.book ≡ writer.desk.shown.value.front.seen.book }
    requires added { what.2.seen.log ≡ writer.desk.shown.value.front.seen.log ++ Changed what.1 ∷ [] }
    ensures list { MatchResult result.1 (λ _. result.0.desk.shown.value.list.log ≡ what.entry.2.seen.log)
        (λ _. result.0.desk.shown.value.list.log ≡ writer.desk.shown.value.list.log) }
    ensures front { MatchResult result.1 (λ _. result.0.desk.shown.value.front ≡ what.entry.2)
        (λ _. result.0.desk.shown.value.front ≡ writer.desk.shown.value.front) }
    ensures quiet { drop result.0.behind result.0.log.items ≡ [] }
    ensures named { view result.0.desk.place ≡ view writer.desk.place }
{
    let (rt, change, front) = what;
    let mut writer = writer;
    match writer.append(Next::Change(change, front)) {
        Err(_) => (writer, Err(NoMemory)),
        Ok(()) => {
            let (writer, result) = writer.publish_as::<Stays, R>(rt);
            result.unwrap();
            (writer, Ok(()))
        }
    }
}

impl Publisher {
    /// Publishes one change at a version below 4,000,000. It may wait for viewers to leave the old copy. Refused for
    /// want of memory; then what is published is as before.
    #[inline(never)]
    pub fn change<R: Wait>(&mut self, rt: &R, change: &MapChange) -> Result<(), NoMemory>
        requires room { version_after self.old.front.seen.log < entry_limit }
        ensures own { self.new.front.seen.book ≡ self.old.front.seen.book }
        ensures list { MatchResult result (λ _. self.new.front.seen.log ≡ self.old.front.seen.log ++ Changed change.now
            ∷ []) (λ _. self.new.front.seen.log ≡ self.old.front.seen.log) }
        ensures refused { OnErr result (self.new.front ≡ self.old.front) }
    {
        let front = self.front.add(&self.head, change).ok_or(NoMemory)?;
        let next = (rt, *change, front.again());
        replace_with(&mut self.writer, next, published)?;
        self.teller.tell(front.count);
        self.front = front;
        Ok(())
    }

    /// A note of the list as it is published now, from which a viewer can learn.
    pub fn tell(&mut self) -> Note
        ensures note { result.front ≡ self.old.front }
        ensures same { self.new ≡ self.old }
    {
        Note {
            front: self.front.again(),
        }
    }

    /// The map that is published.
    pub fn map(&self) -> &FlatMap
        ensures map { IsMapOfLog self.now.front.seen.log result.now }
    {
        &self.writer.published().map
    }

    /// The version of the published map.
    pub fn count(&self) -> u32
        ensures count { result ≡ version_after self.now.front.seen.log }
    {
        self.map().version()
    }

    /// Ends the published copies, and gives the map that was published last. It may wait for viewers that look. They go
    /// on with copies of their own.
    pub fn close<R: Wait>(self, rt: &R) -> FlatMap
        ensures map { IsMapOfLog self.front.seen.log result }
    {
        let Publisher {
            writer,
            head: _head,
            teller: _teller,
            front: _front,
        } = self;
        let Shown {
            map,
            list: _list,
            front: _shown,
        } = Box::into_inner(writer.take(rt));
        map
    }

    /// A viewer of the published map, with a place of its own.
    fn viewer(&mut self) -> Result<Viewer, AllocError>
        ensures same { self.new.front ≡ self.old.front }
        ensures viewer { IfOk result (λ viewer. viewer.front ≡ self.old.front) }
    {
        let newest = self.teller.newest()?;
        let mut reader = self.writer.factory().reader()?;
        let note = self.writer.tell::<Tells>();
        reader.learn::<Tells>(note);
        let viewer = Viewer::new(reader, newest, self.map(), self.front.again());
        Ok(viewer)
    }
}

/// The copies of a map, and as many viewers of them as `readers` says, 1 to 8, each with a place of its own. It may
/// wait. Refused for want of memory.
pub fn open<R: Wait>(
    rt: &R,
    alloc: Global,
    map: FlatMap,
    readers: u32,
) -> Result<(Publisher, Vec<Viewer>), NoMemory>
    requires few { (1 ≤ readers) × (readers ≤ 8) }
    ensures list { IfOk result (λ pair. pair.0.front.seen.log ≡ Opened map ∷ []) }
    ensures count { IfOk result (λ pair. length pair.1.items ≡ readers) }
    ensures viewers { IfOk result (λ pair. All (λ viewer. viewer.front ≡ pair.0.front) pair.1.items) }
{
    let mut publisher = publisher_of(rt, alloc, &map, readers)?;
    let Ok(viewers) = viewers(alloc, &mut publisher, readers) else {
        publisher.close(rt);
        return Err(NoMemory);
    };
    Ok((publisher, viewers))
}

/// The copies of a map, with room for so many viewers. It may wait. Refused for want of memory.
fn publisher_of<R: Wait>(
    rt: &R,
    alloc: Global,
    map: &FlatMap,
    readers: u32,
) -> Result<Publisher, NoMemory>
    requires few { (1 ≤ readers) × (readers ≤ 8) }
    ensures list { IfOk result (λ publisher. publisher.front.seen.log ≡ Opened map.now ∷ []) }
{
    let (head, front) = Front::open(map).ok_or(NoMemory)?;
    let teller = Teller::new(alloc)?;
    let (first, second) = (Shown::new(map, &front), Shown::new(map, &front));
    let writer = Copies::new(alloc, first, second, readers as usize)?;
    let (writer, result) = named(rt, writer);
    if let Err(refused) = result {
        writer.take(rt);
        return Err(refused);
    }
    // Once more, for room: at most two changes at a time wait until both copies have them, and from here on there is
    // room for two. Else a change could be refused for want of memory after it had lengthened the list, and then every
    // later one would be refused.
    let (writer, result) = named(rt, writer);
    if let Err(refused) = result {
        writer.take(rt);
        return Err(refused);
    }
    Ok(Publisher {
        writer,
        head,
        teller,
        front,
    })
}

/// So many viewers of a publisher's map. Refused for want of memory.
fn viewers(
    alloc: Global,
    publisher: &mut Publisher,
    readers: u32,
) -> Result<Vec<Viewer>, AllocError>
    ensures same { publisher.new.front ≡ publisher.old.front }
    ensures count { IfOk result (λ viewers. length viewers.items ≡ readers) }
    ensures viewers { IfOk result (λ viewers. All (λ viewer. viewer.front ≡ publisher.old.front) viewers.items) }
{
    let mut viewers = Vec::with_capacity(alloc, readers as usize)?;
    for _ in 0..readers {
        let viewer = publisher.viewer()?;
        viewers.push(viewer)?;
    }
    Ok(viewers)
}
