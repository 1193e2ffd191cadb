//! Readers and writers that move a byte a call, are interrupted, and fail late.

ghost use Rattle.std.specs.Prelude.{None};

use board_files::{FileShelf, Folder, OutSink, Patient};
use board_outside::{Failed, PutFault, Shelf, Sink};
use std::io;
use std::io::{ErrorKind, Read, Write};
use std::sync::atomic::{AtomicU32, Ordering};
use std::time::Clock;

/// What is read and written.
const BYTES: [u8; 5] = *b"bytes";

/// By which error each call is refused first, and how often, and after how many bytes one fails; more than there are:
/// never.
#[derive(Clone, Copy)]
struct Habit {
    kind: ErrorKind,
    refusals: u32,
    lasts: usize,
}

/// Nothing goes wrong.
const QUIET: Habit = Habit {
    kind: ErrorKind::Interrupted,
    refusals: 0,
    lasts: 6,
};

/// Signals interrupt each call so often.
fn interrupted(times: u32) -> Habit {
    Habit {
        refusals: times,
        ..QUIET
    }
}

/// A file that gives a byte a read, and a writer that takes a byte a write.
#[derive(Drop)]
struct Drip {
    habit: Habit,
    /// How many bytes went through.
    count: usize,
    /// How often the next call is still refused.
    left: u32,
    taken: [u8; 5],
}

impl Drip {
    fn new(habit: Habit) -> Drip {
        Drip {
            habit,
            count: 0,
            left: habit.refusals,
            taken: [0; 5],
        }
    }

    /// Refuses a call at first, and the one that comes too late.
    fn pass(&mut self) -> io::Result<()> {
        if self.left > 0 {
            self.left -= 1;
            return Err(io::Error::from(self.habit.kind));
        }
        self.left = self.habit.refusals;
        if self.count == self.habit.lasts {
            return Err(io::Error::from(ErrorKind::Other));
        }
        Ok(())
    }
}

impl Read for Drip {
    fn read(&mut self, into: &mut [u8]) -> io::Result<usize> {
        self.pass()?;
        match (BYTES.get(self.count), into.first_mut()) {
            (Some(byte), Some(place)) => {
                *place = *byte;
                self.count = self.count.wrapping_add(1);
                Ok(1)
            }
            _ => Ok(0),
        }
    }
}

impl Write for Drip {
    fn write(&mut self, bytes: &[u8]) -> io::Result<usize> {
        self.pass()?;
        match (bytes.first(), self.taken.get_mut(self.count)) {
            (Some(byte), Some(place)) => {
                *place = *byte;
                self.count = self.count.wrapping_add(1);
                Ok(1)
            }
            _ => Ok(0),
        }
    }

    fn flush(&mut self) -> io::Result<()> {
        Ok(())
    }
}

/// A folder in which each name can be opened a few times.
#[derive(Drop)]
struct Drips {
    habit: Habit,
    opens: AtomicU32,
}

impl Folder for Drips {
    type File = Drip;

    ghost files = { λ _. None };

    fn open(&self, _name: &str) -> io::Result<Drip> {
        if self.opens.load(Ordering::SeqCst) == 0 {
            return Err(io::Error::from(ErrorKind::NotFound));
        }
        self.opens.fetch_sub(1, Ordering::SeqCst);
        Ok(Drip::new(self.habit))
    }
}

/// The shelf of such a folder.
fn shelf_of(habit: Habit, opens: u32) -> FileShelf<Drips> {
    FileShelf::new(Drips {
        habit,
        opens: AtomicU32::new(opens),
    })
}

/// What a fetch of a few bytes from a place gives: a byte, nothing at the end, or a fault.
fn fetched(shelf: &mut FileShelf<Drips>, name: &str, at: usize) -> Result<Option<u8>, Failed> {
    let mut into = [0; 8];
    match shelf.fetch(name, at as u64, &mut into) {
        Ok(0) => Ok(None),
        Ok(1) => Ok(Some(into[0])),
        Ok(_) => Err(Failed),
        Err(Failed) => Err(Failed),
    }
}

/// Whether a fetch from a place gives the byte there, or the end.
fn gives(shelf: &mut FileShelf<Drips>, at: usize) -> bool {
    fetched(shelf, "f", at) == Ok(BYTES.get(at).copied())
}

/// Whether a file that is opened once comes byte by byte, and no other is there.
fn comes_whole(interruptions: u32) -> bool {
    let mut shelf = shelf_of(interrupted(interruptions), 1);
    for at in 0..=BYTES.len() {
        if !gives(&mut shelf, at) {
            return false;
        }
    }
    fetched(&mut shelf, "g", 0) == Err(Failed)
}

/// A file that is opened once comes byte by byte, however often a signal interrupts, and then ends.
#[test]
fn a_file_comes_byte_by_byte(rt: HostRuntime) {
    assert!(rt; comes_whole(0));
    assert!(rt; comes_whole(1));
    assert!(rt; comes_whole(63));
}

/// Whether a read after so many bytes fails, and the file is opened anew after it.
fn fails_after(lasts: usize) -> bool {
    let mut shelf = shelf_of(Habit { lasts, ..QUIET }, 2);
    for at in 0..lasts {
        if !gives(&mut shelf, at) {
            return false;
        }
    }
    let again = if lasts == 0 {
        Err(Failed)
    } else {
        Ok(Some(b'b'))
    };
    fetched(&mut shelf, "f", lasts) == Err(Failed) && fetched(&mut shelf, "f", 0) == again
}

/// An error is a fault where it comes, never the end, and the file is opened anew after it.
#[test]
fn a_read_that_fails_is_no_end(rt: HostRuntime) {
    for lasts in 0..=BYTES.len() {
        assert!(rt; fails_after(lasts));
    }
    assert!(rt; fetched(&mut shelf_of(interrupted(64), 1), "f", 0) == Err(Failed));
}

/// Whether a file is read from a place at which no handle stands, and not past an error on the way.
fn is_read_within(at: usize) -> bool {
    for lasts in 0..=at {
        let mut shelf = shelf_of(Habit { lasts, ..QUIET }, 1);
        if fetched(&mut shelf, "f", at) != Err(Failed) {
            return false;
        }
    }
    gives(&mut shelf_of(QUIET, 1), at)
}

#[test]
fn a_file_is_read_from_a_place_within(rt: HostRuntime) {
    for at in 0..=BYTES.len() {
        assert!(rt; is_read_within(at));
    }
}

/// The sink of a writer with habits.
fn sink_of(interruptions: u32, lasts: usize) -> OutSink<Drip> {
    OutSink::new(Drip::new(Habit {
        lasts,
        ..interrupted(interruptions)
    }))
}

/// Whether so many bytes are taken, one a put.
fn takes(sink: &mut OutSink<Drip>, count: usize) -> bool {
    for at in 0..count.min(BYTES.len()) {
        if sink.put(&BYTES[at..]) != Ok(1) {
            return false;
        }
    }
    true
}

/// Whether a put tells a fault where the writer fails or takes nothing, and else that one byte was taken.
fn takes_little(interruptions: u32, lasts: usize) -> bool {
    let count = lasts.min(BYTES.len());
    let mut sink = sink_of(interruptions, lasts);
    if !takes(&mut sink, count) || sink.put(b"more") != Err(PutFault::Failed) {
        return false;
    }
    let Drip { taken, .. } = sink.into_inner();
    taken[..count] == BYTES[..count]
}

#[test]
fn a_writer_takes_little_and_fails_late(rt: HostRuntime) {
    for lasts in 0..=6 {
        assert!(rt; takes_little(0, lasts));
        assert!(rt; takes_little(1, lasts));
        assert!(rt; takes_little(63, lasts));
    }
    assert!(rt; sink_of(64, 6).put(&BYTES) == Err(PutFault::Failed));
}

/// Whether a read and a write are made again after an error, and whether a patient writer goes on.
fn ends_so<C: Clock>(clock: &C, kind: ErrorKind, again: bool, patient: bool) -> bool {
    let habit = Habit {
        kind,
        refusals: 1,
        ..QUIET
    };
    let mut sink = OutSink::new(Drip::new(habit));
    let mut waits = Patient::new(clock, Drip::new(habit));
    fetched(&mut shelf_of(habit, 1), "f", 0).is_ok() == again
        && sink.put(b"bytes").is_ok() == again
        && waits.write(b"bytes").is_ok() == patient
}

/// Only a call that a signal interrupted is made again, and a patient writer waits only where there is no room yet.
#[test]
fn an_error_is_not_tried_again(rt: HostRuntime) {
    assert!(rt; ends_so(&rt, ErrorKind::Interrupted, true, false));
    assert!(rt; ends_so(&rt, ErrorKind::WouldBlock, false, true));
    assert!(rt; ends_so(&rt, ErrorKind::StorageFull, false, false));
    assert!(rt; ends_so(&rt, ErrorKind::BrokenPipe, false, false));
    assert!(rt; ends_so(&rt, ErrorKind::Other, false, false));
}
