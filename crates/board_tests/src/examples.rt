//! The examples of `board_example` give what the datasheets say.

use crate::plain::plain_board;
use board_base::{Area, Moment, Target};
use board_example::transfer::Moved;
use board_example::{clock, disk, dram, live, map, pic, pit, published, replay, serial, transfer};
use board_spec::{Look, Reply};
use bus_master::{Done, End};
use map_builder::Span;
use std::alloc::{AllocError, Global};
use std::process::Abort;
use std::sync::Wait;
use std::test::Fail;
use uart_16550::SerialReply;

/// A read of these bytes, which this target gives.
fn read(value: u32, target: Target) -> Reply {
    Reply::Bus {
        value: Some(value),
        target,
        denial: None,
    }
}

/// A ROM of 64 KiB.
fn rom(alloc: Global) -> Result<Vec<u8>, AllocError> {
    vec![in alloc; 0x90; 0x1_0000]
}

/// The clock's flags at a time of day.
fn flags(hour: u8, minute: u8, second: u8) -> u8 {
    match Moment::new(1998, 6, 15, hour, minute, second) {
        Some(moment) => clock::flags_at(moment),
        None => 0,
    }
}

/// What each chip gives, and what it must give.
fn chips() -> [(u32, u32); 11] {
    let (runs, ended) = (pit::counted_down(0x1234, 5), pit::counted_down(3, 4));
    let received = serial::looped_back(0x5A);
    [
        // The first pulse loads the count. Status: OUT in bit 7, and the control word in bits 5 to 0.
        (runs.status.into(), 0x30),
        (runs.count.into(), 0x1230),
        (ended.status.into(), 0xB0),
        (ended.count.into(), 0x0000),
        // The vector that ICW2 says, and the level.
        (pic::acknowledged(1).vector.into(), 0x09),
        (pic::acknowledged(8).vector.into(), 0x70),
        (pic::routed().vector.into(), 0x73),
        // IRQF, AF and UF; UF alone.
        (flags(7, 30, 0).into(), 0xB0),
        (flags(7, 29, 59).into(), 0x10),
        // DR, THRE and TEMT.
        (received.line_status.into(), 0x61),
        (received.byte.into(), 0x5A),
    ]
}

/// What the memories give, and what they must give.
fn memories(alloc: Global) -> [(u32, u32); 2] {
    let sector = [0xEB, 0xFE, 0x55, 0xAA];
    [
        (disk::sectors(alloc, &[0; 1024]).unwrap_or(0), 2),
        (
            dram::first_of_boot_sector(alloc, &sector).unwrap_or(0),
            0xAA55_FEEB,
        ),
    ]
}

/// The BIOS at F0000h to FFFFFh is shadowed in row 0 of the DRAM, on the map and as a viewer sees it.
fn maps<R: Wait + Abort>(rt: &R, alloc: Global) {
    let (lo, hi, area) = (0xF_0000, 0xF_FFFF, Area::Shadow(0));
    assert!(rt; map::shadowed() == Span { lo, hi, area });
    let due = Look {
        version: 1,
        lo,
        hi,
        area,
    };
    assert!(rt; published::seen(rt, alloc) == Ok(due));
}

/// The status says an interrupt alone, as a transfer ends with its table.
fn transfers(rt: &impl Abort, alloc: Global) -> Result<(), Fail> {
    let due = Moved {
        done: Done {
            end: End::Exact,
            moved: 512,
        },
        status: 0x04,
        first: 0xA5A5_A5A5,
    };
    let disk = vec![in alloc; 0xA5; 512]?;
    assert!(rt; transfer::first_sector(alloc, rom(alloc)?, disk) == Ok(due));
    Ok(())
}

/// A byte of row 0 is read back, and a byte is sent.
fn bytes(rt: &impl Abort, alloc: Global) -> Result<(), Fail> {
    let entry = replay::read_back(alloc, rom(alloc)?, 0x5A)?;
    assert!(rt; entry.seq == 2 && entry.reply == read(0x5A, Target::Dram(0)));
    let sent = SerialReply::Uart {
        value: None,
        sent: Some(b'A'),
    };
    assert!(rt; serial::sent(alloc, rom(alloc)?, b'A') == Ok(sent));
    Ok(())
}

/// The caller's first fetch is from the ROM.
fn callers<R: Wait + Abort>(rt: &R, alloc: Global) -> Result<(), Fail> {
    let board = plain_board(alloc, 1)?;
    let Ok(board) = live::shared(rt, alloc, board) else {
        panic!(rt; "there was no memory")
    };
    let entries = board.history().entries();
    assert!(rt; entries.len() == 1 && entries.entry(0).reply == read(0, Target::Rom(0xFFF0)));
    Ok(())
}

#[test]
fn each_example_gives_what_it_must(rt: HostRuntime) -> Result<(), Fail> {
    let alloc = rt.alloc();
    for (gives, due) in chips() {
        assert!(rt; gives == due);
    }
    for (gives, due) in memories(alloc) {
        assert!(rt; gives == due);
    }
    maps(&rt, alloc);
    transfers(&rt, alloc)?;
    bytes(&rt, alloc)?;
    callers(&rt, alloc)
}
