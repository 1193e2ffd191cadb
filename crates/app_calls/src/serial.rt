//! A board of 8 MiB with a serial port. `03F8=48` writes a byte, `03FA?` reads one, and `03F8:` reads two. `+` and `-`
//! are levels of line 4, `ack` acknowledges, and `<41` is a byte that comes. Told are what the port gives and sends, or
//! that the board answers, and then the log of what the board itself was asked, where its processor 8 is the port.

ghost use Rattle.std.specs.Prelude.{◌≡◌, false, [], IfOk};
ghost use Rattle.board_prelude.specs.{Setup as Fitting, IsInRange};

use crate::told::push_byte;
use board_base::{NoMemory, PortAccess, Width};
use board_core::{Board, Setup};
use board_spec::Event;
use call_words::{byte, port};
use logs::{push_heading, push_line};
use std::alloc::{AllocError, Global};
use uart_16550::{SerialBoard, SerialReply};

/// The most entries of a board.
const MOST: u32 = 100;

/// An access to a port; an acknowledge where the port is no multiple of the width.
fn access(write: bool, port: u16, width: Width, value: u8) -> Event
    requires value { write ≡ false → value ≡ 0 }
    ensures in_range { (setup : Fitting) → IsInRange setup result }
{
    if !width.is_aligned(u32::from(port)) {
        return Event::Ack;
    }
    Event::Port(PortAccess {
        write,
        port,
        width,
        value: u32::from(value),
    })
}

/// The event of a read.
fn read(request: &str) -> Event
    ensures in_range { (setup : Fitting) → IsInRange setup result }
{
    match request.split_once(':') {
        Some((at, _)) => access(false, port(at), Width::Two, 0),
        None => access(false, port(request.trim_end_matches('?')), Width::One, 0),
    }
}

/// The event of an access to a port.
fn port_event(request: &str) -> Event
    ensures in_range { (setup : Fitting) → IsInRange setup result }
{
    match request.split_once('=') {
        Some((at, value)) => access(true, port(at), Width::One, byte(value)),
        None => read(request),
    }
}

/// The event of a request.
fn event(request: &str) -> Event
    ensures in_range { (setup : Fitting) → IsInRange setup result }
{
    match request {
        "+" => Event::Line { irq: 4, on: true },
        "-" => Event::Line { irq: 4, on: false },
        "ack" => Event::Ack,
        _ => port_event(request),
    }
}

/// Tells a reply.
fn push_reply(text: &mut String, reply: &SerialReply) -> Result<(), AllocError> {
    match reply {
        SerialReply::Board(_) => text.push_str("board "),
        SerialReply::Uart {
            value: Some(byte),
            ..
        } => push_byte(text, *byte),
        SerialReply::Uart {
            value: None,
            sent: Some(byte),
        } => write!(text, "sent:{byte:02X} "),
        SerialReply::Uart {
            value: None,
            sent: None,
        } => text.push_str("- "),
    }
}

/// The room of a board for more entries.
fn spare(board: &Board) -> u32
    ensures spare { result ≡ board.now.spare }
{
    board.history().spare()
}

/// Does an event of processor 0, and tells the reply.
fn perform(
    serial: &mut SerialBoard<Board>,
    event: &Event,
    text: &mut String,
) -> Result<(), AllocError>
    requires in_range { IsInRange serial.old.board.setup event.now }
{
    if spare(serial.board()) < 2 {
        return text.push_str("no room ");
    }
    push_reply(text, &serial.step(0, event))
}

/// Receives a byte.
fn receive(serial: &mut SerialBoard<Board>, byte: u8, text: &mut String) -> Result<(), AllocError> {
    if spare(serial.board()) < 1 || !serial.room() {
        return text.push_str("no room ");
    }
    serial.receive(byte);
    text.push_str("- ")
}

/// Does a request.
fn ask(
    serial: &mut SerialBoard<Board>,
    request: &str,
    text: &mut String,
) -> Result<(), AllocError> {
    match request.strip_prefix('<') {
        Some(digits) => receive(serial, byte(digits), text),
        None => perform(serial, &event(request), text),
    }
}

/// A board without cards and disk, with a ROM of 64 KiB.
fn setup(alloc: Global) -> Result<Setup, AllocError>
    ensures mib { IfOk result (λ setup. setup.mib ≡ 8) }
    ensures cards { IfOk result (λ setup. setup.cards ≡ []) }
{
    Ok(Setup {
        mib: 8,
        cards: Vec::new(alloc),
        rom: vec![in alloc; 0; 0x1_0000]?,
        disk: None,
    })
}

/// The board of a setup that is one.
fn opened(alloc: Global, setup: Setup) -> Result<Board, NoMemory>
    requires mib { setup.mib ≡ 8 }
    requires cards { setup.cards ≡ [] }
    ensures fresh { IfOk result (λ board. board.entries ≡ []) }
{
    match Board::open(alloc, setup) {
        Ok(board) => Ok(board),
        Err(_) => Err(NoMemory),
    }
}

/// A board with room for its entries.
fn roomy(mut board: Board) -> Result<Board, NoMemory>
    requires fresh { board.entries ≡ [] }
    ensures fresh { IfOk result (λ board. board.entries ≡ []) }
{
    board.reserve(MOST)?;
    Ok(board)
}

/// The board, with room for its entries.
fn board(alloc: Global) -> Result<Board, NoMemory>
    ensures fresh { IfOk result (λ board. board.entries ≡ []) }
{
    let setup = setup(alloc)?;
    roomy(opened(alloc, setup)?)
}

/// Tells the log of a board.
fn push_log(text: &mut String, board: &Board) -> Result<(), NoMemory> {
    push_heading(text, 1)?;
    let entries = board.history().entries();
    for at in 0..entries.len() {
        push_line(text, at as u64 + 1, &entries.entry(at))?;
    }
    Ok(())
}

/// Does all requests at a board, and tells its log.
fn ask_all(board: Board, requests: &[&str], text: &mut String) -> Result<(), NoMemory>
    requires fresh { board.entries ≡ [] }
{
    let mut serial = SerialBoard::open(board);
    for request in requests {
        ask(&mut serial, request, text)?;
    }
    text.push('\n')?;
    push_log(text, serial.board())
}

/// Does all requests at a new board.
pub fn tell(alloc: Global, requests: &[&str], text: &mut String) -> Result<(), NoMemory> {
    ask_all(board(alloc)?, requests, text)
}
