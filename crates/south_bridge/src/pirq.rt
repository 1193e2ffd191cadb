//! The PIRQ route control registers, PIRQRC[A:D] of the PIIX3.
//!
//! | offset | register           | reset    | writable | effect                                             |
//! |--------|--------------------|----------|----------|----------------------------------------------------|
//! | 60-63  | PIRQRCA to PIRQRCD | 80h each | 8F each  | bit 7 at 1: not routed; bits 3 to 0: to which line |
ghost use Rattle.std.specs.Prelude.{◌≡◌, ℕ, ◌<◌, ◌-◌, if◌then◌else◌, replicate, IfSome, slice_index_or, ◌||◌, true};
ghost use Rattle.std.specs.Prelude.{false};
ghost use Rattle.board_prelude.specs.{One, Store, Setup, reset_byte, changed_byte, Bytes, isa, pirq, route_byte};
ghost use Rattle.board_prelude.specs.{routes_after_write, route_reset, drives, is_line_driven, is_route_offset};
ghost use Rattle.board_prelude.specs.{line_of_route};
ghost use Rattle.south_bridge.specs.Routes.{AreRoutesIn};

use board_base::bits::{is_set, merged};
use board_spec::offset::{PIRQRCA, PIRQRCD};
use pic_pair::Lines;
use std::marker::Model;

/// How many PCI interrupt pins are routed, PIRQA# to PIRQD#.
const PINS: usize = 4;

/// The bit that disables the routing.
const DISABLE: u32 = 7;
/// The bits that name the line.
const LINE_BITS: u8 = 0x0F;
/// A register after a reset: its pin is not routed.
const DISABLED: u8 = 1 << DISABLE;
/// The bits that can be written.
const WRITABLE: u8 = DISABLED | LINE_BITS;

/// The four PIRQ route control registers of the PIIX3, in its function 0.
///
/// Contracts see the list of their four bytes. `board_example::pic` has an example.
#[derive(Drop)]
pub struct Pirq {
    pub(crate) bytes: [u8; 4],
}

impl Model for Pirq {
    ghost use Rattle.board_spec.specs.RegisterNames.{pirq};
    ghost use Rattle.device_spec.specs.Routing.{Routes};

    ghost Value = { Routes };

    ghost view = { λ pirq. pirq.bytes };
}

impl Pirq {
    /// The registers after a reset, with every routing disabled.
    #[tactic(auto, using(crate::proofs::RegisterLemmas::routes_at_reset))]
    pub fn new() -> Pirq
        ensures disabled { result ≡ replicate 4 route_reset }
        ensures reset { (setup : Setup) → AreRoutesIn (reset_byte setup) result }
    {
        Pirq {
            bytes: [DISABLED; 4],
        }
    }

    /// The byte at an offset of function 0, which is 0 where none of the registers stands.
    pub fn read(&self, offset: u8) -> u8
        ensures byte { result ≡ route_byte self.now offset }
        ensures register { (bytes : Bytes) → AreRoutesIn bytes self.now → is_route_offset offset ≡ true
            → result ≡ bytes (isa offset) }
    {
        match pin_at(offset) {
            Some(pin) => self.bytes[pin],
            None => 0,
        }
    }

    /// Writes the byte at an offset of function 0. A write where none of the registers stands is ignored.
    pub fn write(&mut self, offset: u8, byte: u8)
        ensures written { self.new ≡ routes_after_write self.old offset byte }
        ensures stored { (setup : Setup) (bytes : Bytes) → AreRoutesIn bytes self.old
            → AreRoutesIn (λ reg. changed_byte setup (Store (isa offset) One byte) reg (bytes reg)) self.new }
    {
        if let Some(pin) = pin_at(offset) {
            self.bytes[pin] = merged(WRITABLE, self.bytes[pin], byte);
        }
    }

    /// Disables every routing.
    #[tactic(auto, using(crate::proofs::RegisterLemmas::routes_at_reset))]
    pub fn reset(&mut self)
        ensures disabled { self.new ≡ replicate 4 route_reset }
        ensures reset { (setup : Setup) → AreRoutesIn (reset_byte setup) self.new }
    {
        self.bytes = [DISABLED; 4];
    }

    /// The lines that the pins hold at 1: each one that a pin at 1 is routed to.
    pub fn route(&self, pins: [bool; 4]) -> Lines
        ensures lines { (line : ℕ) → line < 16 → slice_index_or result line false ≡ is_line_driven self.now pins line }
    {
        let mut lines = Lines::low();
        for pin in 0..PINS {
            lines = joined(lines, self.bytes[pin], pins[pin]);
        }
        lines
    }
}

/// The lines, joined by that which a pin of this level drives, where a register's byte routes the pin.
#[tactic(auto, using(board_prelude::proofs::line_of_route))]
fn joined(lines: Lines, byte: u8, level: bool) -> Lines
    ensures lines { (line : ℕ) → line < 16 → slice_index_or result line false
        ≡ (slice_index_or lines line false || drives (line_of_route byte) level line) }
{
    if !level {
        return lines;
    }
    match line_of_route(byte) {
        Some(line) => lines.with(line, true),
        None => lines,
    }
}

/// The pin whose register stands at the offset.
fn pin_at(offset: u8) -> Option<usize>
    ensures pin { result ≡ (if is_route_offset offset then Some (offset - (pirq 0).off) else None) }
{
    match offset {
        PIRQRCA..=PIRQRCD => Some((offset - PIRQRCA) as usize),
        _ => None,
    }
}

/// The line that a register's byte routes its pin to: not 0, 1, 2, 8 or 13.
fn line_of_route(byte: u8) -> Option<u8>
    ensures line { result ≡ line_of_route byte }
    ensures small { IfSome result (λ line. line < 16) }
{
    let line = byte & LINE_BITS;
    match line {
        0 | 1 | 2 | 8 | 13 => None,
        _ if is_set(byte.into(), DISABLE) => None,
        _ => Some(line),
    }
}
