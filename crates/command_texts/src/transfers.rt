//! The command `dma`: a transfer of the bus master after a replay.

ghost use Rattle.std.specs.Prelude.{◌≡◌, ◌++◌, ◌*◌, ◌≤◌, List, Some, length, slice_index, IfOk, OnOk};
ghost use Rattle.board_prelude.specs.{Entry};
ghost use Rattle.board_core.specs.Kept.{HasPlayed};
ghost use Rattle.scripts.specs.Script.{said_of};
ghost use Rattle.dram_store.specs.Bank.{bank_size};
ghost use Rattle.logs.specs.Adds.{AddsWords};
ghost use Rattle.command_words.specs.Words.{IsTransfer};
ghost use Rattle.command_texts.specs.Fresh.{IsFreshFor};
ghost use Rattle.command_texts.specs.Transfers.{HasTransferText, IsTransferText, started, sum_below, disk_sum};
ghost use Rattle.command_texts.specs.Transfers.{end_text, ended_line, sums_line};

use crate::plays::played;
use ata_pio::Ata;
use board_base::{Denial, NoMemory};
use board_core::{Board, Replay};
use bus_master::{BusMaster, COMMAND, DIRECTION, Done, End, START, STATUS, TABLE};
use command_words::Transfer;
use dram_store::Dram;
use logs::{Text, push_decimal, push_denial, push_hex_byte, push_hex_long, push_words};
use scripts::Script;
use std::alloc::Global;

/// A bus master that was started: as after a program's writes of the table pointer, byte by byte, and then of the
/// command.
#[tactic(auto, unfolding(bus_master::specs::Registers::master_written))]
fn start(transfer: &Transfer) -> BusMaster
    requires asked { IsTransfer transfer.now }
    ensures started { result ≡ started transfer.now }
{
    let mut master = BusMaster::new();
    let [a, b, c, d] = transfer.table.to_le_bytes();
    master.port_write(TABLE, a);
    master.port_write(TABLE + 1, b);
    master.port_write(TABLE + 2, c);
    master.port_write(TABLE + 3, d);
    let direction = u8::from(transfer.to_memory) << DIRECTION;
    master.port_write(COMMAND, 1 << START | direction);
    master
}

/// The sum of these bytes, of which there are at most a MiB.
#[tactic(auto, using(crate::proofs::TransferTexts::sum_below_more), unfolding(crate::specs::Transfers::sum_below))]
fn sum_of(bytes: &[u8]) -> u64
    requires few { length bytes.now ≤ bank_size }
    ensures sum { result ≡ sum_below (length bytes.now) (slice_index bytes.now) }
    ensures most { result ≤ 255 * bank_size }
{
    let mut sum = 0;
    for byte in bytes {
        sum += u64::from(*byte);
    }
    sum
}

/// The sum of all bytes of a DRAM of so many MiB. Those that are not kept are 0.
#[tactic(auto, using(crate::proofs::TransferTexts::dram_sum_rules), unfolding(crate::specs::Transfers::sum_below))]
fn dram_sum(dram: &Dram, mib: u32) -> u64
    requires size { length dram.now ≡ mib * bank_size }
    ensures sum { result ≡ sum_below (length dram.now) (slice_index dram.now) }
{
    let mut sum = 0;
    for bank in 0..mib {
        match dram.kept(bank as usize) {
            Some(bytes) => sum += sum_of(bytes),
            None => unreachable!(),
        }
    }
    sum
}

/// The sum of the bytes of all sectors, 0 without a disk.
fn disk_sum(disk: &Option<Ata>) -> u64
    ensures sum { result ≡ disk_sum disk.now }
{
    match disk {
        Some(disk) => sector_sum(disk),
        None => 0,
    }
}

/// The sum of the bytes of all sectors.
#[tactic(auto, unfolding(crate::specs::Transfers::sum_below))]
fn sector_sum(disk: &Ata) -> u64
    ensures sum { result ≡ disk_sum (Some disk.now) }
{
    let mut sum = 0;
    for lba in 0..disk.sectors() {
        sum += sum_of(disk.sector(lba));
    }
    sum
}

/// Appends the words for how a transfer ended.
fn push_end(text: &mut String, end: End) -> Result<(), NoMemory>
    ensures appended { OnOk result (AddsWords text.old text.new (end_text end)) }
{
    match end {
        End::Exact => push_words(text, "exact"),
        End::Longer => push_words(text, "longer"),
        End::Shorter => push_words(text, "shorter"),
        End::Abort { addr, denial } => push_abort(text, addr, denial),
        End::Sector { lba } => push_sector(text, lba),
    }
}

/// Appends the address at which nobody answered, and what denied the access.
fn push_abort(text: &mut String, addr: u32, denial: Denial) -> Result<(), NoMemory>
    ensures appended { OnOk result (AddsWords text.old text.new (end_text (End.Abort addr denial))) }
{
    push_words(text, "abort ")?;
    push_hex_long(text, addr)?;
    push_words(text, " ")?;
    push_denial(text, &Some(denial))
}

/// Appends the number of the sector that does not exist or is bad.
fn push_sector(text: &mut String, lba: u32) -> Result<(), NoMemory>
    ensures appended { OnOk result (AddsWords text.old text.new (end_text (End.Sector lba))) }
{
    push_words(text, "sector ")?;
    push_decimal(text, u64::from(lba))
}

/// Appends the line of how a transfer ended, of the status after it, and of how many bytes it moved.
fn push_ended(text: &mut String, done: Done, status: u8) -> Result<(), NoMemory>
    ensures appended { OnOk result (AddsWords text.old text.new (ended_line done status)) }
{
    push_end(text, done.end)?;
    push_words(text, " status ")?;
    push_hex_byte(text, status)?;
    push_words(text, " moved ")?;
    push_decimal(text, u64::from(done.moved))?;
    push_words(text, "\n")
}

/// Appends the line of the sums of DRAM and disk.
fn push_sums(text: &mut String, dram: u64, disk: u64) -> Result<(), NoMemory>
    ensures appended { OnOk result (AddsWords text.old text.new (sums_line dram disk)) }
{
    push_words(text, "dram ")?;
    push_decimal(text, dram)?;
    push_words(text, " disk ")?;
    push_decimal(text, disk)?;
    push_words(text, "\n")
}

/// The text of both lines.
fn transfer_text(
    alloc: Global,
    done: Done,
    status: u8,
    dram: u64,
    disk: u64,
) -> Result<Text, NoMemory>
    ensures text { IfOk result (λ text. text ≡ ended_line done status ++ sums_line dram disk) }
{
    let mut text = String::new(alloc);
    push_ended(&mut text, done, status)?;
    push_sums(&mut text, dram, disk)?;
    Text::whole(alloc, text)
}

/// Ends a board, does the transfer on its store, and gives the text of how it ended.
fn transfer_on(alloc: Global, replay: Replay, transfer: &Transfer) -> Result<Text, NoMemory>
    requires asked { IsTransfer transfer.now }
    ensures text { (history : List Entry) → HasPlayed replay history
        → IfOk result (HasTransferText replay.chipset.setup history transfer.now) }
{
    let mib = replay.setup().mib;
    let mut store = replay.into_store();
    let mut master = start(transfer);
    let done = master.transfer(&mut store, transfer.lba, transfer.count);
    let status = master.port_read(STATUS);
    transfer_text(
        alloc,
        done,
        status,
        dram_sum(&store.dram, mib),
        disk_sum(&store.disk),
    )
}

/// The text of a transfer of the bus master after a script's replay on its board: how it ended, and the sums of all
/// bytes of the DRAM and of the disk after it.
pub fn transfer_after_replay(
    alloc: Global,
    board: Board,
    script: &Script,
    transfer: &Transfer,
) -> Result<Text, NoMemory>
    requires fresh { IsFreshFor (said_of script.now) board }
    requires asked { IsTransfer transfer.now }
    ensures text { IfOk result (IsTransferText board.setup (said_of script.now) transfer.now) }
{
    transfer_on(alloc, played(board, script), transfer)
}
