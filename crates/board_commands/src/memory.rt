//! The commands over files in memory, where nothing outside can fail.

ghost use Rattle.std.specs.Prelude.{◌≡◌, ◌≢◌, ◌↔◌, [], Some, None};
ghost use Rattle.board_outside.specs.Files.{file_named};
ghost use Rattle.command_words.specs.Words.{command_said};
ghost use Rattle.command_files.specs.declared.status.Which.{Which};
ghost use Rattle.board_commands.specs.Outcomes.{IsCaused, IsExact};

use crate::command::board;
use board_outside::{Gate, SafeShelf, SafeSink};
use command_files::Status;
use std::alloc::Global;
use std::sync::Wait;
use std::thread::Threads;

/// Does one command over a shelf and a sink that never fail, so that its status is never a read or write fault.
pub fn board_in_memory<R: Threads + Wait + Sync, G: Gate>(
    rt: &R,
    alloc: Global,
    words: &[String],
    shelf: &mut SafeShelf,
    out: &mut SafeSink,
    gate: &G,
) -> Status
    ensures usage { (result ≡ Status.Usage) ↔ (command_said words.now ≡ None) }
    ensures caused { IsCaused result (command_said words.now)
        (record {
          files = Some (file_named shelf.old.files.items);
          faults_before = 0;
          faults_now = 0;
          failed_name = [];
        })
        (record {
          faults_before = 0;
          faults_now = 0;
          taken_before = Some out.old.bytes.items;
          taken_now = Some out.new.bytes.items;
        }) }
    ensures no_read_fault { (which : Which) → result ≢ Status.ReadFault which }
    ensures no_write_fault { result ≢ Status.WriteFault }
    ensures exact { IsExact result (command_said words.now) (Some (file_named shelf.old.files.items))
        (Unit {0}) (Unit {0}) }
    ensures same_files { file_named shelf.new.files.items ≡ file_named shelf.old.files.items }
{
    board(rt, alloc, words, shelf, out, gate)
}
