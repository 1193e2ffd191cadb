//! The command `serial`: what a board with a serial port sends during a replay, while bytes come from outside.

ghost use Rattle.std.specs.Prelude.{◌≡◌, ◌++◌, ◌∷◌, ◌+◌, ◌*◌, ◌≤◌, ℕ, [], All, length, map, IfOk, OnOk};
ghost use Rattle.board_prelude.specs.{most_statements, in_file_order};
ghost use Rattle.script_spec.specs.Phases.{lists_of};
ghost use Rattle.scripts.specs.Script.{said_of};
ghost use Rattle.uart_16550.specs.Com1.{com1_at_reset};
ghost use Rattle.uart_16550.specs.Sent.{sent_by};
ghost use Rattle.uart_16550.specs.declared.com1.Happening.TheVariants.{Comes, Happens};
ghost use Rattle.command_texts.specs.Fresh.{IsFreshFor};
ghost use Rattle.command_texts.specs.Serial.{IsSerialText, bytes_before, left_after};
ghost use Rattle.command_texts.specs.SerialSteps.{Happened, IsForPort, IsStanding, WentOn, byte_read, port_of};

use board_base::NoMemory;
use board_core::Board;
use board_spec::Statement;
use board_spec::laws::law_lock;
use log_check::statement_count;
use logs::Text;
use scripts::Script;
use std::alloc::Global;
use uart_16550::{SerialBoard, SerialReply};

/// The most steps of the board for one statement: one for the byte that is received before it, and two for its event.
const MOST_STEPS: u32 = 3;

/// The byte that the port sent at an access, where it sent one.
fn byte_read(reply: SerialReply) -> Option<u8>
    ensures byte { result ≡ byte_read reply }
{
    match reply {
        SerialReply::Board(_) => None,
        SerialReply::Uart { sent, .. } => sent,
    }
}

/// Receives the next byte of the input, where one is left and the port has room for it. Returns the input that is left.
fn receive_next<'a>(serial: &mut SerialBoard<Board>, input: &'a [u8]) -> &'a [u8]
    requires standing { IsStanding serial.old }
    requires spare { 1 ≤ serial.old.board.spare }
    ensures happened { (actor : ℕ)
        → Happened actor serial.old (map Comes (bytes_before serial.old.com1.uart input.now)) serial.new }
    ensures left { result.now ≡ left_after serial.old.com1.uart input.now }
    ensures spare { serial.old.board.spare ≤ serial.new.board.spare + 1 }
{
    if !serial.room() {
        return input;
    }
    let [byte, left @ ..] = input else {
        return input;
    };
    serial.receive(*byte);
    left
}

/// Does a statement, and adds the byte that the port sends at it, if any, to `sent`.
fn step(
    serial: &mut SerialBoard<Board>,
    statement: &Statement,
    sent: &mut Vec<u8>,
) -> Result<(), NoMemory>
    requires standing { IsStanding serial.old }
    requires for_port { IsForPort serial.old.board.setup statement.now }
    requires spare { 2 ≤ serial.old.board.spare }
    ensures happened { OnOk result
        (Happened statement.now.actor serial.old (Happens statement.now.event ∷ []) serial.new) }
    ensures sent { OnOk result
        (sent.new.items ≡ sent.old.items ++ sent_by (port_of serial.old) (Happens statement.now.event)) }
    ensures spare { OnOk result (serial.old.board.spare ≤ serial.new.board.spare + 2) }
{
    let reply = serial.step(statement.actor, &statement.event);
    if let Some(byte) = byte_read(reply) {
        sent.push(byte)?;
    }
    Ok(())
}

/// Does statements, and before each receives the next byte of the input. Adds the bytes that the port sends to `sent`,
/// and returns the input that is left.
#[tactic(auto, using(crate::proofs::SerialReplays::went_nowhere))]
fn steps<'a>(
    serial: &mut SerialBoard<Board>,
    statements: &[Statement],
    input: &'a [u8],
    sent: &mut Vec<u8>,
) -> Result<&'a [u8], NoMemory>
    requires standing { IsStanding serial.old }
    requires for_port { All (IsForPort serial.old.board.setup) statements.now }
    requires spare { 3 * length statements.now ≤ serial.old.board.spare }
    ensures went_on { IfOk result (λ left. WentOn
        (record { serial = serial.old; input = input.now; sent = sent.old.items }) statements.now
        (record { serial = serial.new; input = left.now; sent = sent.new.items })) }
{
    let mut left = input;
    for statement in statements {
        left = receive_next(serial, left);
        step(serial, statement, sent)?;
    }
    Ok(left)
}

/// Does the statements of all phases as `steps` does.
#[tactic(auto, using(crate::proofs::SerialReplays::went_nowhere))]
fn all_steps<'a>(
    serial: &mut SerialBoard<Board>,
    phases: &[Vec<Statement>],
    input: &'a [u8],
    sent: &mut Vec<u8>,
) -> Result<&'a [u8], NoMemory>
    requires standing { IsStanding serial.old }
    requires for_port { All (IsForPort serial.old.board.setup) (in_file_order (lists_of phases.now)) }
    requires spare { 3 * length (in_file_order (lists_of phases.now)) ≤ serial.old.board.spare }
    ensures went_on { IfOk result (λ left. WentOn
        (record { serial = serial.old; input = input.now; sent = sent.old.items }) (in_file_order (lists_of phases.now))
        (record { serial = serial.new; input = left.now; sent = sent.new.items })) }
{
    let mut left = input;
    for phase in phases {
        left = steps(serial, phase, left, sent)?;
    }
    Ok(left)
}

/// A fresh board with a new serial port on COM1, and with room for the steps of so many statements.
fn opened(mut board: Board, statements: u32) -> Result<SerialBoard<Board>, NoMemory>
    requires fresh { board.entries ≡ [] }
    requires few { statements ≤ most_statements }
    ensures setup { IfOk result (λ serial. serial.board.setup ≡ board.setup) }
    ensures entries { IfOk result (λ serial. serial.board.entries ≡ []) }
    ensures com1 { IfOk result (λ serial. serial.com1 ≡ com1_at_reset) }
    ensures standing { IfOk result IsStanding }
    ensures spare { IfOk result (λ serial. 3 * statements ≤ serial.board.spare) }
{
    board.reserve(MOST_STEPS * statements)?;
    Ok(SerialBoard::open(board))
}

/// The bytes that a board with a serial port sends during a script's replay. Before each statement it receives the next
/// byte of the input, where one is left and the port has room for it.
pub fn sent_in_replay(
    alloc: Global,
    board: Board,
    script: &Script,
    input: &[u8],
) -> Result<Text, NoMemory>
    requires fresh { IsFreshFor (said_of script.now) board }
    ensures text { IfOk result (IsSerialText board.setup (said_of script.now) input.now) }
{
    let mut serial = opened(board, statement_count(&script.phases))?;
    let mut sent = Vec::new(alloc);
    all_steps(&mut serial, &script.phases, input, &mut sent)?;
    // A board with its history tells that it is legal.
    let _legal = serial.board().history();
    law_lock();
    Text::of_bytes(alloc, sent)
}
