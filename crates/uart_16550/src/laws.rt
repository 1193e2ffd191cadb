//! Laws of the definitions. Each function does nothing: its clause is the law.

ghost use Rattle.uart_16550.specs.Calls.{ReadInOrder};
ghost use Rattle.uart_16550.specs.Sent.{ControlFollows};
ghost use Rattle.uart_16550.specs.Serial.{AnsweredIsLegal};
ghost use Rattle.uart_16550.specs.SerialOrder.{SerialReadsInOrder};

/// While no byte was looped back and no queue was emptied by FCR or a reset, the bytes read from the queue and those
/// still in it are the bytes received, in order.
#[tactic(auto, using(crate::proofs::CallProofs::calls_in_order))]
pub fn law_read_in_order()
    ensures order { ReadInOrder }
{}

/// The same of a board with a serial port, where bytes come and events are done in any order.
#[tactic(auto, using(crate::proofs::CallProofs::serial_in_order))]
pub fn law_serial_reads_in_order()
    ensures order { SerialReadsInOrder }
{}

/// The reset control register of a board with a serial port follows the events alone: so do the bytes that are sent.
pub fn law_control_follows()
    ensures control { ControlFollows }
{}

/// A legal history that goes on with entries that are each the next, with the answer as its reply, is legal.
#[tactic(auto, using(crate::proofs::SerialSteps::answered_is_legal))]
pub fn law_legal()
    ensures legal { AnsweredIsLegal }
{}
