//! Laws of the definitions. Each function does nothing but ask for others: its clauses are the law.

ghost use Rattle.south_bridge.specs.PortSelects.{KeyboardAnswers, ClockAnswers, DiskAnswers};

use device_spec::laws::ports_are_apart;

/// The keyboard controller, the clock and a fitted disk answer at their ports exactly where the chip
/// selects them.
pub fn law_selected_ports()
    ensures keyboard { KeyboardAnswers }
    ensures clock { ClockAnswers }
    ensures disk { DiskAnswers }
{
    ports_are_apart();
}
