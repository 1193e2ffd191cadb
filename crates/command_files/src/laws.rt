//! A law of the status that the words and the files of a command ask for.

ghost use Rattle.command_files.specs.Laws.{OneStatus};

use board_image::laws::law_one_spelling;

/// The words and the files ask for at most one status.
pub fn law_one_status()
    ensures one { OneStatus }
{
    law_one_spelling();
}
