//! Saved boards, of the calls that load them.

ghost use Rattle.std.specs.Prelude.{◌≡◌, List, IfOk};
ghost use Rattle.board_spec.specs.declared.event.Entry.{Entry};
ghost use Rattle.board_spec.specs.Setup.{Setup as Fitting};
ghost use Rattle.board_spec.specs.Legal.{IsLegal};
ghost use Rattle.board_spec.specs.Orders.{statements_of};
ghost use Rattle.board_image.specs.ImageBytes.{IsImage, image_bytes};
ghost use Rattle.board_image.specs.declared.fault.ImageFault.{ImageFault as Refused};
ghost use Rattle.board_chipset.specs.Chipset.{Running};
ghost use Rattle.board_chipset.specs.ChipsetState.{IsChipset, chipset_bytes};
ghost use Rattle.board_chipset.specs.declared.state_fault.StateFault.{StateFault as StateRefused};
ghost use Rattle.promises.specs.Images.{IsAsSaved, IsTakenFor};

use board_base::NoMemory;
use board_chipset::{Chipset, StateFault};
use board_core::{Board, Setup};
use board_image::{Image, ImageFault, load, read_image};
use std::alloc::Global;

/// Reads an image. That of a board is taken for its setup and its statements.
pub fn image_as_saved(alloc: Global, bytes: &[u8]) -> Result<Image, ImageFault>
    ensures taken { (setup : Fitting) (history : List Entry) → IsImage setup (statements_of history) →
        bytes.now ≡ image_bytes setup (statements_of history) →
        IsTakenFor (record { setup = setup; steps = statements_of history }) Refused.NoMemory result }
{
    read_image(alloc, bytes)
}

/// The board of an image. It has the history of the board that was saved, and goes on as that one would.
pub fn board_as_saved(alloc: Global, image: Image) -> Result<Board, NoMemory>
    requires image { IsImage image.setup image.steps }
    ensures saved { (history : List Entry) → IsLegal image.setup history → statements_of history ≡ image.steps →
        IfOk result (IsAsSaved image.setup history) }
{
    load(alloc, image)
}

/// The chipset whose state the bytes are: equal to the one that was saved, with or without a history.
pub fn chipset_as_saved(alloc: Global, setup: Setup, bytes: &[u8]) -> Result<Chipset, StateFault>
    ensures taken { (saved : Running) → saved.setup ≡ setup → IsChipset saved → bytes.now ≡ chipset_bytes saved →
        IsTakenFor saved StateRefused.NoMemory result }
{
    Chipset::load_state(alloc, setup, bytes)
}
