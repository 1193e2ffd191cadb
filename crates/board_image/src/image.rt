//! An image as a value.

use board_core::Setup;
use board_spec::Statement;
use std::marker::Model;

/// What an image says: what a board is fitted with, and which processor did which event, the oldest first.
#[derive(Drop)]
pub struct Image {
    pub setup: Setup,
    pub steps: Vec<Statement>,
}

impl Model for Image {
    ghost use Rattle.board_image.specs.ImageBytes.{Saved};

    ghost Value = { Saved };

    ghost view = { λ image. record { setup = image.setup; steps = image.steps.items } };
}
