//! Laws of the bytes of images and of their fields, and of a board that was saved and loaded.

ghost use Rattle.board_image.specs.Laws.{OneSpelling, ImageOrBad, GoesOnAsSaved};

use board_spec::laws::law_one_replay;

/// One value has one spelling, and one spelling is of one value.
pub fn law_one_spelling()
    ensures spelling { OneSpelling }
{}

/// Bytes are an image, or they are bad at one place, and not both.
pub fn law_image_or_bad()
    ensures one { ImageOrBad }
{}

/// A board that was saved, loaded and gone on with has the history of all statements, one after the other.
pub fn law_goes_on()
    ensures goes_on { GoesOnAsSaved }
{
    law_one_replay();
}
