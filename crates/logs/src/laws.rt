//! What the lines of a history are, whole and in parts.

ghost use Rattle.logs.specs.LinesFrom.{LinesOfHistory, LinesOfParts};

/// The lines of a history, from 1 on, are those of its log. Cut into parts it has the lines of each part, numbered on
/// from those of the part before.
pub fn law_lines_from()
    ensures whole { LinesOfHistory }
    ensures parts { LinesOfParts }
{}
