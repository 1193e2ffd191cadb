//! Laws of the definitions. Each function does nothing: its clause is the law.

ghost use Rattle.machine_records.specs.Laws.{RecordSaysReply};

/// What the record of a reply says is this reply.
pub fn law_read_back()
    ensures back { RecordSaysReply }
{}
