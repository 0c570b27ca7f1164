// Which texts are lines of a record. Each function does nothing, and carries a theorem.
ghost use Rattle.wfe_check_lines.specs.Texts.{HeadersAreTexts, KindsAreTexts};

/// The first line of a record is read as such exactly where its text is the line of a version and a
/// setting, and those are read.
pub fn headers_are_texts()
    ensures { HeadersAreTexts }
{}

/// A line after the first is read as one of a kind exactly where its text is such a line: of an event,
/// of counts or of a watcher's row, or a record's last one.
pub fn kinds_are_texts()
    ensures { KindsAreTexts }
{}
