// Why a trace is refused, and how a run over a trace ends.

/// What is bad in a line, or at the end of a trace.
#[derive(Clone, Copy, Debug, PartialEq, Eq)]
pub enum Reason {
    /// The first line names no version that is read here.
    First,
    /// A line of the setting has another form, or another word in its place.
    Config,
    /// A body line has none of the forms.
    Form,
    /// The word in a number's place is no number of 64 bits in its shortest form.
    Number,
    /// The line has no meaning in a run with workers.
    RunLine,
    /// The trace has no such seat.
    Seat,
    /// A number is outside its range.
    Range,
    /// The seat's call has not ended.
    Busy,
    /// A line has more than 200 bytes.
    LongLine,
    /// The trace has more than 16,777,216 bytes.
    LongTrace,
    /// The trace ends before a line `end`.
    NoEnd,
    /// Bytes follow the line `end`.
    AfterEnd,
    /// The line begins a call that is not built here.
    NotYet,
    /// The seat has left.
    Gone,
}

/// The first bad line of a trace. Lines are counted from 1.
#[derive(Clone, Copy, Debug, PartialEq, Eq)]
pub struct BadLine {
    pub line: u64,
    pub reason: Reason,
}

/// What is bad in a line of a record that is read.
#[derive(Clone, Copy, Debug, PartialEq, Eq)]
pub enum RecordReason {
    /// The first line is no header of a record of a version that is read here, or there is no line.
    Header,
    /// A later line has none of the forms of a record's lines, or comes after its last line.
    Form,
    /// A line has more than 200 bytes.
    LongLine,
    /// The record has more than 1,073,741,824 bytes.
    LongRecord,
}

/// How a command ended. Lines are counted from 1.
#[derive(Clone, Copy, Debug, PartialEq, Eq)]
pub enum Status {
    /// The work is done, and what it reads was read to its end.
    Done,
    /// The words are no command.
    Usage,
    BadTrace { line: u64, reason: Reason },
    /// The entries of a record up to this line are not good, and those before it are.
    Unlawful { line: u64 },
    /// The first bad line of a record.
    BadRecord { line: u64, reason: RecordReason },
    ReadFault,
    WriteFault,
    NoMemory,
}
