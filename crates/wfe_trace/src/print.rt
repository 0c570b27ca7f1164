// Prints the lines that name the first bad line of a trace and of a record.
ghost use Rattle.std.specs.Prelude.{◌≡◌, ◌≤◌, [], ◌∷◌, codes, length};
ghost use Rattle.std.specs.Fmt.{decimal};
ghost use Rattle.wfe_trace.specs.Record.{line_of, reason_word, bad_line, record_reason_word, bad_record_line};

use crate::{BadLine, Line, Reason, RecordReason};

fn reason_name(reason: Reason) -> &'static [u8]
    ensures name { result.now ≡ reason_word reason }
    ensures short { length result.now ≤ 20 }
{
    const NAMES: [&[u8]; 14] = [
        b"first",
        b"config",
        b"form",
        b"number",
        b"run-line",
        b"seat",
        b"range",
        b"busy",
        b"long-line",
        b"long-trace",
        b"no-end",
        b"after-end",
        b"not-yet",
        b"gone",
    ];
    NAMES[reason as usize]
}

fn record_reason_name(reason: RecordReason) -> &'static [u8]
    ensures name { result.now ≡ record_reason_word reason }
    ensures short { length result.now ≤ 20 }
{
    const NAMES: [&[u8]; 4] = [b"header", b"form", b"long-line", b"long-record"];
    NAMES[reason as usize]
}

#[tactic(auto, using(wfe_text::proofs::Digits::digit_counts))]
fn print_reason(at: u64, reason: &[u8], line: &mut Line)
    requires { length reason.now ≤ 20 }
    ensures text { line.new ≡ line_of (codes "bad") (decimal at ∷ reason.now ∷ []) }
    ensures room { length line.new ≤ 1024 }
{
    line.clear();
    line.text(b"bad ");
    line.number(at);
    line.text(b" ");
    line.text(reason);
    line.text(b"\n");
}

/// Sets the line to the one that names the first bad line of a trace.
pub fn print_bad(bad: &BadLine, line: &mut Line)
    ensures text { line.new ≡ bad_line bad.now.line bad.now.reason }
    ensures room { length line.new ≤ 1024 }
{
    print_reason(bad.line, reason_name(bad.reason), line);
}

/// Sets the line to the one that names the first bad line of a record that is read, counted from 1.
pub fn print_bad_record(at: u64, reason: RecordReason, line: &mut Line)
    ensures text { line.new ≡ bad_record_line at reason }
    ensures room { length line.new ≤ 1024 }
{
    print_reason(at, record_reason_name(reason), line);
}
