// The lines of a closed table.
ghost use Rattle.std.specs.Prelude.{◌≡◌, ◌≤◌, ◌+◌, ◌*◌, ◌++◌, ◌∷◌, length};
ghost use Rattle.std.specs.Fmt.{decimal};
ghost use Rattle.wfe_server_lines.specs.Lines.{bucket_line, pair_words, queue_line, used_line};
ghost use Rattle.wfe_trace.specs.Record.{spaced};

use wfe_trace::Line;

// A number after a space.
#[tactic(auto, using(wfe_text::proofs::Digits::digit_counts))]
fn number(line: &mut Line, number: u64)
    requires { length line.old ≤ 1000 }
    ensures text { line.new ≡ line.old ++ (32 ∷ decimal number) }
    ensures room { length line.new ≤ length line.old + 21 }
{
    line.text(b" ");
    line.number(number);
}

// Keys with their values, each after a space.
fn pairs(line: &mut Line, pairs: &[(u64, u64)])
    requires { length line.old + 42 * length pairs.now ≤ 1000 }
    ensures text { line.new ≡ line.old ++ spaced (pair_words pairs.now) }
    ensures room { length line.new ≤ length line.old + 42 * length pairs.now }
{
    for pair in pairs {
        number(line, pair.0);
        number(line, pair.1);
    }
}

/// Sets the line to a bucket with its version and its pairs.
pub fn print_bucket(bucket: u64, version: u64, row: &[(u64, u64)], line: &mut Line)
    requires { length row.now ≤ 14 }
    ensures { line.new ≡ bucket_line bucket (record { version = version; pairs = row.now }) }
{
    line.clear();
    line.text(b"bucket");
    number(line, bucket);
    number(line, version);
    pairs(line, row);
    line.text(b"\n");
}

/// Sets the line to a value that is left in the queue, with its number.
pub fn print_queue(place: u64, value: u64, line: &mut Line)
    ensures { line.new ≡ queue_line place value }
{
    line.clear();
    line.text(b"queue");
    number(line, place);
    number(line, value);
    line.text(b"\n");
}

/// Sets the line to a row that is taken still.
pub fn print_used(slot: u32, line: &mut Line)
    ensures { line.new ≡ used_line slot }
{
    line.clear();
    line.text(b"used");
    number(line, u64::from(slot));
    line.text(b"\n");
}
