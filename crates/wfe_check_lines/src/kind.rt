// The kinds of lines that follow a record's first one, and how they are read.
ghost use Rattle.std.specs.Prelude.{◌≡◌, IfSome, None, Some, if◌then◌else◌, option_map};
ghost use Rattle.wfe_record.specs.record_words.Within.{Small};
ghost use Rattle.wfe_record.specs.record_words.Reader.{is_over, whole as whole_of};
ghost use Rattle.wfe_trace.specs.Words.{words};
ghost use Rattle.wfe_words.specs.declared.config.Config.{Config as Setting};
ghost use Rattle.wfe_check_lines.specs.Kinds.{KindIn, counted_in, counts as counts_of, counts_back as counts_back_of, end_reason_in, kind_in, named_by, reason_in, refusal as refusal_of, row as row_of, seat_reason_in};

use wfe_defs::Event;
use wfe_record::read_event;
use wfe_record_words::{Words, exactly};
use wfe_trace::number_of;
use wfe_words::Config;

/// What a line of a record after its first one is.
#[derive(Clone, Copy, Debug, PartialEq, Eq)]
pub enum Kind {
    /// An event of a seat.
    Entry { seat: u32, event: Event },
    /// Counts of rows that a trace asked for, or a watcher's row.
    Shown,
    /// The last line: that all is done, or the first bad line of a trace.
    Last,
}

// Of which seat a line of counts is: of one, whichever, or of all.
#[tactic(auto, unfolding(crate::specs::Kinds::counted_in, wfe_record_words::specs::Reader::any_number))]
fn counted(word: &[u8]) -> Option<()>
    ensures { result ≡ counted_in word.now }
{
    if word == b"all".as_slice() {
        return Some(());
    }
    number_of(word)?;
    Some(())
}

// The words after `table`.
fn counts(line: &mut Words<'_>) -> Option<Kind>
    ensures kind { option_map (λ kind. (kind, line.new)) result ≡ counts_of line.old }
    ensures within { (config : Setting) → IfSome result (λ kind. KindIn config kind) }
{
    counted(line.first()?)?;
    exactly(line.first()?, b"retired")?;
    line.long()?;
    counts_back(line)
}

// Of these, the ones after how many rows were retired.
fn counts_back(line: &mut Words<'_>) -> Option<Kind>
    ensures kind { option_map (λ kind. (kind, line.new)) result ≡ counts_back_of line.old }
    ensures within { (config : Setting) → IfSome result (λ kind. KindIn config kind) }
{
    exactly(line.first()?, b"back")?;
    line.long()?;
    exactly(line.first()?, b"waiting")?;
    line.long()?;
    Some(Kind::Shown)
}

// The words after `watch`.
fn row(line: &mut Words<'_>) -> Option<Kind>
    ensures kind { option_map (λ kind. (kind, line.new)) result ≡ row_of line.old }
    ensures within { (config : Setting) → IfSome result (λ kind. KindIn config kind) }
{
    line.long()?;
    line.long()?;
    line.long()?;
    line.long()?;
    Some(Kind::Shown)
}

// A reason for which a line of a trace is bad.
#[tactic(auto, unfolding(crate::specs::Kinds::reason_in))]
fn reason(word: &[u8]) -> Option<()>
    ensures { result ≡ reason_in word.now }
{
    if word == b"first".as_slice()
        || word == b"config".as_slice()
        || word == b"form".as_slice()
        || word == b"number".as_slice()
        || word == b"run-line".as_slice()
    {
        return Some(());
    }
    seat_reason(word)
}

// One of the reasons from `seat` on.
#[tactic(auto, unfolding(crate::specs::Kinds::seat_reason_in))]
fn seat_reason(word: &[u8]) -> Option<()>
    ensures { result ≡ seat_reason_in word.now }
{
    if word == b"seat".as_slice()
        || word == b"range".as_slice()
        || word == b"busy".as_slice()
        || word == b"long-line".as_slice()
        || word == b"long-trace".as_slice()
    {
        return Some(());
    }
    end_reason(word)
}

// One of the reasons from `no-end` on.
#[tactic(auto, unfolding(crate::specs::Kinds::end_reason_in))]
fn end_reason(word: &[u8]) -> Option<()>
    ensures { result ≡ end_reason_in word.now }
{
    if word == b"no-end".as_slice()
        || word == b"after-end".as_slice()
        || word == b"not-yet".as_slice()
        || word == b"gone".as_slice()
    {
        return Some(());
    }
    None
}

// The words after `bad`.
fn refusal(line: &mut Words<'_>) -> Option<Kind>
    ensures within { (config : Setting) → IfSome result (λ kind. KindIn config kind) }
    ensures kind { option_map (λ kind. (kind, line.new)) result ≡ refusal_of line.old }
{
    line.long()?;
    reason(line.first()?)?;
    Some(Kind::Last)
}

// The kind where all words were read.
fn whole(line: &Words<'_>, kind: Kind) -> Option<Kind>
    ensures kind { result ≡ (if is_over line.now then Some kind else None) }
    ensures within { (config : Setting) → KindIn config kind → IfSome result (λ it. KindIn config it) }
{
    if line.is_over() { Some(kind) } else { None }
}

// The kind of a line of counts, after its first word.
fn counts_line(line: &mut Words<'_>) -> Option<Kind>
    ensures kind { result ≡ whole_of (counts_of line.old) }
    ensures within { (config : Setting) → IfSome result (λ kind. KindIn config kind) }
{
    let kind = counts(line)?;
    whole(line, kind)
}

// The kind of a watcher's row, after its first word.
fn row_line(line: &mut Words<'_>) -> Option<Kind>
    ensures kind { result ≡ whole_of (row_of line.old) }
    ensures within { (config : Setting) → IfSome result (λ kind. KindIn config kind) }
{
    let kind = row(line)?;
    whole(line, kind)
}

// The kind of a line that says which line of a trace is bad, after its first word.
fn refusal_line(line: &mut Words<'_>) -> Option<Kind>
    ensures kind { result ≡ whole_of (refusal_of line.old) }
    ensures within { (config : Setting) → IfSome result (λ kind. KindIn config kind) }
{
    let kind = refusal(line)?;
    whole(line, kind)
}

// The kind of a line with this first word that tells no event.
#[tactic(auto, unfolding(crate::specs::Kinds::named_by))]
fn named(name: &[u8], line: &mut Words<'_>) -> Option<Kind>
    ensures kind { result ≡ named_by name.now line.old }
    ensures within { (config : Setting) → IfSome result (λ kind. KindIn config kind) }
{
    if name == b"table".as_slice() {
        counts_line(line)
    } else if name == b"watch".as_slice() {
        row_line(line)
    } else if name == b"done".as_slice() {
        whole(line, Kind::Last)
    } else if name == b"bad".as_slice() {
        refusal_line(line)
    } else {
        None
    }
}

// The numbers of a setting have 32 bits.
fn setting_is_small(config: Config)
    ensures { Small config }
{}

/// The kind of a line of a record of the version and with the setting, after its first line: of the
/// line without its line feed. None where it is none of a record's.
#[tactic(auto, using(crate::proofs::Within::entry_in_range, crate::proofs::Texts::seated_first, crate::proofs::Texts::named_kind))]
pub fn read_kind(bytes: &[u8], version: u32, config: &Config) -> Option<Kind>
    ensures kind { result ≡ kind_in version config.now (words bytes.now) }
    ensures within { IfSome result (λ kind. KindIn config.now kind) }
{
    setting_is_small(*config);
    // Nearly each line tells an event, and so is read as one first: its first word is cut once.
    if let Some((seat, event)) = read_event(bytes, version, config) {
        return Some(Kind::Entry { seat, event });
    }
    let mut line = Words::of(bytes);
    let name = line.first()?;
    named(name, &mut line)
}
