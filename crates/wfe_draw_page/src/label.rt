// The words of bars: their labels, and their titles, which a browser shows at the pointer.
use std::alloc::{AllocError, Global};
use std::str;
use wfe_defs::{Answer, Call, Event};
use wfe_draw_lives::{Bar, Lane, Moment, Says, Shade};
use wfe_trace::{Line, print_event};

// The names of colours, in their order, in the legend and on the bars of a row.
const NAMES: [&str; 13] = [
    "",
    "",
    "",
    "",
    "call",
    "published",
    "scan reads",
    "stands",
    "in hand",
    "linked",
    "cut",
    "waits",
    "kept by",
];

// What they mean.
const MEANINGS: [&str; 13] = [
    "",
    "",
    "",
    "",
    "a call, from its begin to its end, and its answer",
    "a guard publishes eras or a row",
    "a scan reads the guard",
    "a row stands protected at an index",
    "a row was given and is not linked",
    "a root leads to the row",
    "the row is linked no more, and not retired",
    "the row is retired, and not back",
    "the last reading of a scan that keeps the row",
];

fn lane_name(alloc: Global, lane: Lane) -> Result<String, AllocError> {
    match lane {
        Lane::Page => Ok(String::new(alloc)),
        Lane::Clock => String::from_str(alloc, "clock"),
        Lane::Seat { seat } => format!(in alloc; "seat {seat}"),
        Lane::Helper { seat } => format!(in alloc; "guard h{seat}"),
        Lane::Word { seat, index } => format!(in alloc; "guard i{seat}.{index}"),
        Lane::Whole { seat } => format!(in alloc; "guard v{seat}"),
        Lane::Index { seat, index } => format!(in alloc; "index {seat}.{index}"),
        Lane::Row { slot } => format!(in alloc; "row {slot}"),
    }
}

// Appends the words that an event has in a record, without these at their start.
fn push_event(text: &mut String, event: &Event, start: &str) -> Result<(), AllocError> {
    let mut line = Line::new();
    print_event(0, event, &mut line);
    let words = str::from_utf8(line.bytes()).unwrap_or("");
    text.push_str(words.trim_end().strip_prefix(start).unwrap_or(""))
}

// A call, and its answer if it has one, in the words of a record.
fn call_words(alloc: Global, call: Call, answer: Option<Answer>) -> Result<String, AllocError> {
    let mut text = String::new(alloc);
    push_event(&mut text, &Event::Begin { call }, "0 begin ")?;
    if let Some(answer) = answer {
        text.push_str(": ")?;
        push_event(&mut text, &Event::End { steps: 0, answer }, "0 end 0 ")?;
    }
    Ok(text)
}

// What a bar says besides its colour; of a call without its answer, if it is not to be whole.
fn said(alloc: Global, says: Says, whole: bool) -> Result<String, AllocError> {
    match says {
        Says::Nothing => Ok(String::new(alloc)),
        Says::Eras { lo, hi } if lo == hi => format!(in alloc; "era {lo}"),
        Says::Eras { lo, hi } => format!(in alloc; "eras {lo} to {hi}"),
        Says::Row { slot } => format!(in alloc; "row {slot}"),
        Says::Call { call, answer } if whole => call_words(alloc, call, answer),
        Says::Call { call, .. } => call_words(alloc, call, None),
        Says::Guard { guard } => lane_name(alloc, guard),
    }
}

/// The label of a bar: a whole one, or one that is shorter where there is such a one.
pub fn label(alloc: Global, bar: &Bar, whole: bool) -> Result<String, AllocError> {
    match (bar.shade, bar.says, bar.lane) {
        (Shade::Name, _, lane) => lane_name(alloc, lane),
        (Shade::Reads | Shade::Keeps, _, lane) if !matches!(lane, Lane::Page) => {
            Ok(String::new(alloc))
        }
        (shade, Says::Nothing, _) => String::from_str(alloc, NAMES[shade as usize]),
        (_, says, _) => said(alloc, says, whole),
    }
}

// Appends where a moment is in the record.
fn push_moment(text: &mut String, moment: &Option<Moment>, none: &str) -> Result<(), AllocError> {
    match moment {
        Some(Moment { number, line }) => write!(text, "line {line}, entry {number}"),
        None => text.push_str(none),
    }
}

// Appends a word, if it is one.
fn push_word(text: &mut String, word: &str) -> Result<(), AllocError> {
    if word.is_empty() {
        return Ok(());
    }
    text.push_str(" ")?;
    text.push_str(word)
}

// Appends where a bar begins and ends.
fn push_moments(text: &mut String, bar: &Bar) -> Result<(), AllocError> {
    text.push_str(": ")?;
    push_moment(text, &bar.from, "the start")?;
    if matches!(bar.shade, Shade::Move | Shade::Reads | Shade::Keeps) {
        return Ok(());
    }
    text.push_str(" to ")?;
    push_moment(text, &bar.to, "the end")
}

/// The title of a bar.
pub fn title(alloc: Global, bar: &Bar) -> Result<String, AllocError> {
    if let Lane::Page = bar.lane {
        return String::from_str(alloc, MEANINGS[bar.shade as usize]);
    }
    let lane = lane_name(alloc, bar.lane)?;
    if let Shade::Name = bar.shade {
        return Ok(lane);
    }
    let mut text = lane;
    push_word(&mut text, NAMES[bar.shade as usize])?;
    push_word(&mut text, &said(alloc, bar.says, true)?)?;
    push_moments(&mut text, bar)?;
    Ok(text)
}
