// Judges a case: whether the command prints what is due, and ends with the number that the last line of it means; and whether a record that
// is due is lawful.
use crate::case::{Case, Kind};
use crate::outcome::{Outcome, Paced, play};
use std::alloc::{AllocError, Global};
use std::str;
use std::thread::Threads;
use wfe_outside::CleanSource;

// Bytes beyond those that are due for which there is room: what is longer is not what is due anyhow.
const MORE: usize = 4_096;

// The number with which the program ends where this is the last line that it prints.
fn status_of(folder: &str, last: &[u8]) -> u8 {
    if last.starts_with(b"unlawful ") {
        1
    } else if last.starts_with(b"usage: ") {
        2
    } else if !last.starts_with(b"bad ") {
        0
    } else if folder == "check" {
        7
    } else {
        3
    }
}

// The last line of a text.
fn last_line(text: &[u8]) -> &[u8] {
    let mut last: &[u8] = b"";
    for line in text.split(|byte| *byte == b'\n') {
        if !line.is_empty() {
            last = line;
        }
    }
    last
}

// A line as text, for a person.
fn shown(line: Option<&[u8]>) -> &str {
    match line {
        None => "nothing",
        Some(bytes) => str::from_utf8(bytes).unwrap_or("bytes that are no text"),
    }
}

// Says what a line is, and what is due.
fn unlike(
    alloc: Global,
    number: u64,
    line: &[u8],
    want: Option<&[u8]>,
) -> Result<String, AllocError> {
    let found = shown(Some(line));
    let want = shown(want);
    format!(in alloc; "line {number} is `{found}`, and `{want}` is due")
}

// Says where a text that was written first differs from another one that is due.
fn differs(alloc: Global, written: &[u8], due: &[u8]) -> Result<String, AllocError> {
    let mut wanted = due.split(|byte| *byte == b'\n');
    let mut number: u64 = 0;
    for line in written.split(|byte| *byte == b'\n') {
        number = number.saturating_add(1);
        let want = wanted.next();
        if want != Some(line) {
            return unlike(alloc, number, line, want);
        }
    }
    let want = shown(wanted.next());
    format!(in alloc; "it ends at line {number}, and `{want}` is due")
}

// Says where a text that was written differs from the one that is due, if it does.
fn difference(alloc: Global, written: &[u8], due: &[u8]) -> Result<Option<String>, AllocError> {
    if written == due {
        return Ok(None);
    }
    Ok(Some(differs(alloc, written, due)?))
}

// Says what is wrong with an outcome, if anything is.
fn fault(
    alloc: Global,
    folder: &str,
    found: &Outcome,
    due: &[u8],
) -> Result<Option<String>, AllocError> {
    if let Some(text) = difference(alloc, found.sink.bytes(), due)? {
        return Ok(Some(text));
    }
    let status = found.status;
    let want = status_of(folder, last_line(due));
    if status != want {
        return Ok(Some(format!(in alloc; "the status is {status}, and {want} is due")?));
    }
    Ok(None)
}

// The words of a command that is its name alone.
fn named(alloc: Global, name: &str) -> Result<Vec<String>, AllocError> {
    let mut words = Vec::new(alloc);
    words.push(String::from_str(alloc, name)?)?;
    Ok(words)
}

// The words that stand in a file, one a line.
fn listed(alloc: Global, file: &[u8]) -> Result<Vec<String>, AllocError> {
    let mut words = Vec::new(alloc);
    for line in str::from_utf8(file).unwrap_or("").lines() {
        words.push(String::from_str(alloc, line)?)?;
    }
    Ok(words)
}

// The words that a case gives the command.
fn words_of(alloc: Global, kind: &Kind, input: &[u8]) -> Result<Vec<String>, AllocError> {
    if kind.has_words {
        listed(alloc, input)
    } else {
        named(alloc, kind.folder)
    }
}

// How many entries a record has: its lines that begin with a seat.
fn entries_in(record: &[u8]) -> usize {
    record
        .split(|byte| *byte == b'\n')
        .filter(|line| matches!(line.first(), Some(byte) if byte.is_ascii_digit()))
        .count()
}

// Plays the command over these bytes, whole or one at a time, and says what is wrong with what came of it, if anything is.
fn played<R: Threads + Sync + AllocGlobal>(
    rt: &R,
    words: &[String],
    folder: &str,
    input: &[u8],
    drips: bool,
    due: &[u8],
) -> Result<Option<String>, AllocError> {
    let Ok(inner) = CleanSource::new(rt.alloc(), input) else {
        return Err(AllocError);
    };
    let source = Paced { inner, drips };
    let found = play(rt, words, source, due.len().saturating_add(MORE))?;
    fault(rt.alloc(), folder, &found, due)
}

// What is wrong, and where.
fn with_place(
    alloc: Global,
    place: &str,
    wrong: Option<String>,
) -> Result<Option<String>, AllocError> {
    match wrong {
        None => Ok(None),
        Some(text) => Ok(Some(format!(in alloc; "{place}, {text}")?)),
    }
}

// What a check prints of a lawful record.
fn verdict_of(alloc: Global, record: &[u8]) -> Result<String, AllocError> {
    format!(in alloc; "lawful {}\n", entries_in(record))
}

// Hands a record to a check, which has to find it lawful.
fn checked<R: Threads + Sync + AllocGlobal>(
    rt: &R,
    record: &[u8],
) -> Result<Option<String>, AllocError> {
    let words = named(rt.alloc(), "check")?;
    let want = verdict_of(rt.alloc(), record)?;
    played(rt, &words, "check", record, false, want.as_bytes())
}

// Plays a case once more, where its command reads: byte by byte; and hands on the record of a replay that came to its end.
fn played_again<R: Threads + Sync + AllocGlobal>(
    rt: &R,
    kind: &Kind,
    words: &[String],
    input: &[u8],
    due: &[u8],
) -> Result<Option<String>, AllocError> {
    let wrong = played(rt, words, kind.folder, input, true, due)?;
    if wrong.is_some() {
        return with_place(rt.alloc(), "byte by byte", wrong);
    }
    if kind.folder != "replay" || status_of(kind.folder, last_line(due)) > 0 {
        return Ok(None);
    }
    let wrong = checked(rt, due)?;
    with_place(rt.alloc(), "its record is checked", wrong)
}

// Plays a case whose files are there.
fn judged<R: Threads + Sync + AllocGlobal>(
    rt: &R,
    kind: &Kind,
    input: &[u8],
    due: &[u8],
) -> Result<Option<String>, AllocError> {
    let words = words_of(rt.alloc(), kind, input)?;
    let wrong = played(rt, &words, kind.folder, input, false, due)?;
    if wrong.is_some() || kind.has_words {
        return Ok(wrong);
    }
    played_again(rt, kind, &words, input, due)
}

/// Says what is wrong with a case, if anything is.
pub fn complaint<R: Threads + Sync + AllocGlobal>(
    rt: &R,
    kind: &Kind,
    case: &Case,
) -> Result<Option<String>, AllocError> {
    match (&case.input, &case.due) {
        (Some(input), Some(due)) => judged(rt, kind, input, due),
        _ => {
            let (input, due) = (kind.input, kind.due);
            Ok(Some(format!(in rt.alloc(); "a case is two files that end in .{input} and .{due}")?))
        }
    }
}
