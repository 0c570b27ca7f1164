// Scripts: calls of a table's seats, one after another on one thread, and what each comes to. The first line is that of a record, with
// the table's setting. Each other one gives a seat a call, in the words of a trace, and says what is due of it, in those of a record:
//
//     0 put 7 71 | give 1 1 | retire 0 1 1 | back 0 | end 26/24/28 done 2 moved 2
//     0 put 7 71 = done 2 moved 2
//     0 put 7 71
//
// The first wants all of it: the rows that went back before one was given, the row that was given, the row that was retired, the
// rows that went back after it, and steps and answer. The second wants its answer alone, the third nothing. Where the setting has
// more schemes than one, as `he/ibr/wfe`, the script is played under each, and `26/24/28` is 26 under the first.
//
// `0 list` shows the rows on the seat's retire list, `0 report` what its last scan read and did, and `0 seen` the version of each
// bucket that it has seen.
use crate::bench::Bench;
use crate::told::{Wanted, add, tell_call, tell_list, tell_report, tell_seen};
use std::alloc::{AllocError, Global};
use std::test::Fail;
use wfe_record_calls::read_call;
use wfe_record_words::{Words, read_header};
use wfe_table::{Call, Config};

// The version whose records have each call.
const VERSION: u32 = 5;

/// Plays each script under each of its schemes.
pub fn play_all(alloc: Global, scripts: &[&str]) -> Result<(), Fail> {
    for script in scripts {
        play_each(alloc, *script)?;
    }
    Ok(())
}

fn play_each(alloc: Global, script: &str) -> Result<(), Fail> {
    for place in 0..schemes_of(script) {
        play(alloc, script, place)?;
    }
    Ok(())
}

/// Under how many schemes a script is played.
pub fn schemes_of(script: &str) -> usize {
    match script.split_once('\n') {
        Some((first, _)) => first.split('/').count(),
        None => 0,
    }
}

/// Plays a script under the scheme of this place, and gives the table as it is then. The first line that does not come as it is due
/// fails, with what came.
pub fn play(alloc: Global, script: &str, place: usize) -> Result<Bench, Fail> {
    let text = chosen(alloc, script, place)?;
    play_text(alloc, text.as_str())
}

// The script as it is under the scheme of this place.
fn chosen(alloc: Global, script: &str, place: usize) -> Result<String, AllocError> {
    let mut text = String::new(alloc);
    for word in script.split(' ') {
        text.push_str(word.split('/').nth(place).unwrap_or(word))?;
        text.push(' ')?;
    }
    Ok(text)
}

fn play_text(alloc: Global, text: &str) -> Result<Bench, Fail> {
    let (first, lines) = text.split_once('\n').unwrap_or(("", ""));
    match open(alloc, first) {
        Some(bench) => play_lines(alloc, bench, lines),
        None => Err(Fail::new("no table")),
    }
}

// A table of the setting that a record's first line has.
fn open(alloc: Global, first: &str) -> Option<Bench> {
    let (_, config) = read_header(first.as_bytes())?;
    Bench::new(alloc, config)
}

/// Plays lines on a table, and gives it as it is then.
pub fn play_lines(alloc: Global, mut bench: Bench, lines: &str) -> Result<Bench, Fail> {
    for line in lines.lines() {
        play_line(alloc, &mut bench, line.trim_end())?;
    }
    Ok(bench)
}

fn play_line(alloc: Global, bench: &mut Bench, line: &str) -> Result<(), Fail> {
    let came = come(alloc, bench, line);
    if came.as_str() == line {
        Ok(())
    } else {
        Err(Fail::new(came))
    }
}

// What a line gives, and what is wanted of it.
fn parts_of(line: &str) -> (&str, Wanted) {
    if let Some((given, _)) = line.split_once(" | ") {
        return (given, Wanted::All);
    }
    if let Some((given, _)) = line.split_once(" = ") {
        return (given, Wanted::Answer);
    }
    (line, Wanted::Nothing)
}

// Does what a line gives, and says what came of it.
fn come(alloc: Global, bench: &mut Bench, line: &str) -> String {
    let mut came = String::new(alloc);
    let (given, wanted) = parts_of(line);
    add(&mut came, given);
    match read(bench.config(), given) {
        Some((number, Some(call))) => make(bench, number, call, wanted, &mut came),
        Some((number, None)) => show(bench, number, &mut came),
        None => add(&mut came, ": no seat"),
    }
    came
}

// The seat that a line names, and the call that it is given, if it is one.
fn read(config: Config, given: &str) -> Option<(u32, Option<Call>)> {
    let mut words = Words::of(given.as_bytes());
    let seat = words.seat(&config)?;
    Some((seat, read_call(&mut words, VERSION, &config)))
}

// Makes the seat's call, and adds what came of it.
fn make(bench: &mut Bench, number: u32, call: Call, wanted: Wanted, came: &mut String) {
    if call == Call::Leave && bench.leave(number) {
        return;
    }
    let answer = bench.make(number, call);
    match (answer, bench.seat(number)) {
        (Some(answer), Some(seat)) => tell_call(seat, answer, wanted, came),
        _ => add(came, ": no call of a seat that is there"),
    }
}

// Adds what the seat shows.
fn show(bench: &Bench, number: u32, came: &mut String) {
    let Some(seat) = bench.seat(number) else {
        return add(came, ": no seat that is there");
    };
    if came.as_str().ends_with(" list") {
        tell_list(seat, came);
    } else if came.as_str().ends_with(" report") {
        tell_report(seat, bench.config().scheme, came);
    } else {
        tell_seen(bench, number, came);
    }
}
