// What came of calls, and what seats show, as the text of scripts has it. Where memory runs out the text is cut, and so is not the one
// that is due.
use crate::bench::Bench;
use std::str;
use wfe_core::{Event, Guard, Shown};
use wfe_table::{Answer, Lifetime, SchemeKind, Seat};
use wfe_trace::{Line, print_count, print_event};

/// What is wanted of a call.
#[derive(Clone, Copy)]
pub enum Wanted {
    All,
    Answer,
    Nothing,
}

/// Adds words.
pub fn add(came: &mut String, words: &str) {
    let _ = came.push_str(words);
}

// Adds what a line has after these words.
fn add_line(came: &mut String, before: &str, line: &Line) {
    let text = str::from_utf8(line.bytes()).unwrap_or("no text").trim_end();
    add(came, text.strip_prefix(before).unwrap_or(text));
}

fn tell(came: &mut String, event: Event) {
    let mut line = Line::new();
    print_event(0, &event, &mut line);
    add(came, " |");
    add_line(came, "0", &line);
}

// Adds an answer alone, after a mark.
fn tell_answer(came: &mut String, mark: &str, answer: Answer) {
    let mut line = Line::new();
    print_event(0, &Event::End { steps: 0, answer }, &mut line);
    add(came, mark);
    add_line(came, "0 end 0", &line);
}

fn tell_backs(came: &mut String, slots: &[u32]) {
    for slot in slots {
        tell(came, Event::Back { slot: *slot });
    }
}

// Adds the row that a call was given, and the one that it retired.
fn tell_rows(came: &mut String, given: Option<(u32, u32)>, retired: Option<Lifetime>) {
    if let Some((slot, birth)) = given {
        tell(came, Event::Give { slot, birth });
    }
    if let Some(life) = retired {
        tell(came, retire(life));
    }
}

// Adds what the seat's last call did, and its answer.
fn tell_all(seat: &Seat, answer: Answer, came: &mut String) {
    let notes = seat.notes();
    let slots = notes.back.as_slice();
    let (early, late) = slots.split_at((notes.early as usize).min(slots.len()));
    tell_backs(came, early);
    tell_rows(came, notes.given, notes.retired);
    tell_backs(came, late);
    let steps = notes.steps;
    tell(came, Event::End { steps, answer });
}

/// Adds what is wanted of the seat's last call.
pub fn tell_call(seat: &Seat, answer: Answer, wanted: Wanted, came: &mut String) {
    match wanted {
        Wanted::All => tell_all(seat, answer, came),
        Wanted::Answer => tell_answer(came, " =", answer),
        Wanted::Nothing => {}
    }
}

fn retire(life: Lifetime) -> Event {
    Event::Retire {
        slot: life.slot,
        birth: life.birth,
        retire: life.retire,
    }
}

/// Adds the rows on the seat's list, as they were retired.
pub fn tell_list(seat: &Seat, came: &mut String) {
    let list = seat.list();
    for place in 0..list.len() {
        tell(came, retire(list.get(place)));
    }
}

// A guard as a scan read it.
fn read(scheme: SchemeKind, guard: Guard, shown: Shown) -> Event {
    match shown {
        Shown::Nothing if scheme == SchemeKind::Hp => Event::Saw { guard, slot: None },
        Shown::Nothing => Event::Read { guard, span: None },
        Shown::Eras { span } => Event::Read {
            guard,
            span: Some(span),
        },
        Shown::Row { slot } => Event::Saw {
            guard,
            slot: Some(slot),
        },
    }
}

/// Adds the guards that the seat's last scan read, and how many rows stayed and went back.
pub fn tell_report(seat: &Seat, scheme: SchemeKind, came: &mut String) {
    let report = seat.report();
    for (guard, shown) in report.read.as_slice() {
        tell(came, read(scheme, *guard, *shown));
    }
    let answer = Answer::Scanned {
        kept: report.kept,
        back: report.back,
    };
    tell_answer(came, " |", answer);
}

/// Adds the version of each bucket that the seat has seen.
pub fn tell_seen(bench: &Bench, number: u32, came: &mut String) {
    add(came, " |");
    for bucket in 0..bench.config().buckets {
        let mut line = Line::new();
        print_count(b"", bench.seen(number, bucket).unwrap_or(0), &mut line);
        add_line(came, "", &line);
    }
}
