// Prints the lines of a record: its first line, and the lines of events, of counts and of watchers.
ghost use Rattle.std.specs.Prelude.{◌≡◌, ◌≤◌, ◌+◌, ◌*◌, map, [], ◌∷◌, ◌++◌, List, length};
ghost use Rattle.std.specs.Fmt.{decimal};
ghost use Rattle.wfe_text.specs.Record.{spaced, guard_word, span_words, value_words, root_word, clock_words, answer_words, event_words, event_line, seat_word, table_line, watch_line, count_line, scheme_word, setting_words, header_line};
ghost use Rattle.wfe_text.specs.Phrase.{phrase_words, first_word, answer_tail, event_tail};

use crate::Line;
use crate::phrase::{Phrase, answer_phrase, call_phrase, clock_phrase, event_phrase};
use wfe_defs::{Answer, ClockMove, Event, Guard, Interval, Root};
use wfe_words::{Config, SchemeKind};

// A word after a space.
#[inline(always)]
fn word(line: &mut Line, bytes: &[u8])
    requires room { length line.old ≤ 1000 }
    requires short { length bytes.now ≤ 20 }
    ensures text { line.new ≡ line.old ++ (32 ∷ bytes.now) }
    ensures room { length line.new ≤ length line.old + 21 }
{
    line.push(b' ');
    line.text(bytes);
}

// A number without a space before it.
#[tactic(auto, using(crate::proofs::Digits::digit_counts))]
fn digits(line: &mut Line, number: u64)
    requires { length line.old ≤ 1003 }
    ensures text { line.new ≡ line.old ++ decimal number }
    ensures room { length line.new ≤ length line.old + 20 }
{
    line.number(number);
}

// A number after a space.
fn number(line: &mut Line, number: u64)
    requires { length line.old ≤ 1000 }
    ensures text { line.new ≡ line.old ++ (32 ∷ decimal number) }
    ensures room { length line.new ≤ length line.old + 21 }
{
    line.push(b' ');
    digits(line, number);
}

// A letter after a space, and a number.
fn lettered(line: &mut Line, letter: u8, number: u32)
    requires { length line.old ≤ 900 }
    ensures text { line.new ≡ line.old ++ (32 ∷ letter ∷ decimal number) }
    ensures room { length line.new ≤ length line.old + 22 }
{
    line.push(b' ');
    line.push(letter);
    digits(line, number as u64);
}

// Numbers, each after a space.
fn numbers(line: &mut Line, numbers: &[u64])
    requires room { length line.old ≤ 900 }
    requires few { length numbers.now ≤ 4 }
    ensures text { line.new ≡ line.old ++ spaced (map decimal numbers.now) }
    ensures room { length line.new ≤ length line.old + 21 * length numbers.now }
{
    for each in numbers {
        number(line, *each);
    }
}

// A word and numbers, each after a space.
#[inline(always)]
fn word_and_numbers(line: &mut Line, name: &[u8], of: &[u64])
    requires room { length line.old ≤ 800 }
    requires short { length name.now ≤ 20 }
    requires few { length of.now ≤ 4 }
    ensures text { line.new ≡ line.old ++ spaced (name.now ∷ map decimal of.now) }
    ensures room { length line.new ≤ length line.old + 21 + 21 * length of.now }
{
    word(line, name);
    numbers(line, of);
}

// It is part of each place that prints one, which knows how many numbers its phrase has.
#[inline(always)]
fn print_phrase(line: &mut Line, phrase: Phrase)
    requires room { length line.old ≤ 800 }
    requires short { length (first_word (phrase_words phrase)) ≤ 20 }
    ensures text { line.new ≡ line.old ++ spaced (phrase_words phrase) }
    ensures room { length line.new ≤ length line.old + 105 }
{
    match phrase {
        Phrase::Word(name) => word(line, name),
        Phrase::One(name, a) => word_and_numbers(line, name, &[a]),
        Phrase::Two(name, a, b) => word_and_numbers(line, name, &[a, b]),
        Phrase::Three(name, a, b, c) => word_and_numbers(line, name, &[a, b, c]),
        Phrase::Four(name, a, b, c, d) => word_and_numbers(line, name, &[a, b, c, d]),
    }
}

#[inline(always)]
fn print_guard(line: &mut Line, guard: Guard)
    requires { length line.old ≤ 800 }
    ensures text { line.new ≡ line.old ++ (32 ∷ guard_word guard) }
    ensures room { length line.new ≤ length line.old + 50 }
{
    match guard {
        Guard::Helper { seat } => lettered(line, b'h', seat),
        Guard::Index { seat, index } => {
            lettered(line, b'i', seat);
            line.push(b'.');
            digits(line, index as u64);
        }
        Guard::Whole { seat } => lettered(line, b'v', seat),
    }
}

fn print_span(line: &mut Line, span: Option<Interval>)
    requires { length line.old ≤ 800 }
    ensures text { line.new ≡ line.old ++ spaced (span_words span) }
    ensures room { length line.new ≤ length line.old + 50 }
{
    match span {
        None => word(line, b"none"),
        Some(span) => {
            number(line, span.lo as u64);
            number(line, span.hi as u64);
        }
    }
}

fn print_value(line: &mut Line, value: Option<u64>)
    requires { length line.old ≤ 800 }
    ensures text { line.new ≡ line.old ++ spaced (value_words value) }
    ensures room { length line.new ≤ length line.old + 50 }
{
    match value {
        None => word(line, b"none"),
        Some(value) => number(line, value),
    }
}

fn print_slot(line: &mut Line, slot: Option<u32>)
    requires { length line.old ≤ 800 }
    ensures text { line.new ≡ line.old ++ spaced (value_words slot) }
    ensures room { length line.new ≤ length line.old + 50 }
{
    match slot {
        None => word(line, b"none"),
        Some(slot) => number(line, slot as u64),
    }
}

fn print_root(line: &mut Line, root: Root)
    requires { length line.old ≤ 800 }
    ensures text { line.new ≡ line.old ++ (32 ∷ root_word root) }
    ensures room { length line.new ≤ length line.old + 50 }
{
    match root {
        Root::Bucket(bucket) => lettered(line, b'b', bucket),
        Root::Head => word(line, b"head"),
        Root::Tail => word(line, b"tail"),
        Root::Next(slot) => lettered(line, b'n', slot),
    }
}

fn print_clock(line: &mut Line, clock: ClockMove)
    requires { length line.old ≤ 800 }
    ensures text { line.new ≡ line.old ++ spaced (clock_words clock) }
    ensures room { length line.new ≤ length line.old + 105 }
{
    print_phrase(line, clock_phrase(clock));
}

// What an answer tells after its phrase.
fn print_answer_tail(line: &mut Line, answer: Answer)
    requires { length line.old ≤ 800 }
    ensures text { line.new ≡ line.old ++ spaced (answer_tail answer) }
    ensures room { length line.new ≤ length line.old + 105 }
{
    match answer {
        Answer::Got { value, .. } | Answer::Looked { value, .. } => print_value(line, value),
        Answer::Done { clock, .. } | Answer::Taken { clock, .. } => print_clock(line, clock),
        _ => {}
    }
}

fn print_answer(line: &mut Line, answer: Answer)
    requires { length line.old ≤ 600 }
    ensures text { line.new ≡ line.old ++ spaced (answer_words answer) }
    ensures room { length line.new ≤ length line.old + 210 }
{
    print_phrase(line, answer_phrase(answer));
    print_answer_tail(line, answer);
}

// What an event tells after its phrase.
fn print_event_tail(line: &mut Line, event: Event)
    requires { length line.old ≤ 600 }
    ensures text { line.new ≡ line.old ++ spaced (event_tail event) }
    ensures room { length line.new ≤ length line.old + 210 }
{
    match event {
        Event::Begin { call } => print_phrase(line, call_phrase(call)),
        Event::End { answer, .. } => print_answer(line, answer),
        Event::Reserve { guard, span } | Event::Read { guard, span } => {
            print_guard(line, guard);
            print_span(line, span);
        }
        Event::Hazard { guard, slot } | Event::Saw { guard, slot } => {
            print_guard(line, guard);
            print_slot(line, slot);
        }
        Event::Link { root, slot } => {
            print_root(line, root);
            number(line, slot as u64);
        }
        Event::Got { value, .. } => print_value(line, value),
        _ => {}
    }
}

// Of any event.
fn print_any(line: &mut Line, event: Event)
    requires { length line.old ≤ 400 }
    ensures text { line.new ≡ line.old ++ spaced (event_words event) }
    ensures room { length line.new ≤ length line.old + 315 }
{
    print_phrase(line, event_phrase(event));
    print_event_tail(line, event);
}

// What a guard publishes or found.
#[inline(always)]
fn print_guarded(line: &mut Line, name: &[u8], guard: Guard, span: Option<Interval>)
    requires room { length line.old ≤ 400 }
    requires short { length name.now ≤ 20 }
    ensures text { line.new ≡ line.old ++ spaced (name.now ∷ guard_word guard ∷ span_words span) }
    ensures room { length line.new ≤ length line.old + 150 }
{
    word(line, name);
    print_guard(line, guard);
    print_span(line, span);
}

// The kinds that come most often are printed with no phrase, so that their words are not copied by length.
#[inline(always)]
fn print_event_words(line: &mut Line, event: Event)
    requires { length line.old ≤ 400 }
    ensures text { line.new ≡ line.old ++ spaced (event_words event) }
    ensures room { length line.new ≤ length line.old + 315 }
{
    match event {
        Event::Reserve { guard, span } => print_guarded(line, b"reserve", guard, span),
        Event::Read { guard, span } => print_guarded(line, b"read", guard, span),
        Event::Begin { call } => {
            word(line, b"begin");
            print_phrase(line, call_phrase(call));
        }
        Event::End { steps, answer } => {
            word(line, b"end");
            number(line, steps);
            print_answer(line, answer);
        }
        Event::Held { index, slot, steps } => {
            word(line, b"held");
            number(line, index as u64);
            number(line, slot as u64);
            number(line, steps);
        }
        Event::Clear { index, slot } => {
            word(line, b"clear");
            number(line, index as u64);
            number(line, slot as u64);
        }
        Event::Give { slot, birth } => {
            word(line, b"give");
            number(line, slot as u64);
            number(line, birth as u64);
        }
        Event::Link { root, slot } => {
            word(line, b"link");
            print_root(line, root);
            number(line, slot as u64);
        }
        Event::Cut { slot } => {
            word(line, b"cut");
            number(line, slot as u64);
        }
        Event::Retire {
            slot,
            birth,
            retire,
        } => {
            word(line, b"retire");
            number(line, slot as u64);
            number(line, birth as u64);
            number(line, retire as u64);
        }
        Event::Back { slot } => {
            word(line, b"back");
            number(line, slot as u64);
        }
        _ => print_any(line, event),
    }
}

/// Sets the line to the line of the event of the seat.
pub fn print_event(seat: u32, event: &Event, line: &mut Line)
    ensures text { line.new ≡ event_line seat event.now }
    ensures room { length line.new ≤ 1024 }
{
    line.clear();
    digits(line, seat as u64);
    print_event_words(line, *event);
    line.push(b'\n');
}

fn print_seat(line: &mut Line, seat: Option<u32>)
    requires { length line.old ≤ 800 }
    ensures text { line.new ≡ line.old ++ (32 ∷ seat_word seat) }
    ensures room { length line.new ≤ length line.old + 50 }
{
    match seat {
        Some(seat) => number(line, seat as u64),
        None => word(line, b"all"),
    }
}

/// Sets the line to the counts of one seat, or to those of all seats together: how many rows were
/// retired, how many went back, and how many wait.
pub fn print_table(seat: Option<u32>, retired: u64, back: u64, waiting: u64, line: &mut Line)
    ensures text { line.new ≡ table_line seat retired back waiting }
    ensures room { length line.new ≤ 1024 }
{
    line.clear();
    line.text(b"table");
    print_seat(line, seat);
    word_and_numbers(line, b"retired", &[retired]);
    word_and_numbers(line, b"back", &[back]);
    word_and_numbers(line, b"waiting", &[waiting]);
    line.push(b'\n');
}

/// Sets the line to a row of a watcher: the watcher's place among all watchers, counted from 0,
/// and the row's three numbers.
pub fn print_watch(place: u64, a: u64, b: u64, c: u64, line: &mut Line)
    ensures text { line.new ≡ watch_line place a b c }
    ensures room { length line.new ≤ 1024 }
{
    line.clear();
    line.text(b"watch");
    numbers(line, &[place, a, b, c]);
    line.push(b'\n');
}

/// Sets the line to a line of a summary: what is counted, in at most 20 bytes, and its number.
pub fn print_count(name: &[u8], number: u64, line: &mut Line)
    requires { length name.now ≤ 20 }
    ensures text { line.new ≡ count_line name.now number }
    ensures room { length line.new ≤ 1024 }
{
    line.clear();
    line.text(name);
    numbers(line, &[number]);
    line.push(b'\n');
}

fn scheme_name(scheme: SchemeKind) -> &'static [u8]
    ensures name { result.now ≡ scheme_word scheme }
    ensures short { length result.now ≤ 20 }
{
    const NAMES: [&[u8]; 4] = [b"he", b"ibr", b"wfe", b"hp"];
    NAMES[scheme as usize]
}

fn print_setting(line: &mut Line, config: &Config)
    requires { length line.old ≤ 100 }
    ensures text { line.new ≡ line.old ++ spaced (setting_words config.now) }
    ensures room { length line.new ≤ length line.old + 300 }
{
    let first = [
        config.seats as u64,
        config.indexes as u64,
        config.slots as u64,
    ];
    let second = [
        config.buckets as u64,
        config.tries as u64,
        config.every as u64,
    ];
    word_and_numbers(line, scheme_name(config.scheme), &first);
    numbers(line, &second);
    numbers(line, &[config.last_era as u64, config.last_version]);
}

/// Sets the line to the first line of a record: the version of its trace, and the setting.
pub fn print_header(version: u32, config: &Config, line: &mut Line)
    ensures text { line.new ≡ header_line version config.now }
    ensures room { length line.new ≤ 1024 }
{
    line.clear();
    line.text(b"record");
    number(line, version as u64);
    print_setting(line, config);
    line.push(b'\n');
}
