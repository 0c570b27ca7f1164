// The body lines of a trace, in each version that is read.
ghost use Rattle.std.specs.Prelude.{◌≡◌, true, option_map};
ghost use Rattle.wfe_trace.specs.Body.{is_placed, count_in, in_form as form, numbers_in, seat_of as named_seat, call_within, call_of as call_with, command_of as command, judged_line, places_in, command_in};
ghost use Rattle.wfe_trace.specs.Words.{words};

use crate::verb::{CallVerb, Verb, count_of, is_for, is_placed, names_seat, verb_of};
use crate::{Mode, Reason};
use wfe_defs::{Call, Command};
use wfe_text::{Words, number_of, words_of};
use wfe_words::Config;

/// The words in the places of numbers, the seat's first: None is a word that is no number.
#[derive(Clone, Copy)]
pub enum Places {
    Nothing,
    Seat(Option<u64>),
    SeatOne(Option<u64>, Option<u64>),
    SeatTwo(Option<u64>, Option<u64>, Option<u64>),
    SeatThree(Option<u64>, Option<u64>, Option<u64>, Option<u64>),
}

/// The numbers of a line, 0 in a place that the line does not have.
#[derive(Clone, Copy)]
pub struct Numbers {
    pub seat: u64,
    pub first: u64,
    pub second: u64,
    pub third: u64,
}

fn all_numbers(
    seat: Option<u64>,
    first: Option<u64>,
    second: Option<u64>,
    third: Option<u64>,
) -> Result<Numbers, Reason>
    ensures { result ≡ numbers_in (Places.SeatThree seat first second third) }
{
    let Some(seat) = seat else {
        return Err(Reason::Number);
    };
    let Some(first) = first else {
        return Err(Reason::Number);
    };
    let Some(second) = second else {
        return Err(Reason::Number);
    };
    let Some(third) = third else {
        return Err(Reason::Number);
    };
    Ok(Numbers {
        seat,
        first,
        second,
        third,
    })
}

impl Places {
    fn count(&self) -> usize
        ensures { result ≡ count_in self.now }
    {
        match self {
            Places::Nothing => 0,
            Places::Seat(_) => 1,
            Places::SeatOne(..) => 2,
            Places::SeatTwo(..) => 3,
            Places::SeatThree(..) => 4,
        }
    }

    fn numbers(self) -> Result<Numbers, Reason>
        ensures { result ≡ numbers_in self }
    {
        match self {
            Places::Nothing => all_numbers(Some(0), Some(0), Some(0), Some(0)),
            Places::Seat(seat) => all_numbers(seat, Some(0), Some(0), Some(0)),
            Places::SeatOne(seat, first) => all_numbers(seat, first, Some(0), Some(0)),
            Places::SeatTwo(seat, first, second) => all_numbers(seat, first, second, Some(0)),
            Places::SeatThree(seat, first, second, third) => all_numbers(
                seat, first, second, third,
            ),
        }
    }
}

fn in_form(named: Option<Verb>, line: Places) -> Result<Verb, Reason>
    ensures { result ≡ form named line }
{
    match named {
        Some(verb) if count_of(verb) == line.count() => Ok(verb),
        _ => Err(Reason::Form),
    }
}

fn seat_of(seats: u32, verb: Verb, seat: u64) -> Result<u32, Reason>
    ensures { result ≡ named_seat seats verb seat }
{
    if !names_seat(verb) {
        Ok(0)
    } else if seat < seats as u64 {
        Ok(seat as u32)
    } else {
        Err(Reason::Seat)
    }
}

// A copy, where it goes upwards between two of so many indexes, both from 2 on.
fn copy_of(indexes: u32, from: u64, index: u64) -> Result<Call, Reason>
    ensures { result ≡ call_within indexes (Call.Copy from index) }
{
    let upwards = 2 <= from && (from < index && index < indexes as u64);
    if !upwards {
        return Err(Reason::Range);
    }
    Ok(Call::Copy {
        from: from as u32,
        index: index as u32,
    })
}

// A drop, where it names one of so many indexes from 2 on.
fn drop_of(indexes: u32, index: u64) -> Result<Call, Reason>
    ensures { result ≡ call_within indexes (Call.DropIndex index) }
{
    let stands = 2 <= index && index < indexes as u64;
    if !stands {
        return Err(Reason::Range);
    }
    let index = index as u32;
    Ok(Call::DropIndex { index })
}

// A look, where it names one of so many indexes from 2 on.
fn look_of(indexes: u32, index: u64, key: u64) -> Result<Call, Reason>
    ensures { result ≡ call_within indexes (Call.Look index key) }
{
    let stands = 2 <= index && index < indexes as u64;
    if !stands {
        return Err(Reason::Range);
    }
    let index = index as u32;
    Ok(Call::Look { index, key })
}

fn call_of(seats: u32, indexes: u32, verb: CallVerb, numbers: Numbers) -> Result<Call, Reason>
    requires { is_placed seats (Verb.Call verb) numbers.first ≡ true }
    ensures { result ≡ call_within indexes (call_with verb numbers) }
{
    let call = match verb {
        CallVerb::Get => Call::Get { key: numbers.first },
        CallVerb::Put => Call::Put {
            key: numbers.first,
            value: numbers.second,
        },
        CallVerb::Remove => Call::Remove { key: numbers.first },
        CallVerb::Enqueue => Call::Enqueue {
            value: numbers.first,
        },
        CallVerb::Dequeue => Call::Dequeue,
        CallVerb::Hold => Call::Hold { key: numbers.first },
        CallVerb::Release => Call::Release,
        CallVerb::Advance => Call::Advance,
        CallVerb::Scan => Call::Scan,
        CallVerb::Copy => return copy_of(indexes, numbers.first, numbers.second),
        CallVerb::DropIndex => return drop_of(indexes, numbers.first),
        CallVerb::Look => return look_of(indexes, numbers.first, numbers.second),
        CallVerb::PutIf => Call::PutIf {
            key: numbers.first,
            value: numbers.second,
            version: numbers.third,
        },
        CallVerb::Leave => Call::Leave,
        CallVerb::Adopt => Call::Adopt {
            place: numbers.first as u32,
        },
    };
    Ok(call)
}

fn command_of(config: &Config, verb: Verb, seat: u32, numbers: Numbers) -> Result<Command, Reason>
    requires { is_placed config.now.seats verb numbers.first ≡ true }
    ensures { result ≡ command config.now.indexes verb seat numbers }
{
    match verb {
        Verb::Call(named) => {
            let call = call_of(config.seats, config.indexes, named, numbers)?;
            Ok(Command::Call { seat, call })
        }
        Verb::Step => {
            let within = 1 <= numbers.first && numbers.first <= 100_000;
            if !within {
                return Err(Reason::Range);
            }
            let units = numbers.first as u32;
            Ok(Command::Step { seat, units })
        }
        Verb::Run => Ok(Command::Run { seat }),
        Verb::Table => Ok(Command::Table),
        Verb::End => Ok(Command::End),
    }
}

fn judge(mode: Mode, config: &Config, named: Option<Verb>, line: Places) -> Result<Command, Reason>
    ensures { result ≡ judged_line mode config.now named line }
{
    let verb = in_form(named, line)?;
    let numbers = line.numbers()?;
    if !is_for(mode, verb) {
        return Err(Reason::RunLine);
    }
    let seat = seat_of(config.seats, verb, numbers.seat)?;
    if !is_placed(config.seats, verb, numbers.first) {
        return Err(Reason::Seat);
    }
    command_of(config, verb, seat, numbers)
}

// The word in the verb's place, and the words in the places of numbers.
fn places_of(bytes: &[u8]) -> Option<(&[u8], Places)>
    ensures { option_map (λ placed. (placed.0.now, placed.1)) result ≡ places_in (words bytes.now) }
{
    match words_of(bytes) {
        Words::One(verb) => Some((verb, Places::Nothing)),
        Words::Two(seat, verb) => Some((verb, Places::Seat(number_of(seat)))),
        Words::Three(seat, verb, first) => {
            let line = Places::SeatOne(number_of(seat), number_of(first));
            Some((verb, line))
        }
        Words::Four(seat, verb, first, second) => {
            let line = Places::SeatTwo(number_of(seat), number_of(first), number_of(second));
            Some((verb, line))
        }
        Words::Five(seat, verb, first, second, third) => {
            let line = Places::SeatThree(
                number_of(seat),
                number_of(first),
                number_of(second),
                number_of(third),
            );
            Some((verb, line))
        }
        Words::More => None,
    }
}

/// Judges a line of the body, in a trace of the version and with the setting.
pub fn read_body(mode: Mode, version: u32, config: &Config, bytes: &[u8]) -> Result<Command, Reason>
    ensures { result ≡ command_in mode version config.now (words bytes.now) }
{
    let Some((verb, line)) = places_of(bytes) else {
        return Err(Reason::Form);
    };
    judge(mode, config, verb_of(version, verb), line)
}
