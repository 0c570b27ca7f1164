// What is said of a table that was not closed. An error that is passed on drops what it hands back.
use crate::close::CloseError;
use crate::close_left::CloseLeftError;
use std::error::Error;
use std::fmt;

impl fmt::Display for CloseError {
    fn fmt<W: fmt::Write>(&self, f: &mut fmt::Formatter<W>) -> fmt::Result {
        match self {
            CloseError::SeatMissing { place, .. } => missing(f, *place),
            CloseError::NoMemory { .. } => f.write_str(NO_MEMORY),
        }
    }
}

impl fmt::Debug for CloseError {
    fn fmt<W: fmt::Write>(&self, f: &mut fmt::Formatter<W>) -> fmt::Result {
        fmt::Display::fmt(self, f)
    }
}

impl Error for CloseError {}

impl fmt::Display for CloseLeftError {
    fn fmt<W: fmt::Write>(&self, f: &mut fmt::Formatter<W>) -> fmt::Result {
        match self {
            CloseLeftError::SeatMissing { place, .. } => missing(f, *place),
            CloseLeftError::NoMemory { .. } => f.write_str(NO_MEMORY),
        }
    }
}

impl fmt::Debug for CloseLeftError {
    fn fmt<W: fmt::Write>(&self, f: &mut fmt::Formatter<W>) -> fmt::Result {
        fmt::Display::fmt(self, f)
    }
}

impl Error for CloseLeftError {}

const NO_MEMORY: &str = "memory ran out";

fn missing<W: fmt::Write>(f: &mut fmt::Formatter<W>, place: usize) -> fmt::Result {
    write!(f, "the table has more seats than the {place} handed in")
}
