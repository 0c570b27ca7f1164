// Texts without an end: their last line comes over and over.
use crate::expect::{expect_check, expect_run};
use std::test::Fail;
use wfe_outside::{Failed, Source};
use wfe_server::OpenGate;
use wfe_trace::{Reason, RecordReason, Status};

const TRACE: &[u8] =
    b"wfe 1\nscheme he\nseats 1\nindexes 3\nslots 8\nbuckets 1\ntries 2\nevery 1\nlast_era 100\nlast_version 100\nbegin\n0 run\n";

// The second line has the most digits, and says nothing of entries.
const RECORD: &[u8] = b"record 1 he 1 3 8 1 2 1 100 100\n\
watch 18446744073709551615 18446744073709551615 18446744073709551615 18446744073709551615\n";

/// A text, and then its last line over and over.
#[derive(Drop)]
struct Endless {
    text: &'static [u8],
    // Where the last line begins.
    last: usize,
    place: usize,
}

impl Source for Endless {
    ghost use Rattle.std.specs.Prelude.{None, false};

    ghost left = { λ _. None };

    ghost faults = { λ _. 0 };

    ghost may_stand = { false };

    fn read(&mut self, buf: &mut [u8]) -> Result<usize, Failed> {
        for byte in buf.iter_mut() {
            *byte = self.text.get(self.place).copied().unwrap_or(b'\n');
            let next = self.place.saturating_add(1);
            self.place = if next < self.text.len() {
                next
            } else {
                self.last
            };
        }
        Ok(buf.len())
    }
}

#[test]
fn a_trace_has_16777216_bytes_at_most(rt: HostRuntime) -> Result<(), Fail> {
    let trace = Endless {
        text: TRACE,
        last: 104,
        place: 0,
    };
    let status = Status::BadTrace {
        line: 2_796_197,
        reason: Reason::LongTrace,
    };
    let output = b"bad 2796197 long-trace\n";
    expect_run(&rt, &OpenGate, trace, &[], (status, output))
}

// It takes some seconds, and more than a minute where it is not made faster when it is compiled.
#[test]
fn a_record_has_1073741824_bytes_at_most(rt: HostRuntime) -> Result<(), Fail> {
    let record = Endless {
        text: RECORD,
        last: 32,
        place: 0,
    };
    let status = Status::BadRecord {
        line: 11_930_466,
        reason: RecordReason::LongRecord,
    };
    expect_check(&rt, record, (status, b"bad 11930466 long-record\n"))
}
