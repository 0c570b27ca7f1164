// Sinks that fail at one of their writes.
use crate::expect::expect_run;
use std::test::Fail;
use wfe_outside::CleanSource;
use wfe_server::OpenGate;
use wfe_trace::Status;

const TRACE: &[u8] =
    b"wfe 1\nscheme he\nseats 1\nindexes 3\nslots 8\nbuckets 1\ntries 2\nevery 1\nlast_era 100\nlast_version 100\nbegin\n0 put 7 70\nend\n";

const TEXT: &[u8] =
    b"record 1 he 1 3 8 1 2 1 100 100\n0 begin put 7 70\n0 give 0 1\n0 put 0 1 7 70\n0 end 13 done 1 still\nbucket 0 1 7 70\nused 0\nused 8\ndone\n";

// Lines of that text.
const LINES: u64 = 9;

// So many lines of the text, the first ones.
fn first_lines(count: u64) -> &'static [u8] {
    let mut lines = 0u64;
    for (place, byte) in TEXT.iter().enumerate() {
        if lines >= count {
            return &TEXT[..place];
        }
        if *byte == b'\n' {
            lines = lines.saturating_add(1);
        }
    }
    TEXT
}

#[test]
fn a_sink_that_fails_keeps_the_lines_before(rt: HostRuntime) -> Result<(), Fail> {
    for count in 0..LINES {
        let trace = CleanSource::new(rt.alloc(), TRACE)?;
        let want = (Status::WriteFault, first_lines(count));
        expect_run(&rt, &OpenGate, trace, &[count + 1], want)?;
    }
    Ok(())
}
