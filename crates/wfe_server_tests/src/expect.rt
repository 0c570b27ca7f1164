// What a run or a check is wanted to end with and to write.
use std::process::Abort;
use std::test::Fail;
use std::thread::Threads;
use wfe_check::check;
use wfe_outside::{MemSink, Source, Watcher};
use wfe_server::{Gate, run};
use wfe_trace::Status;

// What a run with this gate ends with. Nobody watches it.
fn run_alone<R: Threads + Sync + AllocGlobal, G: Gate, S: Source>(
    rt: &R,
    gate: &G,
    trace: &mut S,
    sink: &mut MemSink,
) -> Status {
    let mut watchers: Vec<Box<dyn Watcher>> = Vec::new(rt.alloc());
    run(rt, rt.alloc(), gate, trace, sink, &mut watchers)
}

/// Wants a run of the trace to end with this status and this output, where the sink has room for 4,096 bytes and these of its
/// writes fail.
pub fn expect_run<R: Threads + Sync + Abort + AllocGlobal, G: Gate, S: Source + Drop>(
    rt: &R,
    gate: &G,
    mut trace: S,
    fails: &[u64],
    (status, output): (Status, &[u8]),
) -> Result<(), Fail> {
    let mut sink = MemSink::new(rt.alloc(), 4_096, fails)?;
    let found = run_alone(rt, gate, &mut trace, &mut sink);
    assert!(rt; found == status);
    assert_eq!(rt; sink.bytes(), output);
    Ok(())
}

/// The same of a check of the record.
pub fn expect_check<R: Abort + AllocGlobal, S: Source + Drop>(
    rt: &R,
    mut record: S,
    (status, output): (Status, &[u8]),
) -> Result<(), Fail> {
    let mut sink = MemSink::new(rt.alloc(), 4_096, &[])?;
    let found = check(rt.alloc(), &mut record, &mut sink);
    assert!(rt; found == status);
    assert_eq!(rt; sink.bytes(), output);
    Ok(())
}
