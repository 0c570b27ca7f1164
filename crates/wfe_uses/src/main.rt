//! Programs on the table that threads share, each with what it comes to as a clause of a function: a put that another thread is told of
//! (`handover.rt`), a counter, a pipeline, and two versions of a bucket in hand (`snapshot.rt`).
#![tactic(auto)]

mod counter;
mod handover;
mod pair;
mod pipeline;
mod snapshot;

use anyhow::Result;
use counter::count;
use handover::hand_over;
use pipeline::hand_on;
use snapshot::snapshot;
use std::alloc::Global;
use std::thread::Threads;
use wfe_table::{SchemeKind, usual};

const KEY: u64 = 7;

// How many values these lists have.
fn many(lists: &[Vec<u64>]) -> usize {
    let mut all = 0usize;
    for list in lists {
        all = all.saturating_add(list.len());
    }
    all
}

fn print_handed<R: Threads + Sync + Print>(rt: &R, alloc: Global) -> Result<()> {
    if let Some((version, got)) = hand_over(rt, alloc, SchemeKind::Wfe, KEY, 42) {
        let found = if got.version < version {
            "an older one"
        } else {
            "that or a later one"
        };
        println!(rt; "handover: put at version {version}, got at {found}")?;
    }
    Ok(())
}

fn print_count<R: Threads + Sync + Print>(rt: &R, alloc: Global) -> Result<()> {
    if let Some((total, closed)) = count(rt, alloc, usual(SchemeKind::Wfe, 4, 1), KEY, 1_000) {
        for bucket in &closed.buckets {
            println!(rt;
                "counter: {total} counts, at version {}: {:?}",
                bucket.version, bucket.pairs
            )?;
        }
    }
    Ok(())
}

fn print_flow<R: Threads + Sync + Print>(rt: &R, alloc: Global) -> Result<()> {
    if let Ok(flow) = hand_on(rt, alloc, usual(SchemeKind::Wfe, 4, 1), 1_000) {
        let queued = many(&flow.sent);
        let kept = many(&flow.taken).saturating_add(flow.closed.queue.len());
        println!(rt; "pipeline: {queued} values queued, {kept} taken or left")?;
    }
    Ok(())
}

fn print_views<R: Print>(rt: &R, alloc: Global) -> Result<()> {
    if let Some(views) = snapshot(alloc, SchemeKind::Wfe, KEY) {
        println!(rt;
            "snapshot: {:?} stays beside {:?}",
            views.again.value, views.moved.value
        )?;
    }
    Ok(())
}

fn main(rt: HostRuntime) -> Result<()> {
    let alloc = rt.alloc();
    print_handed(&rt, alloc)?;
    print_count(&rt, alloc)?;
    print_flow(&rt, alloc)?;
    print_views(&rt, alloc)?;
    Ok(())
}
