//! Programs on cells of objects: records that are read by reference and replaced (`records.rt`), and when they are dropped
//! (`dropped.rt`).
#![tactic(auto)]

mod dropped;
mod records;

use anyhow::Result;
use dropped::read_and_let_go;
use records::read_and_replace;
use std::alloc::Global;
use std::thread::Threads;

fn print_records<R: Threads + Sync + Print>(rt: &R, alloc: Global) -> Result<()> {
    if let Some(found) = read_and_replace(rt, alloc, 4) {
        println!(rt;
            "records: {} loads were torn, {} showed nothing, what came back was off by {}, {} records are there at the end",
            found.torn, found.missed, found.off, found.left
        )?;
    }
    Ok(())
}

fn print_dropped<R: Print>(rt: &R, alloc: Global) -> Result<()> {
    if let Some(counts) = read_and_let_go(alloc) {
        println!(rt;
            "dropped: {} {} {} records were there, {} came back at the end",
            counts.beside, counts.after, counts.left, counts.given
        )?;
    }
    Ok(())
}

fn main(rt: HostRuntime) -> Result<()> {
    let alloc = rt.alloc();
    print_records(&rt, alloc)?;
    print_dropped(&rt, alloc)?;
    Ok(())
}
