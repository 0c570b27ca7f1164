//! Programs on cells: records that threads read and write whole (`board.rt`), a cache of buffers (`cache.rt`).
#![tactic(auto)]

mod board;
mod cache;

use anyhow::Result;
use board::{tell_and_read, write_boards};
use cache::cache;
use std::alloc::Global;
use std::thread::Threads;

fn print_cache<R: Threads + Sync + Print>(rt: &R, alloc: Global) -> Result<()> {
    if let Some(found) = cache(rt, alloc, 4) {
        println!(rt;
            "cache: {} buffers are there, {} loads were torn",
            found.buffers, found.torn
        )?;
    }
    Ok(())
}

fn print_boards<R: Threads + Sync + Print>(rt: &R, alloc: Global) -> Result<()> {
    let mut read = [0u64; 8];
    if let Some((version, seen)) = tell_and_read(alloc, &[1, 2, 3, 4, 5, 6, 7, 8], &mut read) {
        println!(rt;
            "board: written at version {version}, read at version {}: {:?}",
            seen.version(),
            read
        )?;
    }
    if let Some(board) = write_boards(rt, alloc, 4) {
        println!(rt;
            "boards: {} changes were tried, {} reads were torn",
            board.tried, board.torn
        )?;
    }
    Ok(())
}

fn main(rt: HostRuntime) -> Result<()> {
    let alloc = rt.alloc();
    print_cache(&rt, alloc)?;
    print_boards(&rt, alloc)?;
    Ok(())
}
