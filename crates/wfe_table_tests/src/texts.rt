// That tables are made of the usual setting, and what is said of one that is not closed.
use std::alloc::Global;
use wfe_table::{CloseError, Config, SchemeKind, Shared, usual};

// Why a table is not closed without its seats, if it is made.
fn why_not(alloc: Global, config: Config) -> Option<CloseError> {
    match Shared::new(alloc, config) {
        Ok((shared, _)) => shared.close(alloc, Vec::new(alloc)).err(),
        Err(_) => None,
    }
}

// Whether it is said that all seats are missing.
fn says_all(alloc: Global, why: &CloseError) -> bool {
    match format!(in alloc; "{why}") {
        Ok(text) => text.as_str() == "the table has more seats than the 0 handed in",
        Err(_) => false,
    }
}

// Whether a table of the usual setting is made, and says that its seats are missing.
fn misses_its_seats(alloc: Global, threads: u32, keys: u32) -> bool {
    match why_not(alloc, usual(SchemeKind::Wfe, threads, keys)) {
        Some(why) => says_all(alloc, &why),
        None => false,
    }
}

#[test]
fn a_usual_table_is_made(rt: HostRuntime) {
    assert!(rt; misses_its_seats(rt.alloc(), 1, 0));
    assert!(rt; misses_its_seats(rt.alloc(), 2, 1));
    assert!(rt; misses_its_seats(rt.alloc(), 64, 14_336));
}
