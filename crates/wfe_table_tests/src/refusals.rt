// What errors say where a table is not made, or a call is refused.
use std::alloc::Global;
use std::fmt::Display;
use std::test::Fail;
use wfe_table::{Empty, EnqueueRefusal, Field, MakeError, PutIfRefusal, PutRefusal, RemoveRefusal};

// Whether an error says this.
fn says<E: Display + Drop>(alloc: Global, error: E, text: &str) -> Result<bool, Fail> {
    Ok(format!(in alloc; "{error}")?.as_str() == text)
}

#[test]
fn a_table_that_is_not_made_says_which_number_was_wrong(rt: HostRuntime) -> Result<(), Fail> {
    for (field, text) in [
        (Field::Seats, "the setting's seats must be 1 to 64"),
        (Field::Slots, "the setting's slots must be 2 to 65,536"),
        (Field::Pairs, "the setting's pairs must be 6 or 14"),
    ] {
        assert!(rt; says(rt.alloc(), MakeError::BadConfig { field }, text)?);
    }
    Ok(())
}

#[test]
fn puts_say_why_they_are_refused(rt: HostRuntime) -> Result<(), Fail> {
    let alloc = rt.alloc();
    assert!(rt; says(alloc, PutRefusal::Full, "no row was free")?);
    let stale = PutIfRefusal::Stale { version: 3 };
    assert!(rt;
        says(
            alloc,
            stale,
            "another version was named than the bucket's, 3"
        )?
    );
    Ok(())
}

#[test]
fn other_calls_say_why_they_are_refused(rt: HostRuntime) -> Result<(), Fail> {
    let alloc = rt.alloc();
    let absent = RemoveRefusal::Absent { version: 0 };
    assert!(rt; says(alloc, absent, "the key had no value, at version 0")?);
    let spent = EnqueueRefusal::Spent { number: 9 };
    assert!(rt; says(alloc, spent, "the queue is at its last number, 9")?);
    assert!(rt; says(alloc, Empty, "the queue was empty")?);
    Ok(())
}
