// The events of a call, as the text of a run prints them: what is known of it once it was answered.
ghost use Rattle.std.specs.Prelude.{◌≡◌, ◌<◌, ◌%◌, ◌++◌, ◌∷◌, [], OnOk};
ghost use Rattle.law_all.specs.RunLaw.{backs, change_told, events_of, give_told, one_told, retire_told, unused_told};
ghost use Rattle.wfe_core.specs.Held.{notes_of};

use wfe_core::{Answer, Call, Event, NoMemory, Notes};

// One event more.
fn push(events: &mut Vec<Event>, event: Event) -> Result<(), NoMemory>
    ensures { OnOk result (events.new.items ≡ events.old.items ++ event ∷ []) }
{
    match events.push(event) {
        Ok(()) => Ok(()),
        Err(_) => Err(NoMemory),
    }
}

// The event, if there is one.
fn push_some(events: &mut Vec<Event>, event: Option<Event>) -> Result<(), NoMemory>
    ensures { OnOk result (events.new.items ≡ events.old.items ++ one_told event) }
{
    match event {
        Some(event) => push(events, event),
        None => Ok(()),
    }
}

// Slots that went back, in order.
fn push_backs(events: &mut Vec<Event>, slots: &[u32]) -> Result<(), NoMemory>
    ensures { OnOk result (events.new.items ≡ events.old.items ++ backs slots.now) }
{
    for slot in slots {
        push(events, Event::Back { slot: *slot })?;
    }
    Ok(())
}

// The row that the call was given.
fn given(notes: &Notes) -> Option<Event>
    ensures { one_told result ≡ give_told notes.now.given }
{
    match notes.given {
        Some((slot, birth)) => Some(Event::Give { slot, birth }),
        None => None,
    }
}

// That row, where the call gave it up.
fn unused(notes: &Notes) -> Option<Event>
    ensures { one_told result ≡ unused_told notes.now.unused notes.now.given }
{
    match notes.given {
        Some((slot, _)) if notes.unused => Some(Event::Unused { slot }),
        _ => None,
    }
}

// The row that the call retired.
fn retired(notes: &Notes) -> Option<Event>
    ensures { one_told result ≡ retire_told notes.now.retired }
{
    match notes.retired {
        Some(life) => Some(Event::Retire {
            slot: life.slot,
            birth: life.birth,
            retire: life.retire,
        }),
        None => None,
    }
}

// The bucket of a key, in a table with so many.
fn bucket_of(buckets: u32, key: u64) -> u32
    requires { 0 < buckets }
    ensures { result ≡ key % buckets }
{
    (key % u64::from(buckets)) as u32
}

// What the call did of the map, of the queue or of retire lists. That a copy was made stands in its answer.
fn change_told(buckets: u32, call: Call, answer: Answer) -> Option<Event>
    requires { 0 < buckets }
    ensures { result ≡ change_told buckets call answer }
{
    match (call, answer) {
        (Call::Get { key }, Answer::Got { version, value }) => Some(Event::Got {
            bucket: bucket_of(buckets, key),
            version,
            key,
            value,
        }),
        (Call::Put { key, value }, Answer::Done { version, .. }) => Some(Event::Put {
            bucket: bucket_of(buckets, key),
            version,
            key,
            value,
        }),
        (Call::PutIf { key, value, .. }, Answer::Done { version, .. }) => Some(Event::Put {
            bucket: bucket_of(buckets, key),
            version,
            key,
            value,
        }),
        (Call::Remove { key }, Answer::Done { version, .. }) => Some(Event::Removed {
            bucket: bucket_of(buckets, key),
            version,
            key,
        }),
        (Call::Enqueue { value }, Answer::Queued { number }) => {
            Some(Event::Queued { number, value })
        }
        (Call::Dequeue, Answer::Taken { number, value, .. }) => {
            Some(Event::Taken { number, value })
        }
        (Call::Leave, Answer::Left { count }) => Some(Event::Left { count }),
        (Call::Adopt { place }, Answer::Adopted { count }) => {
            Some(Event::Adopted { place, count })
        }
        _ => None,
    }
}

/// Adds the events of a call, in a table with so many buckets.
pub fn push_events(
    events: &mut Vec<Event>,
    buckets: u32,
    call: Call,
    answer: Answer,
    notes: &Notes,
) -> Result<(), NoMemory>
    requires { 0 < buckets }
    ensures { OnOk result (events.new.items ≡ events.old.items ++ events_of buckets (record { call = call; answer = answer; notes = notes_of notes.now })) }
{
    let slots = notes.back.as_slice();
    let (early, late) = slots.split_at((notes.early as usize).min(slots.len()));
    push(events, Event::Begin { call })?;
    push_backs(events, early)?;
    push_some(events, given(notes))?;
    push_some(events, change_told(buckets, call, answer))?;
    push_some(events, unused(notes))?;
    push_some(events, retired(notes))?;
    push_backs(events, late)?;
    push(
        events,
        Event::End {
            steps: notes.steps,
            answer,
        },
    )
}
