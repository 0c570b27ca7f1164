// The lines of a closed table, written one after another.
ghost use Rattle.std.specs.Prelude.{◌≡◌, ◌≤◌, ◌++◌, All, length, map};
ghost use Rattle.wfe_server_out.specs.Emits.{Writes};
ghost use Rattle.wfe_server_lines.specs.Lines.{bucket_lines, bucket_text, queue_line, queue_lines, used_line, used_lines};
ghost use Rattle.wfe_table_end.specs.Contents.{filling_of};

use crate::lines::{print_bucket, print_queue, print_used};
use wfe_outside::{Failed, Sink};
use wfe_server_out::put_line;
use wfe_table_end::{BucketRow, Closed};
use wfe_trace::Line;

// Writes the line of a bucket, if it was ever changed.
fn put_bucket<K: Sink>(sink: &mut K, bucket: u64, row: &BucketRow) -> Result<(), Failed>
    requires { length row.now.pairs.items ≤ 14 }
    ensures { Writes K.written K.faults K.may_stand result sink.old sink.new (bucket_text bucket (filling_of row.now)) }
{
    if row.version == 0 {
        return Ok(());
    }
    let mut line = Line::new();
    print_bucket(bucket, row.version, row.pairs.as_slice(), &mut line);
    put_line(sink, &line)
}

// Writes the lines of the buckets.
fn put_buckets<K: Sink>(sink: &mut K, rows: &[BucketRow]) -> Result<(), Failed>
    requires { All (λ row. length row.pairs.items ≤ 14) rows.now }
    ensures { Writes K.written K.faults K.may_stand result sink.old sink.new (bucket_lines 0 (map filling_of rows.now)) }
{
    for place in 0..rows.len() {
        put_bucket(sink, place as u64, &rows[place])?;
    }
    Ok(())
}

// Writes the line of a value that is left in the queue.
fn put_item<K: Sink>(sink: &mut K, number: u64, value: u64) -> Result<(), Failed>
    ensures { Writes K.written K.faults K.may_stand result sink.old sink.new (queue_line number value) }
{
    let mut line = Line::new();
    print_queue(number, value, &mut line);
    put_line(sink, &line)
}

// Writes the lines of the queue.
fn put_queue<K: Sink>(sink: &mut K, items: &[(u64, u64)]) -> Result<(), Failed>
    ensures { Writes K.written K.faults K.may_stand result sink.old sink.new (queue_lines items.now) }
{
    for place in 0..items.len() {
        let (number, value) = items[place];
        put_item(sink, number, value)?;
    }
    Ok(())
}

// Writes the line of a row that is taken.
fn put_slot<K: Sink>(sink: &mut K, slot: u32) -> Result<(), Failed>
    ensures { Writes K.written K.faults K.may_stand result sink.old sink.new (used_line slot) }
{
    let mut line = Line::new();
    print_used(slot, &mut line);
    put_line(sink, &line)
}

// Writes the lines of the rows that are taken.
fn put_used<K: Sink>(sink: &mut K, slots: &[u32]) -> Result<(), Failed>
    ensures { Writes K.written K.faults K.may_stand result sink.old sink.new (used_lines slots.now) }
{
    for place in 0..slots.len() {
        put_slot(sink, slots[place])?;
    }
    Ok(())
}

/// Writes the lines of a closed table: its buckets that were ever changed, the values that its queue has left, and the rows that are taken.
pub fn put_closed<K: Sink>(sink: &mut K, closed: &Closed) -> Result<(), Failed>
    requires { All (λ row. length row.pairs.items ≤ 14) closed.now.buckets.items }
    ensures { Writes K.written K.faults K.may_stand result sink.old sink.new (bucket_lines 0 (map filling_of closed.now.buckets.items) ++ (queue_lines closed.now.queue.items ++ used_lines closed.now.used.items)) }
{
    put_buckets(sink, closed.buckets.as_slice())?;
    put_queue(sink, closed.queue.as_slice())?;
    put_used(sink, closed.used.as_slice())
}
