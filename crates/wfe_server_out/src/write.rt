// Bytes to a sink, each piece whole.
ghost use Rattle.wfe_server_out.specs.Emits.{Writes};

use wfe_outside::{Failed, Sink};
use wfe_trace::Line;

/// Writes the whole piece, in as many calls as it takes.
pub fn write_all<K: Sink>(sink: &mut K, piece: &[u8]) -> Result<(), Failed>
    ensures { Writes K.written K.faults K.may_stand result sink.old sink.new piece.now }
{
    let mut rest = piece;
    while !rest.is_empty() {
        let count = sink.write(rest)?;
        rest = &rest[count..];
    }
    Ok(())
}

/// Writes the whole line.
pub fn put_line<K: Sink>(sink: &mut K, line: &Line) -> Result<(), Failed>
    ensures { Writes K.written K.faults K.may_stand result sink.old sink.new line.now }
{
    write_all(sink, line.bytes())
}
