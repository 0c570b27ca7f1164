// A record's text, checked.
ghost use Rattle.std.specs.Prelude.{◌≡◌, ◌≤◌};
ghost use Rattle.wfe_check_lines.specs.Verdicts.{Checks};
ghost use Rattle.wfe_outside.specs.Faults.{Rose};

use crate::Checker;
use std::alloc::Global;
use wfe_check_lines::check_by;
use wfe_outside::{Sink, Source};
use wfe_trace::Status;

/// Reads a record to its end, or up to its first bad line or the line up to which its entries are not good, and
/// writes the one line that says so: `lawful N`, where N is the number of entries, `bad LINE REASON` or
/// `unlawful LINE`. Lines are counted from 1.
pub fn check<S: Source, K: Sink>(alloc: Global, source: &mut S, sink: &mut K) -> Status
    ensures checks { Checks result (S.left source.old) (S.left source.new) (K.written sink.old) (K.written sink.new) }
    // A fault is told only where its count rose.
    ensures source { S.faults source.old ≤ S.faults source.new }
    ensures sink { K.faults sink.old ≤ K.faults sink.new }
    ensures read { result ≡ Status.ReadFault → Rose S.may_stand (S.faults source.old) (S.faults source.new) }
    ensures write { result ≡ Status.WriteFault → Rose K.may_stand (K.faults sink.old) (K.faults sink.new) }
{
    check_by::<Checker, S, K>(alloc, source, sink)
}
