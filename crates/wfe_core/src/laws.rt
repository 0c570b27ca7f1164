// What the steps of every machine keep.
ghost use Rattle.wfe_core.specs.Frames.{StaysInPlace};

/// No step and no start of a call moves a seat to another number or table.
pub fn seats_stay_in_place()
    ensures { StaysInPlace }
{}
