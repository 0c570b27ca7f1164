// What a guard publishes.
use crate::Interval;

/// What a guard publishes, as reclamation needs it: nothing, an interval of eras (Ramalhete and
/// Correia 2017; Wen and others 2018), or a row (Michael 2004).
#[derive(Clone, Copy, Debug, PartialEq, Eq)]
pub enum Shown {
    Nothing,
    Eras { span: Interval },
    /// A row, by its number.
    Row { slot: u32 },
}
