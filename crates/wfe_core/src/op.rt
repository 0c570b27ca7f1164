// Operations on one word.

/// One atomic operation, sequentially consistent, on the word of a number. It answers the word's
/// value before it, and 0 for a store.
#[derive(Clone, Copy, Debug, PartialEq, Eq)]
pub enum Op {
    Load { word: u32 },
    Store { word: u32, value: u64 },
    /// Writes `new` where the word is `old`.
    Cas { word: u32, old: u64, new: u64 },
    /// Sets bits.
    Or { word: u32, bits: u64 },
    /// Keeps these bits alone.
    And { word: u32, bits: u64 },
}
