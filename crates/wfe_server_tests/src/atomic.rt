// What no clause says: that words are had where there is memory, and that atomic steps, which the proofs trust, do when they run what
// plain words do.
ghost use Rattle.std.specs.Prelude.{◌≡◌, ◌<◌, IfOk, IsTrue, length, slice_index};
ghost use Rattle.wfe_core.specs.words.Place.{is_valid};
ghost use Rattle.wfe_drive_cells.specs.Memory.{HoldsStart};
ghost use Rattle.wfe_drive_cells.specs.Operations.{word_in};

use std::alloc::Global;
use std::process::Abort;
use std::test::Fail;
use wfe_core::{Config, Layout, NoMemory, Op, SchemeKind};
use wfe_drive_cells::{Cells, MakeCells, PlainCells, TableCells};

// A table of sixty words.
const SMALL: Config = Config {
    scheme: SchemeKind::Wfe,
    seats: 1,
    indexes: 3,
    slots: 2,
    buckets: 1,
    tries: 1,
    every: 1,
    last_era: 9,
    last_version: 9,
    pairs: 6,
};

fn made<C: MakeCells>(alloc: Global, layout: Layout) -> Result<C, NoMemory>
    requires { IsTrue (is_valid layout) }
    ensures { IfOk result (λ cells. HoldsStart layout (C.words cells)) }
{
    C::make(alloc, layout)
}

// The word of this number.
fn load<C: Cells>(cells: &mut C, word: u32) -> u64
    requires { word < length (C.words cells.old) }
    ensures word { result ≡ slice_index (C.words cells.old) word }
    ensures stays { C.words cells.new ≡ C.words cells.old }
{
    cells.perform(0, Op::Load { word })
}

// Performs an operation on two of sixty words, looks that both answer the same, and then at each word.
fn perform_on_both<R: Abort, A: Cells, B: Cells>(rt: &R, one: &mut A, other: &mut B, op: Op) -> u64
    requires within { word_in op < 60 }
    requires one { length (A.words one.old) ≡ 60 }
    requires other { length (B.words other.old) ≡ 60 }
    ensures one { length (A.words one.new) ≡ 60 }
    ensures other { length (B.words other.new) ≡ 60 }
{
    let answer = one.perform(0, op);
    assert!(rt; other.perform(0, op) == answer);
    for word in 0..60 {
        assert!(rt; load(other, word) == load(one, word));
    }
    answer
}

// A store, a load, and an exchange that fails.
fn store_and_fail<R: Abort, A: Cells, B: Cells>(rt: &R, one: &mut A, other: &mut B)
    requires one { length (A.words one.old) ≡ 60 }
    requires other { length (B.words other.old) ≡ 60 }
    ensures one { length (A.words one.new) ≡ 60 }
    ensures other { length (B.words other.new) ≡ 60 }
{
    let storing = Op::Store { word: 7, value: 12 };
    assert!(rt; perform_on_both(rt, one, other, storing) == 0);
    let loading = Op::Load { word: 7 };
    assert!(rt; perform_on_both(rt, one, other, loading) == 12);
    let failing = Op::Cas {
        word: 7,
        old: 11,
        new: 5,
    };
    assert!(rt; perform_on_both(rt, one, other, failing) == 12);
}

// Then an exchange that works, and changes of single bits.
fn exchange_and_mask<R: Abort, A: Cells, B: Cells>(rt: &R, one: &mut A, other: &mut B)
    requires one { length (A.words one.old) ≡ 60 }
    requires other { length (B.words other.old) ≡ 60 }
{
    let working = Op::Cas {
        word: 7,
        old: 12,
        new: 6,
    };
    assert!(rt; perform_on_both(rt, one, other, working) == 12);
    let setting = Op::Or { word: 7, bits: 9 };
    assert!(rt; perform_on_both(rt, one, other, setting) == 6);
    let keeping = Op::And { word: 7, bits: 13 };
    assert!(rt; perform_on_both(rt, one, other, keeping) == 15);
    let loading = Op::Load { word: 7 };
    assert!(rt; perform_on_both(rt, one, other, loading) == 13);
}

#[test]
fn each_operation_does_what_it_does_on_plain_words(rt: HostRuntime) -> Result<(), Fail> {
    let layout = Layout::new(SMALL)?;
    assert!(rt; layout.words() == 60);
    let mut plain: PlainCells = made(rt.alloc(), layout)?;
    let mut table: TableCells = made(rt.alloc(), layout)?;
    store_and_fail(&rt, &mut plain, &mut table);
    exchange_and_mask(&rt, &mut plain, &mut table);
    Ok(())
}
