// Deleters that count their drops.
use std::cell::Cell;
use std::process::Abort;
use std::test::Fail;
use wfe_final::{Deleter, Finals, Ledger};

/// A deleter that counts its drops.
struct Counted<'a> {
    drops: &'a Cell<u64>,
}

impl Drop for Counted<'_> {
    fn drop(self) {
        let Counted { drops } = self;
        drops.set(drops.get().wrapping_add(1));
    }
}

impl Deleter for Counted<'_> {
    ghost identity = { λ _. 7 };

    fn id(&self) -> u64 {
        7
    }

    fn delete(&mut self, slot: u32, ledger: &mut Ledger) {
        ledger.add(7, slot);
    }
}

// Gives a slot a deleter, settles it twice, and lets go of what is left.
fn settle<R: Abort + AllocGlobal>(rt: &R, drops: &Cell<u64>) -> Result<(), Fail> {
    let mut finals = Finals::new(rt.alloc(), 0)?;
    let mut ledger = Ledger::new(rt.alloc(), 2)?;
    assert!(rt; finals.attach(0, Counted { drops }).is_ok());
    finals.settle(&[0, 0], &mut ledger);
    assert_eq!(rt; drops.get(), 1);
    Ok(())
}

#[test]
fn a_deleter_that_is_called_is_dropped_once(rt: HostRuntime) -> Result<(), Fail> {
    let drops = Cell::new(0u64);
    settle(&rt, &drops)?;
    assert_eq!(rt; drops.get(), 1);
    Ok(())
}
