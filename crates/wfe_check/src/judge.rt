// The checker as the judge of a record's lines.

use crate::Checker;
use std::alloc::Global;
use wfe_check_lines::Judge;
use wfe_defs::{Event, NoMemory};
use wfe_words::Config;

impl Judge for Checker {
    ghost use Rattle.wfe_check.specs.Checked.{IsChecked};
    ghost use Rattle.wfe_check.specs.Judging.{checked_good};

    ghost judges = { IsChecked };

    ghost good = { checked_good };

    fn open(alloc: Global, version: u32, config: Config) -> Result<Checker, NoMemory> {
        Checker::new(alloc, version, config)
    }

    #[inline(always)]
    fn entry(&mut self, seat: u32, event: &Event) -> Result<bool, NoMemory> {
        Checker::entry(self, seat, event)
    }
}
