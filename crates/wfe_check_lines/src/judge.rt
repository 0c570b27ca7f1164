// Who judges a record's entries, one after another.
ghost use Rattle.std.specs.Prelude.{◌≡◌, ℕ, IfOk, None};
ghost use Rattle.laws.specs.Good.{Good};
ghost use Rattle.laws.specs.Ranges.{EntryIn};
ghost use Rattle.laws.specs.records.Record.{Past};
ghost use Rattle.laws.specs.records.Record.Past.{Start};
ghost use Rattle.wfe_check_lines.specs.Judged.{Judged};
ghost use Rattle.wfe_words.specs.Config.{bad_field};
ghost use Rattle.wfe_words.specs.declared.config.Config.{Config as Setting};

use std::alloc::Global;
use wfe_defs::{Event, NoMemory};
use wfe_words::Config;

/// Judges the entries of one record, each when it comes.
pub trait Judge: Drop {
    /// It stands for a record of the version and with the setting that has these entries.
    ghost judges: { ℕ → Setting → Self → Past → Type 0 };

    /// The record that it stands for is good.
    ghost good: { (version : ℕ) (config : Setting) (judge : Self) (p : Past) → judges version config judge p → Good version config p };

    /// A judge of a record without entries. NoMemory: there is none for what it keeps.
    fn open(alloc: Global, version: u32, config: Config) -> Result<Self, NoMemory>
        requires config { bad_field config ≡ None }
        ensures { IfOk result (λ judge. judges version config judge Start) };

    /// Whether the record is good with one entry more. After an entry that is answered with false,
    /// and after NoMemory, no other may follow.
    fn entry(&mut self, seat: u32, event: &Event) -> Result<bool, NoMemory>
        requires good { (version : ℕ) × (config : Setting) × (p : Past) × judges version config self.old p × EntryIn config seat event.now }
        ensures { IfOk result (λ answer. (version : ℕ) (config : Setting) (p : Past) → judges version config self.old p → Judged judges version config p seat event.now answer self.new) };
}
