// What holds of the lines of each trace, and of the text of each record.
ghost use Rattle.std.specs.Prelude.{◌≡◌, ◌≤◌, ℕ, List, length, Option, None, Ok, Err, IsTrue, true};
ghost use Rattle.wfe_words.specs.declared.config.Config.{Config};
ghost use Rattle.wfe_words.specs.Config.{bad_field};
ghost use Rattle.wfe_defs.specs.declared.call.Call.{Call};
ghost use Rattle.wfe_defs.specs.declared.command.Command.{Command};
ghost use Rattle.wfe_defs.specs.declared.command.Command.TheVariants as commands;
ghost use Rattle.wfe_defs.specs.declared.event.Event.{Event};
ghost use Rattle.wfe_trace.specs.declared.item.Item.{Item};
ghost use Rattle.wfe_trace.specs.declared.item.Mode.{Mode};
ghost use Rattle.wfe_trace.specs.declared.item.Mode.TheVariants as modes;
ghost use Rattle.wfe_trace.specs.declared.reason.Reason.{Reason};
ghost use Rattle.wfe_trace.specs.Body.{command_in};
ghost use Rattle.wfe_text.specs.Fits.{NumberFits, ValueFits, EventFits, ConfigFits};
ghost use Rattle.wfe_trace.specs.Good.{IsRead, is_for_workers, is_of_line, version_of};
ghost use Rattle.wfe_trace.specs.Reading.{Reading, judged};
ghost use Rattle.wfe_trace.specs.Record.{event_line, table_line, watch_line, count_line, header_line, bad_line};

/// A law: where its numbers have at most 64 bits, as those of every value of the types do, each
/// line of a record has at most 1,024 bytes.
pub fn record_lines_are_short()
    ensures header { (version : ℕ) (config : Config) → NumberFits version → ConfigFits config
        → length (header_line version config) ≤ 1024 }
    ensures event { (seat : ℕ) (event : Event) → NumberFits seat → EventFits event
        → length (event_line seat event) ≤ 1024 }
    ensures table { (seat : Option ℕ) (retired back waiting : ℕ)
        → ValueFits seat → NumberFits retired → NumberFits back → NumberFits waiting
        → length (table_line seat retired back waiting) ≤ 1024 }
    ensures watch { (place a b c : ℕ) → NumberFits place → NumberFits a → NumberFits b → NumberFits c
        → length (watch_line place a b c) ≤ 1024 }
    ensures count { (name : List ℕ) (number : ℕ) → length name ≤ 20 → NumberFits number
        → length (count_line name number) ≤ 1024 }
    ensures bad { (line : ℕ) (reason : Reason) → NumberFits line
        → length (bad_line line reason) ≤ 1024 }
    ensures setting { (config : Config) → bad_field config ≡ None → ConfigFits config }
{}

/// A law: a line that is not bad stands where its item says and keeps the setting's numbers in
/// their ranges, and a line that is bad is so for a reason of its own.
pub fn lines_are_judged()
    ensures good { (reading : Reading) (bytes : List ℕ) (item : Item)
        → judged reading bytes ≡ Ok item → IsRead reading reading.stage bytes item }
    ensures bad { (reading : Reading) (bytes : List ℕ) (reason : Reason)
        → judged reading bytes ≡ Err reason → IsTrue (is_of_line reason) }
{}

/// A law: a trace of a version begins calls of that version and of earlier ones alone, and a line of
/// the body that is good in a version is good in later ones, where it asks for the same. A trace for
/// workers begins only calls of seats that stay.
pub fn versions_have_their_lines()
    ensures calls { (mode : Mode) (version : ℕ) (config : Config) (line : List (List ℕ)) (seat : ℕ) (call : Call)
        → command_in mode version config line ≡ Ok (commands.Call seat call) → version_of call ≤ version }
    ensures later { (mode : Mode) (version other : ℕ) (config : Config) (line : List (List ℕ)) (command : Command)
        → version ≤ other → command_in mode version config line ≡ Ok command → command_in mode other config line ≡ Ok command }
    ensures workers { (version : ℕ) (config : Config) (line : List (List ℕ)) (seat : ℕ) (call : Call)
        → command_in modes.Run version config line ≡ Ok (commands.Call seat call) → is_for_workers call ≡ true }
{}
