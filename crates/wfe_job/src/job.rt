// What the words after the program's name ask for, as `clap` reads them. A word that begins with a
// hyphen makes them no command, so `clap` is not asked of such words and no option is told to it.
ghost use Rattle.std.specs.Prelude.{◌≡◌, ◌≢◌, [], false, IfOk, MatchOption, map, string_bytes};
ghost use Rattle.std.specs.List.{list_any};
ghost use Rattle.clap.specs.Words.{app_of, fault_of, found_of, rows_of};
ghost use Rattle.clap.specs.Words.{subcommand_of, subcommand_rows_of};
ghost use Rattle.clap.specs.declared.builder.command.Command.TheViews.{out-Command};
ghost use Rattle.wfe_job.specs.Jobs.{asked, generate_of};
ghost use Rattle.wfe_job.specs.Words.{begins_with_hyphen, gen_app, generate_of_rows, job_of_rows, wfe_app};
ghost use Rattle.wfe_trace.specs.Words.{number_in};

use clap::error::ErrorKind;
use clap::{Arg, ArgMatches, Command};
use std::alloc::{AllocError, Global};
use wfe_defs::NoMemory;
use wfe_trace::number_of;

// Turns that a generated trace has at most.
const MOST_TURNS: u64 = 100_000;

/// What the program is asked to do.
#[derive(Clone, Copy, Debug, PartialEq, Eq)]
pub enum Job {
    /// Reads a trace, and prints its record.
    Replay,
    /// Reads a trace, makes each seat's calls on a thread of its own, and prints what came of them.
    Run,
    /// Reads a record, and says whether it is lawful.
    Check,
    /// Makes the trace of so many turns from a seed, and prints its summary.
    Generate { seed: u64, turns: u64 },
}

// The command `gen`.
fn gen_command<'a>(alloc: Global) -> Result<Command<'a>, AllocError>
    ensures app { IfOk result (λ command. app_of command ≡ gen_app) }
    ensures local { IfOk result (λ command. (out-Command command).has_globals ≡ false) }
{
    let seed = Arg::new(alloc, "SEED").required(true);
    let turns = Arg::new(alloc, "N").required(true);
    Command::new(alloc, "gen").arg(seed)?.arg(turns)
}

// The program with its commands. It has no help, and its own name is not among the words.
fn program<'a>(alloc: Global) -> Result<Command<'a>, AllocError>
    ensures app { IfOk result (λ command. app_of command ≡ wfe_app) }
{
    Command::new(alloc, "wfe")
        .no_binary_name(true)
        .disable_help_flag(true)
        .disable_help_subcommand(true)
        .subcommand_required(true)
        .subcommand(Command::new(alloc, "replay"))?
        .subcommand(Command::new(alloc, "run"))?
        .subcommand(Command::new(alloc, "check"))?
        .subcommand(gen_command(alloc)?)
}

// What the command makes of the words; none where it refuses them.
fn matches_of<'a>(alloc: Global, words: &'a [String]) -> Result<Option<ArgMatches<'a>>, NoMemory>
    ensures matches { IfOk result (λ found. MatchOption found
        (fault_of wfe_app (map string_bytes words.now) ≢ [])
        (λ matches. (fault_of wfe_app (map string_bytes words.now) ≡ [])
        × (subcommand_rows_of matches ≡ subcommand_of wfe_app (map string_bytes words.now)))) }
{
    let Ok(command) = program(alloc) else {
        return Err(NoMemory);
    };
    match command.try_get_matches_from(words) {
        Ok(matches) => Ok(Some(matches)),
        Err(error) => {
            if error.kind() == ErrorKind::OutOfMemory {
                Err(NoMemory)
            } else {
                Ok(None)
            }
        }
    }
}

// The job of a seed and a number of turns, where both are numbers and there are not too many turns.
fn generate_job(seed: &[u8], turns: &[u8]) -> Option<Job>
    ensures { result ≡ generate_of (number_in seed.now) (number_in turns.now) }
{
    let seed = number_of(seed)?;
    let turns = number_of(turns)?;
    if turns <= MOST_TURNS {
        Some(Job::Generate { seed, turns })
    } else {
        None
    }
}

// The job that the matches of `gen` ask for.
fn generate_in(matches: &ArgMatches<'_>) -> Option<Job>
    ensures { result ≡ generate_of_rows (rows_of (found_of matches.now)) }
{
    let seed = matches.get_str("SEED")?;
    let turns = matches.get_str("N")?;
    generate_job(seed.as_bytes(), turns.as_bytes())
}

// The job that the matches ask for.
fn job_in(matches: &ArgMatches<'_>) -> Option<Job>
    ensures { result ≡ job_of_rows (subcommand_rows_of matches.now) }
{
    match matches.subcommand() {
        Some(("replay", _)) => Some(Job::Replay),
        Some(("run", _)) => Some(Job::Run),
        Some(("check", _)) => Some(Job::Check),
        Some(("gen", words)) => generate_in(words),
        _ => None,
    }
}

// Whether the word begins with a hyphen.
fn begins_with_hyphen(word: &[u8]) -> bool
    ensures { result ≡ begins_with_hyphen word.now }
{
    matches!(word, [b'-', ..])
}

// Whether some word begins with a hyphen.
fn has_hyphen(words: &[String]) -> bool
    ensures { result ≡ list_any (λ word. begins_with_hyphen (string_bytes word)) words.now }
{
    words.iter().any(|word| begins_with_hyphen(word.as_bytes()))
}

/// The job that the words ask for; none where they are no command.
pub fn job_of(alloc: Global, words: &[String]) -> Result<Option<Job>, NoMemory>
    ensures job { IfOk result (λ job. job ≡ asked (map string_bytes words.now)) }
{
    if has_hyphen(words) {
        return Ok(None);
    }
    match matches_of(alloc, words)? {
        Some(matches) => Ok(job_in(&matches)),
        None => Ok(None),
    }
}
