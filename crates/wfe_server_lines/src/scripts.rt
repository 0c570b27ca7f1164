// The scripts of a trace: the calls of each seat, in the order of its lines.
ghost use Rattle.std.specs.Prelude.{◌≡◌, ◌<◌, IfOk, OnOk, None, length, map, true};
ghost use Rattle.wfe_outside.specs.defs.declared.command.Command.TheVariants as commands;
ghost use Rattle.wfe_server_lines.specs.Scripted.{lists_in};
ghost use Rattle.wfe_server_lines.specs.Fitting.{AllBegin};
ghost use Rattle.wfe_server_lines.specs.Scripted.{called, no_calls};
ghost use Rattle.wfe_trace.specs.Body.{fits_indexes};
ghost use Rattle.wfe_trace.specs.Good.{is_for_workers};
ghost use Rattle.wfe_trace.specs.words.Config.{bad_field};

use std::alloc::Global;
use std::marker::Model;
use wfe_outside::{Call, NoMemory};
use wfe_trace::Config;

/// The version and the setting of a trace, and the calls of each seat.
#[derive(Drop)]
pub struct Scripts {
    version: u32,
    config: Config,
    calls: Vec<Vec<Call>>,
}

impl Model for Scripts {
    ghost use Rattle.std.specs.Prelude.{◌≡◌, None, length};
    ghost use Rattle.wfe_server_lines.specs.Scripted.{lists_in};
    ghost use Rattle.wfe_server_lines.specs.Fitting.{AllBegin};
    ghost use Rattle.wfe_server_lines.specs.Scripted.{Scripted};
    ghost use Rattle.wfe_trace.specs.words.Config.{bad_field};

    ghost Value = { Scripted };

    ghost view = { λ s. record { version = s.version; config = s.config; scripts = lists_in s.calls.items } };

    ghost invariant = { λ s. (bad_field s.config ≡ None) × (length s.calls.items ≡ s.config.seats) × AllBegin s.config (lists_in s.calls.items) };
}

impl Scripts {
    /// No call came.
    pub fn open(alloc: Global, version: u32, config: Config) -> Result<Scripts, NoMemory>
        requires { bad_field config ≡ None }
        ensures { IfOk result (λ scripts. scripts ≡ no_calls version config) }
    {
        let mut calls = Vec::new(alloc);
        for _seat in 0..config.seats {
            if calls.push(Vec::new(alloc)).is_err() {
                return Err(NoMemory);
            }
        }
        Ok(Scripts {
            version,
            config,
            calls,
        })
    }

    /// One call more of a seat, which workers make, and whose indexes are in their ranges.
    pub fn add(&mut self, seat: u32, call: Call) -> Result<(), NoMemory>
        requires seat { seat < self.old.config.seats }
        requires fits { fits_indexes self.old.config.indexes call ≡ true }
        requires workers { is_for_workers call ≡ true }
        ensures added { OnOk result (self.new ≡ called (commands.Call seat call) self.old) }
        ensures config { self.new.config ≡ self.old.config }
    {
        match self.calls[seat as usize].push(call) {
            Ok(()) => Ok(()),
            Err(_) => Err(NoMemory),
        }
    }

    /// The version and the setting, and the calls of each seat.
    pub fn parts(self) -> (u32, Config, Vec<Vec<Call>>)
        ensures version { result.0 ≡ self.version }
        ensures config { (result.1 ≡ self.config) × (bad_field result.1 ≡ None) }
        ensures calls { (lists_in result.2.items ≡ self.scripts) × (length result.2.items ≡ result.1.seats) }
        ensures fits { AllBegin result.1 (lists_in result.2.items) }
    {
        let Scripts {
            version,
            config,
            calls,
        } = self;
        (version, config, calls)
    }
}
