//! The program's words.
ghost use Rattle.std.specs.Prelude.{◌≡◌, IfOk, IfErr, map, string_bytes, true};
ghost use Rattle.clap.specs.Words.{FailsBy, fault_of, kind_of, matches_of, takes};
ghost use Rattle.trac_command.specs.CommandLine.{AreValuesOf, HasDefaults};
ghost use Rattle.trac_cli.specs.CommandLine.{trac_command};

use clap::Error;
use clap::error::ErrorKind;
use std::alloc::Global;
use trac_command::Settings;

/// Reads the settings from the program's words, its name first: `trac [--cells N] [--steps N]
/// [--report]`. The defaults are 65536 cells, 1000000 steps and no report. The error is clap's: for words
/// that it refuses, for help, or for lack of memory. The command is this processor's own choice.
pub fn settings_from(alloc: Global, words: Vec<String>) -> Result<Settings, Error>
    ensures taken { let texts = map string_bytes words.items in
        IfOk result (AreValuesOf true (matches_of trac_command texts)) }
    ensures defaults { let texts = map string_bytes words.items in
        IfOk result (HasDefaults trac_command 1000000 texts) }
    ensures passes { let texts = map string_bytes words.items in
        IfErr result (λ e. takes trac_command texts ≡ true → kind_of e ≡ ErrorKind.OutOfMemory) }
    ensures kinds { FailsBy (fault_of trac_command (map string_bytes words.items)) result }
{
    let about = "Runs a TRAC T-64 script from standard input";
    let usage = "trac [OPTIONS] < SCRIPT";
    trac_command::settings_from(alloc, "trac", about, usage, "1000000", true, words)
}
