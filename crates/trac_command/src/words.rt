//! The words of a program, read by clap.
ghost use Rattle.std.specs.Prelude.{◌≡◌, IfOk, IfErr, Some, None, map, string_bytes, codes, true};
ghost use Rattle.std.specs.Prelude.{false};
ghost use Rattle.clap.specs.Words.{FailsBy, app_of, fault_of, found_of, kind_of, matches_of};
ghost use Rattle.clap.specs.Words.{one_text, rule_of, takes};
ghost use Rattle.trac_command.specs.CommandLine.{AreValuesOf, HasDefaults, command_of, number};
ghost use Rattle.trac_command.specs.CommandLine.{number_option, numbers_command, report_flag};

use crate::settings::{MOST_CELLS, MOST_STEPS, Settings};
use clap::builder::ValueParser;
use clap::error::ErrorKind;
use clap::{Arg, ArgAction, ArgMatches, Command, Error, value_parser};
use std::alloc::{AllocError, Global};

/// Reads the settings from the words of a program, its name first: `NAME [--cells N] [--steps N]`,
/// and `[--report]` too for a program that reports. The defaults are 65536 cells, the given number of
/// steps and no report. The error is clap's: for words that it refuses, as numbers out of range, for help,
/// or for lack of memory. The help and the errors show the usage.
pub fn settings_from(
    alloc: Global,
    name: &str,
    about: &str,
    usage: &str,
    default_steps: &str,
    reports: bool,
    words: Vec<String>,
) -> Result<Settings, Error>
    ensures taken { let command = command_of name.now default_steps.now reports in
        IfOk result (AreValuesOf reports (matches_of command (map string_bytes words.items))) }
    ensures defaults { let command = command_of name.now default_steps.now reports in
        let texts = map string_bytes words.items in
        IfOk result (HasDefaults command (number default_steps.now) texts) }
    ensures passes { let command = command_of name.now default_steps.now reports in
        IfErr result (λ e. takes command (map string_bytes words.items) ≡ true →
        kind_of e ≡ ErrorKind.OutOfMemory) }
    ensures kinds { let command = command_of name.now default_steps.now reports in
        FailsBy (fault_of command (map string_bytes words.items)) result }
{
    let command = command(alloc, name, about, usage, default_steps, reports)?;
    let matches = command.try_get_matches_from(words.as_slice())?;
    let cells = matches.get_one::<u32>("cells").unwrap();
    let steps = matches.get_one::<u64>("steps").unwrap();
    let report = has_report(reports, &matches);
    Ok(Settings {
        cells,
        steps,
        report,
    })
}

// Whether the matches give `--report`. False for a command without that flag.
fn has_report(reports: bool, matches: &ArgMatches) -> bool
    ensures off { reports ≡ false → result ≡ false }
    ensures none { one_text (found_of matches.now) (codes "report") ≡ None → result ≡ false }
    ensures value { reports ≡ true → one_text (found_of matches.now) (codes "report")
        ≡ Some (codes "true") → result ≡ true }
    ensures other { one_text (found_of matches.now) (codes "report") ≡ Some (codes "false") →
        result ≡ false }
{
    reports && matches.get_flag("report")
}

// The command `NAME [--cells N] [--steps N]`, with the flag `--report` for a program that reports.
#[tactic(auto, unfolding(crate::specs::CommandLine::command_of))]
fn command<'a>(
    alloc: Global,
    name: &'a str,
    about: &'a str,
    usage: &'a str,
    default_steps: &'a str,
    reports: bool,
) -> Result<Command<'a>, AllocError>
    ensures { IfOk result (λ c.
        app_of c ≡ command_of name.entry.now default_steps.entry.now reports) }
{
    let numbers = numbers_command(alloc, name, about, default_steps)?;
    let command = numbers.override_usage(usage);
    if !reports {
        return Ok(command);
    }
    command.arg(report(alloc))
}

/// The command `NAME [--cells N] [--steps N]`, to which a program may add. An error is lack of memory.
pub fn numbers_command<'a>(
    alloc: Global,
    name: &'a str,
    about: &'a str,
    default_steps: &'a str,
) -> Result<Command<'a>, AllocError>
    ensures { IfOk result (λ c. app_of c ≡ numbers_command name.entry.now default_steps.entry.now) }
{
    let cells = number(
        alloc,
        "cells",
        value_parser!(u32).range(1..=MOST_CELLS as i64),
        "65536",
    );
    let steps = number(
        alloc,
        "steps",
        value_parser!(u64).range(1..=MOST_STEPS as i64),
        default_steps,
    );
    Command::new(alloc, name)
        .bin_name(name)?
        .about(about)
        .arg(cells.help("Cells of the workspace, 1 to 16777216"))?
        .arg(steps.help("Steps that are allowed, 1 to 1000000000000"))
}

/// The option `--name N`, for the numbers that the parser takes, with a default.
pub fn number<'a>(
    alloc: Global,
    name: &'a str,
    numbers: ValueParser<'a>,
    default: &'a str,
) -> Arg<'a>
    ensures rule { rule_of result ≡ number_option name.entry.now numbers.entry default.entry.now }
    ensures own { result.global ≡ false }
{
    Arg::new(alloc, name)
        .long(name)
        .value_name("N")
        .action(ArgAction::Set)
        .value_parser(numbers)
        .default_value(default)
}

// The flag `--report`.
#[tactic(auto, unfolding(crate::specs::CommandLine::report_flag))]
fn report<'a>(alloc: Global) -> Arg<'a>
    ensures rule { rule_of result ≡ report_flag }
    ensures own { result.global ≡ false }
{
    Arg::new(alloc, "report")
        .long("report")
        .action(ArgAction::SetTrue)
        .value_parser(value_parser!(bool))
        .help("Print the steps and the peak")
}
