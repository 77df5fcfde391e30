//! The program's words.
ghost use Rattle.std.specs.Prelude.{◌≡◌, ◌≤◌, ◌+◌, length, take, drop, IfOk, IfErr, map, string_bytes, true, false};
ghost use Rattle.clap.specs.Words.{FailsBy, app_of, fault_of, kind_of, matches_of, rule_of, takes};
ghost use Rattle.trac_command.specs.CommandLine.{AreValuesOf, HasDefaults};
ghost use Rattle.trac_trace.specs.CommandLine.{AreViewsOf, HasDefaultViews, flag_of, has_check, is_version};
ghost use Rattle.trac_trace.specs.CommandLine.{options_len, place_of_check, trace_command, views_command};

use clap::error::ErrorKind;
use clap::{Arg, ArgAction, Command, Error, value_parser};
use std::alloc::{AllocError, Global};
use trac_command::{MOST_STEPS, Settings, number, numbers_command};
use trac_views::{MOST_LAST, MOST_WIDTH, Views};

/// The options before the files: the settings of a run, and what is shown of it.
#[derive(Clone, Copy)]
pub struct Options {
    pub settings: Settings,
    pub views: Views,
}

/// What the words give.
#[derive(Drop)]
pub struct Words {
    /// The options before the files.
    pub options: Options,
    /// `--version` stands there alone.
    pub is_version: bool,
    /// `--check` stands there.
    pub is_check: bool,
    /// The files behind it.
    pub files: Vec<String>,
}

/// Reads the program's words, its name first: `--version` alone; or options, as `options_from` reads
/// them, and behind them maybe `--check FILE ..`. The error is clap's.
pub fn words_from(alloc: Global, words: Vec<String>) -> Result<Words, Error>
    ensures version { IfOk result (λ given.
        given.is_version ≡ is_version (map string_bytes words.items)) }
    ensures check { IfOk result (λ given.
        given.is_check ≡ has_check (map string_bytes words.items)) }
    ensures files { let len = options_len (map string_bytes words.items) in
        IfOk result (λ given. given.files.items ≡ drop (len + 1) words.items) }
    ensures taken { let len = options_len (map string_bytes words.items) in
        let texts = map string_bytes (take len words.items) in
        IfOk result (λ given. AreValuesOf false (matches_of trace_command texts)
        given.options.settings) }
    ensures views { let len = options_len (map string_bytes words.items) in
        let texts = map string_bytes (take len words.items) in
        IfOk result (λ given. AreViewsOf (matches_of trace_command texts) given.options.views) }
{
    let is_version = is_version(words.as_slice());
    let len = options_len(words.as_slice());
    let mut options = words;
    let mut files = options.split_off(len)?;
    let is_check = !files.is_empty() && !is_version;
    let files = files.split_off(files.len().min(1))?;
    Ok(Words {
        options: options_from(alloc, options)?,
        is_version,
        is_check,
        files,
    })
}

// Whether `--version` stands alone behind the program's name.
fn is_version(words: &[String]) -> bool
    ensures { result ≡ is_version (map string_bytes words.now) }
{
    match words {
        [_, word] => word.as_str() == "--version",
        _ => false,
    }
}

// How many words stand before the first `--check`, or before `--version` if that stands alone.
fn options_len(words: &[String]) -> usize
    ensures value { result ≡ options_len (map string_bytes words.now) }
    ensures within { result ≤ length words.now }
{
    if is_version(words) {
        return 1;
    }
    place_of_check(words)
}

// How many words stand before the first `--check`.
fn place_of_check(words: &[String]) -> usize
    ensures value { result ≡ place_of_check (map string_bytes words.now) }
    ensures within { result ≤ length words.now }
{
    for (place, word) in words.iter().enumerate() {
        if word.as_str() == "--check" {
            return place;
        }
    }
    words.len()
}

/// Reads the options from the program's words, its name first: `trac_trace [--cells N] [--steps N]
/// [--from N] [--to N] [--last N] [--width N] [--columns N] [--calls] [--forms] [--warn]`. By
/// default there are 65536 cells and 1000000 steps, and all steps are shown, with 100 bytes of a
/// text, in lines of any length. The error is clap's: for words that it refuses, such as a number
/// out of range, for help, or because memory ran out. The command is this processor's own choice.
fn options_from(alloc: Global, words: Vec<String>) -> Result<Options, Error>
    ensures taken { let texts = map string_bytes words.items in
        IfOk result (λ o. AreValuesOf false (matches_of trace_command texts) o.settings) }
    ensures views { let texts = map string_bytes words.items in
        IfOk result (λ o. AreViewsOf (matches_of trace_command texts) o.views) }
    ensures defaults { let texts = map string_bytes words.items in
        IfOk result (λ o. HasDefaults trace_command 1000000 texts o.settings) }
    ensures default_views { let texts = map string_bytes words.items in
        IfOk result (λ o. HasDefaultViews texts o.views) }
    ensures passes { let texts = map string_bytes words.items in
        IfErr result (λ e. takes trace_command texts ≡ true → kind_of e ≡ ErrorKind.OutOfMemory) }
    ensures kinds { FailsBy (fault_of trace_command (map string_bytes words.items)) result }
{
    let command = command(alloc, "trac_trace")?;
    let matches = command.try_get_matches_from(words.as_slice())?;
    let cells = matches.get_one::<u32>("cells").unwrap();
    let steps = matches.get_one::<u64>("steps").unwrap();
    let from = matches.get_one::<u64>("from").unwrap();
    let to = matches.get_one::<u64>("to").unwrap();
    let last = matches.get_one::<u64>("last").unwrap();
    let width = matches.get_one::<u32>("width").unwrap();
    let columns = matches.get_one::<u32>("columns").unwrap();
    let settings = Settings {
        cells,
        steps,
        report: false,
    };
    let views = Views {
        from,
        to,
        last,
        width,
        columns,
        calls: matches.get_flag("calls"),
        forms: matches.get_flag("forms"),
        warn: matches.get_flag("warn"),
    };
    Ok(Options { settings, views })
}

// The command with all options, under this name.
fn command<'a>(alloc: Global, name: &'a str) -> Result<Command<'a>, AllocError>
    ensures { IfOk result (λ c. app_of c ≡ views_command name.entry.now) }
{
    let about = "Shows what a TRAC T-64 script from standard input does";
    let from = value_parser!(u64).range(1..=MOST_STEPS as i64);
    let to = value_parser!(u64).range(1..=MOST_STEPS as i64);
    let last = value_parser!(u64).range(0..=MOST_LAST as i64);
    let width = value_parser!(u32).range(0..=MOST_WIDTH as i64);
    let columns = value_parser!(u32).range(0..=MOST_WIDTH as i64);
    numbers_command(alloc, name, about, "1000000")?
        .override_usage(
            "trac_trace [OPTIONS] < SCRIPT\n       trac_trace [OPTIONS] --check FILE ..\n       trac_trace --version",
        )
        .arg(number(alloc, "from", from, "1").help("The first step to show, 1 to 1000000000000"))?
        .arg(number(alloc, "to", to, "1000000000000").help(
            "The last step to show, 1 to 1000000000000",
        ))?
        .arg(number(alloc, "last", last, "0").help(
            "How many of the last steps of the view to show, 0 for all, to 1000000",
        ))?
        .arg(number(alloc, "width", width, "100").help(
            "Bytes of a text in a line, 0 for all, to 16777216",
        ))?
        .arg(number(alloc, "columns", columns, "0").help(
            "Columns of a line, 0 for any number, to 16777216",
        ))?
        .arg(flag(alloc, "calls").help("Show the calls that are performed"))?
        .arg(flag(alloc, "forms").help("Show the forms that change, and all at the end"))?
        .arg(flag(alloc, "warn").help("Show only what is suspicious"))
}

// The flag `--name`.
fn flag<'a>(alloc: Global, name: &'a str) -> Arg<'a>
    ensures rule { rule_of result ≡ flag_of name.entry.now }
    ensures own { result.global ≡ false }
{
    Arg::new(alloc, name)
        .long(name)
        .action(ArgAction::SetTrue)
        .value_parser(value_parser!(bool))
}
