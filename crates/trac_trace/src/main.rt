//! The program `trac_trace`: the script on standard input is run, and each step is shown on
//! standard output: its number, the rule that it follows, the cells before it and those that it
//! needs, both strings after it, and what it prints; or, by other views, the calls that were
//! performed, the forms that changed, or what is suspicious. The form of these lines, the options
//! and the exit statuses are this processor's own choice.
#![tactic(auto)]

ghost use Rattle.std.specs.Prelude.{◌≡◌, ◌++◌, vec_len, IfErr, IfOk, IfNone, IfSome, MatchOption};
ghost use Rattle.std.specs.Io.{StartsWith, appended_bytes};
ghost use Rattle.std.specs.Io.KnownBytes.{Consumes, IsAtEnd};
ghost use Rattle.trac_trace.specs.Statuses.{traced_status, warned_status};

mod check;
mod errors;
mod words;

use check::check_files;
use errors::Errors;
use std::env;
use std::io::{ErrorKind, Read, Write};
use std::process::ExitCode;
use trac_checker::watched;
use trac_command::{fate_status, refused, refused_words};
use trac_core::{Fate, Input, Output, RetryingReader, RetryingWriter, SliceSource};
use trac_space::make_block;
use trac_tracer::{TraceError, trace, trace_last, write};
use trac_views::{is_fault, push_text};
use words::{Options, Words, words_from};

// The status if the words can't be used.
const USAGE: u8 = 2;
// The status if the output can't be written.
const NOT_WRITTEN: u8 = 5;
// The status if memory runs out.
const NO_MEMORY: u8 = 6;
// The line that is printed if there is no memory.
const NO_MEMORY_LINE: &str = "trac_trace: no memory";
// The line of `--version`, with the version of the repository.
const VERSION_LINE: &[u8] = b"trac_trace 0.10.0\n";

fn main(rt: HostRuntime) -> ExitCode {
    let words = match env::args(&rt) {
        Ok(words) => match words.collect(rt.alloc()) {
            Ok(words) => words_from(rt.alloc(), words),
            Err(error) => Err(clap::Error::from(error)),
        },
        Err(error) => return ExitCode::from(refused_words(&rt, error.kind(), NO_MEMORY_LINE)),
    };
    match words {
        Ok(words) => ExitCode::from(run(&rt, &words)),
        Err(error) => ExitCode::from(refused(
            &Errors { rt: &rt },
            &mut Output::new(rt.stdout()),
            &error,
            NO_MEMORY_LINE,
        )),
    }
}

// Does what the words ask for, and gives the status.
fn run(rt: &HostRuntime, words: &Words) -> u8 {
    match done(rt, words) {
        Ok(status) => status,
        Err(TraceError::NotWritten) => {
            say(rt, &["output failed"]);
            NOT_WRITTEN
        }
        Err(TraceError::NoMemory) => {
            let _ = rt.eprintln(NO_MEMORY_LINE);
            NO_MEMORY
        }
    }
}

// Does what the words ask for. The answer is the status.
fn done(rt: &HostRuntime, words: &Words) -> Result<u8, TraceError> {
    if words.is_version {
        write(&mut RetryingWriter::new(rt.stdout()), VERSION_LINE)?;
        return Ok(0);
    }
    if !words.is_check {
        return show(rt, &words.options);
    }
    if words.files.is_empty() {
        say(rt, &["--check needs the name of a file"]);
        return Ok(USAGE);
    }
    Ok(check_files(rt, &words.options.settings, &words.files))
}

// Prints a line on standard error, behind the name of the program, by one call of the system if
// there is memory for that. A failure to write it is ignored.
fn say(rt: &HostRuntime, words: &[&str]) {
    let _ = said(rt, words);
}

fn said(rt: &HostRuntime, words: &[&str]) -> Result<(), TraceError> {
    let mut line = Vec::new(rt.alloc());
    line.extend_from_slice(b"trac_trace: ")?;
    for word in words {
        push_text(&mut line, word.as_bytes())?;
    }
    line.extend_from_slice(b"\n")?;
    write(&mut RetryingWriter::new(rt.stderr()), &line)
}

// Runs and shows the script, by the view that the options ask for.
fn show(rt: &HostRuntime, options: &Options) -> Result<u8, TraceError> {
    let mut output = RetryingWriter::new(rt.stdout());
    if options.views.warn {
        return show_warnings(rt, options, &mut output);
    }
    let asked = trac_tracer::Options {
        cells: options.settings.cells,
        steps: options.settings.steps,
        views: options.views,
    };
    if asked.views.last == 0 {
        let mut source = Input::new(rt.stdin());
        return Ok(status(trace(rt.alloc(), &asked, &mut source, &mut output)?.fate));
    }
    let reader = RetryingReader::new(rt.stdin());
    Ok(status(trace_last(rt.alloc(), &asked, reader, &mut output)?.fate))
}

// Reads the whole script, runs it, and shows what is suspicious in it.
fn show_warnings<W: Write>(
    rt: &HostRuntime,
    options: &Options,
    output: &mut W,
) -> Result<u8, TraceError> {
    let mut input = Vec::new(rt.alloc());
    let fails_at = read_all(&mut RetryingReader::new(rt.stdin()), &mut input)?;
    let mut source = SliceSource::new(&input, fails_at);
    let mut block = make_block(rt.alloc(), options.settings.cells)?;
    let steps = options.settings.steps;
    let watched = watched(rt.alloc(), &mut block, steps, &input, &mut source)?;
    let mut lines = Vec::new(rt.alloc());
    watched.push_warnings(&mut lines, &[], &input)?;
    watched.push_fault(&mut lines)?;
    write(output, &lines)?;
    Ok(warned_status(watched.report.fate, watched.len()))
}

// Reads the whole input, and gives the place at which reading failed, if it did. Fails only if
// memory runs out.
fn read_all<R: Read>(reader: &mut R, input: &mut Vec<u8>) -> Result<Option<u64>, TraceError>
    ensures begins { StartsWith input.new.items input.old.items }
    ensures consumes { Consumes (R.remaining reader.old) (R.remaining reader.new)
        (appended_bytes input.old.items input.new.items) }
    ensures all { IfOk result (λ fails_at. IfNone fails_at (IfSome (R.remaining reader.old)
        (λ bytes. input.new.items ≡ input.old.items ++ bytes))) }
    ensures end { IfOk result (λ fails_at. MatchOption fails_at (IsAtEnd (R.remaining reader.new))
        (λ place. place ≡ vec_len input.new)) }
    ensures memory { IfErr result (λ error. error ≡ TraceError.NoMemory) }
{
    match reader.read_to_end(input) {
        Ok(_) => Ok(None),
        Err(error) if error.kind() == ErrorKind::OutOfMemory => Err(TraceError::NoMemory),
        Err(_) => Ok(Some(input.len() as u64)),
    }
}

// The status after a run, as `trac` has it. A run that could not keep what it printed ran out of
// memory.
fn status(fate: Fate) -> u8
    ensures { result ≡ traced_status fate }
{
    if fate == Fate::OutputFailed {
        return NO_MEMORY;
    }
    fate_status(fate)
}

// The status after a run with this fate: that of a fault, or 7 if no fault ended it and there are warnings.
fn warned_status(fate: Fate, warnings: usize) -> u8
    ensures { result ≡ warned_status fate warnings }
{
    if !is_fault(fate) && warnings > 0 {
        7
    } else {
        status(fate)
    }
}
