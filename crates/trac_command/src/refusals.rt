//! What the programs write when their words give no settings, and the exit status then.
ghost use Rattle.std.specs.Prelude.{◌≡◌, ◌≢◌, ◌-◌, ◌^◌, ◌<◌, ◌==◌};
ghost use Rattle.std.specs.Bool.{OnTrue};
ghost use Rattle.clap.specs.Words.{kind_of};
ghost use Rattle.trac_command.specs.Refusals.{refusal_status, shown_status, unread_status};

use clap::error::ErrorKind;
use std::fmt::Write;
use std::{fmt, io};
use trac_devices::Sink;

// The status for words that the program refuses.
const USAGE: u8 = 2;
// The status if the help can't be written, the same as for a run whose output failed.
const OUTPUT_FAILED: u8 = 5;
// The status if there is no memory for the words.
const NO_MEMORY: u8 = 6;

/// Writes to standard error why the words couldn't be read, and gives the status. `no_memory` is the line
/// for the case that there was no memory for them. A failure of standard error is ignored.
pub fn refused_words<R: Eprint>(rt: &R, kind: io::ErrorKind, no_memory: &str) -> u8
    ensures { result ≡ unread_status kind }
{
    if kind == io::ErrorKind::OutOfMemory {
        let _ = rt.eprintln(no_memory);
        return NO_MEMORY;
    }
    let _ = rt.eprintln("error: the command line isn't UTF-8");
    USAGE
}

/// Writes what clap answered in place of settings, and gives the status. The help goes to `output`, all
/// else to standard error. `no_memory` is the line for the case that there was no memory for the words. A
/// failure of the output changes the status; a failure of standard error is ignored.
pub fn refused<R: Eprint, O: Sink>(
    rt: &R,
    output: &mut O,
    error: &clap::Error,
    no_memory: &str,
) -> u8
    requires { O.failure_count output.old < 2 ^ 64 - 1 }
    ensures status { result ≡ shown_status (kind_of error.now)
        (O.failure_count output.new == O.failure_count output.old) }
    ensures sent { kind_of error.now ≡ ErrorKind.DisplayHelp → result ≡ 0 → O.flushed output.new }
    ensures other { kind_of error.now ≢ ErrorKind.DisplayHelp → output.new ≡ output.old }
{
    let kind = error.kind();
    if kind == ErrorKind::DisplayHelp {
        return help_status(show(output, error));
    }
    if kind == ErrorKind::OutOfMemory {
        let _ = rt.eprintln(no_memory);
    } else {
        let _ = rt.eprint(error);
    }
    error_status(kind)
}

/// The status for a kind of answer of clap: 0 for help, 6 for lack of memory, 2 for refused words.
pub fn error_status(kind: ErrorKind) -> u8
    ensures { result ≡ refusal_status kind }
{
    match kind {
        ErrorKind::DisplayHelp => 0,
        ErrorKind::OutOfMemory => NO_MEMORY,
        _ => USAGE,
    }
}

// The status after help, by whether it could be written.
fn help_status(is_shown: bool) -> u8
    ensures { result ≡ shown_status ErrorKind.DisplayHelp is_shown }
{
    if is_shown { 0 } else { OUTPUT_FAILED }
}

// Writes the help and flushes it. True if the output didn't fail.
fn show<O: Sink>(output: &mut O, help: &clap::Error) -> bool
    requires { O.failure_count output.old < 2 ^ 64 - 1 }
    ensures shown { result ≡ (O.failure_count output.new == O.failure_count output.old) }
    ensures sent { OnTrue result (O.flushed output.new) }
{
    let failures = output.failures();
    let _ = Shown { output }.write(help);
    output.failures() == failures && output.flush().is_ok()
}

// A sink to which clap can write. It takes nothing after a failure.
#[derive(Drop)]
struct Shown<'a, O> {
    output: &'a mut O,
}

impl<O: Sink> Write for Shown<'_, O> {
    fn write_str(&mut self, text: &str) -> fmt::Result {
        for byte in text.as_bytes() {
            if self.output.failures() == u64::MAX || self.output.put(*byte).is_err() {
                return Err(fmt::Error);
            }
        }
        Ok(())
    }
}
