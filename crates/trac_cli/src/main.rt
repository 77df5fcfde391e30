//! The program `trac`: the script on standard input is run in a workspace of fixed size. The
//! command line, the lines on standard error and the exit statuses are this processor's own choice.
#![tactic(auto)]

ghost use Rattle.std.specs.Prelude.{◌≡◌};
ghost use Rattle.trac_command.specs.Lines.{status_of};

mod serve;
#[cfg(test)]
mod tests;
mod words;

use serve::{NoMemory, serve};
use std::process::ExitCode;
use std::rt::Env;
use std::{env, io};
use trac_command::{
    Settings, fault_line, memory_line, refused, refused_words, report_line, status, write_line,
};
use trac_core::{Input, Output, Report};
use words::settings_from;

// The status if there is no memory for the block.
const NO_MEMORY: u8 = 6;
// The line for the case that there is no memory for the words.
const NO_MEMORY_LINE: &str = "trac: no memory for the command line";

fn main(rt: HostRuntime) -> ExitCode {
    let settings = match env::args(&rt) {
        Ok(words) => match words.collect(rt.alloc()) {
            Ok(words) => settings_from(rt.alloc(), words),
            Err(error) => Err(clap::Error::from(error)),
        },
        Err(error) => return ExitCode::from(refused_words(&rt, error.kind(), NO_MEMORY_LINE)),
    };
    match settings {
        Ok(settings) => ExitCode::from(run(&rt, &settings)),
        Err(error) => ExitCode::from(refused(
            &rt,
            &mut Output::new(rt.stdout()),
            &error,
            NO_MEMORY_LINE,
        )),
    }
}

// Runs the script, and gives the status.
fn run(rt: &HostRuntime, settings: &Settings) -> u8 {
    let mut source = Input::new(rt.stdin());
    let mut sink = Output::new(rt.stdout());
    match serve(rt.alloc(), settings, &mut source, &mut sink) {
        Ok(report) => ended(rt, settings, &report),
        Err(NoMemory) => {
            let _ = write_line(&mut rt.stderr(), &memory_line(settings));
            NO_MEMORY
        }
    }
}

// Writes how the run ended to standard error, and gives the status.
fn ended(rt: &HostRuntime, settings: &Settings, report: &Report) -> u8
    ensures { result ≡ status_of report.now.fate }
{
    if settings.report {
        let _ = write_line(&mut rt.stderr(), &report_line(report));
    }
    if let Some(line) = fault_line(report, settings) {
        let _ = write_line(&mut rt.stderr(), &line);
    }
    status(report)
}
