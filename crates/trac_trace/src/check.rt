//! Files that are checked, one after another.
ghost use Rattle.std.specs.Prelude.{◌≡◌, ◌↔◌, IfErr, IfOk, IsErr};
ghost use Rattle.std.specs.IoError.{error_kind};
ghost use Rattle.trac_trace.specs.Statuses.{worse};

use crate::{NO_MEMORY, NOT_WRITTEN, say, warned_status};
use std::io::{ErrorKind, Write};
use std::{fs, io};
use trac_checker::watched;
use trac_command::Settings;
use trac_core::{RetryingWriter, SliceSource};
use trac_space::make_block;
use trac_tracer::{TraceError, write};

// The status where a file can't be read, as for a run whose input failed.
const NOT_READ: u8 = 4;

/// Runs each file as a script of its own, and writes its warnings, each behind the file's name, and
/// a line that sums them up. Gives the worst status.
pub fn check_files(rt: &HostRuntime, settings: &Settings, files: &[String]) -> u8 {
    let mut output = RetryingWriter::new(rt.stdout());
    let mut status = 0;
    for name in files {
        status = match check_file(rt, settings, name, &mut output) {
            Ok(next) => worse(status, next),
            Err(TraceError::NoMemory) => {
                say(rt, &["no memory to check ", name]);
                worse(status, NO_MEMORY)
            }
            Err(TraceError::NotWritten) => {
                say(rt, &["output failed"]);
                return NOT_WRITTEN;
            }
        };
    }
    status
}

// Runs a file, and gives its status.
fn check_file<W: Write>(
    rt: &HostRuntime,
    settings: &Settings,
    name: &str,
    output: &mut W,
) -> Result<u8, TraceError> {
    let input = match fs::read(rt, name) {
        Ok(input) => input,
        Err(error) => return unread(rt, name, &error),
    };
    let mut source = SliceSource::new(&input, None);
    let mut block = make_block(rt.alloc(), settings.cells)?;
    let watched = watched(rt.alloc(), &mut block, settings.steps, &input, &mut source)?;
    let mut head = Vec::new(rt.alloc());
    head.extend_from_slice(name.as_bytes())?;
    head.extend_from_slice(b": ")?;
    let mut lines = Vec::new(rt.alloc());
    watched.push_warnings(&mut lines, &head, &input)?;
    watched.push_summary(&mut lines, name.as_bytes())?;
    write(output, &lines)?;
    Ok(warned_status(watched.report.fate, watched.len()))
}

// Says why a file can't be read, and gives the status.
fn unread(rt: &HostRuntime, name: &str, error: &io::Error) -> Result<u8, TraceError>
    ensures status { IfOk result (λ status. status ≡ NOT_READ) }
    ensures fails { IsErr result ↔ (error_kind error.now ≡ ErrorKind.OutOfMemory) }
    ensures memory { IfErr result (λ broken_off. broken_off ≡ TraceError.NoMemory) }
{
    if error.kind() == ErrorKind::OutOfMemory {
        return Err(TraceError::NoMemory);
    }
    let why = match error.kind() {
        ErrorKind::NotFound => "there is no such file",
        ErrorKind::PermissionDenied => "it may not be read",
        ErrorKind::IsADirectory => "it is a folder",
        _ => "the system refuses it",
    };
    say(rt, &["can't read ", name, ": ", why]);
    Ok(NOT_READ)
}

// The worse of two statuses. 0 is the best, then that of warnings; all others are worse.
fn worse(a: u8, b: u8) -> u8
    ensures { result ≡ worse a b }
{
    if a == 0 {
        b
    } else if b == 0 {
        a
    } else if a == 7 {
        b
    } else if b == 7 {
        a
    } else if a < b {
        b
    } else {
        a
    }
}
