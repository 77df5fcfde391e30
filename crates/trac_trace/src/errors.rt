//! Standard error, to which each text goes by one call of the system.

use std::fmt::Display;
use std::io;
use std::io::Write;
use trac_core::RetryingWriter;

/// Standard error. A text goes out by one call of the system; if there is no memory for that, in
/// parts.
#[derive(Drop)]
pub struct Errors<'r> {
    pub rt: &'r HostRuntime,
}

impl Eprint for Errors<'_> {
    fn eprint<D: Display + Drop>(&self, value: D) -> io::Result<()> {
        match format!(in self.rt.alloc(); "{value}") {
            Ok(text) => RetryingWriter::new(self.rt.stderr()).write_all(text.as_bytes()),
            Err(_) => self.rt.eprint(value),
        }
    }

    fn eprintln<D: Display + Drop>(&self, value: D) -> io::Result<()> {
        match format!(in self.rt.alloc(); "{value}\n") {
            Ok(text) => RetryingWriter::new(self.rt.stderr()).write_all(text.as_bytes()),
            Err(_) => self.rt.eprintln(value),
        }
    }
}
