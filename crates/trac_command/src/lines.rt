//! The lines that the programs write to standard error after a run, and their exit statuses.
ghost use Rattle.std.specs.Prelude.{◌≡◌, ◌+◌, ◌≤◌, ◌++◌, ◌∷◌, [], List, ℕ, length, take, slice_get, Some, true};
ghost use Rattle.std.specs.Prelude.{decimal, OnOk};
ghost use Rattle.std.specs.Io.KnownBytes.{Appends};
ghost use Rattle.trac_command.specs.Lines.{fault_text, is_one_line, memory_text, report_text};
ghost use Rattle.trac_command.specs.Lines.{status_of};

use crate::settings::Settings;
use itoa::Buffer;
use std::io;
use std::io::Write;
use std::marker::Model;
use trac_language::{Fate, Report};

/// A line of at most 80 bytes, without a line feed.
#[derive(Drop)]
pub struct Line {
    // The line, with a line feed behind it.
    bytes: [u8; 81],
    // The length of the line, without its line feed.
    len: usize,
}

impl Model for Line {
    ghost Value = { List ℕ };

    ghost view = { λ line. take line.len line.bytes };

    ghost invariant = { λ line. (line.len ≤ 80)
        × (is_one_line (take line.len line.bytes) ≡ true)
        × (slice_get line.bytes line.len ≡ Some 10) };
}

/// Writes a line and a line feed at once, to standard error or to what stands in its place. An error is
/// the writer's; the programs ignore it, since they have no place left to report it.
pub fn write_line<W: Write>(errors: &mut W, line: &Line) -> io::Result<()>
    ensures { OnOk result (Appends (W.contents errors.old) (W.contents errors.new)
        (line.now ++ 10 ∷ [])) }
{
    errors.write_all(line.with_line_feed())
}

impl Line {
    // An empty line.
    fn new() -> Line
        ensures { result ≡ [] }
    {
        Line {
            bytes: [b'\n'; 81],
            len: 0,
        }
    }

    /// The bytes of the line, at most 80, none of them a line feed.
    pub fn as_bytes(&self) -> &[u8]
        ensures bytes { result.now ≡ self.now }
        ensures short { length self.now ≤ 80 }
        ensures one_line { is_one_line self.now ≡ true }
    {
        &self.bytes[..self.len]
    }

    // The bytes of the line, and a line feed.
    fn with_line_feed(&self) -> &[u8]
        ensures { result.now ≡ self.now ++ 10 ∷ [] }
    {
        &self.bytes[..self.len + 1]
    }

    // Appends a text without a line feed, which must fit.
    fn push(&mut self, text: &[u8])
        requires fits { length self.old + length text.now ≤ 80 }
        requires one_line { is_one_line text.now ≡ true }
        ensures bytes { self.new ≡ self.old ++ text.now }
        ensures long { length self.new ≡ length self.old + length text.now }
    {
        let end = self.len + text.len();
        self.bytes[self.len..end].copy_from_slice(text);
        self.bytes[end] = b'\n';
        self.len = end;
    }

    // Appends the decimal digits of a number of at most 20 digits, which must fit.
    fn push_number(&mut self, n: u128)
        requires small { n ≤ 18446744073709551616 }
        requires fits { length self.old + 20 ≤ 80 }
        ensures bytes { self.new ≡ self.old ++ decimal n }
        ensures long { length self.new ≤ length self.old + 20 }
    {
        self.push(Buffer::new().format(n).as_bytes());
    }
}

/// The line on how a run failed. None if it halted or its input ended. The line names the cells or the
/// steps of the settings, or the step that wasn't done: one more than the steps done.
pub fn fault_line(report: &Report, settings: &Settings) -> Option<Line>
    ensures { result ≡
        fault_text report.now.fate settings.now.cells settings.now.steps report.now.steps }
{
    let next = u128::from(report.steps) + 1;
    let mut line = Line::new();
    match report.fate {
        Fate::Halted | Fate::InputEnded => return None,
        Fate::Workspace => {
            line.push(b"trac: workspace of ");
            line.push_number(u128::from(settings.cells));
            line.push(b" cells full at step ");
            line.push_number(next);
        }
        Fate::Steps => {
            line.push(b"trac: allowance of ");
            line.push_number(u128::from(settings.steps));
            line.push(b" steps used up");
        }
        Fate::InputFailed => {
            line.push(b"trac: input failed at step ");
            line.push_number(next);
        }
        Fate::OutputFailed => {
            line.push(b"trac: output failed at step ");
            line.push_number(next);
        }
    }
    Some(line)
}

/// The line with the steps that a run did and its peak in cells; both words are always in the plural.
pub fn report_line(report: &Report) -> Line
    ensures { result ≡ report_text report.now.steps report.now.peak }
{
    let mut line = Line::new();
    line.push(b"trac: ");
    line.push_number(u128::from(report.steps));
    line.push(b" steps, peak ");
    line.push_number(u128::from(report.peak));
    line.push(b" cells");
    line
}

/// The line for the case that there is no memory for a workspace with the settings' cells.
pub fn memory_line(settings: &Settings) -> Line
    ensures { result ≡ memory_text settings.now.cells }
{
    let mut line = Line::new();
    line.push(b"trac: no memory for ");
    line.push_number(u128::from(settings.cells));
    line.push(b" cells");
    line
}

/// The exit status of the program after a run: 0 if it halted or its input ended, 1 for a full workspace, 3
/// for steps used up, 4 for failed input and 5 for failed output.
pub fn status(report: &Report) -> u8
    ensures { result ≡ status_of report.now.fate }
{
    fate_status(report.fate)
}

/// The exit status of the program after a run that ended in this way, as `status` gives it.
pub fn fate_status(fate: Fate) -> u8
    ensures { result ≡ status_of fate }
{
    match fate {
        Fate::Halted | Fate::InputEnded => 0,
        Fate::Workspace => 1,
        Fate::Steps => 3,
        Fate::InputFailed => 4,
        Fate::OutputFailed => 5,
    }
}
