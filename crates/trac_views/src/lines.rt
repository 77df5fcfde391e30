//! The lines of a trace. Their form is this processor's own choice.
ghost use Rattle.std.specs.Prelude.{◌≡◌, ◌++◌, IfOk, OnOk, codes, decimal, drop, min};
ghost use Rattle.trac_views.specs.Lines.{byte_text, bytes_text, cell_text, cells_text, column_text};
ghost use Rattle.trac_views.specs.Lines.{byte_at, column_behind, drop_line, folded_text, is_folded};
ghost use Rattle.trac_views.specs.Lines.{end_text, fate_text, head_text, name_text, number_16};
ghost use Rattle.trac_views.specs.Lines.{is_short, printed_text, step_text, string_text};

use crate::views::Views;
use itoa::Buffer;
use std::alloc::{AllocError, Allocator};
use trac_core::{Cell, Fate, Report, ScanningRule};
use trac_space::Mode;

// The line above the steps.
const HEAD: &[u8; 64] = b"  step  rule           size  need  neutral string|active string\n";

// The line above the calls.
const CALLS_HEAD: &[u8; 13] = b"  step  call\n";

// The line above the forms that change.
const FORMS_HEAD: &[u8; 13] = b"  step  form\n";

const DIGITS: &[u8; 16] = b"0123456789abcdef";

const BLANKS: &[u8; 6] = b"      ";

// What stands between a line and what goes on in the next.
const FOLD: &[u8; 11] = b"\n          ";

/// A step that was done.
#[derive(Clone, Copy)]
pub struct Step {
    /// Its number, from 1.
    pub number: u64,
    /// The rule that it followed.
    pub rule: ScanningRule,
    /// The cells of both strings and of all forms before it.
    pub size: u32,
    /// The cells that it needed.
    pub need: u32,
}

/// The line above what the views show.
pub fn head(views: &Views) -> &'static [u8]
    ensures { result.now ≡ head_text views.now.calls views.now.forms }
{
    if views.calls {
        CALLS_HEAD
    } else if views.forms {
        FORMS_HEAD
    } else {
        HEAD
    }
}

/// Adds the line of a step, with the cells of both strings after it, each cut to `width` cells
/// unless that is 0. Fails only if memory runs out.
#[inline(never)]
pub fn push_step<A: Allocator>(
    line: &mut Vec<u8, A>,
    step: &Step,
    neutral: &[Cell],
    active: &[Cell],
    width: u32,
) -> Result<(), AllocError>
    ensures { OnOk result (line.new.items ≡ line.old.items
        ++ step_text width step.now.number step.now.rule step.now.size step.now.need
        neutral.now active.now) }
{
    push_column(line, step.number)?;
    push(line, b"  ")?;
    push(line, name(step.rule))?;
    push_column(line, u64::from(step.size))?;
    push_column(line, u64::from(step.need))?;
    push(line, b"  ")?;
    push_string(line, neutral, width)?;
    push(line, b"|")?;
    push_string(line, active, width)?;
    push(line, b"\n")
}

/// Adds the line of what a step printed. Fails only if memory runs out.
pub fn push_printed<A: Allocator>(line: &mut Vec<u8, A>, bytes: &[u8]) -> Result<(), AllocError>
    ensures { OnOk result (line.new.items ≡ line.old.items ++ printed_text bytes.now) }
{
    push(line, b"        prints: ")?;
    push_bytes(line, bytes)?;
    push(line, b"\n")
}

/// Adds the line of how many characters a step dropped, because its left parenthesis has no match.
/// Fails only if memory runs out.
pub fn push_dropped<A: Allocator>(line: &mut Vec<u8, A>, count: u32) -> Result<(), AllocError>
    ensures { OnOk result (line.new.items ≡ line.old.items ++ drop_line count) }
{
    push(line, b"        drops: ")?;
    push_number(line, u64::from(count))?;
    push(
        line,
        b" characters, since a left parenthesis has no match\n",
    )
}

/// Adds a text in lines of at most `columns` columns. A longer line goes on in the next one, behind
/// ten blanks. 0 sets no bound. A column is a byte of ASCII or a whole character of UTF-8. Fails
/// only if memory runs out.
pub fn push_folded<A: Allocator>(
    lines: &mut Vec<u8, A>,
    text: &[u8],
    columns: u32,
) -> Result<(), AllocError>
    ensures { OnOk result (lines.new.items ≡ lines.old.items ++ folded_text columns 0 text.now) }
{
    if columns == 0 {
        return push(lines, text);
    }
    let mut at = 0;
    for byte in text {
        at = push_at(lines, *byte, at, columns)?;
    }
    Ok(())
}

// Adds a byte. `at` columns of its line are taken before it; gives how many are taken behind it.
fn push_at<A: Allocator>(
    lines: &mut Vec<u8, A>,
    byte: u8,
    at: u32,
    columns: u32,
) -> Result<u32, AllocError>
    ensures text { IfOk result (λ _. lines.new.items ≡ lines.old.items ++ byte_at columns at byte) }
    ensures at { IfOk result (λ behind. behind ≡ column_behind columns at byte) }
{
    if is_folded(byte, at, columns) {
        push(lines, FOLD)?;
        push(lines, &[byte])?;
        return Ok(11);
    }
    push(lines, &[byte])?;
    Ok(match byte {
        b'\n' => 0,
        128..=191 => at,
        _ => at.saturating_add(1),
    })
}

// Whether a byte goes into the next line, which has no column left in its own.
fn is_folded(byte: u8, at: u32, columns: u32) -> bool
    ensures { result ≡ is_folded columns at byte }
{
    0 < columns && columns <= at && byte != b'\n' && !matches!(byte, 128..=191)
}

/// Adds the last line, on how the run ended. Fails only if memory runs out.
pub fn push_end<A: Allocator>(line: &mut Vec<u8, A>, report: &Report) -> Result<(), AllocError>
    ensures { OnOk result (line.new.items ≡ line.old.items
        ++ end_text report.now.fate report.now.steps report.now.peak) }
{
    push(line, ending(report.fate))?;
    push(line, b": ")?;
    push_number(line, report.steps)?;
    push(line, b" steps, peak ")?;
    push_number(line, u64::from(report.peak))?;
    push(line, b" cells\n")
}

// How a run with this fate ended.
fn ending(fate: Fate) -> &'static [u8]
    ensures { result.now ≡ fate_text fate }
{
    match fate {
        Fate::Halted => b"halted",
        Fate::InputEnded => b"input ended",
        Fate::Workspace => b"workspace full",
        Fate::Steps => b"allowance used up",
        Fate::InputFailed => b"input failed",
        Fate::OutputFailed => b"no memory for what is printed",
    }
}

// The name of a rule, in 13 columns.
fn name(rule: ScanningRule) -> &'static [u8]
    ensures { result.now ≡ name_text rule }
{
    match rule {
        ScanningRule::Idling => b"idling       ",
        ScanningRule::Layout => b"layout       ",
        ScanningRule::Protection => b"protection   ",
        ScanningRule::Argument => b"argument     ",
        ScanningRule::ActiveCall => b"active call  ",
        ScanningRule::NeutralCall => b"neutral call ",
        ScanningRule::NumberSign => b"number sign  ",
        ScanningRule::EndOfCall => b"end of call  ",
        ScanningRule::Character => b"character    ",
    }
}

/// Adds a text. Fails only if memory runs out.
pub fn push<A: Allocator>(line: &mut Vec<u8, A>, text: &[u8]) -> Result<(), AllocError>
    ensures { OnOk result (line.new.items ≡ line.old.items ++ text.now) }
{
    line.extend_from_slice(text)
}

/// Adds a number. Fails only if memory runs out.
pub fn push_number<A: Allocator>(line: &mut Vec<u8, A>, n: u64) -> Result<(), AllocError>
    ensures { OnOk result (line.new.items ≡ line.old.items ++ decimal n) }
{
    line.extend_from_slice(Buffer::new().format(n).as_bytes())
}

/// Adds a number at the right end of 6 columns, or of as many as it has digits. Fails only if
/// memory runs out.
pub fn push_column<A: Allocator>(line: &mut Vec<u8, A>, n: u64) -> Result<(), AllocError>
    ensures { OnOk result (line.new.items ≡ line.old.items ++ column_text n) }
{
    let mut buffer = Buffer::new();
    let digits = buffer.format(n).as_bytes();
    line.extend_from_slice(blanks_before(digits.len()))?;
    line.extend_from_slice(digits)
}

// The blanks before a number of so many digits in 6 columns.
fn blanks_before(len: usize) -> &'static [u8]
    ensures { result.now ≡ drop (min len 6) (codes "      ") }
{
    &BLANKS[..6 - len.min(6)]
}

// Adds the cells of a string. Of one that is longer than `width` cells, adds the first and the last
// half of that many, with two full stops between. A width of 0 sets no bound.
fn push_string<A: Allocator>(
    line: &mut Vec<u8, A>,
    cells: &[Cell],
    width: u32,
) -> Result<(), AllocError>
    ensures { OnOk result (line.new.items ≡ line.old.items ++ string_text width cells.now) }
{
    let width = width as usize;
    if is_short(width, cells.len()) {
        return push_cells(line, cells);
    }
    let half = width / 2;
    push_cells(line, &cells[..width - half])?;
    push(line, b" .. ")?;
    push_cells(line, &cells[cells.len() - half..])
}

// Whether `len` cells need no cut.
fn is_short(width: usize, len: usize) -> bool
    ensures { result ≡ is_short width len }
{
    width == 0 || len <= width
}

// Adds the cells of a string.
fn push_cells<A: Allocator>(line: &mut Vec<u8, A>, cells: &[Cell]) -> Result<(), AllocError>
    ensures { OnOk result (line.new.items ≡ line.old.items ++ cells_text cells.now) }
{
    for cell in cells {
        push_cell(line, cell)?;
    }
    Ok(())
}

// Adds a cell of a string. A mark stands in angle brackets;
// a gap and a head never stand in a string.
fn push_cell<A: Allocator>(line: &mut Vec<u8, A>, cell: &Cell) -> Result<(), AllocError>
    ensures { OnOk result (line.new.items ≡ line.old.items ++ cell_text cell.now) }
{
    match cell {
        Cell::Byte(byte) => push_byte(line, *byte),
        Cell::Call(Mode::Active, _) => line.extend_from_slice(b"<#>"),
        Cell::Call(Mode::Neutral, _) => line.extend_from_slice(b"<##>"),
        Cell::Comma => line.extend_from_slice(b"<,>"),
        Cell::Gap(_) | Cell::Head(_) => Ok(()),
    }
}

// Adds bytes.
fn push_bytes<A: Allocator>(line: &mut Vec<u8, A>, bytes: &[u8]) -> Result<(), AllocError>
    ensures { OnOk result (line.new.items ≡ line.old.items ++ bytes_text bytes.now) }
{
    for byte in bytes {
        push_byte(line, *byte)?;
    }
    Ok(())
}

/// Adds a byte: layout and the reverse solidus behind a reverse solidus, and a byte that is no
/// visible character by its number. Fails only if memory runs out.
pub fn push_byte<A: Allocator>(line: &mut Vec<u8, A>, byte: u8) -> Result<(), AllocError>
    ensures { OnOk result (line.new.items ≡ line.old.items ++ byte_text byte) }
{
    match byte {
        b'\t' => line.extend_from_slice(b"\\t"),
        b'\n' => line.extend_from_slice(b"\\n"),
        b'\r' => line.extend_from_slice(b"\\r"),
        b'\\' => line.extend_from_slice(b"\\\\"),
        _ if byte < 32 || byte > 126 => push_number_16(line, byte),
        _ => line.extend_from_slice(&[byte]),
    }
}

// Adds the number of a byte, in base 16.
fn push_number_16<A: Allocator>(line: &mut Vec<u8, A>, byte: u8) -> Result<(), AllocError>
    ensures { OnOk result (line.new.items ≡ line.old.items ++ number_16 byte) }
{
    let high = DIGITS[usize::from(byte / 16)];
    let low = DIGITS[usize::from(byte % 16)];
    line.extend_from_slice(&[b'\\', b'x', high, low])
}
