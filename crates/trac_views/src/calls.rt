//! The lines of the calls that were performed. Their form is this processor's own choice.
ghost use Rattle.std.specs.Prelude.{◌≡◌, ◌++◌, OnOk};
ghost use Rattle.trac_views.specs.CallLines.{blanks_text, called_text, indent_text, oddity_text};
ghost use Rattle.trac_views.specs.CallLines.{results_text};
ghost use Rattle.trac_views.specs.CallLines.{unless_empty};

use crate::escapes::{opening, push_cells_cut, push_cut};
use crate::lines::{push, push_column, push_number};
use std::alloc::{AllocError, Allocator};
use trac_core::Cell;
use trac_space::Mode;

// At most this many open calls indent the line of a call.
const MOST_INDENT: usize = 20;

/// What is odd about a call.
#[derive(Clone, Copy)]
pub enum Oddity {
    /// No function has its name.
    NoFunction,
    /// No form has the name behind the function's.
    NoForm,
    /// Its value is its default value.
    Default,
}

/// A call that was performed.
#[derive(Clone, Copy)]
pub struct Called<'a> {
    /// The step that performed it.
    pub number: u64,
    /// How the call was opened.
    pub mode: Mode,
    /// How many calls are open around it.
    pub depth: usize,
    /// The function's name and the arguments, with a comma mark between two.
    pub arguments: &'a [Cell],
    /// The value of the call.
    pub value: &'a [Cell],
    /// The bytes that it printed.
    pub printed: &'a [u8],
    /// The form that it made or changed, as `push_form` shows it. It is empty if there is none.
    pub form: &'a [u8],
    /// The forms that it deleted, as `push_deleted` shows them.
    pub deleted: &'a [u8],
    /// What is odd about the call, if anything is.
    pub oddity: Option<Oddity>,
}

/// Adds the line of a call: its step, the call, indented by the calls that are open around it, its
/// value, what it printed, the forms that it changed, and what is odd about it. Fails only if
/// memory runs out.
#[inline(never)]
pub fn push_call<A: Allocator + Copy>(
    line: &mut Vec<u8, A>,
    alloc: A,
    called: &Called,
    width: u32,
) -> Result<(), AllocError>
    ensures { OnOk result (line.new.items ≡ line.old.items
        ++ called_text called.now.number called.now.mode called.now.depth called.now.arguments.now
        called.now.value.now called.now.printed.now called.now.form.now called.now.deleted.now
        called.now.oddity width) }
{
    push_column(line, called.number)?;
    push_indent(line, called.depth)?;
    push(line, opening(called.mode))?;
    push_cells_cut(line, alloc, called.arguments, width)?;
    push(line, b")")?;
    push_results(line, alloc, called, width)?;
    push(line, called.deleted)?;
    push(line, oddity_text(called.oddity))?;
    push(line, b"\n")
}

// Adds two blanks, and two more for each call that is open around a call. If they are many, adds
// their number instead.
fn push_indent<A: Allocator>(line: &mut Vec<u8, A>, depth: usize) -> Result<(), AllocError>
    ensures { OnOk result (line.new.items ≡ line.old.items ++ indent_text depth) }
{
    if depth <= MOST_INDENT {
        return push_blanks(line, depth);
    }
    push_blanks(line, MOST_INDENT)?;
    push_number(line, depth as u64)?;
    push(line, b" ")
}

// Adds two blanks, and two more for each of `depth` calls.
fn push_blanks<A: Allocator>(line: &mut Vec<u8, A>, depth: usize) -> Result<(), AllocError>
    ensures { OnOk result (line.new.items ≡ line.old.items ++ blanks_text depth) }
{
    for _around in 0..depth {
        push(line, b"  ")?;
    }
    push(line, b"  ")
}

// Adds the value, what was printed, and the form that was made or changed, if there are any.
fn push_results<A: Allocator + Copy>(
    line: &mut Vec<u8, A>,
    alloc: A,
    called: &Called,
    width: u32,
) -> Result<(), AllocError>
    ensures { OnOk result (line.new.items ≡ line.old.items
        ++ results_text called.now.value.now called.now.printed.now called.now.form.now width) }
{
    push(line, unless_empty(b" = ", called.value.is_empty()))?;
    push_cells_cut(line, alloc, called.value, width)?;
    push(line, unless_empty(b" prints ", called.printed.is_empty()))?;
    push_cut(line, called.printed, width)?;
    push(line, unless_empty(b" form ", called.form.is_empty()))?;
    push(line, called.form)
}

/// The text, or nothing if what would follow it is empty.
pub fn unless_empty(text: &[u8], is_empty: bool) -> &[u8]
    ensures { result.now ≡ unless_empty text.now is_empty }
{
    if is_empty { &[] } else { text }
}

// What is odd about a call, in brackets; nothing if it isn't odd.
fn oddity_text(oddity: Option<Oddity>) -> &'static [u8]
    ensures { result.now ≡ oddity_text oddity }
{
    match oddity {
        None => b"",
        Some(Oddity::NoFunction) => b" [no function]",
        Some(Oddity::NoForm) => b" [no form]",
        Some(Oddity::Default) => b" [default]",
    }
}
