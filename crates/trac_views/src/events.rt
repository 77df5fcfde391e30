//! What a step did, from which each view takes its lines.
ghost use Rattle.std.specs.Prelude.{◌≡◌, ◌++◌, OnOk};
ghost use Rattle.trac_views.specs.CallLines.{change_line, changes_text, event_text};

use crate::calls::{Called, push_call, unless_empty};
use crate::lines::{Step, push, push_column, push_dropped, push_printed, push_step};
use crate::views::Views;
use std::alloc::{AllocError, Allocator};
use trac_core::Cell;

/// One thing that a step did.
#[derive(Clone, Copy)]
pub enum Event<'e> {
    /// It was done, and left these cells in the neutral and in the active string.
    Done(Step, &'e [Cell], &'e [Cell]),
    /// It dropped this many characters, because a left parenthesis has no match.
    Dropped(u32),
    /// It printed these bytes.
    Printed(&'e [u8]),
    /// It performed a call.
    Called(Called<'e>),
}

/// Adds what the views show of an event. Fails only if memory runs out.
pub fn push_event<A: Allocator + Copy>(
    lines: &mut Vec<u8, A>,
    alloc: A,
    views: &Views,
    event: &Event,
) -> Result<(), AllocError>
    ensures { OnOk result (lines.new.items ≡ lines.old.items ++ event_text views.now event.now) }
{
    match *event {
        Event::Done(step, neutral, active) if views.has_steps() => {
            push_step(lines, &step, neutral, active, views.width)
        }
        Event::Dropped(count) if views.has_strings() && count > 0 => push_dropped(lines, count),
        Event::Printed(bytes) if views.has_steps() && !bytes.is_empty() => {
            push_printed(lines, bytes)
        }
        Event::Called(called) if views.calls => push_call(lines, alloc, &called, views.width),
        Event::Called(called) if views.forms => push_changes(lines, &called),
        _ => Ok(()),
    }
}

// Adds the line of the forms that a call made, changed or deleted, if there are any.
fn push_changes<A: Allocator>(lines: &mut Vec<u8, A>, called: &Called) -> Result<(), AllocError>
    ensures { OnOk result (lines.new.items ≡ lines.old.items
        ++ changes_text called.now.number called.now.form.now called.now.deleted.now) }
{
    if called.form.is_empty() && called.deleted.is_empty() {
        Ok(())
    } else {
        push_change(lines, called)
    }
}

// Adds the line of the form that a call made or changed, or of the forms that it deleted.
fn push_change<A: Allocator>(lines: &mut Vec<u8, A>, called: &Called) -> Result<(), AllocError>
    ensures { OnOk result (lines.new.items ≡ lines.old.items
        ++ change_line called.now.number called.now.form.now called.now.deleted.now) }
{
    push_column(lines, called.number)?;
    push(lines, b" ")?;
    push(lines, unless_empty(b" form ", called.form.is_empty()))?;
    push(lines, called.form)?;
    push(lines, called.deleted)?;
    push(lines, b"\n")
}
