//! Forms as the views show them.
ghost use Rattle.std.specs.Prelude.{◌≡◌, ◌++◌, OnOk};
ghost use Rattle.std.specs.List.{flat_map};
ghost use Rattle.trac_views.specs.CallLines.{form_line, form_text};

use crate::escapes::{push_cut, push_name};
use crate::lines::push;
use crate::printed::Printed;
use std::alloc::{AllocError, Allocator};
use trac_core::{Forms, StoredForm, show_form};

/// Adds a form: its name and, behind a colon, its body as `pf` displays it, both cut to `width` bytes.
/// Fails only if memory runs out.
pub fn push_form<A: Allocator + Copy>(
    line: &mut Vec<u8, A>,
    alloc: A,
    form: &StoredForm,
    width: u32,
) -> Result<(), AllocError>
    ensures { OnOk result (line.new.items ≡ line.old.items ++ form_text width form.now) }
{
    push_name(line, alloc, form.name(), width)?;
    push(line, b": ")?;
    let mut text = Printed::new(alloc);
    if show_form(form, &mut text).is_err() {
        return Err(AllocError);
    }
    push_cut(line, text.as_bytes(), width)
}

/// Adds a line for each form. Fails only if memory runs out.
pub fn push_forms<A: Allocator + Copy>(
    lines: &mut Vec<u8, A>,
    alloc: A,
    forms: Forms,
    width: u32,
) -> Result<(), AllocError>
    ensures { OnOk result (lines.new.items ≡
        lines.old.items ++ flat_map (form_line width) forms.entry) }
{
    for form in forms {
        push_form_line(lines, alloc, &form, width)?;
    }
    Ok(())
}

// Adds the line of a form.
fn push_form_line<A: Allocator + Copy>(
    lines: &mut Vec<u8, A>,
    alloc: A,
    form: &StoredForm,
    width: u32,
) -> Result<(), AllocError>
    ensures { OnOk result (lines.new.items ≡ lines.old.items ++ form_line width form.now) }
{
    push(lines, b"form ")?;
    push_form(lines, alloc, form, width)?;
    push(lines, b"\n")
}
