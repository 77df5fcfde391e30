//! What is suspicious in a script.
ghost use Rattle.std.specs.Prelude.{◌≡◌, ◌≤◌, IfErr, IfOk, length};
ghost use Rattle.trac_lent.specs.Units.{units_at};
ghost use Rattle.trac_space.specs.contracts.cell.Cell.{the_row as CellRow};
ghost use Rattle.trac_c.specs.Checked.{CheckReported, Checked, Findings};
ghost use denote.Array.{Array};
ghost use denote.RawPtr.{room_at};
ghost use types.Logic.{sem};

use crate::filling::lay;
use crate::report::{TracReport, no_memory, number, refused};
use crate::run::fill;
use std::alloc::AllocError;
use trac_checker::watched;
use trac_core::{Cell, SliceSource};
use trac_lent::{Units, arena_over};

/// Runs a script as `trac_engine_run` does, and puts the lines on what is suspicious in it to the front of `to`, as
/// `trac_trace --warn` prints them: `wanted` bytes, of which `written` fit. What the script prints is not kept, and
/// `consumed` is 0. The lists of the check stand in the `units` units of 16 bytes at `memory`, which are aligned to
/// 16 and aren't the caller's again. If they are too few, `fate` is 10, and `to` stays as it is. More than 16,777,216
/// cells are refused: then `fate` is 9, and nothing is touched.
#[unsafe(no_mangle)]
pub unsafe extern "C" fn trac_engine_check(
    block: *mut Cell,
    cells: usize,
    steps: u64,
    script: &[u8],
    memory: *mut u64,
    units: usize,
    to: &mut [u8],
) -> TracReport
    requires* { sem 𝓛 (room_at (Array CellRow cells) block) ∗ sem 𝓛 (units_at units memory) }
    ensures* { sem 𝓛 (room_at (Array CellRow cells) block) ∗
        ⌜ CheckReported cells steps script.now to.old to.new result ⌝ }
{
    if cells > 16_777_216 {
        return refused();
    }
    let lent = Units::from_raw(memory as *mut u128);
    fill(block, cells);
    check_over(
        std::slice::from_raw_parts_mut(block, cells),
        steps,
        script,
        lent,
        units,
        to,
    )
}

/// The report on a script that is checked in a block, and in memory of `count` units.
#[inline(never)]
pub(crate) fn check_over(
    block: &mut [Cell],
    steps: u64,
    script: &[u8],
    units: Units,
    count: usize,
    to: &mut [u8],
) -> TracReport
    requires { (length block.old ≤ 16777216) × (count ≡ units.count) }
    ensures { Checked (length block.old) steps script.now to.old to.new result }
{
    match findings_of(block, steps, script, units, count, to) {
        Ok(report) => report,
        Err(_) => no_memory(),
    }
}

/// Checks a script in a block, and in memory of `count` units. Fails only if that memory runs out, and then `to`
/// stays as it is.
fn findings_of(
    block: &mut [Cell],
    steps: u64,
    script: &[u8],
    units: Units,
    count: usize,
    to: &mut [u8],
) -> Result<TracReport, AllocError>
    requires { (length block.old ≤ 16777216) × (count ≡ units.count) }
    ensures ok { IfOk result (Findings (length block.old) steps script.now to.old to.new) }
    ensures err { IfErr result (λ _. to.new ≡ to.old) }
{
    let arena = arena_over(units, count)?;
    let mut source = SliceSource::new(script, None);
    let watched = watched(&arena, block, steps, script, &mut source)?;
    let mut lines = Vec::new(&arena);
    watched.push_warnings(&mut lines, &[], script)?;
    watched.push_fault(&mut lines)?;
    let report = watched.report;
    Ok(TracReport {
        fate: number(report.fate),
        peak: report.peak,
        steps: report.steps,
        written: lay(&lines, to),
        consumed: 0,
        wanted: lines.len(),
    })
}
