//! A run at once.
ghost use Rattle.std.specs.Prelude.{◌≡◌, ℕ, ◌+◌, ◌-◌, ◌^◌, ◌<◌, ◌≤◌, List, length};
ghost use Rattle.trac_space.specs.contracts.cell.Cell.{the_row as CellRow};
ghost use Rattle.trac_c.specs.Reports.{ReportsRun, Ran};
ghost use base.Fml.{fex};
ghost use base.Fraction.{full_share};
ghost use denote.Array.{Array};
ghost use denote.RawPtr.{lies_at, room_at};
ghost use types.Logic.{sem};

use crate::filling::FillingSink;
use crate::report::{TracReport, number, refused};
use trac_core::{Cell, Machine, SliceSource};

/// Runs a script in a block of `cells` cells, which is the caller's again afterwards, with at most `steps`
/// steps. What the script prints goes to the front of `output`; if there is no room for it, the run
/// ends by a failed output. More than 16,777,216 cells are refused: then `fate` is 9, and nothing is touched.
#[unsafe(no_mangle)]
pub unsafe extern "C" fn trac_engine_run(
    block: *mut Cell,
    cells: usize,
    steps: u64,
    script: &[u8],
    output: &mut [u8],
) -> TracReport
    requires* { sem 𝓛 (room_at (Array CellRow cells) block) }
    ensures* { sem 𝓛 (room_at (Array CellRow cells) block) ∗
        ⌜ ReportsRun cells steps script.now output.old output.new result ⌝ }
{
    if cells > 16_777_216 {
        return refused();
    }
    fill(block, cells);
    run_over(
        std::slice::from_raw_parts_mut(block, cells),
        steps,
        script,
        output,
    )
}

/// Writes a cell at each place of a block: one that is zero bytes, so that a copy of a block can leave out
/// what was never used.
pub(crate) unsafe fn fill(block: *mut Cell, cells: usize)
    requires* { sem 𝓛 (room_at (Array CellRow cells) block) ∗ ⌜ cells ≤ 16777216 ⌝ }
    ensures* { sem 𝓛 (fex (List Cell)
        (λ items. lies_at (Array CellRow cells) full_share block items)) }
{
    let mut i = 0;
    while i < cells {
        block.add(i).write(Cell::Byte(0));
        i += 1;
    }
}

/// Runs a script in a block.
pub(crate) fn run_over(
    block: &mut [Cell],
    steps: u64,
    script: &[u8],
    output: &mut [u8],
) -> TracReport
    requires { length block.old ≤ 16777216 }
    ensures { Ran (length block.old) steps script.now output.new result }
{
    let mut source = SliceSource::new(script, None);
    let mut sink = FillingSink::new(output);
    let done = Machine::over(block, steps).run(&mut source, &mut sink);
    TracReport {
        fate: number(done.fate),
        peak: done.peak,
        steps: done.steps,
        written: sink.len(),
        consumed: script.len().saturating_sub(source.rest().len()),
        wanted: 0,
    }
}
