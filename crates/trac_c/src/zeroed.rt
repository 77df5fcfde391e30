//! Machines, runs and checks over blocks whose bytes are 0: nothing is cleared.
ghost use Rattle.std.specs.Prelude.{◌≡◌, ◌≤◌};
ghost use Rattle.trac_space.specs.contracts.cell.Cell.{the_row as CellRow};
ghost use Rattle.trac_lent.specs.Units.{units_at};
ghost use Rattle.trac_c.specs.Checked.{CheckReported};
ghost use Rattle.trac_c.specs.Machines.{machine_room, opened_zeroed, zeroed};
ghost use Rattle.trac_c.specs.Reports.{ReportsRun};
ghost use denote.Array.{Array};
ghost use denote.RawPtr.{room_at};
ghost use types.Logic.{sem};

use crate::check::check_over;
use crate::report::{REFUSED, TracReport, refused};
use crate::run::run_over;
use trac_core::{Cell, Machine};
use trac_lent::Units;

/// Makes a machine as `trac_engine_open` does, over a block each byte of which is 0. That is what a cleared block
/// holds, so nothing is written to it.
#[unsafe(no_mangle)]
pub unsafe extern "C" fn trac_engine_open_zeroed(
    machine: *mut u64,
    block: *mut Cell,
    cells: usize,
    steps: u64,
) -> u32
    requires* { sem 𝓛 (machine_room machine) ∗ sem 𝓛 (zeroed cells block) }
    ensures* { sem 𝓛 (opened_zeroed cells steps machine block result) }
{
    if cells > 16_777_216 {
        return REFUSED;
    }
    (machine as *mut Machine<'static>).write(Machine::over(
        std::slice::from_raw_parts_mut(block, cells),
        steps,
    ));
    0
}

/// Runs a script as `trac_engine_run` does, in a block each byte of which is 0. That is what a cleared block holds, so
/// only what the run uses of it is written.
#[unsafe(no_mangle)]
pub unsafe extern "C" fn trac_engine_run_zeroed(
    block: *mut Cell,
    cells: usize,
    steps: u64,
    script: &[u8],
    output: &mut [u8],
) -> TracReport
    requires* { sem 𝓛 (zeroed cells block) }
    ensures* { sem 𝓛 (room_at (Array CellRow cells) block) ∗
        ⌜ ReportsRun cells steps script.now output.old output.new result ⌝ }
{
    if cells > 16_777_216 {
        return refused();
    }
    run_over(
        std::slice::from_raw_parts_mut(block, cells),
        steps,
        script,
        output,
    )
}

/// Checks a script as `trac_engine_check` does, in a block each byte of which is 0. That is what a cleared block holds,
/// so only what the run uses of it is written.
#[unsafe(no_mangle)]
pub unsafe extern "C" fn trac_engine_check_zeroed(
    block: *mut Cell,
    cells: usize,
    steps: u64,
    script: &[u8],
    memory: *mut u64,
    units: usize,
    to: &mut [u8],
) -> TracReport
    requires* { sem 𝓛 (zeroed cells block) ∗ sem 𝓛 (units_at units memory) }
    ensures* { sem 𝓛 (room_at (Array CellRow cells) block) ∗
        ⌜ CheckReported cells steps script.now to.old to.new result ⌝ }
{
    if cells > 16_777_216 {
        return refused();
    }
    let lent = Units::from_raw(memory as *mut u128);
    check_over(
        std::slice::from_raw_parts_mut(block, cells),
        steps,
        script,
        lent,
        units,
        to,
    )
}
