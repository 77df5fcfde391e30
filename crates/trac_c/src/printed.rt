//! The step that prints, made without room for what it prints.
ghost use Rattle.trac_core.specs.Machine.{MachineState};
ghost use Rattle.trac_c.specs.Machines.{machine_after, machine_at};
ghost use Rattle.trac_c.specs.Printed.{SkipsPrint};
ghost use types.Logic.{sem};

use crate::hosting::step_report;
use crate::report::{TracReport, refused};
use trac_core::Machine;

/// Has the machine at a place make its next step, which prints, and drops what it prints: as a turn of one step does
/// that has room for it. The report is that of such a turn, without the bytes. Where that step prints nothing it is
/// refused, with 9, and nothing has changed.
#[unsafe(no_mangle)]
pub unsafe extern "C" fn trac_engine_skip_print(machine: *mut u64) -> TracReport
    ghost held: { MachineState }
    requires* { sem 𝓛 (machine_at machine held) }
    ensures* { sem 𝓛 (machine_after machine (SkipsPrint held result)) }
{
    skip_print(&mut *(machine as *mut Machine<'static>))
}

/// Has a machine make its next step, if it prints, and drops what it prints.
fn skip_print(machine: &mut Machine<'static>) -> TracReport
    ensures { SkipsPrint machine.old result machine.new }
{
    match machine.skip_print() {
        Ok(()) => step_report(machine, None),
        Err(_) => refused(),
    }
}
