//! A machine that C keeps between calls, with the block that it was opened over.
ghost use Rattle.std.specs.Prelude.{◌≡◌};
ghost use Rattle.trac_core.specs.Machine.{MachineState};
ghost use Rattle.trac_c.specs.Machines.{machine_at, machine_room, machine_after, cells_room, opened};
ghost use Rattle.trac_c.specs.Machines.{begun_again, machine_bytes};
ghost use Rattle.trac_c.specs.Turns.{TurnedOrOver, is_ended};
ghost use types.Logic.{sem};

use crate::report::{REFUSED, TracReport};
use crate::run::fill;
use crate::turn::take_turn;
use trac_core::{Cell, Machine};

/// The bytes that a machine takes.
#[unsafe(no_mangle)]
pub extern "C" fn trac_engine_machine_size() -> usize
    ensures { result ≡ machine_bytes }
{
    std::mem::size_of::<Machine<'static>>()
}

/// The bytes that a cell takes: as many as C gives it.
#[unsafe(no_mangle)]
pub extern "C" fn trac_engine_cell_size() -> usize
    ensures { result ≡ 8 }
{
    std::mem::size_of::<Cell>()
}

/// Makes a machine at a place, over a block of `cells` cells that is its own from then on, which may
/// make `steps` steps. Gives 0. More than 16,777,216 cells are refused: then it gives 9,
/// and nothing is touched.
#[unsafe(no_mangle)]
pub unsafe extern "C" fn trac_engine_open(
    machine: *mut u64,
    block: *mut Cell,
    cells: usize,
    steps: u64,
) -> u32
    requires* { sem 𝓛 (machine_room machine) ∗ sem 𝓛 (cells_room cells block) }
    ensures* { sem 𝓛 (opened cells steps machine block result) }
{
    if cells > 16_777_216 {
        return REFUSED;
    }
    fill(block, cells);
    (machine as *mut Machine<'static>).write(Machine::over(
        std::slice::from_raw_parts_mut(block, cells),
        steps,
    ));
    0
}

/// Has the machine at a place take a turn: at most `most` steps over these bytes of input, behind which the
/// input ends if `ended` is not 0. What is printed goes to the front of `output`. The turn also ends before a
/// step that waits for input, or that prints more bytes than `output` has room for; `fate` says which.
#[unsafe(no_mangle)]
pub unsafe extern "C" fn trac_engine_turn(
    machine: *mut u64,
    input: &[u8],
    output: &mut [u8],
    ended: u32,
    most: u64,
) -> TracReport
    ghost held: { MachineState }
    requires* { sem 𝓛 (machine_at machine held) }
    ensures* { sem 𝓛 (machine_after machine
        (TurnedOrOver (is_ended ended) most input.now output.new held result)) }
{
    take_turn(
        &mut *(machine as *mut Machine<'static>),
        input,
        output,
        ended,
        most,
    )
}

/// Clears both strings of the machine at a place and begins a new run that may make `steps` steps. Its
/// forms and its meta character stay.
#[unsafe(no_mangle)]
pub unsafe extern "C" fn trac_engine_again(machine: *mut u64, steps: u64)
    ghost held: { MachineState }
    requires* { sem 𝓛 (machine_at machine held) }
    ensures* { sem 𝓛 (machine_at machine (begun_again steps held)) }
{
    begin_again(&mut *(machine as *mut Machine<'static>), steps)
}

/// Clears both strings of a machine and begins a new run that may make `steps` steps.
fn begin_again(machine: &mut Machine<'static>, steps: u64)
    ensures { machine.new ≡ begun_again steps machine.old }
{
    machine.again(steps);
}

/// The peak of the machine at a place, in cells, which then counts from 0 again: called after each step it
/// tells what that step needed.
#[unsafe(no_mangle)]
pub unsafe extern "C" fn trac_engine_take_peak(machine: *mut u64) -> u32
    ghost held: { MachineState }
    requires* { sem 𝓛 (machine_at machine held) }
    ensures* { sem 𝓛 (machine_at machine (record held { peak = 0 })) ∗ ⌜ result ≡ held.peak ⌝ }
{
    take_peak(&mut *(machine as *mut Machine<'static>))
}

/// The peak of a machine, in cells, which then counts from 0 again.
fn take_peak(machine: &mut Machine<'static>) -> u32
    ensures { (result ≡ machine.old.peak) × (machine.new ≡ record machine.old { peak = 0 }) }
{
    machine.take_peak()
}

/// Has the machine at a place keep in mind where form `k` begins, from 0, in the order of definition: forms that are
/// looked at in turn then cost one walk in all. Nothing that can be seen changes. Where there is no such form nothing
/// is done.
#[unsafe(no_mangle)]
pub unsafe extern "C" fn trac_engine_turn_to_form(machine: *mut u64, k: usize)
    ghost held: { MachineState }
    requires* { sem 𝓛 (machine_at machine held) }
    ensures* { sem 𝓛 (machine_at machine held) }
{
    turn_to(&mut *(machine as *mut Machine<'static>), k)
}

/// Has a machine keep in mind where form `k` begins.
fn turn_to(machine: &mut Machine<'static>, k: usize)
    ensures { machine.new ≡ machine.old }
{
    if let Ok(k) = u32::try_from(k) {
        machine.turn_to_form(k);
    }
}
