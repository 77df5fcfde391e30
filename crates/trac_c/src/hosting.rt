//! Calls of no function that the host answers.
ghost use Rattle.std.specs.Prelude.{◌≡◌, None, Some, MatchOption};
ghost use Rattle.trac_core.specs.declared.machine.answering.Delivery.{Delivery};
ghost use Rattle.trac_core.specs.Machine.{MachineState, KeepsSettings};
ghost use Rattle.trac_c.specs.Hosting.{GivesValue, delivery_of, stopping, reported_step};
ghost use Rattle.trac_c.specs.Machines.{machine_at, machine_after};
ghost use types.Logic.{sem};

use crate::report::{TracReport, answer_number, refused};
use trac_core::{Delivery, Fate, Machine};

/// Says whether turns of the machine at a place stop before a call whose name is no function, so that the host can give
/// its value: they do where `stops` isn't 0. Those of a new machine don't.
#[unsafe(no_mangle)]
pub unsafe extern "C" fn trac_engine_stop_at_unknown(machine: *mut u64, stops: u32)
    ghost held: { MachineState }
    requires* { sem 𝓛 (machine_at machine held) }
    ensures* { sem 𝓛 (machine_at machine (stopping stops held)) }
{
    stop_at_unknown(&mut *(machine as *mut Machine<'static>), stops);
}

/// Says whether turns of a machine stop before a call whose name is no function.
fn stop_at_unknown(machine: &mut Machine<'static>, stops: u32)
    ensures { machine.new ≡ stopping stops machine.old }
{
    machine.stop_at_unknown(stops != 0);
}

/// Has the machine at a place make its next step, which performs a call whose name is no function, with this value.
/// `how` is 0 if it goes as the call's mode says, 1 where it is scanned again, 2 where it never is. The report is
/// that of a turn. Elsewhere, and for another `how`, it is refused, with 9, and nothing has changed.
#[unsafe(no_mangle)]
pub unsafe extern "C" fn trac_engine_answer(machine: *mut u64, value: &[u8], how: u32) -> TracReport
    ghost held: { MachineState }
    requires* { sem 𝓛 (machine_at machine held) }
    ensures* { sem 𝓛 (machine_after machine (GivesValue how value.now held result)) }
{
    give_value(&mut *(machine as *mut Machine<'static>), value, how)
}

/// Has a machine make its next step with the value that the host gives to its call.
fn give_value(machine: &mut Machine<'static>, value: &[u8], how: u32) -> TracReport
    ensures { GivesValue how value.now machine.old result machine.new }
{
    let Some(how) = delivery(how) else {
        return refused();
    };
    match machine.answer(value, how) {
        Ok(fate) => step_report(machine, fate),
        Err(_) => refused(),
    }
}

/// How a value is delivered, by a number.
fn delivery(how: u32) -> Option<Delivery>
    ensures { result ≡ delivery_of how }
{
    match how {
        0 => Some(Delivery::ByMode),
        1 => Some(Delivery::Scanned),
        2 => Some(Delivery::Unscanned),
        _ => None,
    }
}

/// The report of a step that reads and prints nothing, and after which a machine stands so.
pub(crate) fn step_report(machine: &Machine<'static>, fate: Option<Fate>) -> TracReport
    ensures { result ≡ reported_step fate machine.now }
{
    TracReport {
        fate: answer_number(fate),
        peak: machine.peak(),
        steps: machine.steps(),
        written: 0,
        consumed: 0,
        wanted: 0,
    }
}
