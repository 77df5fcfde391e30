//! One step of a machine that C keeps, behind whose input reading may fail.
ghost use Rattle.std.specs.Prelude.{◌≡◌, ◌≤◌, length};
ghost use Rattle.trac_c.specs.Traced.{FailsBehind, Stepped};

use crate::filling::FillingSink;
use crate::report::{TracReport, WAITS, answer_number};
use crate::turn::take_turn;
use trac_core::{Machine, SliceSource};

/// That reading fails behind the input of a step.
const FAILS: u32 = 2;

/// Has a machine make a step as a turn does, over the bytes of `input`, behind which more may come (`ended` is 0), the
/// input ends (1) or reading fails (2). Where it fails, a step that waits for input ends the run.
pub(crate) fn one_step(
    machine: &mut Machine<'static>,
    input: &[u8],
    output: &mut [u8],
    ended: u32,
) -> TracReport
    ensures stepped { Stepped ended input.now output.new machine.old result machine.new }
    ensures fits { result.written ≤ length output.new }
{
    let turn = take_turn(machine, input, output, u32::from(ended == 1), 1);
    if ended != FAILS || turn.fate != WAITS {
        return turn;
    }
    failed_step(machine, input, output)
}

/// Has a machine make a step over the bytes of `input`, behind which reading fails.
fn failed_step(machine: &mut Machine<'static>, input: &[u8], output: &mut [u8]) -> TracReport
    ensures fails { FailsBehind input.now output.new machine.old result machine.new }
    ensures fits { result.written ≤ length output.new }
{
    let mut source = SliceSource::new(input, Some(input.len() as u64));
    let mut sink = FillingSink::new(output);
    let answer = machine.step(&mut source, &mut sink);
    TracReport {
        fate: answer_number(answer),
        peak: machine.peak(),
        steps: machine.steps(),
        written: sink.len(),
        consumed: input.len().saturating_sub(source.rest().len()),
        wanted: 0,
    }
}
