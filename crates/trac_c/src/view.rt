//! What C sees of a machine that it keeps. Each of these has the machine by a shared reference, through which nothing
//! can be written: no cell of the block moves, and no word of the machine changes.
ghost use Rattle.std.specs.Prelude.{◌≡◌, ◌≤◌, drop, length, slice_get};
ghost use Rattle.trac_language.specs.Rule.{rule};
ghost use Rattle.trac_language.specs.State.{argument, size};
ghost use Rattle.trac_core.specs.Machine.{MachineState};
ghost use Rattle.trac_core.specs.OpenCalls.{call_places, next_texts};
ghost use Rattle.trac_core.specs.Session.{awaited, next_function};
ghost use Rattle.trac_core.specs.View.{dropped, neutral_in, row_of, steps_before_call, taken};
ghost use Rattle.trac_c.specs.Machines.{machine_at};
ghost use Rattle.trac_c.specs.Buffers.{Lays};
ghost use Rattle.trac_c.specs.Forms.{name_of, display_of, codes_of, pointer_of};
ghost use Rattle.trac_c.specs.View.{codes_of_neutral, rule_number, awaits_number, part_cells};
ghost use Rattle.trac_c.specs.Printed.{next_text};
ghost use Rattle.trac_c.specs.Sources.{source_number};
ghost use Rattle.trac_events.specs.Sources.{next_source};
ghost use types.Logic.{sem};

use crate::forms::{count, lay_argument, lay_codes, lay_display, lay_name, lay_printed, pointer};
use crate::source::next_source;
use crate::strings;
use trac_core::Machine;

/// How many forms the machine at a place has.
#[unsafe(no_mangle)]
pub unsafe extern "C" fn trac_engine_form_count(machine: *mut u64) -> usize
    ghost held: { MachineState }
    requires* { sem 𝓛 (machine_at machine held) }
    ensures* { sem 𝓛 (machine_at machine held) ∗ ⌜ result ≡ length held.memory.forms ⌝ }
{
    count(&*(machine as *const Machine<'static>))
}

/// The length of the name of form `k`, from 0, in the order of definition; the name goes to the
/// front of `to`, as much of it as fits. If there is no such form, the answer is 0 and `to` stays as it is.
#[unsafe(no_mangle)]
pub unsafe extern "C" fn trac_engine_form_name(machine: *mut u64, k: usize, to: &mut [u8]) -> usize
    ghost held: { MachineState }
    requires* { sem 𝓛 (machine_at machine held) }
    ensures* { sem 𝓛 (machine_at machine held) ∗
        ⌜ Lays (name_of (slice_get held.memory.forms k)) result to.old to.new ⌝ }
{
    lay_name(&*(machine as *const Machine<'static>), k, to)
}

/// The length of the display of form `k`, as `pf` prints it: gaps as their ordinals in angle brackets,
/// and `<^>` at the pointer. It goes to the front of `to`, as much of it as fits. Where there is no
/// such form, 0, and `to` stays as it is.
#[unsafe(no_mangle)]
pub unsafe extern "C" fn trac_engine_form_text(machine: *mut u64, k: usize, to: &mut [u8]) -> usize
    ghost held: { MachineState }
    requires* { sem 𝓛 (machine_at machine held) }
    ensures* { sem 𝓛 (machine_at machine held) ∗
        ⌜ Lays (display_of (slice_get held.memory.forms k)) result to.old to.new ⌝ }
{
    lay_display(&*(machine as *const Machine<'static>), k, to)
}

/// How many items the body of form `k` has. A number for each goes to the front of `to`, as many as
/// fit: a byte as it is, a gap as 255 more than its ordinal. Where there is no such form, 0, and `to`
/// stays as it is.
#[unsafe(no_mangle)]
pub unsafe extern "C" fn trac_engine_form_codes(
    machine: *mut u64,
    k: usize,
    to: &mut [u32],
) -> usize
    ghost held: { MachineState }
    requires* { sem 𝓛 (machine_at machine held) }
    ensures* { sem 𝓛 (machine_at machine held) ∗
        ⌜ Lays (codes_of (slice_get held.memory.forms k)) result to.old to.new ⌝ }
{
    lay_codes(&*(machine as *const Machine<'static>), k, to)
}

/// How many items of form `k` stand in front of its pointer, 0 if there is no such form.
#[unsafe(no_mangle)]
pub unsafe extern "C" fn trac_engine_form_pointer(machine: *mut u64, k: usize) -> usize
    ghost held: { MachineState }
    requires* { sem 𝓛 (machine_at machine held) }
    ensures* { sem 𝓛 (machine_at machine held) ∗
        ⌜ result ≡ pointer_of (slice_get held.memory.forms k) ⌝ }
{
    pointer(&*(machine as *const Machine<'static>), k)
}

/// How many codes the neutral string has from place `from` on; they go to the front of `to`, as many as
/// fit: a byte as it is, 256 for the mark of an active call, 257 for that of a neutral call, 258 for a
/// comma mark.
#[unsafe(no_mangle)]
pub unsafe extern "C" fn trac_engine_neutral_part(
    machine: *mut u64,
    from: usize,
    to: &mut [u32],
) -> usize
    ghost held: { MachineState }
    requires* { sem 𝓛 (machine_at machine held) }
    ensures* { sem 𝓛 (machine_at machine held) ∗
        ⌜ Lays (drop from (codes_of_neutral (neutral_in held.memory))) result to.old to.new ⌝ }
{
    strings::lay_neutral(&*(machine as *const Machine<'static>), from, to)
}

/// How many bytes the active string has from place `from` on; they go to the front of `to`, as many as
/// fit.
#[unsafe(no_mangle)]
pub unsafe extern "C" fn trac_engine_active_part(
    machine: *mut u64,
    from: usize,
    to: &mut [u32],
) -> usize
    ghost held: { MachineState }
    requires* { sem 𝓛 (machine_at machine held) }
    ensures* { sem 𝓛 (machine_at machine held) ∗
        ⌜ Lays (drop from held.memory.active) result to.old to.new ⌝ }
{
    strings::lay_active(&*(machine as *const Machine<'static>), from, to)
}

/// How many calls are open; the places at which their marks stand in the neutral string go to the front
/// of `to`, that of the innermost first, as many as fit.
#[unsafe(no_mangle)]
pub unsafe extern "C" fn trac_engine_calls(machine: *mut u64, to: &mut [u32]) -> usize
    ghost held: { MachineState }
    requires* { sem 𝓛 (machine_at machine held) }
    ensures* { sem 𝓛 (machine_at machine held) ∗
        ⌜ Lays (call_places (neutral_in held.memory)) result to.old to.new ⌝ }
{
    strings::lay_calls(&*(machine as *const Machine<'static>), to)
}

/// How many arguments the call has that the next step performs, its name counted; 0 if it performs no call, where
/// the run is over, and where the allowance is used up.
#[unsafe(no_mangle)]
pub unsafe extern "C" fn trac_engine_argument_count(machine: *mut u64) -> usize
    ghost held: { MachineState }
    requires* { sem 𝓛 (machine_at machine held) }
    ensures* { sem 𝓛 (machine_at machine held) ∗ ⌜ result ≡ length (next_texts held) ⌝ }
{
    strings::argument_count(&*(machine as *const Machine<'static>))
}

/// The length of argument `which` of the call that the next step performs, the name being argument 0; the argument goes
/// to the front of `to`, as much of it as fits. If there is no such argument, the answer is 0 and `to` stays as it is.
#[unsafe(no_mangle)]
pub unsafe extern "C" fn trac_engine_argument(
    machine: *mut u64,
    which: usize,
    to: &mut [u8],
) -> usize
    ghost held: { MachineState }
    requires* { sem 𝓛 (machine_at machine held) }
    ensures* { sem 𝓛 (machine_at machine held) ∗
        ⌜ Lays (argument (next_texts held) which) result to.old to.new ⌝ }
{
    lay_argument(&*(machine as *const Machine<'static>), which, to)
}

/// How long what the next step prints is from byte `from` on; that goes to the front of `to`, as much of it as fits.
/// Where it prints nothing, where the run is over, and where the allowance is used up, 0, and `to` stays as it is.
#[unsafe(no_mangle)]
pub unsafe extern "C" fn trac_engine_printed(machine: *mut u64, from: usize, to: &mut [u8]) -> usize
    ghost held: { MachineState }
    requires* { sem 𝓛 (machine_at machine held) }
    ensures* { sem 𝓛 (machine_at machine held) ∗
        ⌜ Lays (drop from (next_text held)) result to.old to.new ⌝ }
{
    lay_printed(&*(machine as *const Machine<'static>), from, to)
}

/// How many characters the next step takes from the front of the active string: those that open a call,
/// a text in parentheses with both of them, all where a left parenthesis has no match, none of an empty
/// string, and else one.
#[unsafe(no_mangle)]
pub unsafe extern "C" fn trac_engine_takes(machine: *mut u64) -> usize
    ghost held: { MachineState }
    requires* { sem 𝓛 (machine_at machine held) }
    ensures* { sem 𝓛 (machine_at machine held) ∗
        ⌜ result ≡ taken (rule held.memory.active) (length held.memory.active) ⌝ }
{
    strings::takes(&*(machine as *const Machine<'static>))
}

/// How many characters the next step drops: all of an active string that begins with a left parenthesis
/// that has no match, and else none. What other rules delete, as layout, doesn't count.
#[unsafe(no_mangle)]
pub unsafe extern "C" fn trac_engine_drops(machine: *mut u64) -> usize
    ghost held: { MachineState }
    requires* { sem 𝓛 (machine_at machine held) }
    ensures* { sem 𝓛 (machine_at machine held) ∗
        ⌜ result ≡ dropped (rule held.memory.active) (length held.memory.active) ⌝ }
{
    strings::drops(&*(machine as *const Machine<'static>))
}

/// How many steps come before the next one at a right parenthesis or at an empty active string, at most
/// `most`: none of them performs a call.
#[unsafe(no_mangle)]
pub unsafe extern "C" fn trac_engine_steps_to_call(machine: *mut u64, most: u64) -> u64
    ghost held: { MachineState }
    requires* { sem 𝓛 (machine_at machine held) }
    ensures* { sem 𝓛 (machine_at machine held) ∗
        ⌜ result ≡ steps_before_call most held.memory.active ⌝ }
{
    strings::steps_to_call(&*(machine as *const Machine<'static>), most)
}

/// The rule that the next step follows: 0 idling, 1 layout, 2 protection, 3 argument, 4 active call,
/// 5 neutral call, 6 number sign, 7 end of call, 8 character.
#[unsafe(no_mangle)]
pub unsafe extern "C" fn trac_engine_rule(machine: *mut u64) -> u32
    ghost held: { MachineState }
    requires* { sem 𝓛 (machine_at machine held) }
    ensures* { sem 𝓛 (machine_at machine held) ∗
        ⌜ result ≡ rule_number (row_of (rule held.memory.active)) ⌝ }
{
    strings::rule_number(&*(machine as *const Machine<'static>))
}

/// The cells of a part of the block: 0 the store of forms, 1 the neutral string, 2 what is free, 3
/// the active string; 0 of any other number.
#[unsafe(no_mangle)]
pub unsafe extern "C" fn trac_engine_part(machine: *mut u64, which: u32) -> usize
    ghost held: { MachineState }
    requires* { sem 𝓛 (machine_at machine held) }
    ensures* { sem 𝓛 (machine_at machine held) ∗ ⌜ result ≡ part_cells which held ⌝ }
{
    strings::part(&*(machine as *const Machine<'static>), which)
}

/// The meta character.
#[unsafe(no_mangle)]
pub unsafe extern "C" fn trac_engine_meta(machine: *mut u64) -> u32
    ghost held: { MachineState }
    requires* { sem 𝓛 (machine_at machine held) }
    ensures* { sem 𝓛 (machine_at machine held) ∗ ⌜ result ≡ held.memory.meta ⌝ }
{
    strings::meta(&*(machine as *const Machine<'static>))
}

/// What the next step reads: 0 nothing, 1 a string, 2 a byte.
#[unsafe(no_mangle)]
pub unsafe extern "C" fn trac_engine_awaits(machine: *mut u64) -> u32
    ghost held: { MachineState }
    requires* { sem 𝓛 (machine_at machine held) }
    ensures* { sem 𝓛 (machine_at machine held) ∗
        ⌜ result ≡ awaits_number (awaited (next_function held)) ⌝ }
{
    strings::awaits_number(&*(machine as *const Machine<'static>))
}

/// Where the value of the call comes from that the next step performs, in numbers. What `which` asks: 0 the kind, which
/// is 0 if the value is null, if the call ends the run and if no call is performed, 1 for an argument, 2 for all of the
/// form that the call names from its pointer on, 3 for the characters that the pointer of that form passes over in the
/// step, 4 for the input, 5 for the function itself; 1 the number of the argument, the name being argument 0, which for
/// a kind of 3 is the value if the pointer stays; 2 how many of the items that the pointer passes over at last are no
/// part of the value. 0 of any other number. Said of strings and forms that have at most 16,777,216 cells together, as
/// in every block.
#[unsafe(no_mangle)]
pub unsafe extern "C" fn trac_engine_value_source(machine: *mut u64, which: u32) -> usize
    ghost held: { MachineState }
    requires* { sem 𝓛 (machine_at machine held) }
    ensures* { sem 𝓛 (machine_at machine held) ∗
        ⌜ (size held.memory ≤ 16777216 → result ≡ source_number which (next_source held)) ⌝ }
{
    next_source(&*(machine as *const Machine<'static>), which)
}
