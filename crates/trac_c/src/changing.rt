//! Changes from outside of a machine that C keeps: forms that are defined, removed and found, and the meta
//! character. None of them makes a step.
ghost use Rattle.std.specs.Prelude.{◌≡◌, []};
ghost use Rattle.trac_core.specs.Changing.{with_forms};
ghost use Rattle.trac_core.specs.Machine.{MachineState};
ghost use Rattle.trac_c.specs.Changes.{Defined, Deleted, IsNumberOf, MetaSet, TextDefined};
ghost use Rattle.trac_c.specs.Machines.{machine_at, machine_after};
ghost use types.Logic.{sem};

use crate::report::REFUSED;
use trac_core::Machine;

/// Makes a form of a name, the codes of a body and a pointer in the machine at a place: it becomes the last form,
/// and an older form of that name is removed. A code is a byte, or 255 more than the ordinal of a gap, which is
/// from 1 to 16,777,216. Gives 0. Gives 9, with nothing changed, if a code is greater, if the pointer is past the
/// body, and if 3 cells, the name and the body don't fit while the older form is still there.
#[unsafe(no_mangle)]
pub unsafe extern "C" fn trac_engine_define(
    machine: *mut u64,
    name: &[u8],
    codes: &[u32],
    pointer: usize,
) -> u32
    ghost held: { MachineState }
    requires* { sem 𝓛 (machine_at machine held) }
    ensures* { sem 𝓛 (machine_after machine (Defined name.now codes.now pointer held result)) }
{
    define(
        &mut *(machine as *mut Machine<'static>),
        name,
        codes,
        pointer,
    )
}

/// Makes a form of a name, codes and a pointer.
fn define(machine: &mut Machine<'static>, name: &[u8], codes: &[u32], pointer: usize) -> u32
    ensures { Defined name.now codes.now pointer machine.old result machine.new }
{
    match machine.define(name, codes, pointer) {
        Ok(()) => 0,
        Err(_) => REFUSED,
    }
}

/// Makes a form of a name and the characters of a body in the machine at a place, as `trac_engine_define` does,
/// with pointer 0. Gives 0. Gives 9, with nothing changed, if 3 cells, the name and the body don't fit while an
/// older form of that name is still there.
#[unsafe(no_mangle)]
pub unsafe extern "C" fn trac_engine_define_text(machine: *mut u64, name: &[u8], body: &[u8]) -> u32
    ghost held: { MachineState }
    requires* { sem 𝓛 (machine_at machine held) }
    ensures* { sem 𝓛 (machine_after machine (TextDefined name.now body.now held result)) }
{
    define_text(&mut *(machine as *mut Machine<'static>), name, body)
}

/// Makes a form of a name and a text.
fn define_text(machine: &mut Machine<'static>, name: &[u8], body: &[u8]) -> u32
    ensures { TextDefined name.now body.now machine.old result machine.new }
{
    match machine.define_text(name, body) {
        Ok(()) => 0,
        Err(_) => REFUSED,
    }
}

/// Removes the form with this name from the machine at a place. Gives 0. Gives 9, with nothing changed, if no form
/// has the name.
#[unsafe(no_mangle)]
pub unsafe extern "C" fn trac_engine_delete(machine: *mut u64, name: &[u8]) -> u32
    ghost held: { MachineState }
    requires* { sem 𝓛 (machine_at machine held) }
    ensures* { sem 𝓛 (machine_after machine (Deleted name.now held result)) }
{
    delete(&mut *(machine as *mut Machine<'static>), name)
}

/// Removes the form with this name.
fn delete(machine: &mut Machine<'static>, name: &[u8]) -> u32
    ensures { Deleted name.now machine.old result machine.new }
{
    if machine.delete(name) { 0 } else { REFUSED }
}

/// Removes all forms from the machine at a place.
#[unsafe(no_mangle)]
pub unsafe extern "C" fn trac_engine_delete_all(machine: *mut u64)
    ghost held: { MachineState }
    requires* { sem 𝓛 (machine_at machine held) }
    ensures* { sem 𝓛 (machine_at machine (with_forms [] held)) }
{
    delete_all(&mut *(machine as *mut Machine<'static>))
}

/// Removes all forms.
fn delete_all(machine: &mut Machine<'static>)
    ensures { machine.new ≡ with_forms [] machine.old }
{
    machine.delete_all();
}

/// Makes a byte the meta character of the machine at a place. Gives 0. Gives 9, with nothing changed, if the
/// number is no byte.
#[unsafe(no_mangle)]
pub unsafe extern "C" fn trac_engine_set_meta(machine: *mut u64, byte: u32) -> u32
    ghost held: { MachineState }
    requires* { sem 𝓛 (machine_at machine held) }
    ensures* { sem 𝓛 (machine_after machine (MetaSet byte held result)) }
{
    set_meta(&mut *(machine as *mut Machine<'static>), byte)
}

/// Makes a byte the meta character.
fn set_meta(machine: &mut Machine<'static>, byte: u32) -> u32
    ensures { MetaSet byte machine.old result machine.new }
{
    match u8::try_from(byte) {
        Ok(byte) => {
            machine.set_meta(byte);
            0
        }
        Err(_) => REFUSED,
    }
}

/// One more than the place of the form with this name, from 0, in the order of definition, in the machine at a
/// place. 0 if no form has the name.
#[unsafe(no_mangle)]
pub unsafe extern "C" fn trac_engine_find_form(machine: *mut u64, name: &[u8]) -> usize
    ghost held: { MachineState }
    requires* { sem 𝓛 (machine_at machine held) }
    ensures* { sem 𝓛 (machine_at machine held) ∗ ⌜ IsNumberOf name.now held.memory.forms result ⌝ }
{
    find(&*(machine as *const Machine<'static>), name)
}

/// One more than the place of the form with this name, or 0.
fn find(machine: &Machine<'static>, name: &[u8]) -> usize
    ensures { IsNumberOf name.now machine.now.memory.forms result }
{
    match machine.find(name) {
        Some(place) => place as usize + 1,
        None => 0,
    }
}
