//! Images of the forms of a machine that C keeps.
ghost use Rattle.trac_core.specs.Machine.{MachineState};
ghost use Rattle.trac_image.specs.Image.{image_of};
ghost use Rattle.trac_c.specs.Buffers.{Lays};
ghost use Rattle.trac_c.specs.Images.{Loaded};
ghost use Rattle.trac_c.specs.Machines.{machine_at, machine_after};
ghost use types.Logic.{sem};

use crate::report::REFUSED;
use trac_core::Machine;

/// Gives the length of the image of the forms and the meta character of the machine at a place, in bytes; as much of
/// the image as fits goes to the front of `to`.
#[unsafe(no_mangle)]
pub unsafe extern "C" fn trac_engine_save(machine: *mut u64, to: &mut [u8]) -> usize
    ghost held: { MachineState }
    requires* { sem 𝓛 (machine_at machine held) }
    ensures* { sem 𝓛 (machine_at machine held) ∗
        ⌜ Lays (image_of held.memory.forms held.memory.meta) result to.old to.new ⌝ }
{
    lay_image(&*(machine as *const Machine<'static>), to)
}

/// Puts the image of the forms and the meta character.
fn lay_image(machine: &Machine<'static>, to: &mut [u8]) -> usize
    ensures { let memory = machine.now.memory in
        Lays (image_of memory.forms memory.meta) result to.old to.new }
{
    trac_image::save(machine, to)
}

/// Takes an image into the machine at a place: its forms and its meta character stand in the place of the machine's
/// own. Gives 0. Gives 9, with nothing changed, if the bytes are the image of no forms that can stand in this machine.
#[unsafe(no_mangle)]
pub unsafe extern "C" fn trac_engine_load(machine: *mut u64, image: &[u8]) -> u32
    ghost held: { MachineState }
    requires* { sem 𝓛 (machine_at machine held) }
    ensures* { sem 𝓛 (machine_after machine (Loaded image.now held result)) }
{
    take_image(&mut *(machine as *mut Machine<'static>), image)
}

/// Takes an image.
fn take_image(machine: &mut Machine<'static>, image: &[u8]) -> u32
    ensures { Loaded image.now machine.old result machine.new }
{
    match trac_image::load(machine, image) {
        Ok(()) => 0,
        Err(_) => REFUSED,
    }
}
