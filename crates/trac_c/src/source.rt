//! Where the value of the next call comes from, in numbers.
ghost use Rattle.std.specs.Prelude.{◌≡◌, ◌≤◌};
ghost use Rattle.trac_language.specs.State.{size};
ghost use Rattle.trac_events.specs.Sources.{next_source};
ghost use Rattle.trac_c.specs.Sources.{kind_number, source_argument, source_number, source_sought};

use trac_core::Machine;
use trac_events::ValueSource;

/// A number of the source of the value of the call that the next step performs.
pub(crate) fn next_source(machine: &Machine<'static>, which: u32) -> usize
    ensures { size machine.now.memory ≤ 16777216 →
        result ≡ source_number which (next_source machine.now) }
{
    source_number(ValueSource::of_next(machine), which) as usize
}

/// A number of a source.
fn source_number(source: ValueSource, which: u32) -> u32
    ensures { result ≡ source_number which source }
{
    match which {
        0 => kind_number(source),
        1 => source_argument(source),
        2 => source_sought(source),
        _ => 0,
    }
}

/// The kind of a source as a number.
fn kind_number(source: ValueSource) -> u32
    ensures { result ≡ kind_number source }
{
    match source {
        ValueSource::Nothing => 0,
        ValueSource::Argument(_) => 1,
        ValueSource::Body => 2,
        ValueSource::Part(_) => 3,
        ValueSource::Input => 4,
        ValueSource::Made => 5,
    }
}

/// The number of the argument that is the value, or is the value if the pointer stays; 0 if there is none.
fn source_argument(source: ValueSource) -> u32
    ensures { result ≡ source_argument source }
{
    match source {
        ValueSource::Argument(which) => which,
        ValueSource::Part(part) => part.default,
        _ => 0,
    }
}

/// How many of the items that the pointer passes over at last are no part of the value.
fn source_sought(source: ValueSource) -> u32
    ensures { result ≡ source_sought source }
{
    match source {
        ValueSource::Part(part) => part.sought,
        _ => 0,
    }
}
