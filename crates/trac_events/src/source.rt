//! Where the value of a call comes from.
ghost use Rattle.std.specs.Prelude.{◌≡◌, ◌≤◌, All, if◌then◌else◌, length};
ghost use Rattle.trac_language.specs.State.{argument, size};
ghost use Rattle.trac_space.specs.Texts.{IsByte, text_of_cells};
ghost use Rattle.trac_core.specs.OpenCalls.{next_texts};
ghost use Rattle.trac_events.specs.Sources.{ValuesComeFrom, function_source, next_source, of_named_form};
ghost use Rattle.trac_events.specs.Sources.{part_source};

use crate::change::is_same;
use trac_core::Machine;
use trac_core::values::{count_of, greater, result_of, tail_number};
use trac_language::{Arith, Function};
use trac_space::Cell;

// The most cells that a block can have.
const MOST_CELLS: u32 = 16_777_216;

/// A part of a form as the value of a call: the characters that the form's pointer passes over in the step, forward or
/// backward.
#[derive(Clone, Copy, Debug, PartialEq, Eq)]
pub struct TakenPart {
    /// How many of the items that the pointer passes over at last are no part of the value: those of the text that `in`
    /// looks for.
    pub sought: u32,
    /// The number of the argument that is the value if the pointer stays.
    pub default: u32,
}

/// Where the value of a call comes from.
#[derive(Clone, Copy, Debug, PartialEq, Eq)]
pub enum ValueSource {
    /// The value is null, or the call ends the run.
    Nothing,
    /// An argument of the call by its number, the name being argument 0.
    Argument(u32),
    /// The form that the call names: all items from its pointer on, with the arguments in its gaps.
    Body,
    /// The form that the call names: the part that its pointer passes over, or the default value.
    Part(TakenPart),
    /// The input.
    Input,
    /// The function makes the value: a number, a bit string or a list of names.
    Made,
}

impl ValueSource {
    /// The source of the value of the call that the next step performs; nothing if it performs no call, and if no
    /// function has the name. The functions are Mooers' (1966); that a host can ask is this processor's own choice.
    pub fn of_next(machine: &Machine) -> ValueSource
        ensures { size machine.now.memory ≤ 16777216 → result ≡ next_source machine.now }
    {
        match machine.next_function() {
            Some(function) if machine.size() <= MOST_CELLS => source_of(machine, function),
            _ => ValueSource::Nothing,
        }
    }
}

// The source of the value of the call of a function that the next step performs.
fn source_of(machine: &Machine, function: Function) -> ValueSource
    requires { size machine.now.memory ≤ 16777216 }
    ensures { result ≡ function_source function (next_texts machine.now) machine.now.memory.forms }
{
    match function {
        Function::ReadString | Function::ReadCharacter => ValueSource::Input,
        Function::CallForm => of_named_form(machine, ValueSource::Body),
        Function::CallSegment | Function::CallCharacter => {
            of_named_form(machine, part_source(0, 2))
        }
        Function::CallNumber => number_source(machine),
        Function::InitialPart => initial_source(machine),
        Function::Equal => equal_source(machine),
        Function::Greater => greater_source(machine),
        Function::Arithmetic(operation) => arithmetic_source(machine, operation),
        Function::ListNames
        | Function::Union
        | Function::Intersection
        | Function::Complement
        | Function::Shift
        | Function::Rotate => ValueSource::Made,
        Function::ChangeMeta
        | Function::PrintString
        | Function::Halt
        | Function::DefineString
        | Function::SegmentString
        | Function::DeleteDefinition
        | Function::DeleteAll
        | Function::PrintForm
        | Function::CallRestore => ValueSource::Nothing,
    }
}

// An argument of the call that the next step performs, the name being argument 0. Null if there is no such argument.
fn next_argument<'m>(machine: &'m Machine, which: u32) -> &'m [Cell]
    ensures argument { text_of_cells result.now ≡ argument (next_texts machine.now) which }
    ensures bytes { All IsByte result.now }
    ensures few { size machine.now.memory ≤ 16777216 → length result.now ≤ 16777216 }
{
    match machine.argument(which) {
        Some(text) => text,
        None => &[],
    }
}

// A source that the call has if there is the form that it names.
fn of_named_form(machine: &Machine, source: ValueSource) -> ValueSource
    ensures { result ≡ of_named_form (next_texts machine.now) machine.now.memory.forms source }
{
    match machine.form_named(next_argument(machine, 1)) {
        Some(_) => source,
        None => ValueSource::Nothing,
    }
}

// A part of a form, less the items sought, or the argument that is the default value.
fn part_source(sought: u32, default: u32) -> ValueSource
    ensures { result ≡ part_source sought default }
{
    ValueSource::Part(TakenPart { sought, default })
}

// The third argument or the fourth.
fn chosen(third: bool) -> ValueSource
    ensures { result ≡ (if third then ValueSource.Argument 3 else ValueSource.Argument 4) }
{
    ValueSource::Argument(if third { 3 } else { 4 })
}

// The source of the value of `cn`. For 0 characters the value is null.
fn number_source(machine: &Machine) -> ValueSource
    ensures { result ≡
        function_source Function.CallNumber (next_texts machine.now) machine.now.memory.forms }
{
    if count_of(next_argument(machine, 2)).size == 0 {
        ValueSource::Nothing
    } else {
        of_named_form(machine, part_source(0, 3))
    }
}

// The source of the value of `in`. For a null text the value is null.
fn initial_source(machine: &Machine) -> ValueSource
    requires { size machine.now.memory ≤ 16777216 }
    ensures { result ≡
        function_source Function.InitialPart (next_texts machine.now) machine.now.memory.forms }
{
    let sought = next_argument(machine, 2).len() as u32;
    if sought == 0 {
        ValueSource::Nothing
    } else {
        of_named_form(machine, part_source(sought, 3))
    }
}

// The source of the value of `eq`.
fn equal_source(machine: &Machine) -> ValueSource
    ensures { result ≡
        function_source Function.Equal (next_texts machine.now) machine.now.memory.forms }
{
    chosen(is_same(next_argument(machine, 1), next_argument(machine, 2)))
}

// The source of the value of `gr`.
fn greater_source(machine: &Machine) -> ValueSource
    requires { size machine.now.memory ≤ 16777216 }
    ensures { result ≡
        function_source Function.Greater (next_texts machine.now) machine.now.memory.forms }
{
    chosen(greater(next_argument(machine, 1), next_argument(machine, 2)))
}

// The source of the value of arithmetic.
fn arithmetic_source(machine: &Machine, operation: Arith) -> ValueSource
    requires { size machine.now.memory ≤ 16777216 }
    ensures { let function = Function.Arithmetic operation in
        result ≡ function_source function (next_texts machine.now) machine.now.memory.forms }
{
    let left = tail_number(next_argument(machine, 1)).value;
    let right = tail_number(next_argument(machine, 2)).value;
    match result_of(operation, left, right) {
        Some(_) => ValueSource::Made,
        None => ValueSource::Argument(3),
    }
}

/// The value of each call comes from its source. Proves this and does nothing.
pub fn values_come_from()
    ensures { ValuesComeFrom }
{}
