//! The functions of the language, as their table has them.
ghost use Rattle.std.specs.Prelude.{◌≡◌, ◌<◌, ℕ, List, [], length, slice_get};
ghost use Rattle.trac_language.specs.Function.{functions};
ghost use Rattle.trac_c.specs.Buffers.{Lays};
ghost use Rattle.trac_c.specs.Functions.{IsTextOf, concerned_number, fact_of, fact_of_entry, given_number};

use crate::filling::lay;
use trac_language::{
    Concerned, Facts, Given, Group, Traits, facts_of, function_at, function_count,
};

/// How many functions there are.
#[unsafe(no_mangle)]
pub extern "C" fn trac_engine_function_count() -> usize
    ensures { result ≡ length functions }
{
    function_count()
}

/// A fact of function `k`, from 0, as a number. What `which` asks: 0 how many arguments it uses behind its name,
/// 2^32 - 1 if all; 1 which forms a call concerns: 0 none, 1 the one that its first argument names, 2 those that its
/// arguments name, 3 all; 2 whether a call does nothing if there is no such form; 3 whether a call can change them; 4
/// what of a form is its value: 0 nothing, 1 all of it from its pointer on, 2 a part; 5 which argument is its default
/// value, 0 if none; 6 whether its value is its third or fourth argument; 7 whether it reads; 8 whether it can print; 9
/// whether it can change the meta character; 10 whether it ends the run. 0 of any other number, and where there is no
/// such function.
#[unsafe(no_mangle)]
pub extern "C" fn trac_engine_function_fact(k: usize, which: u32) -> u32
    ensures { result ≡ fact_of_entry which (slice_get functions k) }
{
    match function_at(k) {
        Some(function) => fact(facts_of(function).traits, which),
        None => 0,
    }
}

/// The length of a text about function `k`, from 0, which goes to the front of `to`, as much of it as fits. What
/// `which` asks: 0 its name; 1 a call of it, with letters for arguments; 2 what its name is short for; 3 a sentence on
/// what it does; 4 the heading under which a manual tells of it. The null text of any other number, and where there is
/// no such function.
#[unsafe(no_mangle)]
pub extern "C" fn trac_engine_function_text(k: usize, which: u32, to: &mut [u8]) -> usize
    ensures { (text : List ℕ) × (IsTextOf which (slice_get functions k) text × Lays text result to.old to.new) }
{
    match function_at(k) {
        Some(function) => lay_text(text(&facts_of(function), which), to),
        None => 0,
    }
}

/// A fact in a number.
fn fact(traits: Traits, which: u32) -> u32
    ensures { result ≡ fact_of which traits }
{
    match which {
        0 => traits.uses.unwrap_or(u32::MAX),
        1 => concerned_number(traits.forms),
        2 => u32::from(traits.needs_form),
        3 => u32::from(traits.changes_forms),
        4 => given_number(traits.gives),
        5 => traits.default.unwrap_or(0),
        6 => u32::from(traits.chooses),
        7 => u32::from(traits.reads),
        8 => u32::from(traits.prints),
        9 => u32::from(traits.changes_meta),
        10 => u32::from(traits.ends),
        _ => 0,
    }
}

/// The number of what forms a call concerns.
fn concerned_number(forms: Concerned) -> u32
    ensures { result ≡ concerned_number forms }
{
    match forms {
        Concerned::Nothing => 0,
        Concerned::First => 1,
        Concerned::Each => 2,
        Concerned::All => 3,
    }
}

/// The number of what of a form a call gives.
fn given_number(gives: Given) -> u32
    ensures { result ≡ given_number gives }
{
    match gives {
        Given::Nothing => 0,
        Given::Body => 1,
        Given::Part => 2,
    }
}

/// A text about a function.
fn text(facts: &Facts, which: u32) -> &'static [u8]
    ensures name { which ≡ 0 → result.now ≡ facts.now.name.now }
    ensures none { 4 < which → result.now ≡ [] }
{
    match which {
        0 => facts.name,
        1 => facts.call,
        2 => facts.title,
        3 => facts.sentence,
        4 => heading(facts.group),
        _ => b"",
    }
}

/// The heading of a group of functions.
fn heading(group: Group) -> &'static [u8] {
    match group {
        Group::Devices => b"Input and output",
        Group::Forms => b"Making and removing forms",
        Group::Calls => b"Calling a form",
        Group::Comparing => b"Comparing",
        Group::Arithmetic => b"Arithmetic",
        Group::Bits => b"Bit strings",
    }
}

/// Puts a text to the front of a buffer, as much of it as fits, and gives its length.
fn lay_text(text: &[u8], room: &mut [u8]) -> usize
    ensures { Lays text.now result room.old room.new }
{
    lay(text, room);
    text.len()
}
