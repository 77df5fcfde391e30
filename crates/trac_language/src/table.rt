//! The table of functions: one row each, with what the rest of the program needs to know about it. That the rows are
//! true of what the functions mean is proved in `trac_laws`.
ghost use Rattle.std.specs.Prelude.{◌≡◌, ◌∷◌, [], Some, length, option_map, slice_get};
ghost use Rattle.trac_language.specs.Function.{function_named, functions, look_up};
ghost use Rattle.trac_language.specs.Table.{name_of, traits};

use crate::arith::Arith;
use crate::function::Function;
use rows::{
    ADD, CALL_CHARACTER, CALL_FORM, CALL_NUMBER, CALL_RESTORE, CALL_SEGMENT, CHANGE_META,
    COMPLEMENT, DEFINE_STRING, DELETE_ALL, DELETE_DEFINITION, DIVIDE, EQUAL, GREATER, HALT,
    INITIAL_PART, INTERSECTION, LIST_NAMES, MULTIPLY, PRINT_FORM, PRINT_STRING, READ_CHARACTER,
    READ_STRING, ROTATE, SEGMENT_STRING, SHIFT, SUBTRACT, UNION,
};

mod rows;

/// The heading under which a manual describes a function.
#[derive(Clone, Copy, Debug, PartialEq, Eq)]
pub enum Group {
    /// Input and output, the meta character and the end of a run.
    Devices,
    /// Making and removing forms.
    Forms,
    /// Calling a form.
    Calls,
    /// Comparing.
    Comparing,
    /// Arithmetic.
    Arithmetic,
    /// Bit strings.
    Bits,
}

/// The forms that a call concerns.
#[derive(Clone, Copy, Debug, PartialEq, Eq)]
pub enum Concerned {
    /// None.
    Nothing,
    /// The form that the first argument behind the function's name names.
    First,
    /// The forms that the arguments behind the function's name name.
    Each,
    /// All forms.
    All,
}

/// How much of the form that it names is the value of a call.
#[derive(Clone, Copy, Debug, PartialEq, Eq)]
pub enum Given {
    /// Nothing.
    Nothing,
    /// All of it from its pointer on.
    Body,
    /// A part of it, by which its pointer moves.
    Part,
}

/// What holds for every call of a function: how it uses its arguments, and what of the machine it can change.
#[derive(Clone, Copy)]
pub struct Traits {
    /// How many arguments behind its name it uses. None if it uses all of them.
    pub uses: Option<u32>,
    /// The forms that a call concerns.
    pub forms: Concerned,
    /// Whether a call does nothing if no form has the name that its first argument is.
    pub needs_form: bool,
    /// Whether a call can make, change or remove the forms that it concerns.
    pub changes_forms: bool,
    /// What of a form is its value.
    pub gives: Given,
    /// Which argument behind its name is its default value. None if it has no default value.
    pub default: Option<u32>,
    /// Whether its value is its third or its fourth argument.
    pub chooses: bool,
    /// Whether it reads.
    pub reads: bool,
    /// Whether it can print.
    pub prints: bool,
    /// Whether it can change the meta character.
    pub changes_meta: bool,
    /// Whether it ends the run.
    pub ends: bool,
}

/// A row of the table. The words for people are ASCII.
#[derive(Clone, Copy)]
pub struct Facts {
    /// The name, in letters of lower case.
    pub name: &'static [u8],
    /// A call of it without the marks, its arguments by letters: N names a form, X is a text, A and B are compared or
    /// computed with, D is a number, and Z is the default value.
    pub call: &'static [u8],
    /// What the name is short for.
    pub title: &'static [u8],
    /// What it does, in one sentence that speaks of the letters of `call`.
    pub sentence: &'static [u8],
    /// The heading under which a manual describes it.
    pub group: Group,
    /// What holds for each of its calls.
    pub traits: Traits,
}

// All functions, in the order of the definition's list.
const FUNCTIONS: [Function; 28] = [
    Function::ReadString,
    Function::ReadCharacter,
    Function::ChangeMeta,
    Function::PrintString,
    Function::Halt,
    Function::DefineString,
    Function::SegmentString,
    Function::DeleteDefinition,
    Function::DeleteAll,
    Function::ListNames,
    Function::PrintForm,
    Function::CallForm,
    Function::CallSegment,
    Function::CallCharacter,
    Function::CallNumber,
    Function::InitialPart,
    Function::CallRestore,
    Function::Equal,
    Function::Greater,
    Function::Arithmetic(Arith::Add),
    Function::Arithmetic(Arith::Subtract),
    Function::Arithmetic(Arith::Multiply),
    Function::Arithmetic(Arith::Divide),
    Function::Union,
    Function::Intersection,
    Function::Complement,
    Function::Shift,
    Function::Rotate,
];

/// How many functions there are.
pub fn function_count() -> usize
    ensures { result ≡ length functions }
{
    FUNCTIONS.len()
}

/// Function `k`, from 0. None if there are fewer.
pub fn function_at(k: usize) -> Option<Function>
    ensures { result ≡ option_map (λ entry. entry.1) (slice_get functions k) }
{
    if k < FUNCTIONS.len() {
        Some(FUNCTIONS[k])
    } else {
        None
    }
}

/// The function whose name has these two characters, letters in lower case. None if there is none.
#[inline(always)]
pub fn function_named(first: u8, second: u8) -> Option<Function>
    ensures { result ≡ look_up (first ∷ second ∷ []) functions }
{
    match (first, second) {
        (b'r', b's') => Some(Function::ReadString),
        (b'r', b'c') => Some(Function::ReadCharacter),
        (b'c', b'm') => Some(Function::ChangeMeta),
        (b'p', b's') => Some(Function::PrintString),
        (b'h', b'l') => Some(Function::Halt),
        (b'd', b's') => Some(Function::DefineString),
        (b's', b's') => Some(Function::SegmentString),
        (b'd', b'd') => Some(Function::DeleteDefinition),
        (b'd', b'a') => Some(Function::DeleteAll),
        (b'l', b'n') => Some(Function::ListNames),
        (b'p', b'f') => Some(Function::PrintForm),
        (b'c', b'l') => Some(Function::CallForm),
        (b'c', b's') => Some(Function::CallSegment),
        (b'c', b'c') => Some(Function::CallCharacter),
        (b'c', b'n') => Some(Function::CallNumber),
        (b'i', b'n') => Some(Function::InitialPart),
        (b'c', b'r') => Some(Function::CallRestore),
        (b'e', b'q') => Some(Function::Equal),
        (b'g', b'r') => Some(Function::Greater),
        (b'a', b'd') => Some(Function::Arithmetic(Arith::Add)),
        (b's', b'u') => Some(Function::Arithmetic(Arith::Subtract)),
        (b'm', b'l') => Some(Function::Arithmetic(Arith::Multiply)),
        (b'd', b'v') => Some(Function::Arithmetic(Arith::Divide)),
        (b'b', b'u') => Some(Function::Union),
        (b'b', b'i') => Some(Function::Intersection),
        (b'b', b'c') => Some(Function::Complement),
        (b'b', b's') => Some(Function::Shift),
        (b'b', b'r') => Some(Function::Rotate),
        _ => None,
    }
}

// The row of a function, or a field of it. `$arithmetic` is that of an operation of arithmetic.
macro_rules! row_of {
    ($function:ident, $operation:ident => $arithmetic:expr $(, $field:ident)?) => {
        match $function {
            Function::ReadString => READ_STRING$(.$field)?,
            Function::ReadCharacter => READ_CHARACTER$(.$field)?,
            Function::ChangeMeta => CHANGE_META$(.$field)?,
            Function::PrintString => PRINT_STRING$(.$field)?,
            Function::Halt => HALT$(.$field)?,
            Function::DefineString => DEFINE_STRING$(.$field)?,
            Function::SegmentString => SEGMENT_STRING$(.$field)?,
            Function::DeleteDefinition => DELETE_DEFINITION$(.$field)?,
            Function::DeleteAll => DELETE_ALL$(.$field)?,
            Function::ListNames => LIST_NAMES$(.$field)?,
            Function::PrintForm => PRINT_FORM$(.$field)?,
            Function::CallForm => CALL_FORM$(.$field)?,
            Function::CallSegment => CALL_SEGMENT$(.$field)?,
            Function::CallCharacter => CALL_CHARACTER$(.$field)?,
            Function::CallNumber => CALL_NUMBER$(.$field)?,
            Function::InitialPart => INITIAL_PART$(.$field)?,
            Function::CallRestore => CALL_RESTORE$(.$field)?,
            Function::Equal => EQUAL$(.$field)?,
            Function::Greater => GREATER$(.$field)?,
            Function::Arithmetic($operation) => $arithmetic,
            Function::Union => UNION$(.$field)?,
            Function::Intersection => INTERSECTION$(.$field)?,
            Function::Complement => COMPLEMENT$(.$field)?,
            Function::Shift => SHIFT$(.$field)?,
            Function::Rotate => ROTATE$(.$field)?,
        }
    };
}

/// The row of a function.
#[tactic(auto, using(crate::proofs::Named::named))]
pub fn facts_of(function: Function) -> Facts
    ensures name { result.name.now ≡ name_of function }
    ensures named { function_named result.name.now ≡ Some function }
    ensures traits { result.traits ≡ traits function }
{
    row(function)
}

/// What holds for every call of a function, as its row says. It costs less than the row.
pub fn traits_of(function: Function) -> Traits
    ensures { result ≡ traits function }
{
    row_of!(function, operation => arithmetic(operation).traits, traits)
}

// The row of a function.
#[inline(always)]
fn row(function: Function) -> Facts
    ensures name { result.name.now ≡ name_of function }
    ensures traits { result.traits ≡ traits function }
{
    row_of!(function, operation => arithmetic(operation))
}

// The row of an operation of arithmetic.
#[inline(always)]
fn arithmetic(operation: Arith) -> Facts
    ensures name { result.name.now ≡ name_of (Function.Arithmetic operation) }
    ensures traits { result.traits ≡ traits (Function.Arithmetic operation) }
{
    match operation {
        Arith::Add => ADD,
        Arith::Subtract => SUBTRACT,
        Arith::Multiply => MULTIPLY,
        Arith::Divide => DIVIDE,
    }
}
