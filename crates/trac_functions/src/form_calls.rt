//! The functions that make, remove and list forms, and that call a whole form: `ds`, `ss`, `ln`,
//! `dd`, `da`, `cl`. If no form has the name N, `ss` and `cl` change nothing and have a null value, which is
//! this processor's own choice.
ghost use Rattle.std.specs.Prelude.{◌≡◌, ◌↔◌, ◌+◌, ◌<◌, ◌≤◌, List, ◌++◌, length, drop};
ghost use Rattle.std.specs.Prelude.{Bool, true, IsTrue, MatchOption};
ghost use Rattle.std.specs.Bool.{OnTrue};
ghost use Rattle.trac_language.specs.declared.function.Function.TheVariants.{DefineString};
ghost use Rattle.trac_language.specs.declared.function.Function.TheVariants.{SegmentString};
ghost use Rattle.trac_language.specs.declared.function.Function.TheVariants.{DeleteDefinition};
ghost use Rattle.trac_language.specs.declared.function.Function.TheVariants.{DeleteAll, ListNames};
ghost use Rattle.trac_language.specs.declared.function.Function.TheVariants.{CallForm};
ghost use Rattle.trac_language.specs.Text.{Text};
ghost use Rattle.trac_language.specs.Store.{NoneNamed};
ghost use Rattle.trac_language.specs.State.{argument};
ghost use Rattle.trac_space.specs.Texts.{flat_text};
ghost use Rattle.trac_forms.specs.Contents.{used, name_at, part_text, IsTextPart, IsNamedAt};
ghost use Rattle.trac_forms.specs.Contents.{IsSound, form_place};
ghost use Rattle.trac_functions.specs.Calls.{AreArguments, texts, Makes, Performs};
ghost use Rattle.trac_functions.specs.Calls.{KeepsRoom};

use crate::arguments::{Arguments, CallResult, put_part};
use trac_forms::{FormId, Work};
use trac_space::Part;

// Up to this many names of `dd` are deleted one by one: to move a form that stays twice in the index
// costs less than to put it in anew.
const DELETED_ONE_BY_ONE: u32 = 2;

/// `da`: all forms are removed (Mooers 1966).
pub fn delete_all(work: &mut Work) -> CallResult
    requires { IsSound work.old }
    ensures makes { (args : List Text) (scanned : Bool) →
        Makes DeleteAll args scanned work.old result work.new }
    ensures unmade { result ≡ CallResult.Full → work.new.forms ≡ work.old.forms }
    ensures keeps { KeepsRoom work.old work.new }
{
    work.delete_all();
    CallResult::AtEnd
}

/// `ds,N,X`: the form N with the characters of X as its body becomes the last, in place of an older
/// form N (Mooers 1966). It takes 3 cells beside its name and its body, while an older one still
/// stands (this processor's own choice).
pub fn define_string(work: &mut Work, mut arguments: Arguments) -> CallResult
    requires { AreArguments work.old arguments }
    ensures makes { Performs DefineString work.old arguments result work.new }
    ensures unmade { result ≡ CallResult.Full → work.new.forms ≡ work.old.forms }
    ensures keeps { KeepsRoom work.old work.new }
{
    let name = arguments.next(work);
    let text = arguments.next(work);
    let cells = 3 + (name.to - name.from) + (text.to - text.from);
    match work.define((name.from, name.to), (text.from, text.to)) {
        Ok(()) => CallResult::Null(cells),
        Err(_) => CallResult::Full,
    }
}

/// `ss,N,X1,X2,..`: each occurrence of X1 in the form N, from the left, becomes a gap of ordinal 1,
/// then each occurrence of X2 in what is left a gap of ordinal 2, and so on (Mooers 1966). The
/// pointer goes to the start, also where no X is given, a null X keeps its ordinal, and earlier
/// gaps stay (this processor's own choice).
pub fn segment_string(work: &mut Work, mut arguments: Arguments) -> CallResult
    requires { AreArguments work.old arguments }
    ensures makes { Performs SegmentString work.old arguments result work.new }
    ensures unmade { result ≡ CallResult.Full → work.new.forms ≡ work.old.forms }
    ensures keeps { KeepsRoom work.old work.new }
{
    let Some(form) = next_form(work, &mut arguments) else {
        return CallResult::AtEnd;
    };
    work.set_pointer(form, 0);
    let mut ordinal = 0;
    while !arguments.is_empty() {
        let part = arguments.next(work);
        ordinal += 1;
        work.segment(form, (part.from, part.to), ordinal);
    }
    CallResult::AtEnd
}

/// `ln,X`: for each form, in the order in which they were defined, X and then its name (Mooers
/// 1966; X before each name is this processor's own choice).
pub fn list_names(work: &mut Work, mut arguments: Arguments) -> CallResult
    requires { AreArguments work.old arguments }
    ensures makes { Performs ListNames work.old arguments result work.new }
    ensures unmade { result ≡ CallResult.Full → work.new.forms ≡ work.old.forms }
    ensures keeps { KeepsRoom work.old work.new }
{
    let before = arguments.next(work);
    for k in 0..work.forms() {
        if let Some(form) = work.form(k) {
            if !put_name(work, before, form) {
                return CallResult::Full;
            }
        }
    }
    CallResult::AtEnd
}

/// Puts a part of the neutral string and then the form's name at its end, if there are cells for
/// both.
fn put_name(work: &mut Work, before: Part, form: FormId) -> bool
    requires part { IsTextPart work.old.neutral before.from before.to }
    requires known { form_place form < length work.old.forms }
    ensures put { let before = part_text work.old.neutral before.from before.to in
        let text = before ++ name_at work.old.forms (form_place form) in
        IsTrue result ↔ (used work.old + length text ≤ work.old.room) }
    ensures last { let before = part_text work.old.neutral before.from before.to in
        let text = before ++ name_at work.old.forms (form_place form) in
        OnTrue result (work.new ≡ record work.old {
          neutral = work.old.neutral ++ flat_text text;
        }) }
    ensures forms { work.new.forms ≡ work.old.forms }
    ensures keeps { KeepsRoom work.old work.new }
{
    if !put_part(work, before) {
        return false;
    }
    work.copy_name(form)
}

/// `dd,N1,N2,..`: the forms of these names are removed (Mooers 1966). A name that no form has is
/// ignored, and only the arguments that are written are names (this processor's own choice).
pub fn delete_definition(work: &mut Work, mut arguments: Arguments) -> CallResult
    requires { AreArguments work.old arguments }
    ensures makes { Performs DeleteDefinition work.old arguments result work.new }
    ensures unmade { result ≡ CallResult.Full → work.new.forms ≡ work.old.forms }
    ensures keeps { KeepsRoom work.old work.new }
{
    for _name in 0..DELETED_ONE_BY_ONE {
        if arguments.is_empty() {
            return CallResult::AtEnd;
        }
        if let Some(form) = next_form(work, &mut arguments) {
            work.delete(form);
        }
    }
    if !arguments.is_empty() {
        work.delete_named(arguments.from, arguments.end);
    }
    CallResult::AtEnd
}

/// `cl,N,X1,X2,..`: the form N from its pointer on, each gap of ordinal k replaced by Xk, or by
/// nothing where that is missing (Mooers 1966). What stands before the pointer is left out, and the
/// pointer stays (this processor's own choice).
#[inline(always)]
pub fn call_form(work: &mut Work, mut arguments: Arguments) -> CallResult
    requires { AreArguments work.old arguments }
    ensures makes { Performs CallForm work.old arguments result work.new }
    ensures unmade { result ≡ CallResult.Full → work.new.forms ≡ work.old.forms }
    ensures keeps { KeepsRoom work.old work.new }
{
    let scanned = arguments.scanned;
    let Some(form) = next_form(work, &mut arguments) else {
        return CallResult::AtEnd;
    };
    let Some(size) = work.load_filled(form, arguments.from, arguments.end) else {
        return CallResult::Full;
    };
    if scanned {
        CallResult::InFront(size)
    } else {
        CallResult::Unscanned(size)
    }
}

/// The form that the next argument names, None if no form has the name.
#[inline(always)]
fn next_form(work: &mut Work, arguments: &mut Arguments) -> Option<FormId>
    requires { AreArguments work.old arguments.old }
    ensures found { let name = argument (texts work.old arguments.old) 0 in
        MatchOption result
        (NoneNamed name work.old.forms)
        (λ form. IsNamedAt work.old.forms name (form_place form)) }
    ensures same { work.new ≡ work.old }
    ensures rest { texts work.old arguments.new ≡ drop 1 (texts work.old arguments.old) }
    ensures left { AreArguments work.old arguments.new }
{
    let name = arguments.next(work);
    work.find(name.from, name.to)
}
