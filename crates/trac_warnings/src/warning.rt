//! Warnings, and where what they warn of was written.
ghost use Rattle.std.specs.Prelude.{◌≡◌, false, MatchOption};
ghost use Rattle.trac_warnings.specs.Suspicions.{is_on_call, is_on_form, is_on_writing, sentence_of};

use crate::origin::Origin;
use std::alloc::Allocator;

/// What is suspicious.
#[derive(Clone, Copy, Debug, PartialEq, Eq, PartialOrd, Ord)]
pub enum Suspicion {
    /// The bytes of a byte order mark before the script.
    Mark,
    /// No apostrophe in the whole script, which another byte seems to end.
    OtherMeta,
    /// Numbers at the heads of lines.
    LineNumbers,
    /// A colon before a left parenthesis.
    Colon,
    /// A blank between a number sign and a left parenthesis.
    Blank,
    /// A square bracket behind a number sign.
    Bracket,
    /// The name of a function behind a left parenthesis that has no number sign.
    NoNumberSign,
    /// A call whose name is no function.
    NoFunction,
    /// A call in the script that was never performed, whose name is no function and probably should be one.
    Misspelled,
    /// A call whose name is no function, and is that of a form.
    FormAsFunction,
    /// A call whose name is a function of the language that this processor leaves out.
    LeftOut,
    /// A call that needs a form, of a name that no form has.
    NoForm,
    /// A call that needs a form, of a name that a form has without the blanks and line ends at its ends.
    BlankInName,
    /// An argument of the call that its function ignores.
    Ignored,
    /// A call of arithmetic that has no result, and no default value.
    NoResult,
    /// A text without digits that is taken for a number.
    NoDigits,
    /// A text without digits that is taken for a number, and is the name of a form.
    FormAsNumber,
    /// A comma between digits of a number, which parts it into two arguments.
    CommaInNumber,
    /// A text that is taken for a number, and has digits that don't stand at its end.
    DigitsInside,
    /// A call for a part of a form of which nothing is left, without a default value.
    NothingLeft,
    /// A call of `in` for a text that doesn't stand in what is left of the form, without a default value.
    NothingFound,
    /// A call of `cl` for a form of which nothing is left.
    AllTaken,
    /// A call of `eq` whose sides are the same but for the blanks and line ends at their ends.
    BlankInSide,
    /// A call of `eq` whose sides are the same but for capitals and small letters.
    LetterInSide,
    /// A call of `hl` in an argument of another call, which is then never performed.
    HaltInside,
    /// A call that reads in a default value that isn't protected, so that it always reads.
    ReadsAlways,
    /// A call that prints or changes forms in a branch or a default value that isn't protected, so that it is always
    /// performed.
    ActsAlways,
    /// A call that is printed, and isn't performed.
    CallPrinted,
    /// A call of `cm` that makes a character of a line end the meta character, where lines end with two characters.
    LineEndAsMeta,
    /// A text of `ss` that also stands in the name of a call in the form.
    GapInName,
    /// A text of `ss` that stands in the form as a word, and also inside longer words.
    GapInWord,
    /// A text of `ss` that stands nowhere in the form.
    NotInForm,
    /// A text of `ss` that stands in the form only in other letters, capitals for small ones or small ones for
    /// capitals.
    InOtherLetters,
    /// An argument of `cl` for which the form has no gap.
    NoGap,
    /// A call of `cl` that gives fewer arguments than the form has gaps.
    FewArguments,
    /// A right parenthesis of a string that ends no call of that string.
    NoCall,
    /// A call that is still open where its string ended.
    OpenCall,
    /// A left parenthesis that has no match in its string: a later one is taken for it.
    Protection,
    /// A left parenthesis that has no match at all, so that all behind it is dropped.
    Dropped,
    /// The meta character between two letters that ends a string inside parentheses: it seems to belong to a text.
    EndInside,
    /// A string at the end of the input that no meta character ends.
    OpenString,
    /// A typographic apostrophe at the end of the input, behind which no meta character ends the string.
    CurlyEnd,
    /// The character at which a fault ended the run.
    RunEnded,
    /// The character at which a fault ended the run, where one form was called often before.
    EndedCalling,
    /// A call that was open when a fault ended the run.
    OpenAtEnd,
}

/// A warning. Warnings are in the order of their places.
#[derive(Drop)]
#[derive_where(Debug, PartialEq, Eq, PartialOrd, Ord)]
pub struct Warning<A: Allocator> {
    /// Where the name, the text or the character that it warns of was written.
    pub origin: Origin,
    pub suspicion: Suspicion,
    /// How many characters it warns of, 0 if none.
    pub count: usize,
    /// The name or the text that it warns of, null if there is none.
    pub text: Vec<u8, A>,
}

impl Suspicion {
    /// The words of the warning, before the name, the text or the number.
    pub fn sentence(self) -> &'static [u8]
        ensures { result.now ≡ sentence_of self }
    {
        if let Some(words) = self.on_writing() {
            return words;
        }
        if let Some(words) = self.on_call() {
            return words;
        }
        if let Some(words) = self.on_form() {
            return words;
        }
        match self {
            Suspicion::NoCall => b"a right parenthesis ends no call of its string",
            Suspicion::OpenCall => b"a call is still open where its string ends",
            Suspicion::Protection => b"a left parenthesis has no match in its string",
            Suspicion::Dropped => b"a left parenthesis has no match; characters dropped: ",
            Suspicion::EndInside => b"the meta character ends the string inside parentheses",
            Suspicion::OpenString => b"no meta character ends the string",
            Suspicion::CurlyEnd => b"a typographic apostrophe ends no string; write ' for it",
            Suspicion::RunEnded => b"the run ended here",
            Suspicion::EndedCalling => b"the run ended here; the form ",
            _ => b"this call was open when the run ended",
        }
    }

    // The words on how a script is written. None if the warning isn't about that.
    fn on_writing(self) -> Option<&'static [u8]>
        ensures { MatchOption result
            (is_on_writing self ≡ false)
            (λ words. words.now ≡ sentence_of self) }
    {
        let words: &'static [u8] = match self {
            Suspicion::Mark => b"a byte order mark stands before the script",
            Suspicion::OtherMeta => {
                b"no apostrophe ends a string; where this byte is to end it, write #(cm,X)' first: "
            }
            Suspicion::LineNumbers => b"numbers stand at the heads of lines, and are text here",
            Suspicion::Colon => b":( begins no call; write #( or ##(",
            Suspicion::Blank => b"a blank behind a number sign: no call begins here",
            Suspicion::Bracket => b"#[ begins no call; write #(",
            Suspicion::NoNumberSign => {
                b"no number sign stands before the parenthesis, so this is no call of "
            }
            _ => return None,
        };
        Some(words)
    }

    // The words on what a call calls, takes notice of, computes, compares or prints. None if the warning isn't about
    // that.
    fn on_call(self) -> Option<&'static [u8]>
        ensures { MatchOption result
            (is_on_call self ≡ false)
            (λ words. words.now ≡ sentence_of self) }
    {
        let words: &'static [u8] = match self {
            Suspicion::NoFunction | Suspicion::Misspelled => b"no function has the name ",
            Suspicion::FormAsFunction => b"no function has this name, but a form has; write #(cl,",
            Suspicion::LeftOut => b"this processor leaves out the function ",
            Suspicion::Ignored => b"the function takes no notice of the argument ",
            Suspicion::NoResult => b"there is no result, and no default value is given: ",
            Suspicion::NoDigits => b"a text without digits stands for the number 0: ",
            Suspicion::FormAsNumber => {
                b"this text is no number, but a form has the name; write #(cl,"
            }
            Suspicion::CommaInNumber => b"digits behind a comma are another argument, here of ",
            Suspicion::DigitsInside => b"only the digits at the end of a text are its number: ",
            Suspicion::BlankInSide => {
                b"the sides of eq differ only by blanks or line ends around them: "
            }
            Suspicion::LetterInSide => {
                b"the sides of eq differ only in capitals and small letters: "
            }
            Suspicion::HaltInside => {
                b"hl ends the run before the call around it is performed, which is of "
            }
            Suspicion::ReadsAlways => {
                b"what isn't protected always reads, here in a default value of "
            }
            Suspicion::ActsAlways => {
                b"what isn't protected is always performed, here in an argument of "
            }
            Suspicion::CallPrinted => b"a call is printed here and not performed, of ",
            Suspicion::LineEndAsMeta => {
                b"lines end with CR and LF, of which one becomes the meta character: "
            }
            _ => return None,
        };
        Some(words)
    }

    // The words on the form that a call names. None if the warning isn't about that.
    fn on_form(self) -> Option<&'static [u8]>
        ensures { MatchOption result
            (is_on_form self ≡ false)
            (λ words. words.now ≡ sentence_of self) }
    {
        let words: &'static [u8] = match self {
            Suspicion::NoForm => b"no form has the name ",
            Suspicion::BlankInName => {
                b"no form has this name, but one has it without the blanks or line ends around it: "
            }
            Suspicion::NothingLeft => {
                b"nothing is left, and no default value is given, of the form "
            }
            Suspicion::NothingFound => {
                b"nothing is found, and no default value is given, in the form "
            }
            Suspicion::AllTaken => b"nothing is left of the form; to begin it again, write #(cr,",
            Suspicion::GapInName => b"a text of ss also stands in the name of a call: ",
            Suspicion::GapInWord => b"a text of ss also stands inside longer words: ",
            Suspicion::NotInForm => b"this text stands nowhere in the form ",
            Suspicion::InOtherLetters => {
                b"this text stands only in other letters (capitals or small) in the form "
            }
            Suspicion::NoGap => b"no gap is there for this argument in the form ",
            Suspicion::FewArguments => b"fewer arguments than gaps: ",
            _ => return None,
        };
        Some(words)
    }
}
