//! Warnings that others explain, since one mistake causes them all. That these aren't told is this processor's own
//! choice.
ghost use Rattle.std.specs.Prelude.{◌≡◌};
ghost use Rattle.trac_warnings.specs.Explained.{is_explained, is_explained_so, no_cause, with_cause};
ghost use Rattle.trac_warnings.specs.Watched.{said};

use crate::warning::{Suspicion, Warning};
use std::alloc::Allocator;

/// Which kinds of warnings were found that explain others.
#[derive(Clone, Copy, Debug, PartialEq, Eq)]
pub struct Causes {
    /// A meta character inside a word ended a string inside parentheses. What stands behind it is scanned as another
    /// string, so calls stay open, parentheses have no match, forms are missing and arguments are ignored.
    end_inside: bool,
    /// A parenthesis was left open at the end of a string, so the call around it was not performed: forms are missing.
    left_open: bool,
    /// No call begins at a colon, a blank or a parenthesis without a number sign: forms are missing, and a call inside
    /// it may be printed.
    no_call: bool,
    /// No call begins at a square bracket: forms are missing, commas behind it begin arguments of another call, and a
    /// call inside it may be printed.
    bracket: bool,
    /// Another byte than the apostrophe seems to end the strings, so one has no end.
    other_meta: bool,
    /// A form's name was written with blanks around it, so the form has no gaps.
    blank_in_name: bool,
    /// A gap stands in the name of a call in a form, so no function has that name.
    gap_in_name: bool,
}

impl Causes {
    /// No kind of warning.
    pub fn none() -> Causes
        ensures { result ≡ no_cause }
    {
        Causes {
            end_inside: false,
            left_open: false,
            no_call: false,
            bracket: false,
            other_meta: false,
            blank_in_name: false,
            gap_in_name: false,
        }
    }

    /// These kinds and that of another warning.
    pub fn with(self, suspicion: Suspicion) -> Causes
        ensures { result ≡ with_cause suspicion self }
    {
        match suspicion {
            Suspicion::EndInside => Causes {
                end_inside: true,
                ..self
            },
            Suspicion::OpenCall | Suspicion::Protection | Suspicion::Dropped => Causes {
                left_open: true,
                ..self
            },
            Suspicion::Colon | Suspicion::Blank | Suspicion::NoNumberSign => Causes {
                no_call: true,
                ..self
            },
            Suspicion::Bracket => Causes {
                bracket: true,
                ..self
            },
            Suspicion::OtherMeta => Causes {
                other_meta: true,
                ..self
            },
            Suspicion::BlankInName => Causes {
                blank_in_name: true,
                ..self
            },
            Suspicion::GapInName => Causes {
                gap_in_name: true,
                ..self
            },
            _ => self,
        }
    }

    /// Whether a warning comes from a mistake of which another warning was found: of one of these kinds.
    pub fn explain<A: Allocator>(self, warning: &Warning<A>) -> bool
        ensures { result ≡ is_explained self (said warning.now) }
    {
        self.explain_so(warning.origin.form.is_some(), warning.suspicion)
    }

    // Whether a warning of a place in a value, or of one in the input, is explained.
    fn explain_so(self, is_in_value: bool, suspicion: Suspicion) -> bool
        ensures { result ≡ is_explained_so self is_in_value suspicion }
    {
        match suspicion {
            Suspicion::OpenCall | Suspicion::Protection | Suspicion::Dropped => self.end_inside,
            Suspicion::NoCall => self.end_inside || self.left_open,
            Suspicion::NoForm => {
                self.end_inside || self.left_open || self.no_call || self.bracket
            }
            Suspicion::Ignored => self.end_inside || self.bracket,
            Suspicion::CallPrinted => self.no_call || self.bracket,
            Suspicion::OpenString => self.other_meta,
            Suspicion::NoGap => self.blank_in_name,
            Suspicion::NoFunction => self.gap_in_name && is_in_value,
            _ => false,
        }
    }
}
