//! The functions that compare: `eq` and `gr`.
ghost use Rattle.std.specs.Prelude.{◌≡◌};
ghost use Rattle.trac_language.specs.declared.function.Function.TheVariants.{Equal, Greater};
ghost use Rattle.trac_functions.specs.Calls.{AreArguments, Performs};
ghost use Rattle.trac_functions.specs.Calls.{KeepsRoom};

use crate::arguments::{Arguments, CallResult, give, text};
use trac_forms::Work;

/// `eq,A,B,X,Y`: X where A and B are the same text, else Y (Mooers 1966).
pub fn equal(work: &mut Work, mut arguments: Arguments) -> CallResult
    requires { AreArguments work.old arguments }
    ensures makes { Performs Equal work.old arguments result work.new }
    ensures unmade { result ≡ CallResult.Full → work.new.forms ≡ work.old.forms }
    ensures keeps { KeepsRoom work.old work.new }
{
    let scanned = arguments.scanned;
    let first = arguments.next(work);
    let second = arguments.next(work);
    let same = arguments.next(work);
    let other = arguments.next(work);
    let value = if trac_values::equal(text(work, first), text(work, second)) {
        same
    } else {
        other
    };
    give(work, value, scanned)
}

/// `gr,N1,N2,X,Y`: X where the number of N1 is greater than that of N2, else Y (Mooers 1966). That
/// the numbers may have any length is this processor's own choice.
pub fn greater(work: &mut Work, mut arguments: Arguments) -> CallResult
    requires { AreArguments work.old arguments }
    ensures makes { Performs Greater work.old arguments result work.new }
    ensures unmade { result ≡ CallResult.Full → work.new.forms ≡ work.old.forms }
    ensures keeps { KeepsRoom work.old work.new }
{
    let scanned = arguments.scanned;
    let first = arguments.next(work);
    let second = arguments.next(work);
    let larger = arguments.next(work);
    let other = arguments.next(work);
    let value = if trac_values::greater(text(work, first), text(work, second)) {
        larger
    } else {
        other
    };
    give(work, value, scanned)
}
