//! That functions of the host leave the language as it is. The crate exists for the prover alone: no program stands on
//! it.
#![tactic(auto)]

ghost use Rattle.trac_host_laws.specs.NullAnswers.{NullAnswersChangeNothing};

/// A run whose host gives the null value to each call of no function, delivered as the language does, is the
/// definition's run: with the same output, fate, steps and peak in each room and with each allowance.
pub fn null_answers_change_nothing()
    ensures { NullAnswersChangeNothing }
{}
