//! What the language is: what a reader must believe, and nothing else.
//!
//! The definition stands in `specs/`: texts, forms, the state of the processor, the rules of
//! scanning, what each function means, a step, and a run. Here are only the few types that it
//! speaks of, and the table of functions. The language is that of Mooers, "TRAC, A
//! Procedure-Describing Language for the Reactive Typewriter", CACM 9(3), 1966, and "Definition
//! and Standard for TRAC T-64 Language", 1972.
#![tactic(auto)]

mod arith;
mod fate;
mod function;
mod item;
mod mode;
mod report;
mod table;

pub use arith::Arith;
pub use fate::Fate;
pub use function::Function;
pub use item::Item;
pub use mode::Mode;
pub use report::Report;
pub use table::{
    Concerned, Facts, Given, Group, Traits, facts_of, function_at, function_count, function_named,
    traits_of,
};
