//! What you can see of a run, step by step: places in the input, open calls and their arguments, the value
//! of a call that was performed, and the forms that it changed. The tracer and its warnings are made from
//! these. All of it is this processor's own choice.
#![tactic(auto)]

mod before;
mod byte_search;
mod call;
mod change;
mod place;
mod source;

pub use before::{Before, depth_follows};
pub use byte_search::{LineEnd, Mark, NumberSign, Sought, count_before};
pub use call::{Named, argument, arguments_of, from_argument, function_of};
pub use change::{find_form, is_same, pointer_of, takes_part, touched_by};
pub use place::{Place, Reading};
pub use source::{TakenPart, ValueSource, values_come_from};
