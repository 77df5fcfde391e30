//! What can be seen of a run, as lines of text: steps, calls, changes of forms, and the end with what stands
//! in the block then. The form of these lines is this processor's own choice. If a function that adds to a
//! list fails, what the list then holds is unspecified.
#![tactic(auto)]

mod calls;
mod deleted;
mod escapes;
mod events;
mod faults;
mod forms;
mod largest;
mod lines;
mod printed;
mod views;

pub use calls::{Called, Oddity};
pub use deleted::push_deleted;
pub use escapes::push_text;
pub use events::{Event, push_event};
pub use faults::{is_fault, push_fault, push_place};
pub use forms::{push_form, push_forms};
pub use lines::{Step, head, push, push_byte, push_end, push_folded, push_number};
pub use printed::Printed;
pub use views::{MOST_LAST, MOST_WIDTH, Views};
