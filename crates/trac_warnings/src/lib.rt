//! What is suspicious in a run: names that are no function, forms that aren't defined, parentheses
//! that open or end no call, strings that end too soon, texts of `ss` in the names of calls. All of
//! it is this processor's own choice; none of it is a fault of the language.
#![tactic(auto)]

mod arguments;
mod blanks;
mod bodies;
mod causes;
mod findings;
mod gaps;
mod inside;
mod letters;
mod misspelled;
mod names;
mod operands;
mod origin;
mod performed;
mod printed;
mod segmented;
mod spelling;
mod strings;
mod trail;
mod warning;
mod watch;
mod written;

pub use causes::Causes;
pub use findings::Findings;
pub use misspelled::look_at_names;
pub use origin::Origin;
pub use warning::{Suspicion, Warning};
pub use watch::Watch;
pub use written::look_at_script;
