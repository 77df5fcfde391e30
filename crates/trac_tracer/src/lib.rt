//! A run that is shown step by step, by the views that are asked for: the steps themselves, the calls that
//! were performed with what is odd about them, or the forms that changed; of all steps or of the last ones.
//! What is shown is this processor's own choice.
#![tactic(auto)]

mod last;
mod oddities;
mod options;
mod record;
mod shown;
mod tracing;

pub use options::Options;
pub use shown::{Progress, Shown};
pub use tracing::{TraceError, Traced, trace, trace_last, write};
