//! Runs that are watched from start to end, and the lines on what is suspicious in them. The form of these lines is
//! this processor's own choice. If a function that adds lines fails, what the list then holds is unspecified.
#![tactic(auto)]

mod lines;
mod null_sink;
mod run;
mod written;

pub use lines::push_warning;
pub use null_sink::NullSink;
pub use run::{WatchedRun, watched};
