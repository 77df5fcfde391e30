//! The machine: the scanner, the calls that read and print, steps and runs. All that stands below
//! it and that a caller needs has its name here too.
#![tactic(auto)]

mod call;
mod delivery;
mod display;
mod idling;
mod input_output;
mod long_runs;
mod machine;
mod outcome;
mod performer;
mod read_in_place;
mod rules;
mod runs;
mod scan;
mod streaming;

pub use display::{display_len, show_form};
pub use machine::{Awaits, CallMark, Delivery, Machine, Progress, Refused};
pub use rules::ScanningRule;
pub use runs::is_layout;
pub use trac_devices::{
    BufferedReader, BufferedWriter, Characters, Input, Next, Output, ReadSource, RetryingReader,
    RetryingWriter, Sink, SinkFailed, SliceSink, SliceSource, Source, TRIES, WriteSink,
    write_characters,
};
pub use trac_forms::{Body, Forms, StoredForm, TextBody, Work};
pub use trac_language::{Fate, Function, Item, Report};
pub use trac_laws as laws;
pub use trac_space::{Cell, Neutral};
pub use trac_values as values;
