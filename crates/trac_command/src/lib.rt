//! The command of the programs: the options `--cells N` and `--steps N` and the flag `--report`, the settings that the
//! words give, the lines that go to standard error when they give none and after a run, and the exit statuses. All of
//! it is this processor's own choice.
#![tactic(auto)]

mod lines;
mod refusals;
mod settings;
mod words;

pub use lines::{Line, fate_status, fault_line, memory_line, report_line, status, write_line};
pub use refusals::{error_status, refused, refused_words};
pub use settings::{MOST_CELLS, MOST_STEPS, Settings};
pub use words::{number, numbers_command, settings_from};
