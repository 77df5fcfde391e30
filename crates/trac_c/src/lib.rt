//! The engine for C. Each export is called by the function of `hosts/c/trac.h` whose name lacks
//! `engine_`, which tests the pointers: nothing here can. `trac_engine_value_source` alone has no such
//! function, and only the package for JavaScript calls it. The exports and their numbers are this
//! processor's own choice.
#![tactic(auto)]

mod changing;
mod check;
mod devices;
mod filling;
mod forms;
mod functions;
mod hosting;
mod images;
mod kept;
mod printed;
mod report;
mod run;
mod source;
mod stepping;
mod strings;
mod trace;
mod turn;
mod view;
mod zeroed;

pub use changing::{
    trac_engine_define, trac_engine_define_text, trac_engine_delete, trac_engine_delete_all,
    trac_engine_find_form, trac_engine_set_meta,
};
pub use check::trac_engine_check;
pub use functions::{
    trac_engine_function_count, trac_engine_function_fact, trac_engine_function_text,
};
pub use hosting::{trac_engine_answer, trac_engine_stop_at_unknown};
pub use images::{trac_engine_load, trac_engine_save};
pub use kept::{
    trac_engine_again, trac_engine_cell_size, trac_engine_machine_size, trac_engine_open,
    trac_engine_take_peak, trac_engine_turn, trac_engine_turn_to_form,
};
pub use printed::trac_engine_skip_print;
pub use report::TracReport;
pub use run::trac_engine_run;
pub use trace::{TracTrace, trac_engine_trace_step};
pub use view::{
    trac_engine_active_part, trac_engine_argument, trac_engine_argument_count, trac_engine_awaits,
    trac_engine_calls, trac_engine_drops, trac_engine_form_codes, trac_engine_form_count,
    trac_engine_form_name, trac_engine_form_pointer, trac_engine_form_text, trac_engine_meta,
    trac_engine_neutral_part, trac_engine_part, trac_engine_printed, trac_engine_rule,
    trac_engine_steps_to_call, trac_engine_takes, trac_engine_value_source,
};
pub use zeroed::{trac_engine_check_zeroed, trac_engine_open_zeroed, trac_engine_run_zeroed};
