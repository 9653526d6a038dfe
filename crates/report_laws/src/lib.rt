//! The laws of reports. The program does not stand on them: they say what its reports tell of each
//! other and of synchronous rounds.
#![tactic(auto)]

mod laws;

pub use laws::{
    audited_channels_are_apart, each_task_has_a_report, one_note, one_report, prints_are_read_back,
    problems_need_rounds, programs_need_channels, programs_need_four, programs_need_three,
    refuted_is_impossible, reports_tell_rounds, table_reports_are_read_back,
};
