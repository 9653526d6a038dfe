//! The windows of a program, with the channels that it computes for them.
ghost use Rattle.table_fill.specs.ProgramTables.{table_of};

use crate::table_has_the_channels_of_windows;
use channel_tables::Windows;
use lang_check::Plan;
use node_program::MAX_REGISTERS;
use round_eval::{channel, width_of, window_state};
use win_index::Shape;

/// The windows of a plan's program. Their channels are computed when they are asked for, by rounds on
/// the window.
#[derive(Clone, Copy)]
pub struct ProgramWindows<'a> {
    pub plan: &'a Plan,
}

impl<'a> Windows for ProgramWindows<'a> {
    ghost table = { λ windows. table_of windows.plan.now.program windows.plan.now.ids };

    #[tactic(auto, unfolding(crate::specs::ProgramTables::table_of))]
    fn shape(&self) -> Shape {
        self.plan.shape()
    }

    #[tactic(auto, unfolding(crate::specs::ProgramTables::table_of))]
    fn channel_of_window(&self, window: &[u32]) -> u32 {
        table_has_the_channels_of_windows();
        let mut cells = [0; MAX_REGISTERS as usize];
        let state = &mut cells[..width_of(self.plan)];
        window_state(self.plan, window, state);
        channel(self.plan, state)
    }
}
