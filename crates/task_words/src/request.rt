//! What the words of a command request.

use crate::format::Format;
use crate::task::Task;

/// What the words of a command request: a task, and the form of its report.
#[derive(Drop)]
pub struct Request {
    /// The task.
    pub task: Task,
    /// The form of the report.
    pub format: Format,
}
