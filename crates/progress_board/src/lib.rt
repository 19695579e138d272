//! What a call tells on standard error of what its workers are at.
//!
//! A board has a row for each exchange, which is said once it lasts, and one for each container that is waited for. What a row or a
//! line says is proved; which rows stand on a board is what its callers told it, and no contract speaks of it. Where memory is wanted
//! for a row, nothing is said of it.
#![tactic(auto)]

mod board;
mod cleared_sink;
mod lines;
mod progress;
mod row;
mod shared_board;
mod subject;
mod words;

pub use board::Board;
pub use cleared_sink::ClearedSink;
pub use lines::{begun_line, cut_line, ended_line};
pub use progress::{Progress, progress_of};
pub use shared_board::{SharedBoard, another, board_for, clear, tell_begin, tell_end, tell_late};
pub use subject::Subject;
pub use words::said_words;
