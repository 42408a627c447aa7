//! The engine: a pattern on a board, which advances by leaps of up to four generations.
//!
//! ```text
//! board ── active boxes ──> cover ── windows ──> leap ──> board, four generations later, with its next active boxes
//! ```

pub(crate) mod active_boxes;
/// A pattern on a board.
pub mod board;
pub(crate) mod cover;
pub(crate) mod difference_box;
pub(crate) mod direction;
pub(crate) mod first_boxes;
pub(crate) mod frame;
pub(crate) mod leap;
pub(crate) mod leap_window;
pub(crate) mod listing;
pub(crate) mod loading;
pub(crate) mod lone_window;
pub(crate) mod row_spans;
pub(crate) mod window_difference;
pub(crate) mod window_io;
